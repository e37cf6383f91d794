//! The tickets that the node of a log gives.
ghost use Rattle.std.specs.Prelude.{◌≡◌, ◌+◌, ◌<◌, ◌++◌, ◌∷◌, [], ℕ, suc, length, List, Some, None, slice_get, OnOk, IfOk, if◌then◌else◌};
ghost use Rattle.std.specs.Str.{bytes_eq};
ghost use Rattle.node.specs.Nodes.{AreGiven};
ghost use Rattle.node.specs.Replay.{counts};
ghost use Rattle.node.specs.Tickets.{tickets_of};
ghost use Rattle.std.specs.Prelude.{take};
ghost use Rattle.audit.specs.Numbers.{AreNumbered};

use ballot::{Memory, NodeId};
use indexmap::IndexMap;
use maildrop::{CommandId, Name, Ticket};
use node::{Input, NodeLog};
use std::alloc::{Allocator, Global};
use std::hash::{BuildHasherDefault, FoldHasher};

/// How many tickets each user has got.
type Given<A> = IndexMap<Name, u64, BuildHasherDefault<FoldHasher>, A>;

/// The tickets of a log's inputs, each at its input's place, and the places of commands.
#[derive(Drop)]
pub(crate) struct Numbers<A: Allocator + Copy = Global> {
    pub(crate) tickets: Vec<Option<Ticket>, A>,
    pub(crate) places: IndexMap<CommandId, usize, BuildHasherDefault<FoldHasher>, A>,
}

/// Gives the user's next ticket.
fn next_ticket<A: Allocator + Copy>(
    me: NodeId,
    given: &mut Given<A>,
    user: Name,
) -> Result<Ticket, Memory>
    ensures ticket { IfOk result (λ ticket. ticket ≡ record { node = me; seq = 1 + tickets_of user given.old.entries }) }
    ensures given { OnOk result ((name : List ℕ) → tickets_of name given.new.entries ≡ (if bytes_eq user name then 1 else 0) + tickets_of name given.old.entries) }
{
    let last = given.get(&user).copied().unwrap_or(0);
    let next = last.checked_add(1).and_then(|seq| Ticket::new(me, seq));
    match next {
        None => Err(Memory),
        Some(ticket) => {
            given.insert(user, last + 1)?;
            Ok(ticket)
        }
    }
}

/// Gives an input its ticket, if it gets one.
fn number<A: Allocator + Copy>(
    log: &NodeLog<A>,
    given: &mut Given<A>,
    numbers: &mut Numbers<A>,
    place: usize,
    input: &Input<A>,
) -> Result<(), Memory>
    requires at { slice_get log.now.inputs place ≡ Some input.now }
    requires given { AreGiven (take place log.now.inputs) given.old.entries }
    requires numbered { AreNumbered log.now place numbers.old.tickets.items numbers.old.places.entries }
    ensures given { OnOk result (AreGiven (take (suc place) log.now.inputs) given.new.entries) }
    ensures numbered { OnOk result (AreNumbered log.now (suc place) numbers.new.tickets.items numbers.new.places.entries) }
{
    let Input::Submit(user, _) = input else {
        numbers.tickets.push(None)?;
        return Ok(());
    };
    let ticket = next_ticket(log.opening.me, given, *user)?;
    let _ = numbers.places.insert(CommandId::new(*user, ticket), place)?;
    numbers.tickets.push(Some(ticket))?;
    Ok(())
}

/// The tickets of all inputs of a log.
pub(crate) fn numbers_of<A: Allocator + Copy>(
    alloc: A,
    log: &NodeLog<A>,
) -> Result<Numbers<A>, Memory>
    ensures { IfOk result (λ numbers. AreNumbered log.now (length log.now.inputs) numbers.tickets.items numbers.places.entries) }
{
    let mut given = IndexMap::new(alloc);
    let mut numbers = Numbers {
        tickets: Vec::with_capacity(alloc, log.inputs.len())?,
        places: IndexMap::new(alloc),
    };
    for (place, input) in log.inputs.get().iter().enumerate() {
        number(log, &mut given, &mut numbers, place, input)?;
    }
    Ok(numbers)
}
