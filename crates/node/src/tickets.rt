//! The tickets that users get of a node.
ghost use Rattle.std.specs.Prelude.{◌≡◌, true, false, ℕ, ◌+◌, List, IsSome, IfSome, ◌↔◌, OnOk, OnErr, if◌then◌else◌};
ghost use Rattle.std.specs.Str.{bytes_eq};
ghost use Rattle.node.specs.Tickets.{tickets_of, has_all_tickets, ticket_at};

use ballot::{Memory, NodeId};
use indexmap::IndexMap;
use maildrop::{Name, Ticket};
use std::alloc::Allocator;
use std::hash::{BuildHasherDefault, FoldHasher};

/// How many tickets each user has got, by the user's name. A user who has got none isn't in it.
pub(crate) type Given<A> = IndexMap<Name, u64, BuildHasherDefault<FoldHasher>, A>;

/// How many tickets the user has got.
fn count_of<A: Allocator + Copy>(given: &Given<A>, user: Name) -> u64
    ensures { result ≡ tickets_of user given.now.entries }
{
    given.get(&user).copied().unwrap_or(0)
}

/// The ticket that the user got last, if the user has got one.
pub(crate) fn last_ticket<A: Allocator + Copy>(
    me: NodeId,
    given: &Given<A>,
    user: Name,
) -> Option<Ticket>
    ensures { result ≡ ticket_at me (tickets_of user given.now.entries) }
{
    Ticket::new(me, count_of(given, user))
}

/// The user's next ticket, unless the user has got the last one.
pub(crate) fn next_ticket<A: Allocator + Copy>(
    me: NodeId,
    given: &Given<A>,
    user: Name,
) -> Option<Ticket>
    ensures left { IsSome result ↔ (has_all_tickets (tickets_of user given.now.entries) ≡ false) }
    ensures ticket { IfSome result (λ ticket. ticket ≡ record { node = me; seq = 1 + tickets_of user given.now.entries }) }
{
    let number = count_of(given, user).checked_add(1)?;
    Ticket::new(me, number)
}

/// The user has got one ticket more. After `Memory` they are as they were.
pub(crate) fn give<A: Allocator + Copy>(given: &mut Given<A>, user: Name) -> Result<(), Memory>
    requires { has_all_tickets (tickets_of user given.old.entries) ≡ false }
    ensures given { OnOk result ((name : List ℕ) → tickets_of name given.new.entries ≡ (if bytes_eq user name then 1 else 0) + tickets_of name given.old.entries) }
    ensures err { OnErr result (given.new.entries ≡ given.old.entries) }
{
    let count = count_of(given, user);
    given.insert(user, count + 1).map_err(|_| Memory)?;
    Ok(())
}
