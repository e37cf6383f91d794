//! The operations that are given to nodes from outside of sessions, and their outcomes.
ghost use Rattle.std.specs.Prelude.{◌≡◌, ◌==◌, ◌++◌, [], ◌∷◌, ℕ, true, false, Some, None, is_some, OnOk, OnErr, if◌then◌else◌};
ghost use Rattle.std.specs.Map.{lookup};
ghost use Rattle.std.specs.Ordering.{is_eq};
ghost use Rattle.maildrop.specs.CommandId.{CommandId, compare_ids, same_id};
ghost use Rattle.node.specs.Replay.{next_ticket};
ghost use Rattle.node.specs.declared.input.Input.TheVariants.{Submit, Crash};
ghost use Rattle.node.specs.declared.log.NodeLog.{NodeLog};
ghost use Rattle.world.specs.Hosts.{network_of, HasAnswerAt, crashes_of};
ghost use Rattle.runs.specs.Messages.{is_up, log_of, given_input};
ghost use Rattle.runs.specs.Services.{next_id};
ghost use Rattle.runs.specs.Worlds.{answer_at, unless_taken, with_taken};

use crate::hosts::Hosts;
use ballot::{Memory, NodeId};
use indexmap::IndexMap;
use maildrop::{CommandId, Name, Op, Outcome};
use std::alloc::Allocator;
use std::hash::{BuildHasherDefault, FoldHasher};

/// The commands of Mails and Breaks, in the order in which they were given, each with whether its outcome was taken.
pub(crate) type Operations<A> = IndexMap<CommandId, bool, BuildHasherDefault<FoldHasher>, A>;

/// Gives a node an operation, if it is up; else nothing happens. Room for its command is taken before. After `Memory` the
/// node has crashed.
pub(crate) fn submit<A: Allocator + Copy>(
    hosts: &mut Hosts<A>,
    operations: &mut Operations<A>,
    node: NodeId,
    user: Name,
    op: Op<A>,
) -> Result<(), Memory>
    requires new { (log : NodeLog A) → log_of node (network_of hosts.old).logs ≡ Some log → lookup (same_id (next_id log user)) operations.old.entries ≡ None }
    ensures ok { OnOk result (network_of hosts.new ≡ given_input (network_of hosts.old) node (Submit user op)) }
    ensures operations { (log : NodeLog A) → log_of node (network_of hosts.old).logs ≡ Some log → is_up (Some log) ≡ true
        → OnOk result (operations.new.entries ≡ operations.old.entries ++ (next_id log user, false) ∷ []) }
    ensures err { OnErr result (network_of hosts.new ≡ given_input (network_of hosts.old) node Crash) }
    ensures unchanged { OnErr result (operations.new.entries ≡ operations.old.entries) }
    ensures answers { (n : ℕ) (id : CommandId) → HasAnswerAt n id hosts.old → HasAnswerAt n id hosts.new }
    ensures crashed { crashes_of hosts.new ≡ crashes_of hosts.old }
{
    if operations.reserve(1).is_err() {
        hosts.cut(node);
        return Err(Memory);
    }
    match hosts.submit(node, user, op) {
        Ok(Some(ticket)) => {
            let _ = operations.insert(CommandId::new(user, ticket), false)?;
            Ok(())
        }
        Ok(None) => Ok(()),
        Err(error) => Err(error),
    }
}

/// The outcome of an operation that this node was given, if it is there and the node is up. It is given once. Takes no
/// memory.
pub(crate) fn take_outcome<A: Allocator + Copy>(
    hosts: &mut Hosts<A>,
    operations: &mut Operations<A>,
    node: NodeId,
    id: CommandId,
) -> Option<Outcome<A>>
    requires untaken { lookup (same_id id) operations.old.entries ≡ Some false → HasAnswerAt node id hosts.old }
    ensures outcome { result ≡ (if node == id.ticket.node then unless_taken (lookup (same_id id) operations.old.entries) (answer_at (log_of node (network_of hosts.old).logs) id) else None) }
    ensures network { network_of hosts.new ≡ network_of hosts.old }
    ensures operations { operations.new.entries ≡ (if is_some result then with_taken id operations.old.entries else operations.old.entries) }
    ensures others { (n : ℕ) (other : CommandId) → is_eq (compare_ids id other) ≡ false → HasAnswerAt n other hosts.old → HasAnswerAt n other hosts.new }
    ensures crashed { crashes_of hosts.new ≡ crashes_of hosts.old }
    ensures none { result ≡ None → hosts.new ≡ hosts.old }
{
    let (_, ticket) = id.get();
    let (giver, _) = ticket.get();
    if giver != node {
        return None;
    }
    let Some(taken) = operations.get_mut(&id) else {
        return None;
    };
    if *taken || !hosts.has_answer(node, id) {
        return None;
    }
    *taken = true;
    hosts.take_answer(node, id)
}
