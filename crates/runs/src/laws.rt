//! Laws of every run. Each is a function that does nothing: its contract is the law.
//!
//! A run is any list of events over a cluster of any size, whose nodes begin as `first` says, each with its own
//! number. A message that was sent arrives never, once or often, and at any time; nothing else arrives. A node that
//! crashes takes no further input.
ghost use Rattle.std.specs.Prelude.{◌≡◌, ℕ, List, ◌++◌, Some};
ghost use Rattle.ballot.specs.Lists.{IsIn};
ghost use Rattle.ballot.specs.declared.message.Message.TheVariants.{Decision};
ghost use Rattle.maildrop.specs.CommandId.{CommandId};
ghost use Rattle.maildrop.specs.declared.command.Command.{Command};
ghost use Rattle.maildrop.specs.declared.outcome.Outcome.{Outcome};
ghost use Rattle.node.specs.Nodes.{answered};
ghost use Rattle.node.specs.Replay.{replayed};
ghost use Rattle.node.specs.declared.log.NodeLog.{NodeLog};
ghost use Rattle.node.specs.declared.log.Opening.{Opening};
ghost use Rattle.session.specs.Prefix.{IsPrefix};
ghost use Rattle.runs.specs.Messages.{NodeEvent, log_of, network_of, envelopes, WasSubmitted};
ghost use Rattle.node.specs.Outcomes.{IsOutcomeOf};
ghost use Rattle.runs.specs.Runs.{IsChosenIn, order_of};

use std::alloc::Allocator;

/// At most one command is chosen in a slot, and what is chosen stays chosen, whatever happens.
pub fn agreement<A: Allocator>()
    ensures one { (first : Opening A) (events : List (NodeEvent A)) (slot : ℕ) (c d : Command A) →
        IsChosenIn first events slot c → IsChosenIn first events slot d → c ≡ d }
    ensures stays { (first : Opening A) (early late : List (NodeEvent A)) (slot : ℕ) (c : Command A) →
        IsChosenIn first early slot c → IsChosenIn first (early ++ late) slot c }
{}

/// Each Decision that is sent carries a command that is chosen in its slot, and what a node has performed is a prefix of
/// the decided order.
pub fn learning<A: Allocator>()
    ensures told { (first : Opening A) (events : List (NodeEvent A)) (from to slot : ℕ) (c : Command A) →
        IsIn (record { from = from; to = to; message = Decision slot c }) (envelopes (network_of first events))
        → IsChosenIn first events slot c }
    ensures performed { (first : Opening A) (events : List (NodeEvent A)) (node : ℕ) (log : NodeLog A) →
        log_of node (network_of first events).logs ≡ Some log
        → IsPrefix (replayed log).replica.performed (order_of first events) }
{}

/// Each command of the decided order is chosen, and each command that is chosen was submitted: at the node of its ticket,
/// as this operation for this user, and that node gave it its ticket.
pub fn validity<A: Allocator>()
    ensures ordered { (first : Opening A) (events : List (NodeEvent A)) (slot : ℕ) (c : Command A) →
        IsIn (slot, c) (order_of first events) → IsChosenIn first events slot c }
    ensures chosen { (first : Opening A) (events : List (NodeEvent A)) (slot : ℕ) (c : Command A) →
        IsChosenIn first events slot c → WasSubmitted (network_of first events).logs c }
{}

/// The decided order only grows.
pub fn the_decided_order_grows<A: Allocator>()
    ensures { (first : Opening A) (early late : List (NodeEvent A)) →
        IsPrefix (order_of first early) (order_of first (early ++ late)) }
{}

/// Each answer that a node has got for a command is that of its user's maildrop alone, after the user's own commands that
/// stand before it in the decided order.
pub fn answers_are_of_own_commands<A: Allocator>()
    ensures { (first : Opening A) (events : List (NodeEvent A)) (node : ℕ) (log : NodeLog A) (id : CommandId) (answer : Outcome A) →
        log_of node (network_of first events).logs ≡ Some log → answered log id ≡ Some answer
        → IsOutcomeOf first (order_of first events) id answer }
{}
