//! What events do.
ghost use Rattle.std.specs.Prelude.{◌≡◌, ◌++◌, ℕ, List, Some, None, OnOk, OnErr};
ghost use Rattle.std.specs.Map.{lookup};
ghost use Rattle.world.specs.Connections.{service_of, AreFit, AreUntaken};
ghost use Rattle.world.specs.Hosts.{network_of, HasAnswerAt, crashes_of, crashes_after};
ghost use Rattle.runs.specs.Interrupted.{IsInterrupted};
ghost use Rattle.runs.specs.Events.{session_of};
ghost use Rattle.world.specs.Kept.{collected_by, crashes_by};
ghost use Rattle.runs.specs.Refusals.{refusal_of};
ghost use Rattle.runs.specs.Services.{occurs, next_id};
ghost use Rattle.runs.specs.Messages.{log_of, given_input};
ghost use Rattle.world.specs.Waiting.{KeepsOthersOf};
ghost use Rattle.runs.specs.Worlds.{operation_of};
ghost use Rattle.node.specs.declared.log.NodeLog.{NodeLog};
ghost use Rattle.node.specs.declared.input.Input.TheVariants.{Crash};
ghost use Rattle.maildrop.specs.CommandId.{CommandId, same_id};

use crate::hosts::Hosts;
use crate::operations::{Operations, submit};
use crate::sessions::Sessions;
use ballot::{Memory, NodeId};
use maildrop::Op;
use node::Input;
use runs::{Config, Event};
use std::alloc::Allocator;

/// An event that can happen does. After `Memory` the node or the session that found none is down.
pub(crate) fn act<A: Allocator + Copy>(
    alloc: A,
    config: &Config<A>,
    hosts: &mut Hosts<A>,
    connections: &mut Sessions<A>,
    operations: &mut Operations<A>,
    event: Event<A>,
) -> Result<(), Memory>
    requires fit { AreFit connections.old.entries }
    requires untaken { AreUntaken hosts.old connections.old.entries }
    requires new { (node : ℕ) (user : List ℕ) (log : NodeLog A) → log_of node (network_of hosts.old).logs ≡ Some log → lookup (same_id (next_id log user)) operations.old.entries ≡ None }
    ensures service { OnOk result (service_of hosts.new connections.new.entries ≡ occurs config.now (service_of hosts.old connections.old.entries) event) }
    ensures err { OnErr result (IsInterrupted config.now event (service_of hosts.old connections.old.entries) (service_of hosts.new connections.new.entries)) }
    ensures fit { AreFit connections.new.entries }
    ensures sessions { KeepsOthersOf (session_of event) connections.old.entries connections.new.entries }
    ensures waiting { connections.new.waiting ≡ connections.old.waiting }
    ensures operations { refusal_of (service_of hosts.old connections.old.entries) event ≡ None
        → OnOk result (operations.new.entries ≡ operations.old.entries ++ operation_of (service_of hosts.old connections.old.entries) event) }
    ensures unchanged { OnErr result (operations.new.entries ≡ operations.old.entries) }
    ensures answers { (n : ℕ) (id : CommandId) → (collected_by connections.old.entries event ≡ Some id → ⊥) → HasAnswerAt n id hosts.old → HasAnswerAt n id hosts.new }
    ensures crashed { OnOk result (crashes_of hosts.new ≡ crashes_by event hosts.old) }
    ensures uncrashed { OnErr result (crashes_of hosts.new ≡ crashes_of hosts.old) }
{
    match event {
        Event::Connect {
            session,
            node,
            stamp,
        } => connections.connect(alloc, hosts, session, node, stamp),
        Event::Line { session, line } => connections.send_line(
            hosts,
            &config.accounts,
            session,
            line,
        ),
        Event::Hangup { session } => connections.hang_up(hosts, session),
        Event::Collect { session } => connections.collect_answer(hosts, session),
        Event::Mail {
            node,
            user,
            text,
            key,
        } => submit(hosts, operations, node, user, Op::Mail { text, key }),
        Event::Break { node, user } => submit(hosts, operations, node, user, Op::Break),
        Event::Arrive(which) => hosts.arrive(which),
        Event::Tick(node) => give(hosts, node, Input::Tick),
        Event::Campaign(node) => give(hosts, node, Input::Campaign),
        Event::Crash(node) => give(hosts, node, Input::Crash),
    }
}

/// Gives a node an input.
fn give<A: Allocator + Copy>(
    hosts: &mut Hosts<A>,
    node: NodeId,
    input: Input<A>,
) -> Result<(), Memory>
    ensures ok { OnOk result (network_of hosts.new ≡ given_input (network_of hosts.old) node input) }
    ensures err { OnErr result (network_of hosts.new ≡ given_input (network_of hosts.old) node Crash) }
    ensures answers { (n : ℕ) (id : CommandId) → HasAnswerAt n id hosts.old → HasAnswerAt n id hosts.new }
    ensures crashed { OnOk result (crashes_of hosts.new ≡ crashes_after input node hosts.old) }
    ensures uncrashed { OnErr result (crashes_of hosts.new ≡ crashes_of hosts.old) }
{
    match hosts.take(node, input) {
        Ok(_) => Ok(()),
        Err(error) => Err(error),
    }
}
