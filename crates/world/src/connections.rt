//! The sessions of a service, and what events do to them.
ghost use Rattle.std.specs.Prelude.{◌≡◌, ◌==◌, ℕ, false, Some, OnOk, OnErr};
ghost use Rattle.indexmap.specs.IndexMap.{insert_entry};
ghost use Rattle.std.specs.Ordering.{is_eq};
ghost use Rattle.maildrop.specs.CommandId.{CommandId, compare_ids};
ghost use Rattle.runs.specs.Clients.{new_client};
ghost use Rattle.world.specs.Connections.{service_of, client_in, IsFit, AreFit, AreUntaken, connection_of, awaited_by};
ghost use Rattle.world.specs.Hosts.{HasAnswerAt, crashes_of};
ghost use Rattle.runs.specs.Interrupted.{IsInterrupted};
ghost use Rattle.runs.specs.Services.{occurs};
ghost use Rattle.world.specs.Waiting.{KeepsOthers};
ghost use Rattle.runs.specs.declared.config.Config.{Config};
ghost use Rattle.world.specs.declared.connection.Connection.{Connection};
ghost use Rattle.runs.specs.declared.event.Event.TheVariants as event;

use crate::connection::Connection;
use crate::hosts::Hosts;
use apop::{Accounts, Stamp};
use ballot::{Memory, NodeId};
use indexmap::IndexMap;
use pop3_wire::Line;
use runs::SessionId;
use std::alloc::Allocator;
use std::hash::{BuildHasherDefault, FoldHasher};

/// The connections by the numbers of their sessions, in the order in which they connected. A session is found by a hash of
/// its number, so an event costs the same however many sessions there are.
pub(crate) type Connections<A> = IndexMap<
    SessionId,
    Connection<A>,
    BuildHasherDefault<FoldHasher>,
    A,
>;

/// A client connects, if its node is up and its session is new; else nothing happens. After `Memory` nothing has happened.
pub(crate) fn connect<A: Allocator + Copy>(
    alloc: A,
    connections: &mut Connections<A>,
    hosts: &Hosts<A>,
    session: SessionId,
    node: NodeId,
    stamp: Stamp,
) -> Result<(), Memory>
    requires fit { AreFit connections.old.entries }
    ensures ok { (cfg : Config A) → OnOk result (service_of hosts.now connections.new.entries ≡ occurs cfg (service_of hosts.now connections.old.entries) (event.Connect session node stamp)) }
    ensures err { OnErr result (connections.new.entries ≡ connections.old.entries) }
    ensures fit { AreFit connections.new.entries }
    ensures sessions { KeepsOthers session connections.old.entries connections.new.entries }
{
    if !hosts.is_up(node) {
        return Ok(());
    }
    match connections.get(&session) {
        Some(_) => Ok(()),
        None => greet(alloc, connections, session, node, stamp),
    }
}

/// Adds a client that is greeted by its node. After `Memory` nothing has happened.
fn greet<A: Allocator + Copy>(
    alloc: A,
    connections: &mut Connections<A>,
    session: SessionId,
    node: NodeId,
    stamp: Stamp,
) -> Result<(), Memory>
    ensures ok { OnOk result ((c : Connection A) × (client_in c ≡ new_client node stamp) × IsFit c
        × (connections.new.entries ≡ insert_entry (λ s t. s == t) connections.old.entries session c)) }
    ensures err { OnErr result (connections.new.entries ≡ connections.old.entries) }
{
    match Connection::new(alloc, node, stamp) {
        Ok(connection) => {
            let _ = connections.insert(session, connection)?;
            Ok(())
        }
        Err(error) => Err(error),
    }
}

/// A client sends a line, if its session takes one and its node is up; else nothing happens.
pub(crate) fn send_line<A: Allocator + Copy>(
    connections: &mut Connections<A>,
    hosts: &mut Hosts<A>,
    accounts: &Accounts<A>,
    session: SessionId,
    line: Line,
) -> Result<(), Memory>
    requires fit { AreFit connections.old.entries }
    ensures ok { (cfg : Config A) → cfg.accounts ≡ accounts.now
        → OnOk result (service_of hosts.new connections.new.entries ≡ occurs cfg (service_of hosts.old connections.old.entries) (event.Line session line)) }
    ensures err { (cfg : Config A) → OnErr result (IsInterrupted cfg (event.Line session line) (service_of hosts.old connections.old.entries) (service_of hosts.new connections.new.entries)) }
    ensures fit { AreFit connections.new.entries }
    ensures answers { (n : ℕ) (id : CommandId) → HasAnswerAt n id hosts.old → HasAnswerAt n id hosts.new }
    ensures crashed { crashes_of hosts.new ≡ crashes_of hosts.old }
    ensures sessions { KeepsOthers session connections.old.entries connections.new.entries }
{
    match connections.get_mut(&session) {
        Some(connection) => connection.hear(hosts, accounts, line),
        None => Ok(()),
    }
}

/// A session takes the answer that it awaits, if that is there and its node is up; else nothing happens.
pub(crate) fn collect_answer<A: Allocator + Copy>(
    connections: &mut Connections<A>,
    hosts: &mut Hosts<A>,
    session: SessionId,
) -> Result<(), Memory>
    requires fit { AreFit connections.old.entries }
    requires untaken { AreUntaken hosts.old connections.old.entries }
    ensures ok { (cfg : Config A) → OnOk result (service_of hosts.new connections.new.entries ≡ occurs cfg (service_of hosts.old connections.old.entries) (event.Collect session)) }
    ensures err { (cfg : Config A) → OnErr result (IsInterrupted cfg (event.Collect session) (service_of hosts.old connections.old.entries) (service_of hosts.new connections.new.entries)) }
    ensures fit { AreFit connections.new.entries }
    ensures others { (n : ℕ) (other : CommandId)
        → ((c : Connection A) (id : CommandId) → connection_of session connections.old.entries ≡ Some c → awaited_by c.standing ≡ Some id → is_eq (compare_ids id other) ≡ false)
        → HasAnswerAt n other hosts.old → HasAnswerAt n other hosts.new }
    ensures crashed { crashes_of hosts.new ≡ crashes_of hosts.old }
    ensures sessions { KeepsOthers session connections.old.entries connections.new.entries }
{
    match connections.get_mut(&session) {
        Some(connection) => connection.collect(hosts),
        None => Ok(()),
    }
}

/// A client is gone: its session ends, if it awaits no answer and its node is up; else nothing happens.
pub(crate) fn hang_up<A: Allocator + Copy>(
    connections: &mut Connections<A>,
    hosts: &mut Hosts<A>,
    session: SessionId,
) -> Result<(), Memory>
    requires fit { AreFit connections.old.entries }
    ensures ok { (cfg : Config A) → OnOk result (service_of hosts.new connections.new.entries ≡ occurs cfg (service_of hosts.old connections.old.entries) (event.Hangup session)) }
    ensures err { (cfg : Config A) → OnErr result (IsInterrupted cfg (event.Hangup session) (service_of hosts.old connections.old.entries) (service_of hosts.new connections.new.entries)) }
    ensures fit { AreFit connections.new.entries }
    ensures answers { (n : ℕ) (id : CommandId) → HasAnswerAt n id hosts.old → HasAnswerAt n id hosts.new }
    ensures crashed { crashes_of hosts.new ≡ crashes_of hosts.old }
    ensures sessions { KeepsOthers session connections.old.entries connections.new.entries }
{
    match connections.get_mut(&session) {
        Some(connection) => connection.hang_up(hosts),
        None => Ok(()),
    }
}
