//! The sessions of a service, with an index of those whose answers may be there.
ghost use Rattle.std.specs.Prelude.{◌≡◌, ◌^◌, ◌<◌, ◌≤◌, ◌↔◌, [], ℕ, Some, false, length, replicate, option_copied, option_map, slice_get, IfNone, IfOk, IfSome, IsSome, OnErr, OnOk};
ghost use Rattle.std.specs.Map.Iter.{deref_pair};
ghost use Rattle.std.specs.Ordering.{is_eq};
ghost use Rattle.maildrop.specs.CommandId.{CommandId, compare_ids};
ghost use Rattle.world.specs.Connections.{service_of, AreFit, AreUntaken, connection_of, awaited_by};
ghost use Rattle.world.specs.Hosts.{HasAnswerAt, crashes_of};
ghost use Rattle.runs.specs.Interrupted.{IsInterrupted};
ghost use Rattle.runs.specs.Services.{occurs};
ghost use Rattle.world.specs.Waiting.{IsBehind, IsHeard, IsUpToDate, KeepsOthers, NoneMay, is_of, nowhere, place_of};
ghost use Rattle.runs.specs.declared.config.Config.{Config};
ghost use Rattle.world.specs.declared.connection.Connection.{Connection};
ghost use Rattle.runs.specs.declared.event.Event.TheVariants as event;

use crate::connection::Connection;
use crate::connections::{Connections, collect_answer, connect, hang_up, send_line};
use crate::hosts::Hosts;
use crate::waiting::Waiting;
use apop::{Accounts, Stamp};
use ballot::{Memory, NodeId};
use indexmap::IndexMap;
use pop3_wire::Line;
use runs::SessionId;
use std::alloc::{Allocator, Global};
use std::marker::Model;

/// The sessions in the order in which they connected, with an index of those whose answers may be there. An event leaves
/// the index as it was; whoever has one happen brings it up to date.
#[derive(Drop)]
pub(crate) struct Sessions<A: Allocator + Copy = Global> {
    connections: Connections<A>,
    waiting: Waiting<A>,
}

impl<A: Allocator + Copy> Model for Sessions<A> {
    ghost use Rattle.world.specs.Waiting.{Sessions};

    ghost Value = { Sessions A };

    ghost view = { λ s. record { entries = s.connections.entries; waiting = s.waiting } };
}

impl<A: Allocator + Copy> Sessions<A> {
    /// None, of a service of so many nodes.
    pub(crate) fn new(alloc: A, nodes: usize) -> Result<Self, Memory>
        ensures empty { IfOk result (λ sessions. sessions.entries ≡ []) }
        ensures heard { IfOk result (λ sessions. sessions.waiting.heard ≡ replicate nodes 0) }
    {
        Ok(Sessions {
            connections: IndexMap::new(alloc),
            waiting: Waiting::new(alloc, nodes)?,
        })
    }

    /// How many there are.
    pub(crate) fn len(&self) -> usize
        ensures len { result ≡ length self.now.entries }
        ensures small { result < 2 ^ 63 }
    {
        self.connections.len()
    }

    /// The session of this number. Found by a hash of it.
    pub(crate) fn get(&self, session: SessionId) -> Option<&Connection<A>>
        ensures value { option_copied result ≡ connection_of session self.now.entries }
    {
        self.connections.get(&session)
    }

    /// The session that connected as this number, counted from 0.
    pub(crate) fn get_index(&self, place: usize) -> Option<(&SessionId, &Connection<A>)>
        ensures entry { option_map deref_pair result ≡ slice_get self.now.entries place }
        ensures found { IsSome result ↔ (place < length self.now.entries) }
        ensures value { IfSome result (λ e. connection_of e.0.now self.now.entries ≡ Some e.1.now) }
    {
        self.connections.get_index(place)
    }

    /// The first place from this one on of a session whose answer may be there.
    pub(crate) fn next_waiting(&self, from: usize) -> Option<usize>
        ensures some { IfSome result (λ place. (from ≤ place) × (place < length self.now.entries) × NoneMay self.now.waiting from place) }
        ensures none { IfNone result (NoneMay self.now.waiting from (length self.now.entries)) }
    {
        let place = self.waiting.next(from)?;
        if place < self.connections.len() {
            Some(place)
        } else {
            None
        }
    }

    /// Brings what the index says of a session up to date.
    fn note(&mut self, hosts: &Hosts<A>, session: SessionId)
        requires untaken { AreUntaken hosts.now self.old.entries }
        requires behind { IsBehind (λ place. place_of session self.old.entries ≡ place) hosts.now self.old.entries self.old.waiting }
        ensures entries { self.new.entries ≡ self.old.entries }
        ensures behind { IsBehind nowhere hosts.now self.new.entries self.new.waiting }
        ensures heard { self.new.waiting.heard ≡ self.old.waiting.heard }
    {
        let Some((place, _, connection)) = self.connections.get_full(&session) else {
            return;
        };
        match connection.awaited() {
            Some(id) if hosts.has_answer(connection.node, id) => self.waiting.add(place),
            Some(id) => self.waiting.watch(place, id),
            None => self.waiting.remove(place),
        }
    }

    /// Looks at what nodes have performed since that was looked at last.
    fn hear(&mut self, hosts: &Hosts<A>)
        requires { IsBehind nowhere hosts.now self.old.entries self.old.waiting }
        ensures entries { self.new.entries ≡ self.old.entries }
        ensures current { IsUpToDate hosts.now self.new.entries self.new.waiting }
    {
        for node in 0..self.waiting.nodes() {
            self.hear_one(hosts, node);
        }
    }

    /// Looks at what one node, counted from 0, has performed since that was looked at last.
    fn hear_one(&mut self, hosts: &Hosts<A>, node: usize)
        requires { IsBehind nowhere hosts.now self.old.entries self.old.waiting }
        ensures entries { self.new.entries ≡ self.old.entries }
        ensures behind { IsBehind nowhere hosts.now self.new.entries self.new.waiting }
        ensures own { node < length self.old.waiting.heard → IsHeard hosts.now self.new.waiting node }
        ensures others { (other : ℕ) → (other ≡ node → ⊥) → IsHeard hosts.now self.old.waiting other → IsHeard hosts.now self.new.waiting other }
    {
        if let Some(performed) = hosts.performed_at(node) {
            self.waiting.hear(node, performed);
        }
    }

    /// Brings the index up to date after an event: what it says of the session that the event is about, if it is about one,
    /// and of those whose commands were performed.
    pub(crate) fn catch_up(&mut self, hosts: &Hosts<A>, session: Option<SessionId>)
        requires untaken { AreUntaken hosts.now self.old.entries }
        requires behind { IsBehind (is_of session self.old.entries) hosts.now self.old.entries self.old.waiting }
        ensures entries { self.new.entries ≡ self.old.entries }
        ensures current { IsUpToDate hosts.now self.new.entries self.new.waiting }
    {
        if let Some(session) = session {
            self.note(hosts, session);
        }
        self.hear(hosts);
    }

    /// A client connects, if its node is up and its session is new; else nothing happens. After `Memory` nothing has
    /// happened.
    pub(crate) fn connect(
        &mut self,
        alloc: A,
        hosts: &Hosts<A>,
        session: SessionId,
        node: NodeId,
        stamp: Stamp,
    ) -> Result<(), Memory>
        requires fit { AreFit self.old.entries }
        ensures ok { (cfg : Config A) → OnOk result (service_of hosts.now self.new.entries ≡ occurs cfg (service_of hosts.now self.old.entries) (event.Connect session node stamp)) }
        ensures err { OnErr result (self.new.entries ≡ self.old.entries) }
        ensures fit { AreFit self.new.entries }
        ensures sessions { KeepsOthers session self.old.entries self.new.entries }
        ensures waiting { self.new.waiting ≡ self.old.waiting }
    {
        connect(alloc, &mut self.connections, hosts, session, node, stamp)
    }

    /// A client sends a line, if its session takes one and its node is up; else nothing happens.
    pub(crate) fn send_line(
        &mut self,
        hosts: &mut Hosts<A>,
        accounts: &Accounts<A>,
        session: SessionId,
        line: Line,
    ) -> Result<(), Memory>
        requires fit { AreFit self.old.entries }
        ensures ok { (cfg : Config A) → cfg.accounts ≡ accounts.now
            → OnOk result (service_of hosts.new self.new.entries ≡ occurs cfg (service_of hosts.old self.old.entries) (event.Line session line)) }
        ensures err { (cfg : Config A) → OnErr result (IsInterrupted cfg (event.Line session line) (service_of hosts.old self.old.entries) (service_of hosts.new self.new.entries)) }
        ensures fit { AreFit self.new.entries }
        ensures sessions { KeepsOthers session self.old.entries self.new.entries }
        ensures waiting { self.new.waiting ≡ self.old.waiting }
        ensures answers { (n : ℕ) (id : CommandId) → HasAnswerAt n id hosts.old → HasAnswerAt n id hosts.new }
        ensures crashed { crashes_of hosts.new ≡ crashes_of hosts.old }
    {
        send_line(&mut self.connections, hosts, accounts, session, line)
    }

    /// A session takes the answer that it awaits, if that is there and its node is up; else nothing happens.
    pub(crate) fn collect_answer(
        &mut self,
        hosts: &mut Hosts<A>,
        session: SessionId,
    ) -> Result<(), Memory>
        requires fit { AreFit self.old.entries }
        requires untaken { AreUntaken hosts.old self.old.entries }
        ensures ok { (cfg : Config A) → OnOk result (service_of hosts.new self.new.entries ≡ occurs cfg (service_of hosts.old self.old.entries) (event.Collect session)) }
        ensures err { (cfg : Config A) → OnErr result (IsInterrupted cfg (event.Collect session) (service_of hosts.old self.old.entries) (service_of hosts.new self.new.entries)) }
        ensures fit { AreFit self.new.entries }
        ensures sessions { KeepsOthers session self.old.entries self.new.entries }
        ensures waiting { self.new.waiting ≡ self.old.waiting }
        ensures others { (n : ℕ) (other : CommandId)
            → ((c : Connection A) (id : CommandId) → connection_of session self.old.entries ≡ Some c → awaited_by c.standing ≡ Some id → is_eq (compare_ids id other) ≡ false)
            → HasAnswerAt n other hosts.old → HasAnswerAt n other hosts.new }
        ensures crashed { crashes_of hosts.new ≡ crashes_of hosts.old }
    {
        collect_answer(&mut self.connections, hosts, session)
    }

    /// A client is gone: its session ends, if it awaits no answer and its node is up; else nothing happens.
    pub(crate) fn hang_up(&mut self, hosts: &mut Hosts<A>, session: SessionId) -> Result<(), Memory>
        requires fit { AreFit self.old.entries }
        ensures ok { (cfg : Config A) → OnOk result (service_of hosts.new self.new.entries ≡ occurs cfg (service_of hosts.old self.old.entries) (event.Hangup session)) }
        ensures err { (cfg : Config A) → OnErr result (IsInterrupted cfg (event.Hangup session) (service_of hosts.old self.old.entries) (service_of hosts.new self.new.entries)) }
        ensures fit { AreFit self.new.entries }
        ensures sessions { KeepsOthers session self.old.entries self.new.entries }
        ensures waiting { self.new.waiting ≡ self.old.waiting }
        ensures answers { (n : ℕ) (id : CommandId) → HasAnswerAt n id hosts.old → HasAnswerAt n id hosts.new }
        ensures crashed { crashes_of hosts.new ≡ crashes_of hosts.old }
    {
        hang_up(&mut self.connections, hosts, session)
    }
}
