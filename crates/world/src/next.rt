//! What comes next in a service if nobody says what does: an answer that is there is taken, or else a message arrives.
ghost use Rattle.std.specs.Prelude.{◌≡◌, ℕ, List, Some, None, true, false, slice_get, IfSome, IfNone};
ghost use Rattle.maildrop.specs.CommandId.{CommandId};
ghost use Rattle.world.specs.Connections.{service_of, connection_of, awaited_by, AreUntaken};
ghost use Rattle.world.specs.Hosts.{HasAnswerAt};
ghost use Rattle.runs.specs.Refusals.{step_refusal};
ghost use Rattle.world.specs.Scheduling.{has_its_answer};
ghost use Rattle.world.specs.Waiting.{IsUpToDate};
ghost use Rattle.runs.specs.Worlds as spec;
ghost use Rattle.runs.specs.declared.config.Config.{Config};
ghost use Rattle.world.specs.declared.connection.Connection.{Connection};

use crate::connection::Connection;
use crate::hosts::Hosts;
use crate::sessions::Sessions;
use runs::{Event, SessionId};
use std::alloc::Allocator;

/// The session that connected as this number, counted from 0, if the answer is there that it awaits, at a node that is up.
fn answered_at<A: Allocator + Copy>(
    hosts: &Hosts<A>,
    connections: &Sessions<A>,
    place: usize,
) -> Option<SessionId>
    requires { AreUntaken hosts.now connections.now.entries }
    ensures some { IfSome result (λ session. (c : Connection A) × (slice_get connections.now.entries place ≡ Some (session, c)) × (connection_of session connections.now.entries ≡ Some c) × (has_its_answer hosts.now connections.now.entries c ≡ true)) }
    ensures none { IfNone result ((e : ℕ × Connection A) → slice_get connections.now.entries place ≡ Some e → has_its_answer hosts.now connections.now.entries e.1 ≡ false) }
{
    let (session, connection) = connections.get_index(place)?;
    if is_ready(hosts, connection) {
        Some(*session)
    } else {
        None
    }
}

/// Whether the session awaits an answer that is there, at a node that is up.
fn is_ready<A: Allocator + Copy>(hosts: &Hosts<A>, connection: &Connection<A>) -> bool
    requires { (id : CommandId) → awaited_by connection.now.standing ≡ Some id → HasAnswerAt connection.now.node id hosts.now }
    ensures { (connections : List (ℕ × Connection A)) → result ≡ has_its_answer hosts.now connections connection.now }
{
    match connection.awaited() {
        Some(id) => hosts.has_answer(connection.node, id),
        None => false,
    }
}

/// The first session of those that connected whose answer is there takes it. Only sessions are looked at whose answer may be
/// there.
fn next_answer<A: Allocator + Copy>(hosts: &Hosts<A>, connections: &Sessions<A>) -> Option<Event<A>>
    requires untaken { AreUntaken hosts.now connections.now.entries }
    requires current { IsUpToDate hosts.now connections.now.entries connections.now.waiting }
    ensures value { result ≡ spec.next_answer (service_of hosts.now connections.now.entries) }
    ensures possible { (cfg : Config A) → IfSome result (λ event. step_refusal cfg (service_of hosts.now connections.now.entries) event ≡ None) }
{
    let mut place = 0;
    while place < connections.len() {
        let next = connections.next_waiting(place)?;
        if let Some(session) = answered_at(hosts, connections, next) {
            return Some(Event::Collect { session });
        }
        place = next + 1;
    }
    None
}

/// An answer that is there is taken, or else the first message arrives, from this place on, that never did.
pub(crate) fn next_oldest<A: Allocator + Copy>(
    hosts: &Hosts<A>,
    connections: &Sessions<A>,
    from: usize,
) -> Option<Event<A>>
    requires untaken { AreUntaken hosts.now connections.now.entries }
    requires current { IsUpToDate hosts.now connections.now.entries connections.now.waiting }
    ensures value { result ≡ spec.next_oldest (service_of hosts.now connections.now.entries) from }
    ensures possible { (cfg : Config A) → IfSome result (λ event. step_refusal cfg (service_of hosts.now connections.now.entries) event ≡ None) }
{
    if let Some(event) = next_answer(hosts, connections) {
        return Some(event);
    }
    let which = hosts.first_to_arrive(from, 1)?;
    Some(Event::Arrive(which))
}

/// An answer that is there is taken, or else the last message arrives, from this place on, that did fewer times than this.
pub(crate) fn next_newest<A: Allocator + Copy>(
    hosts: &Hosts<A>,
    connections: &Sessions<A>,
    from: usize,
    copies: u64,
) -> Option<Event<A>>
    requires untaken { AreUntaken hosts.now connections.now.entries }
    requires current { IsUpToDate hosts.now connections.now.entries connections.now.waiting }
    ensures value { result ≡ spec.next_newest (service_of hosts.now connections.now.entries) from copies }
    ensures possible { (cfg : Config A) → IfSome result (λ event. step_refusal cfg (service_of hosts.now connections.now.entries) event ≡ None) }
{
    if let Some(event) = next_answer(hosts, connections) {
        return Some(event);
    }
    let which = hosts.last_to_arrive(from, copies)?;
    Some(Event::Arrive(which))
}
