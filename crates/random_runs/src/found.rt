//! What an audit finds, and whether that is right.

use crate::happening::session_at;
use crate::order::takes_all;
use crate::records::Records;
use crate::replayed::{Replayed, Seat};
use crate::same::{are_told, is_same_input};
use crate::service::Service;
use audit::{AuditError, Event, audit};
use node::Node;
use session::Transcript;
use std::alloc::Global;
use std::test::Fail;

/// What an audit finds.
#[derive(Clone, Copy)]
pub enum Found {
    NoOrder,
    WrongAnswer,
    /// An order whose events come to just these logs and transcripts.
    Explained,
    /// An order whose events don't, and why.
    Amiss(&'static str),
}

/// Whether the session did what the transcript says. It took all its lines, but the last one if what that asked got no
/// ticket.
fn is_as_told(transcript: &Transcript, seat: &Seat) -> bool {
    let lines = transcript.lines.len();
    let entries = transcript.asked.get();
    let taken = match entries.last() {
        Some(entry) if entry.line.is_some() && entry.ticket.is_none() => lines.saturating_sub(1),
        _ => lines,
    };
    transcript.greeting.is_empty()
        || (seat.heard == taken as u64 && are_told(entries, seat.asked.as_slice()))
}

/// Whether the client was told this, and no more if the transcript has all that its session was answered.
fn was_told(replies: Option<&[u8]>, transcript: &Transcript, told: &[u8]) -> bool {
    let Some(replies) = replies else {
        return transcript.greeting.is_empty();
    };
    let has_all = transcript
        .asked
        .get()
        .iter()
        .all(|entry| entry.line.is_none() || entry.outcome.is_some());
    !transcript.greeting.is_empty()
        && replies.starts_with(told)
        && (replies.len() == told.len() || !has_all)
}

/// What is wrong with the nodes to which an order led, if something is.
fn wrong_nodes(records: &Records, nodes: &[Node]) -> Option<&'static str> {
    if records.logs.len() != nodes.len() {
        return Some("other nodes");
    }
    for (log, node) in records.logs.iter().zip(nodes) {
        let (some, others) = (log.inputs.get(), node.log().inputs.get());
        if some.len() != others.len()
            || !some
                .iter()
                .zip(others)
                .all(|(one, other)| is_same_input(one, other))
        {
            return Some("a node takes other inputs");
        }
    }
    None
}

/// What is wrong with the sessions to which an order led, if something is.
fn wrong_sessions(records: &Records, service: &Service, seats: &[Seat]) -> Option<&'static str> {
    for (place, (transcript, seat)) in records.transcripts.iter().zip(seats).enumerate() {
        if !is_as_told(transcript, seat) {
            return Some("a session asks or hears something else");
        }
        let Some(told) = records.told.get(place) else {
            return Some("no replies");
        };
        let replies = service.world.replies(session_at(place));
        if !was_told(replies, transcript, told.as_slice()) {
            return Some("a session is told something else");
        }
    }
    None
}

/// What is wrong with a service that is to be just what these records say, if something is.
fn fault_in(
    replayed: &mut Replayed,
    service: &Service,
    records: &Records,
) -> Result<Option<&'static str>, Fail> {
    replayed.follow(service)?;
    match wrong_nodes(records, replayed.nodes.as_slice()) {
        Some(fault) => Ok(Some(fault)),
        None => Ok(wrong_sessions(records, service, replayed.seats.as_slice())),
    }
}

/// Whether a service is just what these records say.
pub fn explains(alloc: Global, service: &Service, records: &Records) -> Result<Found, Fail> {
    let mut replayed = Replayed::new(alloc, service.cluster)?;
    Ok(match fault_in(&mut replayed, service, records)? {
        Some(fault) => Found::Amiss(fault),
        None => Found::Explained,
    })
}

/// What an order comes to.
fn of_order(
    alloc: Global,
    service: &mut Service,
    records: &Records,
    events: &[Event],
) -> Result<Found, Fail> {
    if takes_all(alloc, service, records, events)? {
        explains(alloc, service, records)
    } else {
        Ok(Found::Amiss("an event can't happen"))
    }
}

/// What an audit finds in these records.
pub fn audited(alloc: Global, records: &Records) -> Result<Found, Fail> {
    let events = match audit(alloc, &records.logs, &records.transcripts) {
        Ok(events) => events,
        Err(AuditError::NoOrder(_)) => return Ok(Found::NoOrder),
        Err(AuditError::WrongAnswer(_)) => return Ok(Found::WrongAnswer),
        Err(AuditError::Memory) => Err("no memory")?,
    };
    let log = records.logs.first().ok_or("no logs")?;
    let mut service = Service::new(alloc, log.opening.cluster)?;
    of_order(alloc, &mut service, records, events.as_slice())
}
