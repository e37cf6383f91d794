//! The events of a legal order, written down as inputs were placed.
ghost use Rattle.std.specs.Prelude.{◌≡◌, ◌<◌, ◌++◌, ◌==◌, ◌∷◌, [], ℕ, List, Bool, Some, None, length, slice_get, IfOk, OnOk};
ghost use Rattle.session.specs.declared.transcript.Transcript.{Transcript};
ghost use Rattle.audit.specs.Checks.{AreReplayed};
ghost use Rattle.audit.specs.Events.{Talk, all_go_on, all_gone_on, events_of, events_from, talks_after};
ghost use Rattle.audit.specs.Records.{case_of, number_in};
ghost use Rattle.audit.specs.Speakers.{AreSpeakers, AreKnown, AreSeated, AreAnswered, IsKnown, goes};
ghost use Rattle.audit.specs.declared.event.Event.TheVariants as event;
ghost use Rattle.audit.specs.Turns as turns;
ghost use Rattle.audit.specs.Case.{turns_of};
ghost use Rattle.audit.specs.Turns.{script_of};
ghost use Rattle.audit.specs.Written.{ArePlaced, connect as connected, connects, written_order, in_the_end, first_talk, first_talks};
ghost use Rattle.audit.specs.Wrong.{node_of, seat};

use crate::event::Event;
use crate::home::seat_of;
use crate::placement::{Placement, Source};
use crate::speaker::Speaker;
use crate::turns::kinds_of;
use ballot::{Memory, NodeId};
use node::NodeLog;
use session::Transcript;
use std::alloc::Allocator;

fn push<A: Allocator + Copy>(events: &mut Vec<Event, A>, event: Event) -> Result<(), Memory>
    ensures { OnOk result (events.new.items ≡ events.old.items ++ event ∷ []) }
{
    events.push(event)?;
    Ok(())
}

/// All sessions go on, or those of a node.
fn sweep<A: Allocator + Copy>(
    node: Option<usize>,
    speakers: &mut [Speaker<A>],
    events: &mut Vec<Event, A>,
) -> Result<(), Memory>
    ensures { OnOk result ((at : ℕ → ℕ) (answered : ℕ → Bool) (talks : ℕ → Talk) → AreSpeakers at answered talks speakers.old
        → (events.new.items ≡ events.old.items ++ all_go_on (λ i. goes node (at i)) answered talks (length speakers.old)) × AreSpeakers at answered (all_gone_on (λ i. goes node (at i)) answered talks) speakers.new) }
{
    for session in 0..speakers.len() {
        speakers[session].go_on_at(node, session, events)?;
    }
    Ok(())
}

/// The sessions of a node go on, and the node crashes.
fn write_last<A: Allocator + Copy>(
    node: usize,
    number: NodeId,
    speakers: &mut [Speaker<A>],
    events: &mut Vec<Event, A>,
) -> Result<(), Memory>
    ensures { OnOk result ((at : ℕ → ℕ) (answered : ℕ → Bool) (talks : ℕ → Talk) → AreSpeakers at answered talks speakers.old
        → (events.new.items ≡ events.old.items ++ (all_go_on (λ i. at i == node) answered talks (length speakers.old) ++ event.Given number ∷ [])) × AreSpeakers at answered (all_gone_on (λ i. at i == node) answered talks) speakers.new) }
{
    sweep(Some(node), speakers, events)?;
    push(events, Event::Given(number))
}

/// Writes the events of one placement.
fn write_one<A: Allocator + Copy>(
    logs: &[NodeLog<A>],
    placement: Placement,
    speakers: &mut [Speaker<A>],
    events: &mut Vec<Event, A>,
) -> Result<(), Memory>
    requires { IsKnown (length logs.now) (length speakers.old) placement }
    ensures { OnOk result ((at : ℕ → ℕ) (answered : ℕ → Bool) (talks : ℕ → Talk) → AreSpeakers at answered talks speakers.old
        → (events.new.items ≡ events.old.items ++ events_of (λ n. number_in (slice_get logs.now n)) at answered (length speakers.old) talks placement.node placement.source) × AreSpeakers at answered (talks_after (λ n. number_in (slice_get logs.now n)) at answered (length speakers.old) talks placement.node placement.source) speakers.new) }
{
    let number = logs[placement.node].opening.me;
    match placement.source {
        Source::Own => push(events, Event::Given(number)),
        Source::Last => write_last(placement.node, number, speakers, events),
        Source::Message(which) => push(events, Event::Arrive(which)),
        Source::FromSession(session) => speakers[session].ask(session, events),
    }
}

/// Writes the events of all placements, and lets all sessions go on.
fn write_all<A: Allocator + Copy>(
    logs: &[NodeLog<A>],
    placements: &[Placement],
    speakers: &mut [Speaker<A>],
    events: &mut Vec<Event, A>,
) -> Result<(), Memory>
    requires { AreKnown (length logs.now) (length speakers.old) placements.now }
    ensures { OnOk result ((at : ℕ → ℕ) (answered : ℕ → Bool) (talks : ℕ → Talk) → AreSpeakers at answered talks speakers.old
        → events.new.items ≡ events.old.items ++ events_from (λ n. number_in (slice_get logs.now n)) at answered (length speakers.old) talks placements.now) }
{
    for placement in placements {
        write_one(logs, *placement, speakers, events)?;
    }
    sweep(None, speakers, events)
}

/// Whether the transcript is of a session that didn't begin.
fn is_blank<A: Allocator + Copy>(transcript: &Transcript<A>) -> bool
    ensures { result ≡ turns.is_blank transcript.now }
{
    transcript.greeting.is_empty() && transcript.lines.len() == 0 && transcript.asked.is_empty()
}

/// A session that began connects to its node.
fn connect<A: Allocator + Copy>(
    logs: &[NodeLog<A>],
    session: usize,
    transcript: &Transcript<A>,
    events: &mut Vec<Event, A>,
) -> Result<(), Memory>
    ensures { OnOk result ((transcripts : List (Transcript A)) → AreSeated logs.now transcripts → slice_get transcripts session ≡ Some transcript.now
        → events.new.items ≡ events.old.items ++ connected (case_of logs.now transcripts) (seat (case_of logs.now transcripts)) session (slice_get (case_of logs.now transcripts).scripts session)) }
{
    if is_blank(transcript) {
        return Ok(());
    }
    match logs.get(seat_of(logs, transcript)) {
        Some(log) => push(
            events,
            Event::Connect {
                session,
                node: log.opening.me,
            },
        ),
        None => Ok(()),
    }
}

/// All sessions that began connect.
fn connect_all<A: Allocator + Copy>(
    logs: &[NodeLog<A>],
    transcripts: &[Transcript<A>],
    events: &mut Vec<Event, A>,
) -> Result<(), Memory>
    ensures { OnOk result (AreSeated logs.now transcripts.now
        → events.new.items ≡ events.old.items ++ connects (case_of logs.now transcripts.now) (seat (case_of logs.now transcripts.now)) (length transcripts.now)) }
{
    for (session, transcript) in transcripts.iter().enumerate() {
        connect(logs, session, transcript, events)?;
    }
    Ok(())
}

/// A session before its first turn.
fn speaker_of<A: Allocator + Copy>(
    alloc: A,
    logs: &[NodeLog<A>],
    transcript: &Transcript<A>,
    answered: bool,
) -> Result<Speaker<A>, Memory>
    ensures { IfOk result (λ speaker. (transcripts : List (Transcript A)) → speaker ≡ record {
      seat = node_of (case_of logs.now transcripts) (turns_of (case_of logs.now transcripts) (script_of transcript.now));
      answered = answered;
      talk = first_talk (case_of logs.now transcripts) (Some (script_of transcript.now));
    }) }
{
    let kinds = kinds_of(alloc, transcript)?;
    Ok(Speaker::new(seat_of(logs, transcript), answered, kinds))
}

/// All sessions before their first turns.
fn speakers_of<A: Allocator + Copy>(
    alloc: A,
    logs: &[NodeLog<A>],
    transcripts: &[Transcript<A>],
    answered: &[bool],
) -> Result<Vec<Speaker<A>, A>, Memory>
    requires { AreAnswered logs.now transcripts.now answered.now }
    ensures count { IfOk result (λ speakers. length speakers.items ≡ length transcripts.now) }
    ensures speakers { IfOk result (λ speakers. AreSpeakers (seat (case_of logs.now transcripts.now)) (in_the_end (case_of logs.now transcripts.now)) (first_talks (case_of logs.now transcripts.now)) speakers.items) }
{
    let mut speakers = Vec::with_capacity(alloc, transcripts.len())?;
    for (session, transcript) in transcripts.iter().enumerate() {
        speakers.push(speaker_of(alloc, logs, transcript, answered[session])?)?;
    }
    Ok(speakers)
}

/// The events that were placed, in an order in which they can come: a session takes its answer and says its lines just
/// before it asks again, before its node crashes, and at the end. It takes as long as there are events, but that each crash
/// costs a look at each session.
pub(crate) fn written<A: Allocator + Copy>(
    alloc: A,
    logs: &[NodeLog<A>],
    transcripts: &[Transcript<A>],
    placements: &[Placement],
    answered: &[bool],
) -> Result<Vec<Event, A>, Memory>
    requires answered { AreAnswered logs.now transcripts.now answered.now }
    requires placed { ArePlaced (case_of logs.now transcripts.now) (λ n. 0) [] placements.now }
    ensures { IfOk result (λ events. AreSeated logs.now transcripts.now
        → events.items ≡ written_order (case_of logs.now transcripts.now) (seat (case_of logs.now transcripts.now)) placements.now) }
{
    let mut events = Vec::new(alloc);
    connect_all(logs, transcripts, &mut events)?;
    let mut speakers = speakers_of(alloc, logs, transcripts, answered)?;
    write_all(logs, placements, &mut speakers, &mut events)?;
    Ok(events)
}
