//! Random changes of what a service left.

use crate::chance::Chance;
use crate::config::WORDS;
use crate::desk::serve_again;
use crate::play::{Play, Talk};
use crate::records::Records;
use ballot::Items;
use maildrop::{Outcome, Ticket};
use node::NodeLog;
use session::{Asked, Transcript};
use std::alloc::Global;
use std::test::Fail;

/// What is changed.
#[derive(Clone, Copy)]
pub enum Change {
    /// An input is taken out of a log.
    WithoutInput,
    /// Two inputs of a log change places.
    Swapped,
    /// An operation has another outcome.
    OtherOutcome,
    /// An operation has another ticket.
    OtherTicket,
    /// A client says another line.
    OtherLine,
    /// An entry is taken out of a transcript.
    WithoutEntry,
}

/// All, and what they are called.
pub const CHANGES: &[(Change, &str)] = &[
    (Change::WithoutInput, "an input less"),
    (Change::Swapped, "two inputs exchanged"),
    (Change::OtherOutcome, "another outcome"),
    (Change::OtherTicket, "another ticket"),
    (Change::OtherLine, "another line"),
    (Change::WithoutEntry, "an entry less"),
];

/// Takes an input out of the log, or has it change places with one of the three after it.
fn change_log(log: &mut NodeLog, place: usize, chance: &mut Chance, change: Change) {
    let mut inputs = log.inputs.take().into_vec();
    let other = place.saturating_add(chance.below(3)).saturating_add(1);
    match change {
        Change::WithoutInput => {
            if place < inputs.len() {
                drop(inputs.remove(place));
            }
        }
        _ => {
            if place < inputs.len() && other < inputs.len() {
                inputs.swap(place, other);
            }
        }
    }
    log.inputs = Items::from_vec(inputs);
}

/// An outcome that isn't this one.
fn other_outcome(outcome: &Outcome) -> Outcome {
    match outcome {
        Outcome::Taken(_) => Outcome::InUse,
        Outcome::Done => Outcome::NotHolder,
        _ => Outcome::Done,
    }
}

/// The ticket before or after this one.
fn other_ticket(ticket: Ticket, chance: &mut Chance) -> Option<Ticket> {
    let (node, number) = ticket.get();
    let other = if chance.below(2) == 0 {
        number.saturating_sub(1)
    } else {
        number.saturating_add(1)
    };
    Ticket::new(node, other)
}

/// Gives the entry another outcome or another ticket.
fn exchange(entry: &mut Asked, chance: &mut Chance, change: Change) {
    match change {
        Change::OtherOutcome => entry.outcome = entry.outcome.as_ref().map(other_outcome),
        _ => {
            if let Some(ticket) = entry.ticket {
                entry.ticket = other_ticket(ticket, chance);
            }
        }
    }
}

/// Changes the entry of this number.
fn change_entry(transcript: &mut Transcript, number: usize, chance: &mut Chance, change: Change) {
    let mut entries = transcript.asked.take().into_vec();
    match change {
        Change::WithoutEntry => {
            if number < entries.len() {
                drop(entries.remove(number));
            }
        }
        _ => {
            if let Some(entry) = entries.get_mut(number) {
                exchange(entry, chance, change);
            }
        }
    }
    transcript.asked = Items::from_vec(entries);
}

/// The client says something else in one of its lines, and its session is served so.
fn change_line(
    alloc: Global,
    talk: &Talk,
    records: &mut Records,
    (place, number): (usize, usize),
    chance: &mut Chance,
) -> Result<(), Fail> {
    let mut said = Vec::from_slice(alloc, talk.said.as_slice())?;
    let other = chance.below(WORDS.len());
    if let Some(words) = said.get_mut(number) {
        *words = if *words == other { WORDS.len() } else { other };
    }
    let transcript = records.transcripts.get_mut(place).ok_or("no session")?;
    let told = records.told.get_mut(place).ok_or("no session")?;
    let served = serve_again(alloc, talk.user, said.as_slice(), transcript.asked.get())?;
    *transcript = served.transcript;
    *told = served.told;
    Ok(())
}

/// Whether the entry has what is changed.
fn can_change(entry: &Asked, change: Change) -> bool {
    match change {
        Change::OtherOutcome => entry.outcome.is_some(),
        _ => entry.ticket.is_some(),
    }
}

/// The places of the logs, clients or transcripts that can be changed, each with the number of an input, line or entry.
fn spots_of(
    alloc: Global,
    play: &Play,
    records: &Records,
    change: Change,
) -> Result<Vec<(usize, usize)>, Fail> {
    let mut spots = Vec::new(alloc);
    match change {
        Change::WithoutInput | Change::Swapped => {
            for (place, log) in records.logs.iter().enumerate() {
                for number in 0..log.inputs.len() {
                    spots.push((place, number))?;
                }
            }
        }
        Change::OtherLine => {
            for (place, talk) in play.talks.iter().enumerate() {
                for number in 0..talk.said.len() {
                    spots.push((place, number))?;
                }
            }
        }
        _ => {
            for (place, transcript) in records.transcripts.iter().enumerate() {
                for (number, entry) in transcript.asked.get().iter().enumerate() {
                    if can_change(entry, change) {
                        spots.push((place, number))?;
                    }
                }
            }
        }
    }
    Ok(spots)
}

/// Changes what the service left, in one place.
pub fn make_change(
    alloc: Global,
    play: &Play,
    records: &mut Records,
    chance: &mut Chance,
    change: Change,
) -> Result<(), Fail> {
    let spots = spots_of(alloc, play, records, change)?;
    let (place, number) = *chance.pick(spots.as_slice()).ok_or("nothing to change")?;
    match change {
        Change::WithoutInput | Change::Swapped => {
            let log = records.logs.get_mut(place).ok_or("no log")?;
            change_log(log, number, chance, change);
        }
        Change::OtherLine => {
            let talk = play.talks.get(place).ok_or("no client")?;
            change_line(alloc, talk, records, (place, number), chance)?;
        }
        _ => {
            let transcript = records.transcripts.get_mut(place).ok_or("no session")?;
            change_entry(transcript, number, chance, change);
        }
    }
    Ok(())
}
