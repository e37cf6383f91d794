//! Equality of inputs and of entries.

use ballot::{Message, Payload, Promise};
use maildrop::SharedCommand;
use node::Input;
use session::Asked;

fn is_same_promise(one: &Promise<SharedCommand>, other: &Promise<SharedCommand>) -> bool {
    let (some, others) = (one.accepted.get(), other.accepted.get());
    one.asked == other.asked
        && one.ballot == other.ballot
        && some.len() == others.len()
        && some
            .iter()
            .zip(others)
            .all(|(left, right)| left.same(right))
}

fn is_same_message(one: &Message<SharedCommand>, other: &Message<SharedCommand>) -> bool {
    match (one, other) {
        (Message::Propose(slot, command), Message::Propose(slot2, command2))
        | (Message::Decision(slot, command), Message::Decision(slot2, command2)) => {
            slot == slot2 && command.same(command2)
        }
        (Message::P1a(ballot), Message::P1a(ballot2)) => ballot == ballot2,
        (Message::P1b(promise), Message::P1b(promise2)) => is_same_promise(promise, promise2),
        (Message::P2a(pvalue), Message::P2a(pvalue2)) => pvalue.same(pvalue2),
        (Message::P2b(vote), Message::P2b(vote2)) => vote == vote2,
        (Message::Ask(slot), Message::Ask(slot2)) => slot == slot2,
        _ => false,
    }
}

/// Whether the inputs are the same.
pub fn is_same_input(one: &Input, other: &Input) -> bool {
    match (one, other) {
        (Input::Submit(name, op), Input::Submit(name2, op2)) => {
            name == name2 && op.get().same(op2.get())
        }
        (Input::Arrive(left), Input::Arrive(right)) => {
            left.from == right.from
                && left.to == right.to
                && is_same_message(&left.message, &right.message)
        }
        (Input::Tick, Input::Tick)
        | (Input::Campaign, Input::Campaign)
        | (Input::Crash, Input::Crash) => true,
        _ => false,
    }
}

/// Whether this came of what the entry says. An outcome that it doesn't have may be any.
fn is_told(entry: &Asked, found: &Asked) -> bool {
    let outcome = match (&entry.outcome, &found.outcome) {
        (None, _) => true,
        (Some(outcome), Some(outcome2)) => outcome.same(outcome2),
        (Some(_), None) => false,
    };
    entry.line == found.line
        && entry.name == found.name
        && entry.op.same(&found.op)
        && entry.ticket == found.ticket
        && outcome
}

/// Whether these came of what the entries with tickets say.
pub fn are_told(entries: &[Asked], found: &[Asked]) -> bool {
    let mut found = found.iter();
    for entry in entries.iter().filter(|entry| entry.ticket.is_some()) {
        match found.next() {
            Some(other) if is_told(entry, other) => {}
            _ => return false,
        }
    }
    found.next().is_none()
}
