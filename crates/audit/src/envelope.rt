//! Equality of messages.
ghost use Rattle.std.specs.Prelude.{◌≡◌};
ghost use Rattle.audit.specs.Same as spec;

use ballot::{Envelope, Message, PValue, Payload, Promise};
use maildrop::SharedCommand;
use std::alloc::Allocator;

/// Whether both lists have the same pvalues in the same order.
fn same_pvalues<A: Allocator + Copy>(
    pvalues: &[PValue<SharedCommand<A>>],
    others: &[PValue<SharedCommand<A>>],
) -> bool
    ensures { result ≡ spec.same_pvalues pvalues.now others.now }
{
    if pvalues.len() != others.len() {
        return false;
    }
    for i in 0..pvalues.len() {
        if !pvalues[i].same(&others[i]) {
            return false;
        }
    }
    true
}

fn same_promise<A: Allocator + Copy>(
    promise: &Promise<SharedCommand<A>, A>,
    other: &Promise<SharedCommand<A>, A>,
) -> bool
    ensures { result ≡ spec.same_promise promise.now other.now }
{
    promise.asked == other.asked
        && promise.ballot == other.ballot
        && same_pvalues(promise.accepted.get(), other.accepted.get())
}

fn same_message<A: Allocator + Copy>(
    message: &Message<SharedCommand<A>, A>,
    other: &Message<SharedCommand<A>, A>,
) -> bool
    ensures { result ≡ spec.same_message message.now other.now }
{
    match (message, other) {
        (Message::Propose(slot, command), Message::Propose(slot2, command2)) => {
            slot == slot2 && command.same(command2)
        }
        (Message::P1a(ballot), Message::P1a(ballot2)) => ballot == ballot2,
        (Message::P1b(promise), Message::P1b(promise2)) => same_promise(promise, promise2),
        (Message::P2a(pvalue), Message::P2a(pvalue2)) => pvalue.same(pvalue2),
        (Message::P2b(vote), Message::P2b(vote2)) => vote == vote2,
        (Message::Decision(slot, command), Message::Decision(slot2, command2)) => {
            slot == slot2 && command.same(command2)
        }
        (Message::Ask(slot), Message::Ask(slot2)) => slot == slot2,
        _ => false,
    }
}

/// Whether both are the same message from the same node to the same node.
pub(crate) fn same_envelope<A: Allocator + Copy>(
    envelope: &Envelope<SharedCommand<A>, A>,
    other: &Envelope<SharedCommand<A>, A>,
) -> bool
    ensures { result ≡ spec.same_envelope envelope.now other.now }
{
    envelope.from == other.from
        && envelope.to == other.to
        && same_message(&envelope.message, &other.message)
}
