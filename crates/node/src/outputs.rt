//! What comes of a step of a node.
ghost use Rattle.std.specs.Prelude.{◌≡◌, IfOk};
ghost use Rattle.node.specs.Replay as spec;

use ballot::{Envelope, Items, Memory, NodeId, Sends};
use maildrop::{SharedCommand, Ticket};
use std::alloc::{Allocator, Global};

/// Messages with their senders and addressees, in the order in which they are sent.
pub type Envelopes<A = Global> = Items<Envelope<SharedCommand<A>, A>, A>;

/// What comes of a step: what the node sends, and after a `Submit` the ticket of its command.
#[derive(Drop)]
pub struct Outputs<A: Allocator = Global> {
    /// What the node sends, in its order.
    pub sends: Envelopes<A>,
    /// The ticket of the submitted command, after a `Submit` alone.
    pub ticket: Option<Ticket>,
}

/// The messages, as envelopes from this node.
pub(crate) fn sent_from<A: Allocator + Copy>(
    alloc: A,
    me: NodeId,
    sends: Sends<SharedCommand<A>, A>,
) -> Result<Envelopes<A>, Memory>
    ensures { IfOk result (λ envelopes. envelopes ≡ spec.sent_from me sends) }
{
    let mut envelopes = Vec::with_capacity(alloc, sends.len())?;
    for outgoing in sends.into_vec() {
        envelopes.push(Envelope {
            from: me,
            to: outgoing.to,
            message: outgoing.message,
        })?;
    }
    Ok(Items::from_vec(envelopes))
}
