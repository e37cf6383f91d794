//! Messages that never arrived.
ghost use Rattle.std.specs.Prelude.{◌≡◌, ◌<◌, drop, length, position, IfSome};
ghost use Rattle.simulator.specs.Undelivered as spec;

use ballot::NodeId;
use script::MessageKind;
use world::Sent;

/// The messages of one kind from one node to another.
#[derive(Clone, Copy)]
pub(crate) struct Route {
    /// The sender.
    pub from: NodeId,
    /// The addressee.
    pub to: NodeId,
    /// The kind of the messages.
    pub kind: MessageKind,
}

impl Route {
    /// Whether the messages of both are the same.
    pub(crate) fn is_same(&self, other: &Route) -> bool
        ensures { result ≡ spec.same_route self.now other.now }
    {
        self.from == other.from && self.to == other.to && self.kind == other.kind
    }

    /// Whether a message is one of these and never arrived.
    fn is_next(&self, message: &Sent) -> bool
        ensures { result ≡ spec.is_next self.now message.now }
    {
        let envelope = &message.envelope;
        message.arrived == 0
            && envelope.from == self.from
            && envelope.to == self.to
            && MessageKind::of(&envelope.message) == self.kind
    }

    /// The place of the first of these messages that never arrived.
    fn first_of(&self, sent: &[Sent]) -> Option<usize>
        ensures value { result ≡ position (spec.is_next self.now) sent.now }
        ensures within { IfSome result (λ place. place < length sent.now) }
    {
        sent.iter().position(|message| self.is_next(message))
    }

    /// The same, if all of them that stand before `from` have arrived.
    pub(crate) fn first_undelivered(&self, sent: &[Sent], from: usize) -> Option<usize>
        requires { spec.HaveArrived self.now from sent.now }
        ensures { result ≡ position (spec.is_next self.now) sent.now }
    {
        match self.first_of(behind(sent, from)) {
            Some(place) => Some(from + place),
            None => None,
        }
    }
}

/// What was sent from this place on.
fn behind(sent: &[Sent], from: usize) -> &[Sent]
    ensures { result.now ≡ drop from sent.now }
{
    sent.get(from..).unwrap_or(&[])
}
