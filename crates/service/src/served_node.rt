//! A node, as a service sees it.
ghost use Rattle.std.specs.Prelude.{◌≡◌};
ghost use Rattle.service.specs.OperatorOps as spec;

use ballot::{Envelope, Memory, NodeId};
use cluster::Status;
use maildrop::{Key, Name, Op, Outcome, SharedCommand, Text, Ticket, Usage};
use session::DeskStopped;
use std::time::Duration;

/// What an operator, or the service itself, has a node do. All else is asked for by sessions.
#[derive(Drop)]
pub enum OperatorOp {
    /// A message is stored, under a key or without one.
    Mail { text: Text, key: Option<Key> },
    /// The lock is taken from the session that has it.
    Break,
}

impl OperatorOp {
    /// The operation.
    pub(crate) fn into_op(self) -> Op
        ensures { result ≡ spec.op_of self }
    {
        match self {
            OperatorOp::Mail { text, key } => Op::Mail { text, key },
            OperatorOp::Break => Op::Break,
        }
    }
}

/// A node of the service, for all but its sessions.
pub trait ServedNode {
    /// The node's number.
    fn me(&self) -> NodeId;

    /// The same node, for another thread.
    fn share(&self) -> Result<Self, Memory>
    where
        Self: Sized;

    /// Stops the node for good. Returns whether it was up until now.
    fn crash(&self) -> bool;

    /// Time has passed for the node.
    fn tick(&self);

    /// The node asks to lead.
    fn campaign(&self);

    /// Takes what another node has sent to this one. Returns false if it is lost, as when it is for another node.
    fn arrive(&self, envelope: Envelope<SharedCommand>) -> bool;

    /// Whether something that was sent to a node of the service was not heard yet.
    fn has_unheard(&self) -> bool;

    /// The node's state, or nothing once its cluster has ended.
    fn status(&self) -> Option<Status>;

    /// The users whose maildrop is locked at the node, each with the ticket of the Take that holds the lock.
    fn locks(&self) -> Result<Vec<(Name, Ticket)>, Memory>;

    /// All users, each with what the maildrop has at the node.
    fn usage(&self) -> Result<Vec<(Name, Usage)>, Memory>;

    /// Submits an operation. Returns its ticket, or nothing if the node has stopped. The outcome is kept until
    /// `outcome_within` or `outcomes_within` takes it, or `forget` lets it go.
    fn submit(&self, user: Name, op: OperatorOp) -> Option<Ticket>;

    /// The outcome of an operation that was submitted here, which may be awaited at most this long, and once it is there for as
    /// long as it takes to write what outlives the process. Nothing if it isn't there yet, and an error if the node has stopped
    /// or a write has failed.
    fn outcome_within(
        &self,
        user: Name,
        ticket: Ticket,
        time: Duration,
    ) -> Result<Option<Outcome>, DeskStopped>;

    /// The outcomes of the first of these operations, which were submitted here in this order: as many as are there and the
    /// vector `room` has room for. Only the first is awaited, at most this long. What outlives the process is written once for
    /// all of them. An error if the node has stopped before the first was there, or a write has failed: then those that were
    /// taken are gone.
    fn outcomes_within(
        &self,
        user: Name,
        tickets: &[Ticket],
        time: Duration,
        room: Vec<Outcome>,
    ) -> Result<Vec<Outcome>, DeskStopped>;

    /// Nobody awaits the outcome of an operation any more.
    fn forget(&self, user: Name, ticket: Ticket);

    /// How many messages of one file may be under way at a time.
    fn under_way(&self) -> usize;
}
