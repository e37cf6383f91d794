//! The events of a legal order.

use ballot::NodeId;

/// One event of a legal order. Sessions are told by the places of their transcripts, counted from 0. What comes is not
/// repeated here: it is the next line of the session's transcript, or the next input of the node's log.
#[derive(Clone, Copy, Debug, PartialEq, Eq)]
pub enum Event {
    /// The session connects to the node.
    Connect { session: usize, node: NodeId },
    /// The session's next line comes. Where it asks for an operation, its node takes the next input of its log, which
    /// is that operation.
    Line(usize),
    /// The session's client is gone, and its node takes the next input of its log, which gives the lock back.
    Hangup(usize),
    /// The session takes the answer that it awaits.
    Collect(usize),
    /// The node takes the next input of its log, which neither a session nor a message brings.
    Given(NodeId),
    /// The message that was sent as this number, counted from 0, reaches its addressee: the next input of its log.
    Arrive(usize),
}
