//! What a service is given to do.
ghost use Rattle.std.specs.Prelude.{◌≡◌};
ghost use Rattle.runs.specs.Events.{session_of};

use crate::session_id::SessionId;
use apop::Stamp;
use ballot::NodeId;
use maildrop::{Key, Name, Text};
use pop3_wire::Line;
use std::alloc::{Allocator, Global};

/// One event of a service. Whoever gives the events decides what comes when, and what never comes.
#[derive(Drop)]
pub enum Event<A: Allocator = Global> {
    /// A client connects to a node, which greets it with this timestamp.
    Connect {
        /// Its number, which no session of the service has had before.
        session: SessionId,
        /// The node.
        node: NodeId,
        /// The timestamp of the greeting.
        stamp: Stamp,
    },
    /// A client sends a line.
    Line {
        /// The client's session.
        session: SessionId,
        /// The line without its line end, or that it was too long.
        line: Line,
    },
    /// A client is gone, without QUIT.
    Hangup {
        /// The client's session.
        session: SessionId,
    },
    /// A session takes the answer that it awaits.
    Collect {
        /// The session.
        session: SessionId,
    },
    /// A message for a user comes in at a node: with a key it is stored once, however often it comes.
    Mail {
        /// The node.
        node: NodeId,
        /// Whose maildrop it is for.
        user: Name,
        /// The message.
        text: Text<A>,
        /// What the message is known by, if it has a key.
        key: Option<Key>,
    },
    /// An operator takes the lock of a user's maildrop away.
    Break {
        /// The node that the operator asks.
        node: NodeId,
        /// Whose maildrop it is.
        user: Name,
    },
    /// The message that was sent as this number, counted from 0, reaches its addressee, once more if it did before.
    Arrive(usize),
    /// Time passes at a node.
    Tick(NodeId),
    /// A node asks to lead.
    Campaign(NodeId),
    /// A node stops, for good.
    Crash(NodeId),
}

impl<A: Allocator> Event<A> {
    /// The session that the event is about, if it is about one.
    pub fn session(&self) -> Option<SessionId>
        ensures { result ≡ session_of self.now }
    {
        match self {
            Event::Connect { session, .. }
            | Event::Line { session, .. }
            | Event::Hangup { session }
            | Event::Collect { session } => Some(*session),
            _ => None,
        }
    }
}
