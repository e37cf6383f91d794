//! Inputs as they are placed.

/// What brings an input of a log.
#[derive(Clone, Copy, Debug, PartialEq, Eq)]
pub(crate) enum Source {
    /// Neither a session nor a message.
    Own,
    /// Neither, and the node takes no other after it.
    Last,
    /// The message that was sent as this number, counted from 0.
    Message(usize),
    /// The session of the transcript at this place.
    FromSession(usize),
}

/// The next input of the log at a place, and what brings it.
#[derive(Clone, Copy, Debug, PartialEq, Eq)]
pub(crate) struct Placement {
    pub(crate) node: usize,
    pub(crate) source: Source,
}
