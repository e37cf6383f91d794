//! The turns of a session, by what each does.

/// What a session does in one of its turns.
#[derive(Clone, Copy, Debug, PartialEq, Eq)]
pub(crate) enum Kind {
    /// A line comes that asks for no operation.
    PlainLine,
    /// A line comes that asks for one.
    AskingLine,
    /// The client is gone, and the lock is given back.
    Hangup,
}
