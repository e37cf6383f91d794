//! How a node stands.

/// How a node stands.
#[derive(Clone, Copy, Debug, PartialEq, Eq)]
pub struct Status {
    /// Whether it takes inputs: it hasn't stopped.
    pub up: bool,
    /// Whether its leader has a ballot.
    pub active: bool,
    /// The first slot that isn't decided, 1 to 2^63.
    pub slot_out: u64,
    /// Whether a command that was submitted here isn't performed yet.
    pub waiting: bool,
}
