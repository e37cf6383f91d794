//! What a reader does with what comes.

/// What a reader does with what comes.
#[derive(Clone, Copy, Debug, PartialEq, Eq)]
pub(crate) enum Phase {
    /// The head has not come whole.
    Head,
    /// It reads records, with this salt.
    Records(u64),
    /// With this salt, the record at this place is bad. No whole one was found after it.
    Search(u64, u64),
    /// The record at this place is bad, and a whole one stands after it.
    Damaged(u64),
    /// The file isn't a segment.
    Other,
}
