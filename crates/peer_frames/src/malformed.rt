//! Why bytes are no frame, in calls that take no memory.

/// The first fault of bytes that are no frame, from left to right.
#[derive(Clone, Copy, Debug, PartialEq, Eq)]
pub(crate) enum Malformed {
    Version,
    Kind,
    Field,
    Length,
}
