//! Why bytes are no payload, in calls that take no memory.

/// The first fault of bytes that are no payload, from left to right.
#[derive(Clone, Copy, Debug, PartialEq, Eq)]
pub(crate) enum Malformed {
    Kind,
    Field,
    Length,
}
