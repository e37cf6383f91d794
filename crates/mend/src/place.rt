//! Sizes in a segment.

/// How many bytes the head of a segment has.
pub const HEAD: usize = 16;

/// How many bytes a record has beside its payload.
pub(crate) const FRAME: usize = 20;
