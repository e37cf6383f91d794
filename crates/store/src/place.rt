//! Sizes in a segment.

/// How many bytes a record has beside its payload.
pub(crate) const FRAME: u64 = 20;

/// How many bytes the head of a segment has.
pub(crate) const HEAD: u64 = 16;
