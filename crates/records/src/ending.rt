//! How a file of records ends.

/// How a file of records ends. A place is that of the first byte after the last record before it.
#[derive(Clone, Copy, Debug, PartialEq, Eq)]
pub enum Ending {
    /// It ends after a record, or after its head.
    Clean(u64),
    /// It ends inside a record whose head is right or not whole, or inside its own head; then the place is 0.
    Cut(u64),
    /// A bad record stands at this place, and no whole one after it.
    Torn(u64),
    /// A bad record stands at this place, and a whole one after it.
    Damaged(u64),
    /// It does not begin with the magic and the version of a segment.
    NotASegment,
}
