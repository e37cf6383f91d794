//! The limits of operators' connections.

/// For how many milliseconds a file may pause, or an operator leave an answer unread. A file is late if this time has
/// passed since it began and it came more slowly than a byte a millisecond, which is 1,000 bytes a second.
pub const LONGEST_PAUSE_MS: u64 = 60_000;

/// How many connections at most may be unread or wait for nodes.
pub(crate) const MOST_PLACES: usize = 1_008;

/// How many bytes are read at a time.
pub const PIECE: usize = 4_096;
