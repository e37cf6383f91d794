//! What came in over a connection.

use peer_frames::FrameFault;

/// Why no more is received.
#[derive(Clone, Copy, Debug, PartialEq, Eq)]
pub enum End {
    /// The reader is at its end. What is left is no whole frame.
    Ended,
    /// What came next is no frame, or memory ran out.
    Fault(FrameFault),
    /// What came next is a length above the limit.
    TooLong,
    /// A read failed, or there were 4,294,967,295 of them.
    ReadFault,
}

/// What was received.
#[derive(Clone, Copy, Debug, PartialEq, Eq)]
pub struct Received {
    /// How many envelopes arrived at the inbox, lost ones included.
    pub count: u64,
    /// Why no more did.
    pub end: End,
}
