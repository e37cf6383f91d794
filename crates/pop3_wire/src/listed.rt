//! Messages as a listing shows them.

/// A message as LIST shows it (RFC 1939 section 5): its number, and its size in octets.
#[derive(Clone, Copy, Debug, PartialEq, Eq)]
pub struct Listed {
    /// The message number: its place in the maildrop, from 1.
    pub number: u64,
    /// Its size as it was delivered, with a CRLF for each line.
    pub octets: u64,
}

/// A message as UIDL shows it (RFC 1939 section 7): its number, and its unique id.
#[derive(Clone, Copy, Debug, PartialEq, Eq)]
pub struct Identified {
    /// The message number: its place in the maildrop, from 1.
    pub number: u64,
    /// Its unique id.
    pub uid: u64,
}
