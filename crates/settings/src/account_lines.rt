//! How far a file of accounts is read.

use apop::row_of;
use memchr::memchr;
use ports::ReadOn;

/// The most bytes that a file of accounts has.
pub(crate) const LARGEST_ACCOUNTS: u64 = 64 << 20;

/// The most bytes of a line that is an account: a name of 40, a method of 4, a secret of 255, two spaces, a carriage return.
const LONGEST_LINE: usize = 302;

/// Reads a file of accounts up to the first line that is no account.
#[derive(Drop)]
pub(crate) struct AccountLines {
    /// How many bytes are of lines that were looked at.
    seen: usize,
}

impl AccountLines {
    pub(crate) fn new() -> Self {
        AccountLines { seen: 0 }
    }
}

/// Whether a line, without its line feed, is empty or an account.
fn is_sound(line: &[u8]) -> bool {
    let line = line.strip_suffix(b"\r").unwrap_or(line);
    line.is_empty() || row_of(line).is_some()
}

impl ReadOn for AccountLines {
    fn reads_on(&mut self, bytes: &[u8]) -> bool {
        let mut rest = bytes.get(self.seen..).unwrap_or_default();
        while let Some(end) = memchr(b'\n', rest) {
            let Some(next) = end.checked_add(1) else {
                return false;
            };
            if !is_sound(&rest[..end]) {
                return false;
            }
            self.seen = self.seen.saturating_add(next);
            rest = &rest[next..];
        }
        rest.len() <= LONGEST_LINE
    }
}
