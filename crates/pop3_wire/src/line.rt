//! The lines of a client.
ghost use Rattle.std.specs.Prelude.{◌≡◌, ◌≤◌, length};
ghost use Rattle.pop3_wire.specs.Lines.{line_of as line_in, without_cr as without_cr_in};

use crate::line_bytes::{LONGEST_LINE, LineBytes};

/// A line of a client, or one that was longer than 512 octets, its end included.
#[derive(Drop)]
pub enum Line {
    Whole(LineBytes),
    TooLong,
}

fn without_cr(bytes: &[u8]) -> &[u8]
    ensures value { result.now ≡ without_cr_in bytes.now }
    ensures short { length result.now ≤ length bytes.now }
{
    let Some((last, front)) = bytes.split_last() else {
        return bytes;
    };
    if *last == b'\r' { front } else { bytes }
}

/// The line that stands before an LF.
pub(crate) fn line_of(bytes: &[u8]) -> Line
    ensures { result ≡ line_in bytes.now }
{
    if bytes.len() > LONGEST_LINE {
        return Line::TooLong;
    }
    Line::Whole(LineBytes::copied(without_cr(bytes)))
}
