//! Reads whole mailboxes.
ghost use Rattle.std.specs.Prelude.{◌≡◌, ◌↔◌, [], None, Ok, Err, IsOk, IfOk, IsErrOf};
ghost use Rattle.mboxrd.specs.Mailbox as spec;
ghost use Rattle.mboxrd.specs.Reader.{is_begun};

use crate::error::MboxError;
use crate::quoting::begins_message;
use crate::reader::Reader;
use maildrop::Text;
use std::alloc::Allocator;

/// Whether a file is empty or starts with a line that begins a message.
fn is_mailbox(bytes: &[u8]) -> bool
    ensures { result ≡ is_begun None bytes.now }
{
    bytes.is_empty() || begins_message(bytes)
}

/// The texts of a mailbox. A line feed ends a line, and one carriage return directly before it is dropped; a last line
/// without a line feed is a line. Each line that starts with `From ` begins a message and isn't part of it. One empty
/// line at the end of each message is dropped, and one `>` of each line that is some of them and then `From `. Refuses
/// a file that isn't empty and whose first line does not start with `From `, before it takes any memory.
pub fn read<A: Allocator + Copy>(alloc: A, bytes: &[u8]) -> Result<Vec<Text<A>, A>, MboxError>
    ensures value { IfOk result (λ texts. spec.read_of bytes.now ≡ Ok texts.items) }
    ensures refused { IsErrOf result MboxError.NoFromLine ↔ (spec.read_of bytes.now ≡ Err MboxError.NoFromLine) }

    // An empty file takes no memory.
    ensures empty { bytes.now ≡ [] → IsOk result }
{
    if !is_mailbox(bytes) {
        return Err(MboxError::NoFromLine);
    }
    let mut reader = Reader::new(alloc);
    match reader.feed(bytes) {
        Ok(()) => reader.finish(),
        Err(error) => Err(error),
    }
}
