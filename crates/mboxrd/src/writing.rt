//! Writes mailboxes.
ghost use Rattle.std.specs.Prelude.{◌≡◌, ◌++◌, ◌∷◌, [], IsTrue, IsOk, IfOk, OnOk};
ghost use Rattle.mboxrd.specs.Mailbox.{is_from_line, file_of, message_of, quoted, written_of};

use crate::quoting::is_quotable;
use ballot::Memory;
use maildrop::Text;
use std::alloc::Allocator;

/// Adds a line with a line feed after it.
fn write_line<A: Allocator>(bytes: &mut Vec<u8, A>, line: &[u8]) -> Result<(), Memory>
    ensures { OnOk result (bytes.new.items ≡ bytes.old.items ++ (line.now ++ 10 ∷ [])) }
{
    bytes.extend_from_slice(line)?;
    bytes.push(b'\n')?;
    Ok(())
}

/// Adds a line of a text, with one more `>` before any number of them and `From `.
fn write_quoted<A: Allocator>(bytes: &mut Vec<u8, A>, line: &[u8]) -> Result<(), Memory>
    ensures { OnOk result (bytes.new.items ≡ bytes.old.items ++ (quoted line.now ++ 10 ∷ [])) }
{
    if is_quotable(line) {
        bytes.push(b'>')?;
    }
    write_line(bytes, line)
}

/// Adds a text, after a line that begins a message.
fn write_message<A: Allocator + Copy>(
    bytes: &mut Vec<u8, A>,
    from_line: &[u8],
    text: &Text<A>,
) -> Result<(), Memory>
    ensures { OnOk result (bytes.new.items ≡ bytes.old.items ++ file_of (message_of from_line.now text.now)) }
{
    write_line(bytes, from_line)?;
    for line in text.get() {
        write_quoted(bytes, line)?;
    }
    write_line(bytes, b"")
}

/// The mailbox of these texts, each after the same line, which starts with `From ` and has no line feed. A line that
/// is any number of `>` and then `From ` gets one more `>`, and an empty line follows each text.
pub fn write<A: Allocator + Copy>(
    alloc: A,
    from_line: &[u8],
    texts: &[Text<A>],
) -> Result<Vec<u8, A>, Memory>
    requires { IsTrue (is_from_line from_line.now) }
    ensures value { IfOk result (λ bytes. bytes.items ≡ written_of from_line.now texts.now) }

    // A mailbox without texts takes no memory.
    ensures empty { texts.now ≡ [] → IsOk result }
{
    let mut bytes = Vec::new(alloc);
    for text in texts {
        write_message(&mut bytes, from_line, text)?;
    }
    Ok(bytes)
}
