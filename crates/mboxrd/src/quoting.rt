//! The `>` before lines that would begin a message.
ghost use Rattle.std.specs.Prelude.{◌≡◌};
ghost use Rattle.mboxrd.specs.Mailbox as spec;

/// Whether a line begins a message.
pub(crate) fn begins_message(line: &[u8]) -> bool
    ensures { result ≡ spec.begins_message line.now }
{
    line.starts_with(b"From ")
}

/// Whether a line is any number of `>` and then `From `.
pub(crate) fn is_quotable(line: &[u8]) -> bool
    ensures { result ≡ spec.is_quotable line.now }
{
    for i in 0..line.len() {
        if line[i] != b'>' {
            return begins_message(&line[i..]);
        }
    }
    false
}

/// A line as it is read, with one `>` less before `From `, if there is one.
pub(crate) fn unquoted(line: &[u8]) -> &[u8]
    ensures { result.now ≡ spec.unquoted line.now }
{
    if !line.is_empty() && line[0] == b'>' && is_quotable(&line[1..]) {
        &line[1..]
    } else {
        line
    }
}
