//! Adds to a text.
ghost use Rattle.std.specs.Prelude.{◌≡◌, ◌++◌, ◌∷◌, [], OnOk, decimal};
ghost use Rattle.session_log.specs.Written as spec;

use ballot::Memory;
use itoa::Buffer;
use maildrop::Name;

/// Adds bytes.
pub fn put(text: &mut Vec<u8>, bytes: &[u8]) -> Result<(), Memory>
    ensures { OnOk result (text.new.items ≡ text.old.items ++ bytes.now) }
{
    text.extend_from_slice(bytes)?;
    Ok(())
}

/// Adds a number in decimal, without leading zeros.
pub(crate) fn put_number(text: &mut Vec<u8>, number: u64) -> Result<(), Memory>
    ensures { OnOk result (text.new.items ≡ text.old.items ++ decimal number) }
{
    let mut buffer = Buffer::new();
    put(text, buffer.format(number).as_bytes())
}

/// Adds a label, and a number in decimal.
pub fn put_labelled(text: &mut Vec<u8>, label: &[u8], number: u64) -> Result<(), Memory>
    ensures { OnOk result (text.new.items ≡ text.old.items ++ label.now ++ decimal number) }
{
    put(text, label)?;
    put_number(text, number)
}

/// Adds a line of a label and a number in decimal.
pub fn put_number_line(text: &mut Vec<u8>, label: &[u8], number: u64) -> Result<(), Memory>
    ensures { OnOk result (text.new.items ≡ text.old.items ++ label.now ++ decimal number ++ 10 ∷ []) }
{
    put_labelled(text, label, number)?;
    put(text, b"\n")
}

/// Adds the name of a user, or `-` if nobody is logged in.
pub(crate) fn put_user(text: &mut Vec<u8>, user: &Option<Name>) -> Result<(), Memory>
    ensures { OnOk result (text.new.items ≡ text.old.items ++ spec.user_text user.now) }
{
    match user {
        Some(user) => put(text, user.get()),
        None => put(text, b"-"),
    }
}
