//! Names of users in bytes that can't be read as records.
ghost use Rattle.std.specs.Prelude.{◌≡◌, ℕ, List, OnOk};
ghost use Rattle.maildrop.specs.Kept.{kept_for};

use crate::search::Gap;
use ballot::Memory;
use maildrop::{Change, Kept, Name};

/// Where the name stands in the payload of an entry, after the kind and the slot: its length comes first.
const LENGTH_AT: usize = 9;

/// The most bytes that a name has.
const LONGEST_NAME: usize = 40;

/// The name in the payload of an entry that may begin here, if it looks like one: a kind of a change, a slot below 2^40, a length
/// and a name.
fn name_in(bytes: &[u8]) -> Option<Name> {
    if bytes.len() <= LENGTH_AT {
        return None;
    }
    let (front, rest) = bytes.split_at(LENGTH_AT);
    let is_kind = front[0] >= 2 && front[0] <= 5;
    let is_slot = front[1] == 0 && front[2] == 0 && front[3] == 0;
    let size = rest[0] as usize;
    if !is_kind || !is_slot || size == 0 || size > LONGEST_NAME || rest.len() <= size {
        return None;
    }
    let (name, _) = rest.split_at(size + 1);
    Name::new(name.split_at(1).1)
}

/// Keeps the name of a user, of whom nothing may be kept yet.
pub(crate) fn know(kept: &mut Kept, name: Name) -> Result<(), Memory>
    ensures { OnOk result ((other : List ℕ) → kept_for other kept.new ≡ kept_for other kept.old) }
{
    let next = kept.next_uid(&name);
    kept.change(name, &Change::Next(next))?;
    Ok(())
}

/// Keeps the names of all users of whom another one keeps something.
pub(crate) fn know_all(kept: &mut Kept, other: &Kept) -> Result<(), Memory>
    ensures { OnOk result ((name : List ℕ) → kept_for name kept.new ≡ kept_for name kept.old) }
{
    for i in 0..other.users() {
        if let Some(name) = other.name_at(i) {
            know(kept, name)?;
        }
    }
    Ok(())
}

/// Keeps these names.
pub(crate) fn know_named(kept: &mut Kept, names: &[Name]) -> Result<(), Memory>
    ensures { OnOk result ((name : List ℕ) → kept_for name kept.new ≡ kept_for name kept.old) }
{
    for i in 0..names.len() {
        know(kept, names[i])?;
    }
    Ok(())
}

/// Keeps the names that entries in these bytes may have.
pub(crate) fn know_guessed(kept: &mut Kept, bytes: &[u8]) -> Result<(), Memory>
    ensures { OnOk result ((name : List ℕ) → kept_for name kept.new ≡ kept_for name kept.old) }
{
    for i in 0..bytes.len() {
        let (_, rest) = bytes.split_at(i);
        if let Some(name) = name_in(rest) {
            know(kept, name)?;
        }
    }
    Ok(())
}

/// The bytes of a gap in a file.
pub(crate) fn bytes_of<'a>(bytes: &'a [u8], gap: &Gap) -> &'a [u8] {
    let start = usize::try_from(gap.at)
        .unwrap_or(usize::MAX)
        .min(bytes.len());
    let (_, rest) = bytes.split_at(start);
    let size = usize::try_from(gap.bytes)
        .unwrap_or(usize::MAX)
        .min(rest.len());
    rest.split_at(size).0
}
