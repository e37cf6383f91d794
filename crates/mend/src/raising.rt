//! Raises next unique ids, so that none comes again that may have been given.
ghost use Rattle.std.specs.Prelude.{◌≡◌, ℕ, List, ◌/◌, IfOk, OnOk};
ghost use Rattle.maildrop.specs.Kept.{kept_for};
ghost use Rattle.mend.specs.Raising.{AreRaised, names_in, raised_id, raised_step};

use ballot::Memory;
use maildrop::{Change, Kept, Name};
use std::alloc::Global;

/// The fewest bytes that an entry takes which stores a message. Its payload has at least 24: one for its kind, eight for its slot,
/// two for a name of one character, eight for the unique id, four for the number of lines and one for a key that isn't there. In a
/// batch four more stand before it, for its length. In a file of the first version each payload has 20 bytes beside it.
pub const SMALLEST_STORED: u64 = 28;

/// The highest next unique id: all ids are used then.
const LAST_NEXT: u64 = (1 << 63) + 1;

/// How many messages so many bytes of a segment can have at most.
pub fn most_messages(bytes: u64) -> u64
    ensures { result ≡ bytes / SMALLEST_STORED }
{
    bytes / SMALLEST_STORED
}

/// The names of the users of whom something is kept.
fn names_of(alloc: Global, kept: &Kept) -> Result<Vec<Name>, Memory>
    ensures { IfOk result (λ names. names.items ≡ names_in kept.now) }
{
    let mut names = Vec::new(alloc);
    for i in 0..kept.users() {
        let Some(name) = kept.name_at(i) else {
            unreachable!()
        };
        names.push(name)?;
    }
    Ok(names)
}

/// How next unique ids are raised.
#[derive(Clone, Copy, Debug, PartialEq, Eq)]
pub struct Raise {
    /// To at least this one,
    pub least: u64,
    /// and then by so many.
    pub by: u64,
}

impl Raise {
    /// The next unique id in place of this one: at most the highest.
    fn next_after(self, next: u64) -> u64
        ensures { result ≡ raised_id self next }
    {
        next.max(self.least).saturating_add(self.by).min(LAST_NEXT)
    }
}

/// Raises the next unique id of a user.
fn raise_one(kept: &mut Kept, name: Name, raise: Raise) -> Result<(), Memory>
    ensures { OnOk result ((other : List ℕ) → kept_for other kept.new ≡ raised_step raise other (kept_for other kept.old) name) }
{
    let next = raise.next_after(kept.next_uid(&name));
    kept.change(name, &Change::Next(next))?;
    Ok(())
}

/// Raises the next unique id of each user, up to the highest. Nothing else changes. After an error some may be raised.
pub fn raise_all(alloc: Global, kept: &mut Kept, raise: Raise) -> Result<(), Memory>
    ensures { OnOk result (AreRaised raise kept.old kept.new) }
{
    let names = names_of(alloc, kept)?;
    let mut rest: &[Name] = &names;
    while let Some((name, others)) = rest.split_first() {
        raise_one(kept, *name, raise)?;
        rest = others;
    }
    Ok(())
}
