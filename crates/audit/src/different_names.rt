//! Whether names are different.
ghost use Rattle.std.specs.Prelude.{◌≡◌, IfOk};
ghost use Rattle.maildrop.specs.Name.{are_different};

use ballot::Memory;
use maildrop::Name;
use std::alloc::Allocator;
use std::collections::BTreeSet;

/// Whether no name is there twice, by a set of those before each: a name is not compared with all others.
pub(crate) fn are_all_different<A: Allocator + Copy>(
    alloc: A,
    names: &[Name],
) -> Result<bool, Memory>
    ensures { IfOk result (λ different. different ≡ are_different names.now) }
{
    let mut seen = BTreeSet::new(alloc);
    for i in 0..names.len() {
        if !seen.insert(names[i])? {
            return Ok(false);
        }
    }
    Ok(true)
}
