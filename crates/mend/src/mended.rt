//! The file that says how far mends have raised unique ids. A segment whose opening is damaged can't say it any more.
ghost use Rattle.std.specs.Prelude.{◌≡◌, ◌+◌, ◌≤◌, length, take, drop, IfOk, IfSome};
ghost use Rattle.std.specs.Int.{w64, from_be_bytes};
ghost use Rattle.mend.specs.Raising as spec;

use crate::note::number_at;
use ballot::Memory;
use records::append;
use std::alloc::Global;

/// What the file begins with: `mdmend`, a zero and the version 1.
const MAGIC: [u8; 8] = [109, 100, 109, 101, 110, 100, 0, 1];

/// Where its one record stands, which has the number. Its salt is 0.
const PLACE: u64 = 8;

/// Where the number stands, and how many bytes the file has.
const NUMBER: usize = 20;

const SIZE: usize = 36;

/// The bytes of the file with this number.
pub(crate) fn spell_mended(alloc: Global, number: u64) -> Result<Vec<u8>, Memory>
    ensures { IfOk result (λ bytes. bytes.items ≡ spec.mended_bytes number) }
{
    let mut bytes = Vec::new(alloc);
    bytes.extend_from_slice(&MAGIC)?;
    append(&mut bytes, 0, PLACE, &number.to_be_bytes())?;
    Ok(bytes)
}

/// The number of a file with these bytes. `None` if they are those of none.
pub(crate) fn mended_in(alloc: Global, bytes: &[u8]) -> Result<Option<u64>, Memory>
    // Whatever was changed in a file, no other number is taken.
    ensures { IfOk result (λ found. IfSome found (λ number. bytes.now ≡ spec.mended_bytes number)) }
{
    if bytes.len() != SIZE {
        return Ok(None);
    }
    let number = number_at(bytes, NUMBER);
    let spelled = spell_mended(alloc, number)?;
    if spelled.as_slice() == bytes {
        Ok(Some(number))
    } else {
        Ok(None)
    }
}
