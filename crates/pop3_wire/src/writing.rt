//! Adds to what is written.
ghost use Rattle.std.specs.Prelude.{◌≡◌, ◌++◌, [], IfOk, OnOk, decimal};

use ballot::Memory;
use itoa::Buffer;
use std::alloc::Allocator;

/// Room for so many bytes.
pub(crate) fn with_room<A: Allocator>(alloc: A, octets: u128) -> Result<Vec<u8, A>, Memory>
    ensures { IfOk result (λ text. text.items ≡ []) }
{
    let Ok(room) = usize::try_from(octets) else {
        return Err(Memory);
    };
    Ok(Vec::with_capacity(alloc, room)?)
}

/// Adds bytes.
pub(crate) fn put<A: Allocator>(text: &mut Vec<u8, A>, bytes: &[u8]) -> Result<(), Memory>
    ensures { OnOk result (text.new.items ≡ text.old.items ++ bytes.now) }
{
    text.extend_from_slice(bytes)?;
    Ok(())
}

/// Adds a number in decimal, without leading zeros.
pub(crate) fn put_number<A: Allocator>(text: &mut Vec<u8, A>, number: u64) -> Result<(), Memory>
    ensures { OnOk result (text.new.items ≡ text.old.items ++ decimal number) }
{
    let mut buffer = Buffer::new();
    put(text, buffer.format(number).as_bytes())
}
