//! Adds to what is written.
ghost use Rattle.std.specs.Prelude.{◌≡◌, ◌++◌, take, is_ok, if◌then◌else◌, decimal};

use ballot::Memory;
use itoa::Buffer;
use std::alloc::Allocator;

/// Adds bytes. After `Memory` nothing is left of what was written after the first `start` bytes.
pub(crate) fn put<A: Allocator>(
    out: &mut Vec<u8, A>,
    start: usize,
    bytes: &[u8],
) -> Result<(), Memory>
    ensures { out.new.items ≡ (if is_ok result then out.old.items ++ bytes.now else take start out.old.items) }
{
    if out.extend_from_slice(bytes).is_err() {
        out.truncate(start);
        return Err(Memory);
    }
    Ok(())
}

/// Adds a number in decimal, without leading zeros. After `Memory` as `put`.
pub(crate) fn put_number<A: Allocator>(
    out: &mut Vec<u8, A>,
    start: usize,
    number: u64,
) -> Result<(), Memory>
    ensures { out.new.items ≡ (if is_ok result then out.old.items ++ decimal number else take start out.old.items) }
{
    let mut buffer = Buffer::new();
    put(out, start, buffer.format(number).as_bytes())
}
