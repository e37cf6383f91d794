//! Compares bytes without an early exit.
ghost use Rattle.std.specs.Prelude.{◌≡◌, get_or};
ghost use Rattle.std.specs.Str.{bytes_eq};

/// The byte at a place, or 0 past the end.
fn byte_at(bytes: &[u8], place: usize) -> u8
    ensures { result ≡ get_or bytes.now place 0 }
{
    if place < bytes.len() { bytes[place] } else { 0 }
}

/// Whether both slices have the same bytes. The loop always makes as many turns as the longer slice has bytes, and
/// branches on no byte. So the time shows no place at which a secret differs.
pub(crate) fn same_bytes(own: &[u8], given: &[u8]) -> bool
    ensures { result ≡ bytes_eq own.now given.now }
{
    let mut is_same = own.len() == given.len();
    for place in 0..own.len().max(given.len()) {
        is_same &= byte_at(own, place) == byte_at(given, place);
    }
    is_same
}
