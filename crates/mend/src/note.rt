//! The note that an orderly end leaves, as far as a mend needs it.
ghost use Rattle.std.specs.Prelude.{◌≡◌, ◌+◌, ◌≤◌, length, take, drop};
ghost use Rattle.std.specs.Int.{w64, from_be_bytes};

use crate::whole::record_at;

/// What the file of a note begins with.
const MAGIC: &[u8] = b"mdclean\x01";

/// How many bytes that has. The note's one record stands after it.
const RECORD_AT: usize = 8;

/// Where the salt of the segment stands, and how many bytes the file of a note has.
const SALT_AT: usize = 28;

const SIZE: usize = 52;

/// The segment that was the newest at an orderly end.
#[derive(Clone, Copy, Debug, PartialEq, Eq)]
pub struct Noted {
    /// Its number.
    pub number: u64,
    /// The salt of its file.
    pub salt: u64,
    /// How many bytes the file had.
    pub size: u64,
}

/// The number of eight bytes that stands at this place.
pub(crate) fn number_at(bytes: &[u8], place: usize) -> u64
    requires { place + 8 ≤ length bytes.now }
    ensures { result ≡ from_be_bytes w64 (take 8 (drop place bytes.now)) }
{
    let (_, rest) = bytes.split_at(place);
    u64::from_be_bytes([
        rest[0], rest[1], rest[2], rest[3], rest[4], rest[5], rest[6], rest[7],
    ])
}

/// The note whose file has these bytes, if they are those of one.
pub(crate) fn note_in(bytes: &[u8]) -> Option<Noted> {
    if bytes.len() != SIZE || bytes.split_at(RECORD_AT).0 != MAGIC {
        return None;
    }
    let salt = number_at(bytes, SALT_AT);
    let (_, record) = bytes.split_at(RECORD_AT);
    let (payload, rest) = record_at(salt, RECORD_AT as u64, record)?;
    if !rest.is_empty() || payload.len() != 24 {
        return None;
    }
    Some(Noted {
        number: number_at(payload, 0),
        salt,
        size: number_at(payload, 16),
    })
}
