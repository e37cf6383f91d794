//! The note that a clean stop leaves in the folder.
ghost use Rattle.std.specs.Prelude.{◌≡◌, ◌+◌, ◌≤◌, List, ℕ, length, take, drop, Some, IfOk, IfSome};
ghost use Rattle.std.specs.Int.{w64, from_be_bytes};
ghost use Rattle.store.specs.Notes.{FitsNote, note_bytes, note_payload};

use ballot::Memory;
use records::append;
use std::alloc::Global;

/// What the file of a note begins with: `mdclean` and the version 1.
const MAGIC: [u8; 8] = [109, 100, 99, 108, 101, 97, 110, 1];

/// Where its one record stands.
const PLACE: u64 = 8;

/// Where the payload of this stands, and how many bytes the file has.
const PAYLOAD: usize = 20;

const SIZE: usize = 52;

/// Which segment was the newest one when a service ended in order, and what its file had.
#[derive(Clone, Copy, Debug, PartialEq, Eq)]
pub struct CleanNote {
    /// The number of the segment.
    pub number: u64,
    /// Its salt.
    pub salt: u64,
    /// How many bytes its file had.
    pub size: u64,
}

/// The payload of the record: three numbers of eight bytes.
fn payload_of(alloc: Global, note: &CleanNote) -> Result<Vec<u8>, Memory>
    ensures { IfOk result (λ payload. payload.items ≡ note_payload note.now) }
{
    let mut payload = Vec::new(alloc);
    payload.extend_from_slice(&note.number.to_be_bytes())?;
    payload.extend_from_slice(&note.salt.to_be_bytes())?;
    payload.extend_from_slice(&note.size.to_be_bytes())?;
    Ok(payload)
}

/// The bytes of the file of a note.
pub(crate) fn spell_note(alloc: Global, note: &CleanNote) -> Result<Vec<u8>, Memory>
    ensures { IfOk result (λ bytes. bytes.items ≡ note_bytes note.now) }
{
    let payload = payload_of(alloc, note)?;
    let mut bytes = Vec::new(alloc);
    bytes.extend_from_slice(&MAGIC)?;
    append(&mut bytes, note.salt, PLACE, &payload)?;
    Ok(bytes)
}

/// The number of eight bytes that stands at this place.
fn number_at(bytes: &[u8], place: usize) -> u64
    requires { place + 8 ≤ length bytes.now }
    ensures { result ≡ from_be_bytes w64 (take 8 (drop place bytes.now)) }
{
    let (_, rest) = bytes.split_at(place);
    u64::from_be_bytes([
        rest[0], rest[1], rest[2], rest[3], rest[4], rest[5], rest[6], rest[7],
    ])
}

/// The numbers that stand in the file of a note, if it has the size of one.
fn numbers_in(bytes: &[u8]) -> Option<CleanNote>
    ensures { (note : CleanNote) → FitsNote note → bytes.now ≡ note_bytes note → result ≡ Some note }
{
    if bytes.len() != SIZE {
        return None;
    }
    Some(CleanNote {
        number: number_at(bytes, PAYLOAD),
        salt: number_at(bytes, PAYLOAD + 8),
        size: number_at(bytes, PAYLOAD + 16),
    })
}

/// The note whose file has these bytes. `None` if that of no note does.
pub(crate) fn parse_note(alloc: Global, bytes: &[u8]) -> Result<Option<CleanNote>, Memory>
    // Whatever was changed in a file, it isn't taken for another note.
    ensures spelled { IfOk result (λ note. IfSome note (λ n. bytes.now ≡ note_bytes n)) }
    // A note that was written is read back.
    ensures read_back { (note : CleanNote) → FitsNote note → bytes.now ≡ note_bytes note → IfOk result (λ n. n ≡ Some note) }
{
    let Some(note) = numbers_in(bytes) else {
        return Ok(None);
    };
    let spelled = spell_note(alloc, &note)?;
    if spelled.as_slice() == bytes {
        Ok(Some(note))
    } else {
        Ok(None)
    }
}
