//! A batch that is being written.
ghost use Rattle.std.specs.Prelude.{◌≡◌, ◌↔◌, ◌+◌, ◌<◌, ◌≤◌, ◌^◌, ◌++◌, ◌∷◌, [], ℕ, List, length, take, drop, true, IfOk, OnOk, OnErr};
ghost use Rattle.std.specs.Int.{w32, to_be_bytes};
ghost use Rattle.records.specs.Spelling.{spell};
ghost use Rattle.batches.specs.Batches.{batch_head};
ghost use Rattle.batches.specs.Contents.{IsContent, IsContentOf};

use ballot::Memory;
use records::{LARGEST_PAYLOAD, RECORD_HEAD, seal};
use std::alloc::{Allocator, Global};
use std::marker::Model;

/// What a file of batches begins with: a magic, and the version.
const MAGIC: &[u8] = b"mdropd\0\x02";

/// How many bytes stand before a payload.
const LENGTH: usize = 4;

/// A batch that is being written. Contracts see its content so far.
#[derive(Drop)]
pub struct Batch<A: Allocator = Global> {
    /// Room for the head of the batch's record, and the content. There is no room yet if nothing was added.
    bytes: Vec<u8, A>,
}

impl<A: Allocator> Model for Batch<A> {
    ghost use Rattle.std.specs.Prelude.{ℕ, List, drop};
    ghost use Rattle.records.specs.declared.place.TheConstants.{RECORD_HEAD};
    ghost use Rattle.batches.specs.Contents.{IsContent};

    ghost Value = { List ℕ };

    ghost view = { λ b. drop RECORD_HEAD b.bytes.items };

    ghost invariant = { λ b. IsContent (drop RECORD_HEAD b.bytes.items) };
}

/// Makes room for the head of a record before a content, if there is none. After an error there is none, and no content.
fn make_room<A: Allocator>(bytes: &mut Vec<u8, A>) -> Result<(), Memory>
    ensures room { OnOk result (RECORD_HEAD ≤ length bytes.new.items) }
    ensures content { drop RECORD_HEAD bytes.new.items ≡ drop RECORD_HEAD bytes.old.items }
{
    if bytes.len() < RECORD_HEAD {
        bytes.clear();
        bytes.extend_from_slice(&[0; RECORD_HEAD])?;
    }
    Ok(())
}

/// Adds a payload to a content. After an error a part of it may stand there.
fn put_payload<A: Allocator>(content: &mut Vec<u8, A>, payload: &[u8]) -> Result<(), Memory>
    requires { length payload.now < 2 ^ 32 }
    ensures ok { OnOk result (content.new.items ≡ content.old.items ++ (to_be_bytes w32 (length payload.now) ++ payload.now)) }
    ensures kept { take (length content.old.items) content.new.items ≡ content.old.items }
{
    content.extend_from_slice(&(payload.len() as u32).to_be_bytes())?;
    content.extend_from_slice(payload)?;
    Ok(())
}

/// Adds a payload to a content that stands after the room for a head. After an error the content is as it was.
fn put_whole<A: Allocator>(bytes: &mut Vec<u8, A>, payload: &[u8]) -> Result<(), Memory>
    requires { length payload.now < 2 ^ 32 }
    ensures ok { OnOk result (drop RECORD_HEAD bytes.new.items ≡ drop RECORD_HEAD bytes.old.items ++ (to_be_bytes w32 (length payload.now) ++ payload.now)) }
    ensures kept { OnErr result (drop RECORD_HEAD bytes.new.items ≡ drop RECORD_HEAD bytes.old.items) }
{
    make_room(bytes)?;
    let before = bytes.len();
    let written = put_payload(bytes, payload);
    if written.is_err() {
        bytes.truncate(before);
    }
    written
}

/// Adds the head of a file. After an error a part of it may stand there.
fn put_all_head<A: Allocator>(out: &mut Vec<u8, A>, salt: u64) -> Result<(), Memory>
    ensures ok { OnOk result (out.new.items ≡ out.old.items ++ batch_head salt) }
    ensures kept { take (length out.old.items) out.new.items ≡ out.old.items }
{
    out.extend_from_slice(MAGIC)?;
    out.extend_from_slice(&salt.to_be_bytes())?;
    Ok(())
}

/// Adds the head of a file of batches with this salt. After an error `out` is as it was.
pub fn put_head<A: Allocator>(out: &mut Vec<u8, A>, salt: u64) -> Result<(), Memory>
    ensures value { OnOk result (out.new.items ≡ out.old.items ++ batch_head salt) }
    ensures kept { OnErr result (out.new.items ≡ out.old.items) }
{
    let before = out.len();
    let written = put_all_head(out, salt);
    if written.is_err() {
        out.truncate(before);
    }
    written
}

impl<A: Allocator> Batch<A> {
    /// No payloads yet. Takes no memory.
    pub fn new(alloc: A) -> Self
        ensures { result ≡ [] }
    {
        Batch {
            bytes: Vec::new(alloc),
        }
    }

    /// No payloads yet, in the memory of bytes that aren't needed any more.
    pub fn in_place_of(mut memory: Vec<u8, A>) -> Self
        ensures { result ≡ [] }
    {
        memory.clear();
        Batch { bytes: memory }
    }

    /// How many bytes its content has.
    pub fn size(&self) -> usize
        ensures size { result ≡ length self.now }
        ensures content { IsContent self.now }
    {
        self.bytes.len().saturating_sub(RECORD_HEAD)
    }

    /// Whether no payload was added.
    pub fn is_empty(&self) -> bool
        ensures { result ≡ true ↔ self.now ≡ [] }
    {
        self.size() == 0
    }

    /// Whether there is room for a payload of this size.
    pub fn has_room(&self, size: usize) -> bool
        ensures { result ≡ true ↔ length self.now + (LENGTH + size) ≤ LARGEST_PAYLOAD }
    {
        let room = LARGEST_PAYLOAD - self.size();
        room >= LENGTH && room - LENGTH >= size
    }

    /// Adds a payload. After an error nothing has changed.
    pub fn add(&mut self, payload: &[u8]) -> Result<(), Memory>
        requires { length self.old + (LENGTH + length payload.now) ≤ LARGEST_PAYLOAD }
        ensures added { (payloads : List (List ℕ)) → IsContentOf payloads self.old → OnOk result (IsContentOf (payloads ++ payload.now ∷ []) self.new) }
        ensures size { OnOk result (length self.new ≡ length self.old + (LENGTH + length payload.now)) }
        ensures kept { OnErr result (self.new ≡ self.old) }
    {
        put_whole(&mut self.bytes, payload)
    }

    /// The batch's record, which stands at this place of a file with this salt. No payload is copied.
    pub fn into_record(mut self, salt: u64, place: u64) -> Result<Vec<u8, A>, Memory>
        ensures { IfOk result (λ bytes. bytes.items ≡ spell salt place self) }
    {
        make_room(&mut self.bytes)?;
        seal(&mut self.bytes, salt, place)?;
        Ok(self.bytes)
    }
}
