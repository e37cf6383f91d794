//! Writes files of records.
ghost use Rattle.std.specs.Prelude.{◌≡◌, ◌+◌, ◌≤◌, ◌++◌, length, take, drop, OnOk, OnErr};
ghost use Rattle.std.specs.Int.{w32, w64, to_be_bytes};
ghost use Rattle.records.specs.Spelling as spec;
ghost use Rattle.records.specs.Spelling.{spell, head_of, IsPayload};

use crate::head::MAGIC;
use crate::place::RECORD_HEAD;
use crate::sum::sum_of;
use ballot::Memory;
use std::alloc::Allocator;

/// Adds the head of a file. After an error a part of it may stand there.
#[tactic(auto, unfolding(crate::specs::Spelling::head_of))]
fn put_all_head<A: Allocator>(out: &mut Vec<u8, A>, salt: u64) -> Result<(), Memory>
    ensures ok { OnOk result (out.new.items ≡ out.old.items ++ head_of salt) }
    ensures kept { take (length out.old.items) out.new.items ≡ out.old.items }
{
    out.extend_from_slice(MAGIC)?;
    out.extend_from_slice(&salt.to_be_bytes())?;
    Ok(())
}

/// Adds a record that stands at this place of the file. After an error a part of it may stand there.
#[tactic(auto, unfolding(crate::specs::Spelling::spell))]
fn put_record<A: Allocator>(
    out: &mut Vec<u8, A>,
    salt: u64,
    place: u64,
    payload: &[u8],
) -> Result<(), Memory>
    requires { IsPayload payload.now }
    ensures ok { OnOk result (out.new.items ≡ out.old.items ++ spell salt place payload.now) }
    ensures kept { take (length out.old.items) out.new.items ≡ out.old.items }
{
    let size = (payload.len() as u32).to_be_bytes();
    out.extend_from_slice(&size)?;
    out.extend_from_slice(&sum_of(salt, place, &size).to_be_bytes())?;
    out.extend_from_slice(payload)?;
    out.extend_from_slice(&sum_of(salt, place, payload).to_be_bytes())?;
    Ok(())
}

/// Adds the head of a file with this salt. After an error `out` is as it was.
pub fn put_head<A: Allocator>(out: &mut Vec<u8, A>, salt: u64) -> Result<(), Memory>
    ensures value { OnOk result (out.new.items ≡ out.old.items ++ head_of salt) }
    ensures kept { OnErr result (out.new.items ≡ out.old.items) }
{
    let before = out.len();
    let written = put_all_head(out, salt);
    if written.is_err() {
        out.truncate(before);
    }
    written
}

/// Adds a record with this payload, which stands at this place of a file with this salt. `out` may have any part of the
/// file that ends there. After an error it is as it was.
pub fn append<A: Allocator>(
    out: &mut Vec<u8, A>,
    salt: u64,
    place: u64,
    payload: &[u8],
) -> Result<(), Memory>
    requires { IsPayload payload.now }
    ensures value { OnOk result (out.new.items ≡ out.old.items ++ spell salt place payload.now) }
    ensures kept { OnErr result (out.new.items ≡ out.old.items) }
{
    let before = out.len();
    let written = put_record(out, salt, place, payload);
    if written.is_err() {
        out.truncate(before);
    }
    written
}

/// The head of a record: how long its payload is, and the sum of that.
fn head_bytes(salt: u64, place: u64, size: u32) -> [u8; RECORD_HEAD]
    ensures { result ≡ to_be_bytes w32 size ++ to_be_bytes w64 (spec.sum_of salt place (to_be_bytes w32 size)) }
{
    let size = size.to_be_bytes();
    let sum = sum_of(salt, place, &size).to_be_bytes();
    [
        size[0], size[1], size[2], size[3], sum[0], sum[1], sum[2], sum[3], sum[4], sum[5], sum[6],
        sum[7],
    ]
}

/// Writes over bytes from this place on.
fn write_over<A: Allocator>(bytes: &mut Vec<u8, A>, start: usize, part: &[u8])
    requires { start + length part.now ≤ length bytes.old.items }
    ensures { bytes.new.items ≡ take start bytes.old.items ++ (part.now ++ drop (start + length part.now) bytes.old.items) }
{
    bytes[start..start + part.len()].copy_from_slice(part);
}

/// Makes a record of bytes, which stands at this place of a file with this salt: the first 12 of them are room for its head,
/// and the others are its payload, which isn't copied. After an error nothing has changed.
#[tactic(auto, unfolding(crate::specs::Spelling::spell))]
pub fn seal<A: Allocator>(bytes: &mut Vec<u8, A>, salt: u64, place: u64) -> Result<(), Memory>
    requires room { RECORD_HEAD ≤ length bytes.old.items }
    requires fits { IsPayload (drop RECORD_HEAD bytes.old.items) }
    ensures value { OnOk result (bytes.new.items ≡ spell salt place (drop RECORD_HEAD bytes.old.items)) }
    ensures kept { OnErr result (bytes.new.items ≡ bytes.old.items) }
{
    let (_, payload) = bytes.split_at(RECORD_HEAD);
    let head = head_bytes(salt, place, payload.len() as u32);
    let sum = sum_of(salt, place, payload);
    bytes.extend_from_slice(&sum.to_be_bytes())?;
    write_over(bytes, 0, &head);
    Ok(())
}
