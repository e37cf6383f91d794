//! Whole records, wherever they stand in a file.
ghost use Rattle.std.specs.Prelude.{◌≡◌, ◌+◌, ◌≤◌, length, option_map, IfSome};
ghost use Rattle.std.specs.Int.{w32, w64};
ghost use Rattle.records.specs.Reading.{number_at, part_at};
ghost use Rattle.records.specs.Reading as spec;
ghost use Rattle.records.specs.Spelling as spelling;

use crate::place::FRAME;
use records::LARGEST_PAYLOAD;
use std::hash::{DefaultHasher, Hasher};

/// The sum of some bytes of a record that stands at a place of a file with this salt.
#[tactic(auto, unfolding(records::specs::Spelling::sum_of))]
fn sum_of(salt: u64, at: u64, bytes: &[u8]) -> u64
    ensures { result ≡ spelling.sum_of salt at bytes.now }
{
    let mut hasher = DefaultHasher::new();
    hasher.write(&salt.to_le_bytes());
    hasher.write(&at.to_le_bytes());
    hasher.write(bytes);
    hasher.finish()
}

/// A number of four bytes, and the bytes after it.
fn u32_at(bytes: &[u8]) -> Option<(u32, &[u8])>
    ensures value { option_map (λ x. (x.0, x.1.now)) result ≡ number_at w32 bytes.now }
    ensures rest { IfSome result (λ x. 4 + length x.1.now ≡ length bytes.now) }
{
    if bytes.len() < 4 {
        return None;
    }
    let (front, rest) = bytes.split_at(4);
    let number = u32::from_be_bytes([front[0], front[1], front[2], front[3]]);
    Some((number, rest))
}

/// A number of eight bytes, and the bytes after it.
fn u64_at(bytes: &[u8]) -> Option<(u64, &[u8])>
    ensures value { option_map (λ x. (x.0, x.1.now)) result ≡ number_at w64 bytes.now }
    ensures rest { IfSome result (λ x. 8 + length x.1.now ≡ length bytes.now) }
{
    if bytes.len() < 8 {
        return None;
    }
    let (front, rest) = bytes.split_at(8);
    let number = u64::from_be_bytes([
        front[0], front[1], front[2], front[3], front[4], front[5], front[6], front[7],
    ]);
    Some((number, rest))
}

/// So many bytes, and those after them.
fn part_of(n: usize, bytes: &[u8]) -> Option<(&[u8], &[u8])>
    ensures value { option_map (λ x. (x.0.now, x.1.now)) result ≡ part_at n bytes.now }
    ensures rest { IfSome result (λ x. length x.0.now + length x.1.now ≡ length bytes.now) }
{
    if bytes.len() < n {
        return None;
    }
    Some(bytes.split_at(n))
}

/// How long the payload of a record is whose head stands here, and the bytes after the head.
#[tactic(auto, unfolding(records::specs::Reading::head_at))]
fn head_at(salt: u64, at: u64, bytes: &[u8]) -> Option<(usize, &[u8])>
    ensures value { option_map (λ x. (x.0, x.1.now)) result ≡ spec.head_at salt at bytes.now }
    ensures rest { IfSome result (λ x. 12 + length x.1.now ≡ length bytes.now) }
{
    let (n, rest) = u32_at(bytes)?;
    let (sum, rest) = u64_at(rest)?;
    let size = n as usize;
    if size <= LARGEST_PAYLOAD && sum == sum_of(salt, at, &n.to_be_bytes()) {
        Some((size, rest))
    } else {
        None
    }
}

/// The payload of a whole record that stands here, and the bytes after it. Places count from the first byte of the file, whose
/// salt this is.
#[tactic(auto, unfolding(records::specs::Reading::record_at))]
pub(crate) fn record_at(salt: u64, at: u64, bytes: &[u8]) -> Option<(&[u8], &[u8])>
    ensures value { option_map (λ x. (x.0.now, x.1.now)) result ≡ spec.record_at salt at bytes.now }
    ensures rest { IfSome result (λ x. FRAME + length x.0.now + length x.1.now ≡ length bytes.now) }
{
    let (size, rest) = head_at(salt, at, bytes)?;
    let (payload, rest) = part_of(size, rest)?;
    let (sum, rest) = u64_at(rest)?;
    if sum == sum_of(salt, at, payload) {
        Some((payload, rest))
    } else {
        None
    }
}
