//! The head of a segment.
ghost use Rattle.std.specs.Prelude.{◌≡◌, ◌≤◌, ◌<◌, ◌++◌, length, take, true, false, if◌then◌else◌, IfSome, IfNone};
ghost use Rattle.records.specs.Heads as heads;
ghost use Rattle.records.specs.Spelling as first;
ghost use Rattle.batches.specs.Batches as second;

use crate::place::HEAD;

/// What a file of records begins with: a magic, and the version.
const RECORDS: &[u8] = b"mdropd\0\x01";

/// What a file of batches begins with.
const BATCHES: &[u8] = b"mdropd\0\x02";

/// How many bytes a magic has.
const MAGIC: usize = 8;

/// What the head of a segment says.
#[derive(Clone, Copy, Debug, PartialEq, Eq)]
pub struct Head {
    /// Whether it is a file of batches.
    pub is_batched: bool,
    /// What the sums of its records depend on.
    pub salt: u64,
}

/// The head that a file begins with, if it begins with one.
pub fn head_of(bytes: &[u8]) -> Option<Head>
    ensures salt { IfSome result (λ head. head.salt ≡ heads.salt_of bytes.now) }
    ensures version { IfSome result (λ head. take 8 bytes.now ≡ (if head.is_batched then second.magic else first.magic)) }
    ensures whole { IfSome result (λ head. HEAD ≤ length bytes.now) }
    ensures none { IfNone result (HEAD ≤ length bytes.now → (take 8 bytes.now ≡ second.magic → ⊥) × (take 8 bytes.now ≡ first.magic → ⊥)) }
{
    if bytes.len() < HEAD {
        return None;
    }
    let (magic, rest) = bytes.split_at(MAGIC);
    let is_batched = magic == BATCHES;
    if !is_batched && magic != RECORDS {
        return None;
    }
    let salt = u64::from_be_bytes([
        rest[0], rest[1], rest[2], rest[3], rest[4], rest[5], rest[6], rest[7],
    ]);
    Some(Head { is_batched, salt })
}
