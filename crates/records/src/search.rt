//! Looks for a whole record after a bad one.
ghost use Rattle.std.specs.Prelude.{◌≡◌, ◌+◌, ◌-◌, ◌<◌, ◌≤◌, ◌^◌, ℕ, length, drop, true, false};
ghost use Rattle.records.specs.Files.{IsBad, Resumes};
ghost use Rattle.records.specs.Search.{StandsAt};

use crate::place::{FRAME, LARGEST_PAYLOAD, is_cut, record_at};

/// How far a search came.
#[derive(Clone, Copy)]
pub(crate) struct Passed {
    /// How many places at the front have a bad record.
    pub count: usize,
    /// Whether a whole one stands at the next place. If not, the bytes end inside the record there.
    pub is_found: bool,
}

/// Passes over bad records at the front of bytes that stand at this place.
pub(crate) fn pass_over(salt: u64, at: u64, bytes: &[u8]) -> Passed
    requires { at + length bytes.now < 2 ^ 64 }
    ensures within { result.count ≤ length bytes.now }
    ensures bad { (j : ℕ) → j < result.count → IsBad salt (at + j) (drop j bytes.now) }
    ensures found { result.is_found ≡ true → StandsAt salt at result.count bytes.now }
    ensures small { result.is_found ≡ false → length bytes.now - result.count < FRAME + LARGEST_PAYLOAD }
{
    for k in 0..bytes.len() {
        let (_, rest) = bytes.split_at(k);
        let place = at + k as u64;
        if record_at(salt, place, rest).is_some() {
            return Passed {
                count: k,
                is_found: true,
            };
        }
        if is_cut(salt, place, rest) {
            return Passed {
                count: k,
                is_found: false,
            };
        }
    }
    Passed {
        count: bytes.len(),
        is_found: false,
    }
}

/// Whether a whole record stands somewhere in the bytes, which stand at this place.
pub(crate) fn resumes(salt: u64, at: u64, bytes: &[u8]) -> bool
    requires { at + length bytes.now < 2 ^ 64 }
    ensures found { result ≡ true → Resumes salt at bytes.now }
    ensures none { result ≡ false → Resumes salt at bytes.now → ⊥ }
{
    for k in 0..bytes.len() {
        let (_, rest) = bytes.split_at(k);
        if record_at(salt, at + k as u64, rest).is_some() {
            return true;
        }
    }
    false
}
