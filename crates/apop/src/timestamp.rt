//! The timestamp of a greeting.
ghost use Rattle.std.specs.Prelude.{◌≡◌, ◌≤◌, ◌↔◌, length, IsSome, IfSome};
ghost use Rattle.apop.specs.Stamp.{IsNonce, IsHost, are_runs as runs_of, is_letter_or_digit as letter_or_digit, may_follow as follows};

use arrayvec::ArrayVec;
use std::marker::Model;

/// The most characters of a nonce.
const LONGEST_NONCE: usize = 60;

/// The most characters of a host.
const LONGEST_HOST: usize = 100;

/// A timestamp `<nonce@host>` (RFC 1939 section 7, APOP). It is kept in its own place, so a copy takes no memory.
#[derive(Drop)]
pub struct Stamp {
    nonce: ArrayVec<u8, { LONGEST_NONCE }>,
    host: ArrayVec<u8, { LONGEST_HOST }>,
}

impl Model for Stamp {
    ghost use Rattle.apop.specs.Stamp.{Stamp, IsNonce, IsHost};

    ghost Value = { Stamp };

    ghost view = { λ s. record { nonce = s.nonce.items; host = s.host.items } };

    ghost invariant = { λ s. IsNonce s.nonce.items × IsHost s.host.items };
}

fn is_letter_or_digit(byte: u8) -> bool
    ensures { result ≡ letter_or_digit byte }
{
    byte.is_ascii_alphanumeric()
}

fn may_follow(hyphens: bool, before: u8, byte: u8) -> bool
    ensures { result ≡ follows hyphens before byte }
{
    is_letter_or_digit(byte)
        || (byte == b'.' && is_letter_or_digit(before))
        || (hyphens && byte == b'-' && (is_letter_or_digit(before) || before == b'-'))
}

fn are_runs(hyphens: bool, text: &[u8]) -> bool
    ensures { result ≡ runs_of hyphens text.now }
{
    let mut before = b'.';
    for byte in text {
        if !may_follow(hyphens, before, *byte) {
            return false;
        }
        before = *byte;
    }
    is_letter_or_digit(before)
}

fn array_of<const N: usize>(bytes: &[u8]) -> ArrayVec<u8, N>
    requires { length bytes.now ≤ N }
    ensures { result.items ≡ bytes.now }
{
    let mut array = ArrayVec::new();
    array.try_extend_from_slice(bytes).unwrap();
    array
}

impl Stamp {
    pub(crate) fn new(nonce: &[u8], host: &[u8]) -> Option<Self>
        ensures valid { IsSome result ↔ (IsNonce nonce.now × IsHost host.now) }
        ensures value { IfSome result (λ stamp. stamp ≡ record { nonce = nonce.now; host = host.now }) }
    {
        if nonce.len() > LONGEST_NONCE
            || host.len() > LONGEST_HOST
            || !are_runs(false, nonce)
            || !are_runs(true, host)
        {
            return None;
        }
        Some(Stamp {
            nonce: array_of(nonce),
            host: array_of(host),
        })
    }

    /// The nonce and the host that the timestamp was made of.
    pub fn get(&self) -> (&[u8], &[u8])
        ensures nonce { result.0.now ≡ self.now.nonce }
        ensures host { result.1.now ≡ self.now.host }
        ensures ranges { IsNonce self.now.nonce × IsHost self.now.host }
    {
        (&self.nonce, &self.host)
    }

    /// The same timestamp again. Takes no memory.
    pub fn copy(&self) -> Self
        ensures { result ≡ self.now }
    {
        Stamp {
            nonce: array_of(&self.nonce),
            host: array_of(&self.host),
        }
    }
}
