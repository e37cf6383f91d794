//! The nonce of a session's greeting.
ghost use Rattle.std.specs.Prelude.{◌≡◌, ◌↔◌, IsSome, IfSome};
ghost use Rattle.apop.specs.Stamp.{IsNonce};

use apop::stamp;
use pop3_wire::LineBytes;
use std::marker::Model;

/// A host that every nonce can stand before.
const ANY_HOST: &[u8] = b"localhost";

/// What stands before the `@` of a greeting's timestamp: 1 to 60 letters and digits, single dots between. It is kept
/// in its own place and takes no memory.
#[derive(Drop)]
pub struct Nonce {
    bytes: LineBytes,
}

impl Model for Nonce {
    ghost use Rattle.std.specs.Prelude.{ℕ, List};
    ghost use Rattle.apop.specs.Stamp.{IsNonce};

    ghost Value = { List ℕ };

    ghost view = { λ n. n.bytes };

    ghost invariant = { λ n. IsNonce n.bytes };
}

impl Nonce {
    /// The nonce of these bytes, if they are one.
    pub fn new(bytes: &[u8]) -> Option<Self>
        ensures valid { IsSome result ↔ IsNonce bytes.now }
        ensures value { IfSome result (λ nonce. nonce ≡ bytes.now) }
    {
        if stamp(bytes, ANY_HOST).is_none() {
            return None;
        }
        let bytes = LineBytes::new(bytes)?;
        Some(Nonce { bytes })
    }

    /// The bytes that the nonce was made of.
    pub fn get(&self) -> &[u8]
        ensures value { result.now ≡ self.now }
        ensures nonce { IsNonce self.now }
    {
        self.bytes.get()
    }
}
