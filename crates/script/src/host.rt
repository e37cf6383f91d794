//! The host of a greeting.
ghost use Rattle.std.specs.Prelude.{◌≡◌, ◌↔◌, IsSome, IfSome};
ghost use Rattle.apop.specs.Stamp.{IsHost};

use apop::stamp;
use pop3_wire::LineBytes;
use std::marker::Model;

/// A nonce that can stand before every host.
const ANY_NONCE: &[u8] = b"1";

/// What stands after the `@` of the timestamps of all greetings: 1 to 100 letters and digits, hyphens inside a run of
/// them, single dots between. It is kept in its own place and takes no memory.
#[derive(Drop)]
pub struct Host {
    bytes: LineBytes,
}

impl Model for Host {
    ghost use Rattle.std.specs.Prelude.{ℕ, List};
    ghost use Rattle.apop.specs.Stamp.{IsHost};

    ghost Value = { List ℕ };

    ghost view = { λ h. h.bytes };

    ghost invariant = { λ h. IsHost h.bytes };
}

impl Host {
    /// The host of these bytes, if they are one.
    pub fn new(bytes: &[u8]) -> Option<Self>
        ensures valid { IsSome result ↔ IsHost bytes.now }
        ensures value { IfSome result (λ host. host ≡ bytes.now) }
    {
        if stamp(ANY_NONCE, bytes).is_none() {
            return None;
        }
        let bytes = LineBytes::new(bytes)?;
        Some(Host { bytes })
    }

    /// The bytes that the host was made of.
    pub fn get(&self) -> &[u8]
        ensures value { result.now ≡ self.now }
        ensures host { IsHost self.now }
    {
        self.bytes.get()
    }
}
