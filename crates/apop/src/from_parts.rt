//! A timestamp of its parts.
ghost use Rattle.std.specs.Prelude.{◌≡◌, ◌↔◌, IsSome, IfSome};
ghost use Rattle.apop.specs.Stamp.{IsNonce, IsHost};

use crate::timestamp::Stamp;

/// The timestamp `<nonce@host>`, if the nonce is 1 to 60 characters and the host 1 to 100, both runs of letters and
/// digits joined by single dots, the host's also with hyphens inside a run. Takes no memory.
pub fn stamp(nonce: &[u8], host: &[u8]) -> Option<Stamp>
    ensures valid { IsSome result ↔ (IsNonce nonce.now × IsHost host.now) }
    ensures value { IfSome result (λ stamp. stamp ≡ record { nonce = nonce.now; host = host.now }) }
{
    Stamp::new(nonce, host)
}
