//! The digest of APOP.
ghost use Rattle.std.specs.Prelude.{◌≡◌};
ghost use Rattle.apop.specs.Login as spec;

use crate::timestamp::Stamp;
use md5::{Digest, Md5};

/// The digest that a user of this secret sends after a greeting with this timestamp. Takes no memory.
pub(crate) fn digest_of(stamp: &Stamp, secret: &[u8]) -> [u8; 32]
    ensures { result ≡ spec.digest_of stamp.now secret.now }
{
    let (nonce, host) = stamp.get();
    let mut hasher = Md5::new();
    hasher.update(b"<");
    hasher.update(nonce);
    hasher.update(b"@");
    hasher.update(host);
    hasher.update(b">");
    hasher.update(secret);
    let mut digits = [0; 32];
    hex::encode_to_slice(hasher.finalize(), &mut digits).unwrap();
    digits
}
