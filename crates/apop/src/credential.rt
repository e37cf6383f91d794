//! What accounts log in by.
ghost use Rattle.std.specs.Prelude.{◌≡◌};
ghost use Rattle.apop.specs.Login as spec;

use crate::constant_time::same_bytes;
use crate::digest::digest_of;
use crate::method::Method;
use crate::timestamp::Stamp;
use ballot::Items;
use std::alloc::{Allocator, Global};

/// What an account logs in by.
#[derive(Drop)]
pub(crate) struct Credential<A: Allocator = Global> {
    pub(crate) method: Method,
    pub(crate) secret: Items<u8, A>,
}

impl<A: Allocator> Credential<A> {
    /// Whether PASS with this secret succeeds.
    pub(crate) fn admits_secret(&self, secret: &[u8]) -> bool
        ensures { result ≡ spec.admits_secret self.now.method self.now.secret secret.now }
    {
        match self.method {
            Method::Pass => same_bytes(self.secret.get(), secret),
            Method::Apop => false,
        }
    }

    /// Whether APOP with this digest succeeds after a greeting with this timestamp.
    pub(crate) fn admits_digest(&self, stamp: &Stamp, digest: &[u8]) -> bool
        ensures { result ≡ spec.admits_digest self.now.method self.now.secret stamp.now digest.now }
    {
        match self.method {
            Method::Pass => false,
            Method::Apop => same_bytes(&digest_of(stamp, self.secret.get()), digest),
        }
    }
}
