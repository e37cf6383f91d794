//! What fits into a payload.
ghost use Rattle.std.specs.Prelude.{◌≡◌};
ghost use Rattle.ledger.specs.Payloads as spec;

use maildrop::Change;
use std::alloc::Allocator;

/// The lengths and numbers of items that a payload has are below this.
const LIMIT: u64 = 1 << 32;

/// Whether a change can be written: a text has fewer than 2^32 octets, and a list fewer than 2^32 unique ids.
pub fn fits<A: Allocator + Copy>(change: &Change<A>) -> bool
    ensures { result ≡ spec.fits change.now }
{
    match change {
        Change::Stored { text, .. } => text.octets() < LIMIT as u128,
        Change::Removed(uids) => (uids.get().len() as u64) < LIMIT,
        Change::Keyed { .. } | Change::Next(_) => true,
    }
}
