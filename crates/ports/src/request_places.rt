//! The places of operators' connections.
ghost use Rattle.std.specs.Prelude.{◌≡◌, ◌+◌, ◌-◌, true, false};
ghost use Rattle.ports.specs.Places as spec;

use crate::operator_limits::MOST_PLACES;
use std::sync::{Mutex, Wait};

/// Counts one more, if there is a place for it. Returns whether there is.
fn take(taken: &mut usize) -> bool
    ensures has_place { result ≡ spec.has_place taken.old }
    ensures one_more { result ≡ true → taken.new ≡ taken.old + 1 }
    ensures same { result ≡ false → taken.new ≡ taken.old }
{
    if *taken >= MOST_PLACES {
        return false;
    }
    *taken += 1;
    true
}

/// Counts one less.
fn leave(taken: &mut usize)
    ensures { taken.new ≡ taken.old - 1 }
{
    *taken = taken.saturating_sub(1);
}

/// How many connections of operators are unread or wait for nodes. When all places are taken, there is still a thread for a
/// request that waits for no node.
#[derive(Drop)]
pub struct RequestPlaces {
    taken: Mutex<usize>,
}

impl RequestPlaces {
    /// None is taken.
    pub fn new() -> Self {
        RequestPlaces {
            taken: Mutex::new(0),
        }
    }

    /// Takes a place. Returns false if there is none.
    pub fn take<R: Wait>(&self, rt: &R) -> bool {
        take(&mut *self.taken.lock(rt))
    }

    /// Leaves a place that was taken.
    pub fn leave<R: Wait>(&self, rt: &R) {
        leave(&mut *self.taken.lock(rt));
    }
}
