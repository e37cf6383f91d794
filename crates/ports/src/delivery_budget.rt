//! How many bytes the files have that are delivered at a time.
ghost use Rattle.std.specs.Prelude.{◌≡◌, ◌-◌, true, false};
ghost use Rattle.ports.specs.Budgets as spec;

use std::sync::{Condvar, Mutex, Wait};
use std::time::{Clock, Duration};

/// Whether a file of so many bytes may come beside those that have so many together. One that is larger than all may be
/// comes alone.
fn fits(used: u64, most: u64, count: u64) -> bool
    ensures { result ≡ spec.fits used most count }
{
    used == 0 || (used <= most && count <= most - used)
}

/// Adds the bytes of a file, if it may come. Returns whether it may.
fn take(used: &mut u64, most: u64, count: u64) -> bool
    ensures fits { result ≡ spec.fits used.old most count }
    ensures taken { result ≡ true → used.new ≡ spec.used_with used.old count }
    ensures same { result ≡ false → used.new ≡ used.old }
{
    if !fits(*used, most, count) {
        return false;
    }
    *used = used.saturating_add(count);
    true
}

/// Takes off the bytes of a file.
fn give(used: &mut u64, count: u64)
    ensures { used.new ≡ used.old - count }
{
    *used = used.saturating_sub(count);
}

/// The bytes of all files that are being delivered.
#[derive(Drop)]
pub struct DeliveryBudget {
    used: Mutex<u64>,
    changes: Condvar,
    most: u64,
}

impl DeliveryBudget {
    /// Files of so many bytes together may come at a time.
    pub fn new(most: u64) -> Self {
        DeliveryBudget {
            used: Mutex::new(0),
            changes: Condvar::new(),
            most,
        }
    }

    /// Waits until a file of so many bytes may come, at most so long. Returns whether it may.
    pub fn take_within<R: Wait + Clock>(&self, rt: &R, count: u64, time: Duration) -> bool {
        let most = self.most;
        let guard = self.used.lock(rt);
        let (mut guard, _) = self
            .changes
            .wait_timeout_while(rt, guard, time, |used| !fits(*used, most, count));
        take(&mut *guard, most, count)
    }

    /// A file of so many bytes has been delivered, or was given up.
    pub fn give<R: Wait>(&self, rt: &R, count: u64) {
        give(&mut *self.used.lock(rt), count);
        self.changes.notify_all();
    }
}
