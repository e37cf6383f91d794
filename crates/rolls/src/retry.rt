//! When what failed is tried again.
ghost use Rattle.std.specs.Prelude.{◌≡◌};
ghost use Rattle.rolls.specs.Retries.{next_wait_ms};

use crate::progress::millis_since;
use std::time::{Clock, Instant};

/// After how many milliseconds an epoch that is to end is tried to end again, once what the next one needs couldn't be had. The time doubles
/// with each try.
const FIRST_RETRY_MS: u64 = 1_000;

/// How many milliseconds lie between two such tries at most.
const LAST_RETRY_MS: u64 = 60_000;

/// When an epoch that is to end by itself is tried to end again.
#[derive(Drop)]
pub struct Retry {
    /// When it was tried last, unless it wasn't, or the clock couldn't be read.
    tried: Option<Instant>,
    /// How many milliseconds after that it is tried again.
    wait_ms: u64,
}

impl Retry {
    /// Before the first try, which is due at once.
    pub fn new() -> Self {
        Retry {
            tried: None,
            wait_ms: 0,
        }
    }

    /// Whether it is to be tried now.
    pub fn is_due<R: Clock>(&self, rt: &R) -> bool {
        millis_since(rt, &self.tried) >= self.wait_ms
    }

    /// It was tried in vain now. The next try is due after 1 s, then after twice as long each time, up to a minute.
    pub fn note<R: Clock>(&mut self, rt: &R) {
        self.tried = Instant::now(rt).ok();
        self.wait_ms = next_wait(self.wait_ms);
    }
}

/// How many milliseconds after a try the next one comes, if so many lay before it.
fn next_wait(wait_ms: u64) -> u64
    ensures { result ≡ next_wait_ms wait_ms }
{
    wait_ms
        .saturating_mul(2)
        .max(FIRST_RETRY_MS)
        .min(LAST_RETRY_MS)
}
