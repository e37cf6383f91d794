//! When a node that is alone in its process ticks.
ghost use Rattle.std.specs.Prelude.{◌≡◌, ◌≤◌};
ghost use Rattle.service.specs.Paces as spec;

use std::marker::Model;

/// How many milliseconds lie between two ticks at most, if a majority is heard.
const SHORTEST_REST_MS: u64 = 1_000;

/// How many milliseconds lie between two ticks at most.
const LONGEST_REST_MS: u64 = 32_000;

/// When a node that is alone in its process ticks. It can't see whether another one waits for it, or has come further, so it
/// ticks once a second at least. Each tick asks again for all that awaits an answer, and the log keeps what comes of it. So
/// a node that hears too few others for a majority rests twice as long after each tick, up to 32 s.
#[derive(Drop)]
pub(crate) struct Pace {
    /// How many milliseconds have passed since the last tick.
    rested: u128,
    /// How many milliseconds lie between two ticks without a majority.
    rest: u64,
}

impl Model for Pace {
    ghost use Rattle.std.specs.Prelude.{◌≤◌};
    ghost use Rattle.service.specs.Paces.{Pace, longest_rest};

    ghost Value = { Pace };

    ghost view = { λ p. record { rested = p.rested; rest = p.rest } };

    ghost invariant = { λ p. (p.rested ≤ longest_rest) × (p.rest ≤ longest_rest) };
}

/// How many milliseconds a node rests after a tick without a majority, if it has rested so long before. With a majority this
/// is the shortest rest again.
fn next_rest(rest: u64, has_majority: bool) -> u64
    requires { rest ≤ spec.longest_rest }
    ensures value { result ≡ spec.next_rest rest has_majority }
    ensures range { result ≤ spec.longest_rest }
{
    if has_majority {
        return SHORTEST_REST_MS;
    }
    let doubled = 2 * rest;
    if LONGEST_REST_MS <= doubled {
        LONGEST_REST_MS
    } else {
        doubled
    }
}

impl Pace {
    /// The pace of a node that has just begun.
    pub(crate) fn new() -> Self
        ensures { result ≡ spec.new_pace }
    {
        Pace {
            rested: 0,
            rest: SHORTEST_REST_MS,
        }
    }

    /// So many milliseconds have passed. Returns whether the node ticks now. A busy node awaits an answer.
    pub(crate) fn is_due(&mut self, passed_ms: u64, is_busy: bool, has_majority: bool) -> bool
        ensures due { result ≡ spec.is_due self.old passed_ms is_busy has_majority }
        ensures pace { self.new ≡ spec.paced self.old passed_ms is_busy has_majority }
    {
        let rested = self.rested + u128::from(passed_ms);
        let is_due = if has_majority {
            is_busy || u128::from(SHORTEST_REST_MS) <= rested
        } else {
            u128::from(self.rest) <= rested
        };
        if is_due {
            self.rested = 0;
            self.rest = next_rest(self.rest, has_majority);
        } else {
            self.rested = rested;
        }
        is_due
    }
}
