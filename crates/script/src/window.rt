//! How far replicas may run ahead.
ghost use Rattle.std.specs.Prelude.{◌≡◌, ℕ, ◌≤◌, ◌↔◌, IsSome, IfSome};
ghost use Rattle.script.specs.Words.{widest_window};

use std::marker::Model;

/// The widest window.
const WIDEST: u64 = 1000;

/// How many slots, from the first undecided one on, a replica may propose for: 1 to 1,000.
#[derive(Clone, Copy, Debug, PartialEq, Eq)]
pub struct Window {
    slots: u64,
}

impl Model for Window {
    ghost Value = { ℕ };

    ghost view = { λ w. w.slots };

    ghost invariant = { λ w. (1 ≤ w.slots) × (w.slots ≤ widest_window) };

    ghost inverse = { λ n. record { slots = n } };
}

impl Window {
    /// The window of so many slots, if they are 1 to 1,000.
    pub fn new(slots: u64) -> Option<Self>
        ensures valid { IsSome result ↔ ((1 ≤ slots) × (slots ≤ widest_window)) }
        ensures value { IfSome result (λ window. window ≡ slots) }
    {
        if 1 <= slots && slots <= WIDEST {
            Some(Window { slots })
        } else {
            None
        }
    }

    /// The slots that the window was made of.
    pub fn get(self) -> u64
        ensures value { result ≡ self }
        ensures range { (1 ≤ self) × (self ≤ widest_window) }
    {
        self.slots
    }
}
