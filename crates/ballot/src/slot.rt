//! The numbers of slots.
ghost use Rattle.std.specs.Prelude.{◌≡◌, ℕ, ◌≤◌, ◌↔◌, IsSome, IfSome};
ghost use Rattle.ballot.specs.declared.slot.TheConstants.{LAST_SLOT};

use std::marker::Model;

/// The highest number of a slot.
pub const LAST_SLOT: u64 = (1 << 63) - 1;

/// The number of a slot, 1 to `LAST_SLOT`.
#[derive(Clone, Copy, Debug, PartialEq, Eq, PartialOrd, Ord, Hash)]
pub struct Slot {
    number: u64,
}

impl Model for Slot {
    ghost Value = { ℕ };

    ghost view = { λ s. s.number };

    ghost invariant = { λ s. (1 ≤ s.number) × (s.number ≤ LAST_SLOT) };

    ghost inverse = { λ n. record { number = n } };
}

impl Slot {
    /// The slot of this number, if it is 1 to `LAST_SLOT`.
    pub fn new(number: u64) -> Option<Self>
        ensures valid { IsSome result ↔ ((1 ≤ number) × (number ≤ LAST_SLOT)) }
        ensures value { IfSome result (λ s. s ≡ number) }
    {
        if 1 <= number && number <= LAST_SLOT {
            Some(Slot { number })
        } else {
            None
        }
    }

    /// The number that the slot was made of.
    pub fn get(self) -> u64
        ensures value { result ≡ self }
        ensures range { (1 ≤ self) × (self ≤ LAST_SLOT) }
    {
        self.number
    }
}
