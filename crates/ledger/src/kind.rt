//! The kinds of changes.
ghost use Rattle.std.specs.Prelude.{◌≡◌};
ghost use Rattle.ledger.specs.Payloads.{kind_of, kind_number, kind_of_change};

use maildrop::Change;
use std::alloc::Allocator;

/// The kind of a change.
#[derive(Clone, Copy, Debug, PartialEq, Eq)]
pub(crate) enum Kind {
    Stored,
    Removed,
    Keyed,
    Next,
}

impl Kind {
    /// The kind of this number, if there is one.
    pub(crate) fn of(number: u8) -> Option<Kind>
        ensures { result ≡ kind_of number }
    {
        match number {
            2 => Some(Kind::Stored),
            3 => Some(Kind::Removed),
            4 => Some(Kind::Keyed),
            5 => Some(Kind::Next),
            _ => None,
        }
    }
}

/// The number of a change's kind.
pub(crate) fn number_of<A: Allocator>(change: &Change<A>) -> u8
    ensures { result ≡ kind_number (kind_of_change change.now) }
{
    match change {
        Change::Stored { .. } => 2,
        Change::Removed(_) => 3,
        Change::Keyed { .. } => 4,
        Change::Next(_) => 5,
    }
}
