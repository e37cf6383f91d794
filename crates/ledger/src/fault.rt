//! Why bytes are no payload.

use crate::malformed::Malformed;
use ballot::Memory;
use std::alloc::{AllocError, AllocFailed};
use thiserror::Error;

/// Why bytes are no payload: the first fault from left to right. `Memory` can come in place of any answer to a payload with
/// a text or with unique ids.
#[derive(Clone, Copy, Debug, PartialEq, Eq, Error)]
pub enum PayloadFault {
    /// No record has this kind.
    #[error("no such kind")]
    Kind,
    /// A field is outside its range or breaks its rule.
    #[error("bad field")]
    Field,
    /// The fields are longer or shorter than the payload.
    #[error("bad length")]
    Length,
    #[error("no memory")]
    Memory,
}

impl From<Malformed> for PayloadFault {
    ghost use Rattle.std.specs.Prelude.{◌≡◌};
    ghost use Rattle.ledger.specs.Reading.{fault_of};

    ghost from_gives = { λ m f. f ≡ fault_of m };

    fn from(malformed: Malformed) -> PayloadFault {
        match malformed {
            Malformed::Kind => PayloadFault::Kind,
            Malformed::Field => PayloadFault::Field,
            Malformed::Length => PayloadFault::Length,
        }
    }
}

impl From<Memory> for PayloadFault {
    ghost use Rattle.std.specs.Prelude.{◌≡◌};
    ghost use Rattle.ledger.specs.declared.fault.PayloadFault.TheVariants as fault;

    ghost from_gives = { λ _ f. f ≡ fault.Memory };

    fn from(_error: Memory) -> PayloadFault {
        PayloadFault::Memory
    }
}

impl From<AllocError> for PayloadFault {
    ghost use Rattle.std.specs.Prelude.{◌≡◌};
    ghost use Rattle.ledger.specs.declared.fault.PayloadFault.TheVariants as fault;

    ghost from_gives = { λ _ f. f ≡ fault.Memory };

    fn from(_error: AllocError) -> PayloadFault {
        PayloadFault::Memory
    }
}

impl<T: Drop> From<AllocFailed<T>> for PayloadFault {
    ghost use Rattle.std.specs.Prelude.{◌≡◌};
    ghost use Rattle.ledger.specs.declared.fault.PayloadFault.TheVariants as fault;

    ghost from_gives = { λ _ f. f ≡ fault.Memory };

    fn from(_error: AllocFailed<T>) -> PayloadFault {
        PayloadFault::Memory
    }
}
