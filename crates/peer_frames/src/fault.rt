//! Why bytes are no frame.
ghost use Rattle.std.specs.Prelude.{◌≡◌};
ghost use Rattle.peer_frames.specs.Numbers.{fault_number};

use crate::malformed::Malformed;
use ballot::Memory;
use std::alloc::{AllocError, AllocFailed};
use thiserror::Error;

/// Why bytes are no frame: the first fault from left to right. `Memory` can come in place of any answer to a frame with
/// commands.
#[derive(Clone, Copy, Debug, PartialEq, Eq, Error)]
pub enum FrameFault {
    /// The version is neither 1 nor 2.
    #[error("no such version")]
    Version,
    /// No message has this kind.
    #[error("no such kind")]
    Kind,
    /// A field is outside its range or breaks its rule.
    #[error("bad field")]
    Field,
    /// No frame has this length, or the fields are longer or shorter than it.
    #[error("bad length")]
    Length,
    #[error("no memory")]
    Memory,
}

impl From<Malformed> for FrameFault {
    ghost use Rattle.std.specs.Prelude.{◌≡◌};
    ghost use Rattle.peer_frames.specs.Reading.{fault_of};

    ghost from_gives = { λ m f. f ≡ fault_of m };

    fn from(malformed: Malformed) -> FrameFault {
        match malformed {
            Malformed::Version => FrameFault::Version,
            Malformed::Kind => FrameFault::Kind,
            Malformed::Field => FrameFault::Field,
            Malformed::Length => FrameFault::Length,
        }
    }
}

impl From<Memory> for FrameFault {
    ghost use Rattle.std.specs.Prelude.{◌≡◌};
    ghost use Rattle.peer_frames.specs.declared.fault.FrameFault.TheVariants as fault;

    ghost from_gives = { λ _ f. f ≡ fault.Memory };

    fn from(_error: Memory) -> FrameFault {
        FrameFault::Memory
    }
}

impl From<AllocError> for FrameFault {
    ghost use Rattle.std.specs.Prelude.{◌≡◌};
    ghost use Rattle.peer_frames.specs.declared.fault.FrameFault.TheVariants as fault;

    ghost from_gives = { λ _ f. f ≡ fault.Memory };

    fn from(_error: AllocError) -> FrameFault {
        FrameFault::Memory
    }
}

impl<T: Drop> From<AllocFailed<T>> for FrameFault {
    ghost use Rattle.std.specs.Prelude.{◌≡◌};
    ghost use Rattle.peer_frames.specs.declared.fault.FrameFault.TheVariants as fault;

    ghost from_gives = { λ _ f. f ≡ fault.Memory };

    fn from(_error: AllocFailed<T>) -> FrameFault {
        FrameFault::Memory
    }
}

impl FrameFault {
    /// The fault's fixed number: 1 `Version`, 2 `Kind`, 3 `Field`, 4 `Length`, 5 `Memory`.
    pub fn number(&self) -> u8
        ensures { result ≡ fault_number self.now }
    {
        match self {
            FrameFault::Version => 1,
            FrameFault::Kind => 2,
            FrameFault::Field => 3,
            FrameFault::Length => 4,
            FrameFault::Memory => 5,
        }
    }
}
