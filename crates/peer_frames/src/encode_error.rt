//! Why an envelope has no frame.
ghost use Rattle.std.specs.Prelude.{◌≡◌};
ghost use Rattle.peer_frames.specs.Numbers.{error_number};

use ballot::Memory;
use std::alloc::{AllocError, AllocFailed};
use thiserror::Error;

/// Why an envelope has no frame.
#[derive(Clone, Copy, Debug, PartialEq, Eq, Error)]
pub enum EncodeError {
    /// Its content would be longer than 2^30 bytes.
    #[error("too long for a frame")]
    TooLong,
    #[error("no memory")]
    Memory,
}

impl From<Memory> for EncodeError {
    ghost use Rattle.std.specs.Prelude.{◌≡◌};
    ghost use Rattle.peer_frames.specs.declared.encode_error.EncodeError.TheVariants as error;

    ghost from_gives = { λ _ e. e ≡ error.Memory };

    fn from(_error: Memory) -> EncodeError {
        EncodeError::Memory
    }
}

impl From<AllocError> for EncodeError {
    ghost use Rattle.std.specs.Prelude.{◌≡◌};
    ghost use Rattle.peer_frames.specs.declared.encode_error.EncodeError.TheVariants as error;

    ghost from_gives = { λ _ e. e ≡ error.Memory };

    fn from(_error: AllocError) -> EncodeError {
        EncodeError::Memory
    }
}

impl<T: Drop> From<AllocFailed<T>> for EncodeError {
    ghost use Rattle.std.specs.Prelude.{◌≡◌};
    ghost use Rattle.peer_frames.specs.declared.encode_error.EncodeError.TheVariants as error;

    ghost from_gives = { λ _ e. e ≡ error.Memory };

    fn from(_error: AllocFailed<T>) -> EncodeError {
        EncodeError::Memory
    }
}

impl EncodeError {
    /// The error's fixed number: 1 `TooLong`, 2 `Memory`.
    pub fn number(&self) -> u8
        ensures { result ≡ error_number self.now }
    {
        match self {
            EncodeError::TooLong => 1,
            EncodeError::Memory => 2,
        }
    }
}
