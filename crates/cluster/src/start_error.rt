//! Why a cluster doesn't start.
ghost use Rattle.std.specs.Prelude.{◌≡◌};
ghost use Rattle.cluster.specs.Starts.{start_number};

use ballot::Memory;
use std::alloc::{AllocError, AllocFailed};
use thiserror::Error;

/// Why a cluster doesn't start. None of its threads goes on.
#[derive(Clone, Copy, Debug, PartialEq, Eq, Error)]
pub enum StartError {
    /// A request for memory was refused.
    #[error("no memory")]
    Memory,
    /// The system gives no thread.
    #[error("no thread")]
    Thread,
    /// No node can begin so: the window isn't 1 to 1,000, or a node is none of the cluster's, or is there twice.
    #[error("no such node")]
    Setup,
}

impl From<Memory> for StartError {
    ghost use Rattle.std.specs.Prelude.{◌≡◌};
    ghost use Rattle.cluster.specs.declared.start_error.StartError.TheVariants as start;

    ghost from_gives = { λ _ e. e ≡ start.Memory };

    fn from(_error: Memory) -> StartError {
        StartError::Memory
    }
}

impl From<AllocError> for StartError {
    ghost use Rattle.std.specs.Prelude.{◌≡◌};
    ghost use Rattle.cluster.specs.declared.start_error.StartError.TheVariants as start;

    ghost from_gives = { λ _ e. e ≡ start.Memory };

    fn from(_error: AllocError) -> StartError {
        StartError::Memory
    }
}

impl<T: Drop> From<AllocFailed<T>> for StartError {
    ghost use Rattle.std.specs.Prelude.{◌≡◌};
    ghost use Rattle.cluster.specs.declared.start_error.StartError.TheVariants as start;

    ghost from_gives = { λ _ e. e ≡ start.Memory };

    fn from(_error: AllocFailed<T>) -> StartError {
        StartError::Memory
    }
}

impl StartError {
    /// Its fixed number: 1 `Memory`, 2 `Thread`, 3 `Setup`.
    pub fn number(&self) -> u8
        ensures { result ≡ start_number self.now }
    {
        match self {
            StartError::Memory => 1,
            StartError::Thread => 2,
            StartError::Setup => 3,
        }
    }
}
