//! Why a folder can't be mended.

use ballot::Memory;
use std::alloc::{AllocError, AllocFailed};
use store::{DeviceError, StoreFault};
use thiserror::Error;

/// Why a folder can't be mended. The text follows the path of the folder.
#[derive(Clone, Copy, Debug, PartialEq, Eq, Error)]
pub enum MendFault {
    /// The folder can't be used.
    #[error("{0}")]
    Store(StoreFault),
    /// The damaged segment can't be set aside: another file has this name.
    #[error("/{segment:08}.log.damaged is in the way")]
    InTheWay { segment: u64 },
    /// The opening of the newest segment is damaged, and nothing can be taken in place of it.
    #[error(" has no whole segment before {segment:08}.log")]
    Nothing { segment: u64 },
    /// The names of all accounts must be known: what can't be read may have names that stand nowhere else.
    #[error(": say --accounts FILE: what can't be read may have names of users")]
    NoNames,
}

impl From<StoreFault> for MendFault {
    fn from(fault: StoreFault) -> MendFault {
        MendFault::Store(fault)
    }
}

impl From<DeviceError> for MendFault {
    fn from(error: DeviceError) -> MendFault {
        MendFault::Store(StoreFault::from(error))
    }
}

impl From<Memory> for MendFault {
    fn from(_error: Memory) -> MendFault {
        MendFault::Store(StoreFault::Memory)
    }
}

impl From<AllocError> for MendFault {
    fn from(_error: AllocError) -> MendFault {
        MendFault::Store(StoreFault::Memory)
    }
}

impl<T: Drop> From<AllocFailed<T>> for MendFault {
    fn from(_error: AllocFailed<T>) -> MendFault {
        MendFault::Store(StoreFault::Memory)
    }
}
