//! Why an audit finds no legal order.
ghost use Rattle.std.specs.Prelude.{◌≡◌};
ghost use Rattle.audit.specs.Audits.{error_number};

use ballot::{Memory, NodeId};
use std::alloc::{AllocError, AllocFailed};
use thiserror::Error;

/// Why an audit gives no events.
#[derive(Clone, Copy, Debug, PartialEq, Eq, Error)]
pub enum AuditError {
    /// Some inputs of logs can't come in any order, and this is the least number of a node that has one.
    #[error("there is no legal order")]
    NoOrder(NodeId),
    /// All inputs can come, and this is the place of the first transcript, counted from 0, that says something else of an
    /// operation or of its outcome than the logs do, names what an earlier entry named, has tickets of two nodes, or tells
    /// an outcome without a ticket.
    #[error("session {0} has a wrong answer")]
    WrongAnswer(usize),
    /// A request for memory was refused.
    #[error("there is no memory for the audit")]
    Memory,
}

impl AuditError {
    /// Its fixed number: 1 `NoOrder`, 2 `WrongAnswer`, 3 `Memory`.
    pub fn number(&self) -> u8
        ensures { result ≡ error_number self.now }
    {
        match self {
            AuditError::NoOrder(_) => 1,
            AuditError::WrongAnswer(_) => 2,
            AuditError::Memory => 3,
        }
    }
}

impl From<Memory> for AuditError {
    ghost use Rattle.std.specs.Prelude.{◌≡◌};
    ghost use Rattle.audit.specs.declared.audit_error.AuditError.TheVariants as error;

    ghost from_gives = { λ _ e. e ≡ error.Memory };

    fn from(_error: Memory) -> AuditError {
        Self::Memory
    }
}
