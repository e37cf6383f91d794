//! Why a mailbox is refused.
ghost use Rattle.std.specs.Prelude.{◌≡◌};
ghost use Rattle.mboxrd.specs.Mailbox.{error_number};

use ballot::Memory;
use thiserror::Error;

/// Why a mailbox is refused.
#[derive(Clone, Copy, Debug, PartialEq, Eq, Error)]
pub enum MboxError {
    /// The file isn't empty, and its first line does not begin a message.
    #[error("the first line does not start with `From `")]
    NoFromLine,
    #[error("no memory")]
    Memory,
}

impl From<Memory> for MboxError {
    ghost use Rattle.std.specs.Prelude.{◌≡◌};
    ghost use Rattle.mboxrd.specs.declared.error.MboxError.TheVariants as error;

    ghost from_gives = { λ _ e. e ≡ error.Memory };

    fn from(_error: Memory) -> MboxError {
        Self::Memory
    }
}

impl MboxError {
    /// The error's fixed number: 1 `NoFromLine`, 2 `Memory`.
    pub fn number(&self) -> u8
        ensures { result ≡ error_number self.now }
    {
        match self {
            MboxError::NoFromLine => 1,
            MboxError::Memory => 2,
        }
    }
}
