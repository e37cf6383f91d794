//! Why a file of accounts is refused.
ghost use Rattle.std.specs.Prelude.{◌≡◌};
ghost use Rattle.apop.specs.Accounts.{error_number};

use ballot::Memory;
use thiserror::Error;

/// Why a file of accounts is refused: its first line at fault, counted from 1, or want of memory.
#[derive(Clone, Copy, Debug, PartialEq, Eq, Error)]
pub enum AccountsError {
    /// This line is neither empty nor an account.
    #[error("line {0} is no account")]
    Line(usize),
    /// The name of this line's account stands in a line before it.
    #[error("the name in line {0} stands before")]
    Twice(usize),
    #[error("no memory")]
    Memory,
}

impl From<Memory> for AccountsError {
    ghost use Rattle.std.specs.Prelude.{◌≡◌};
    ghost use Rattle.apop.specs.declared.error.AccountsError.TheVariants as error;

    ghost from_gives = { λ _ e. e ≡ error.Memory };

    fn from(_error: Memory) -> AccountsError {
        Self::Memory
    }
}

impl AccountsError {
    /// The error's fixed number: 1 `Line`, 2 `Twice`, 3 `Memory`.
    pub fn number(&self) -> u8
        ensures { result ≡ error_number self.now }
    {
        match self {
            AccountsError::Line(_) => 1,
            AccountsError::Twice(_) => 2,
            AccountsError::Memory => 3,
        }
    }
}
