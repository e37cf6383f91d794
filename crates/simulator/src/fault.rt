//! Why a script isn't played to its end.
ghost use Rattle.std.specs.Prelude.{◌≡◌};
ghost use Rattle.simulator.specs.Statuses.{line_at, status_at};

use ballot::Memory;
use thiserror::Error;

/// Why a script isn't played to its end. Its text is what the program reports on standard error.
#[derive(Clone, Copy, Debug, PartialEq, Eq, Error)]
pub(crate) enum Fault {
    /// The line of this number, counted from 1, is none of the language, or may not come at its place.
    #[error("script line {0}")]
    Line(u64),
    #[error("no memory")]
    Memory,
    #[error("read failed")]
    Read,
    #[error("write failed")]
    Write,
}

impl From<Memory> for Fault {
    ghost use Rattle.std.specs.Prelude.{◌≡◌};
    ghost use Rattle.simulator.specs.declared.fault.Fault.TheVariants as fault;

    ghost from_gives = { λ _ f. f ≡ fault.Memory };

    fn from(_error: Memory) -> Fault {
        Self::Memory
    }
}

impl Fault {
    /// The exit status: 2 for a line of the script, 1 for a fault of memory, reading or writing.
    pub(crate) fn status(self) -> u8
        ensures { result ≡ status_at self }
    {
        match self {
            Fault::Line(_) => 2,
            Fault::Memory | Fault::Read | Fault::Write => 1,
        }
    }

    /// The number of the line at fault, if one is.
    pub(crate) fn line(self) -> Option<u64>
        ensures { result ≡ line_at self }
    {
        match self {
            Fault::Line(number) => Some(number),
            Fault::Memory | Fault::Read | Fault::Write => None,
        }
    }
}
