//! Why a script stops.

use ballot::Memory;
use thiserror::Error;

/// Why a line of a script isn't done. But for want of memory it is the script that is at fault.
#[derive(Clone, Copy, Debug, PartialEq, Eq, Error)]
pub enum ScriptFault {
    /// The line is none of the language, or a value in it is out of its range.
    #[error("no line of a script")]
    NoStatement,
    /// A setting stands after a command.
    #[error("a setting behind a command")]
    LateSetting,
    /// An account has the name of an account before it.
    #[error("a name that stands before")]
    NameTwice,
    #[error("no memory")]
    Memory,
}

impl From<Memory> for ScriptFault {
    ghost use Rattle.std.specs.Prelude.{◌≡◌};
    ghost use Rattle.script.specs.declared.fault.ScriptFault.TheVariants as fault;

    ghost from_gives = { λ _ e. e ≡ fault.Memory };

    fn from(_error: Memory) -> ScriptFault {
        Self::Memory
    }
}
