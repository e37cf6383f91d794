//! Why an event can't happen.
ghost use Rattle.std.specs.Prelude.{◌≡◌};
ghost use Rattle.runs.specs.Refusals.{refusal_number};

use ballot::Memory;
use thiserror::Error;

/// Why an event can't happen. All but `Memory` leave the service as it was.
#[derive(Clone, Copy, Debug, PartialEq, Eq, Error)]
pub enum Refused {
    /// No message was sent as this number.
    #[error("no such message was sent")]
    NotSent,
    /// There is no such node, or it has stopped.
    #[error("the node is down")]
    Down,
    /// There is no such session, or it is over.
    #[error("there is no such session")]
    NoSession,
    /// The session awaits an answer, or takes one that isn't there.
    #[error("the session is busy")]
    Busy,
    /// The user has no maildrop.
    #[error("there is no such user")]
    NoSuchUser,
    /// There was such a session before.
    #[error("the session exists")]
    SessionExists,
    /// A request for memory was refused. The node or the session that it hit is down.
    #[error("there is no memory")]
    Memory,
}

impl From<Memory> for Refused {
    ghost use Rattle.std.specs.Prelude.{◌≡◌};
    ghost use Rattle.runs.specs.declared.refused.Refused.TheVariants as refused;

    ghost from_gives = { λ _ r. r ≡ refused.Memory };

    fn from(_error: Memory) -> Refused {
        Self::Memory
    }
}

impl Refused {
    /// Its fixed number: 1 `NotSent`, 2 `Down`, 3 `NoSession`, 4 `Busy`, 5 `NoSuchUser`, 6 `SessionExists`, 7 `Memory`.
    pub fn number(self) -> u8
        ensures { result ≡ refusal_number self }
    {
        match self {
            Refused::NotSent => 1,
            Refused::Down => 2,
            Refused::NoSession => 3,
            Refused::Busy => 4,
            Refused::NoSuchUser => 5,
            Refused::SessionExists => 6,
            Refused::Memory => 7,
        }
    }
}
