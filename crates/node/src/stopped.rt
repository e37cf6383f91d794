//! Why a node takes no input any more.
ghost use Rattle.std.specs.Prelude.{◌≡◌};
ghost use Rattle.node.specs.Stops.{stop_number};

use ballot::Memory;
use thiserror::Error;

/// Why a node takes no input any more. It is for good.
#[derive(Clone, Copy, Debug, PartialEq, Eq, Error)]
pub enum Stopped {
    /// It was told to crash.
    #[error("the node has crashed")]
    Crashed,
    /// A request for memory was refused.
    #[error("the node has no memory")]
    Memory,
    /// A user has used up the numbers of this node's tickets.
    #[error("the node has no ticket for the user")]
    TicketsUsed,
}

impl From<Memory> for Stopped {
    ghost use Rattle.std.specs.Prelude.{◌≡◌};
    ghost use Rattle.node.specs.declared.stopped.Stopped.TheVariants as stopped;

    ghost from_gives = { λ _ s. s ≡ stopped.Memory };

    fn from(_error: Memory) -> Stopped {
        Self::Memory
    }
}

impl Stopped {
    /// Its fixed number: 1 `Crashed`, 2 `Memory`, 3 `TicketsUsed`.
    pub fn number(&self) -> u8
        ensures { result ≡ stop_number self.now }
    {
        match self {
            Stopped::Crashed => 1,
            Stopped::Memory => 2,
            Stopped::TicketsUsed => 3,
        }
    }
}
