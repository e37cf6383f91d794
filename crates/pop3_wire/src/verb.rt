//! The commands of a client.
ghost use Rattle.std.specs.Prelude.{◌≡◌};
ghost use Rattle.pop3_wire.specs.Commands.{fault_number};

use crate::line_bytes::LineBytes;
use maildrop::Name;
use thiserror::Error;

/// The words that begin a command (RFC 1939 sections 4 to 7; CAPA: RFC 2449 section 5).
#[derive(Clone, Copy, Debug, PartialEq, Eq)]
pub enum Keyword {
    User,
    Pass,
    Apop,
    Stat,
    List,
    Retr,
    Dele,
    Noop,
    Rset,
    Top,
    Uidl,
    Capa,
    Quit,
}

/// A command with its arguments (RFC 1939 sections 4 to 7, RFC 2449 section 5).
#[derive(Drop)]
pub enum Verb {
    User(Name),
    /// The secret, spaces included.
    Pass(LineBytes),
    /// The digest as it came, 1 to 40 bytes of 0x21 to 0x7E.
    Apop { name: Name, digest: LineBytes },
    Stat,
    /// One message, or all.
    List(Option<u32>),
    Retr(u32),
    Dele(u32),
    Noop,
    Rset,
    /// The lines of a message up to the first empty one, and this many more.
    Top { number: u32, lines: u32 },
    /// One message, or all.
    Uidl(Option<u32>),
    Capa,
    Quit,
}

/// Why a line is no command.
#[derive(Clone, Copy, Debug, PartialEq, Eq, Error)]
pub enum LineFault {
    #[error("unknown keyword")]
    Unknown,
    #[error("bad arguments")]
    Arguments(Keyword),
}

impl LineFault {
    /// The number of the fault.
    pub fn number(&self) -> u8
        ensures { result ≡ fault_number self.now }
    {
        match self {
            LineFault::Unknown => 1,
            LineFault::Arguments(_) => 2,
        }
    }
}
