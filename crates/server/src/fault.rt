//! Why a run of the program ends before its end.
ghost use Rattle.std.specs.Prelude.{◌≡◌};
ghost use Rattle.server.specs.Lone.{status_at};

use thiserror::Error;

/// Why a run ends before its end. Its text is what the program reports on standard error.
#[derive(Clone, Copy, Debug, PartialEq, Eq, Error)]
pub enum Fault {
    /// The user is no name, the method none of the two, or the secret none that an account may have.
    #[error("accounts line 1")]
    Account,
    /// The nonce or the host is none of a timestamp.
    #[error("bad value")]
    Value,
    /// The mailbox file isn't one.
    #[error("bad mbox")]
    Mailbox,
    /// A message of the mailbox file is too large, or one too many.
    #[error("mail refused")]
    Mail,
    #[error("no memory")]
    Memory,
    #[error("read failed")]
    Read,
    #[error("write failed")]
    Write,
}

impl Fault {
    /// The exit status: 2 for a fault of the options, 3 for mail that is refused, 1 for a fault of memory, reading or
    /// writing.
    pub fn status(self) -> u8
        ensures { result ≡ status_at self }
    {
        match self {
            Fault::Account | Fault::Value | Fault::Mailbox => 2,
            Fault::Mail => 3,
            Fault::Memory | Fault::Read | Fault::Write => 1,
        }
    }
}
