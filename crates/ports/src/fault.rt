//! Why a service, or an operator's request, ends before its end.
ghost use Rattle.std.specs.Prelude.{◌≡◌};
ghost use Rattle.ports.specs.Faults.{status_at, is_of_folder};

use ballot::Memory;
use std::alloc::{AllocError, AllocFailed};
use std::net::IpAddr;
use thiserror::Error;

/// Why a run ends before its end. Its text is what the program says on standard error.
#[derive(Clone, Copy, Debug, PartialEq, Eq, Error)]
pub enum Fault {
    /// An option or a word is out of its range.
    #[error("bad value")]
    Value,
    /// This line of the accounts file is neither empty nor an account.
    #[error("accounts line {0}")]
    Account(usize),
    /// The name in this line of the accounts file stands in a line before it.
    #[error("accounts line {0}: name twice")]
    NameTwice(usize),
    /// No line of the accounts file is an account, which it is to have as an epoch begins after another one.
    #[error("accounts: none")]
    NoAccounts,
    /// The port is in use, or isn't the user's to take.
    #[error("cannot listen on {0}:{1}")]
    Listen(IpAddr, u16),
    /// The operator's socket can't be made.
    #[error("cannot listen on the operator's socket")]
    ListenSocket,
    /// Nobody listens at the port.
    #[error("cannot reach 127.0.0.1:{0}")]
    Reach(u16),
    /// Nobody listens at the operator's socket.
    #[error("cannot reach the operator's socket")]
    ReachSocket,
    /// The node was started before, by a mark that lies there.
    #[error("node {0} was started before")]
    StartedBefore(u8),
    /// The mark of a node can't be made.
    #[error("cannot make the node's mark")]
    Mark,
    /// The log can't be opened.
    #[error("cannot open the log")]
    Log,
    /// Another process uses the data folder. The text goes after the folder's path, as those of the next five.
    #[error(" is in use")]
    InUse,
    /// There is no data folder, or none that was begun.
    #[error(" was not begun")]
    NotBegun,
    /// A folder that is to be begun has something in it.
    #[error(" is not empty")]
    NotEmpty,
    /// The segment of this number is damaged at this byte.
    #[error("/{0:08}.log is damaged at byte {1}")]
    Damaged(u64, u64),
    /// The segment of this number is noted as the newest, and isn't there.
    #[error("/{0:08}.log is missing")]
    Missing(u64),
    /// The note of the last clean end can't be read back.
    #[error("/clean is damaged")]
    NoteDamaged,
    /// Fewer than a majority of the nodes were up for longer than the options allow.
    #[error("no majority")]
    NoMajority,
    /// A request for memory was refused, or one for a thread.
    #[error("no memory")]
    Memory,
    #[error("read failed")]
    Read,
    #[error("write failed")]
    Write,
}

impl Fault {
    /// Whether its text goes after the path of the data folder.
    pub fn is_of_folder(self) -> bool
        ensures { result ≡ is_of_folder self }
    {
        matches!(
            self,
            Fault::InUse
                | Fault::NotBegun
                | Fault::NotEmpty
                | Fault::Damaged(_, _)
                | Fault::Missing(_)
                | Fault::NoteDamaged
        )
    }

    /// The exit status: 2 for a fault of the options, the words or the accounts file and for a node that was started before,
    /// 1 for a fault of memory, reading, writing or the network.
    pub fn status(self) -> u8
        ensures { result ≡ status_at self }
    {
        match self {
            Fault::Value
            | Fault::Account(_)
            | Fault::NameTwice(_)
            | Fault::NoAccounts
            | Fault::StartedBefore(_) => 2,
            Fault::Listen(_, _)
            | Fault::ListenSocket
            | Fault::Reach(_)
            | Fault::ReachSocket
            | Fault::Mark
            | Fault::Log
            | Fault::InUse
            | Fault::NotBegun
            | Fault::NotEmpty
            | Fault::Damaged(_, _)
            | Fault::Missing(_)
            | Fault::NoteDamaged
            | Fault::NoMajority
            | Fault::Memory
            | Fault::Read
            | Fault::Write => 1,
        }
    }
}

impl From<Memory> for Fault {
    ghost use Rattle.std.specs.Prelude.{◌≡◌};
    ghost use Rattle.ports.specs.declared.fault.Fault.TheVariants as fault;

    ghost from_gives = { λ _ f. f ≡ fault.Memory };

    fn from(_error: Memory) -> Fault {
        Fault::Memory
    }
}

impl From<AllocError> for Fault {
    ghost use Rattle.std.specs.Prelude.{◌≡◌};
    ghost use Rattle.ports.specs.declared.fault.Fault.TheVariants as fault;

    ghost from_gives = { λ _ f. f ≡ fault.Memory };

    fn from(_error: AllocError) -> Fault {
        Fault::Memory
    }
}

impl<T: Drop> From<AllocFailed<T>> for Fault {
    ghost use Rattle.std.specs.Prelude.{◌≡◌};
    ghost use Rattle.ports.specs.declared.fault.Fault.TheVariants as fault;

    ghost from_gives = { λ _ f. f ≡ fault.Memory };

    fn from(_error: AllocFailed<T>) -> Fault {
        Fault::Memory
    }
}
