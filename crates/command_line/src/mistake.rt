//! What the second line on standard error says, below a fault: which mistake led to it.

use crate::account_lines::LineRule;
use crate::range::Bound;
use crate::unread::Unread;
use thiserror::Error;

/// Which mistake led to a fault. A mistake that isn't certain is none of these, and no second line is written.
#[derive(Clone, Copy, Debug, Error)]
pub enum Mistake<'a> {
    /// An option whose number isn't within these.
    #[error("--{0} is {1} to {2}")]
    OutOfRange(&'a str, u64, Bound),
    /// The last of the nodes would have no port.
    #[error("--{0} is 0 to {1} with --nodes {2}")]
    PortsOfNodes(&'a str, u64, u64),
    #[error("clients have no port: give --port or --pop-port")]
    NoPort,
    #[error("give one of --ctl-port and --ctl-socket")]
    OperatorsPlaces,
    #[error("--node needs --peer-port")]
    NodeWithoutPeers,
    #[error("--node can't be used with --data")]
    NodeWithData,
    #[error("--mark needs --node")]
    MarkWithoutNode,
    #[error("--sync and --keep need --data")]
    NoData,
    #[error("--listen is an IP address")]
    Listen,
    #[error("--sync is disk or process")]
    Sync,
    #[error("--on-fault is stop or go-on")]
    OnFault,
    #[error("--host is 1 to 100 characters: letters and digits, joined by single dots or by hyphens")]
    Host,
    #[error("--nonce is 1 to 60 characters: letters and digits, joined by single dots")]
    Nonce,
    #[error("--user is 1 to 40 visible ASCII characters")]
    User,
    #[error("--method is pass or apop")]
    Method,
    #[error("--secret is 1 to 255 bytes without control characters")]
    Secret,
    #[error("NAME is 1 to 40 visible ASCII characters")]
    Name,
    #[error("say --cut or --salvage, not both")]
    BothWays,
    #[error("accounts line {0}: {1}")]
    AccountLine(usize, LineRule),
    #[error("the accounts file has more than 64 MiB")]
    LargeAccounts,
    #[error("cannot read {0}: {1}")]
    CannotRead(&'a str, Unread),
    /// The segment of this number, in this folder.
    #[error("cannot read {0}/{1:08}.log: {2}")]
    CannotReadSegment(&'a str, u64, Unread),
    #[error("{0} is no mailbox file: its first line doesn't begin with \"From \"")]
    NoMailbox(&'a str),
    #[error("make it once: maildropd begin --data {0}")]
    NotBegun(&'a str),
    #[error("the port is in use, given twice or forbidden, or this machine hasn't the address")]
    PortTaken,
    #[error("{0} can't be made: its folder is missing or forbidden, or somebody listens there")]
    SocketNotMade(&'a str),
    #[error("{0} can't be opened: its folder is missing or forbidden, or it is no file")]
    LogNotOpened(&'a str),
    #[error("no file can be made in {0}")]
    MarkNotMade(&'a str),
    #[error("name a folder that is empty, or isn't there")]
    NotEmpty,
    #[error("there is no folder {0}")]
    NoParent(&'a str),
    #[error("no such request: {0}; ctl --help lists them")]
    NoSuchRequest(&'a str),
    #[error("usage: {0}")]
    Usage(&'a str),
    #[error("no such command: {0}; sim --help lists them")]
    NoSuchCommand(&'a str),
    #[error("a line is one command, with one space between two words")]
    NoCommand,
    #[error("usage: {0}, before the first command")]
    Setting(&'a str),
    #[error("--wait is for stop, stop now and status")]
    NotWaitedFor,
    #[error("nobody listens there: is the service running, and is this its --ctl-port?")]
    NobodyAtPort,
    #[error("nobody listens there: is the service running, and is this its --ctl-socket?")]
    NobodyAtSocket,
    #[error("127.0.0.1:{0} is a POP3 port, not the operator's")]
    PopPort(u64),
}

/// Says which mistake led to a fault, if that is known.
pub fn hint<R: Eprint>(rt: &R, mistake: Option<Mistake<'_>>) {
    if let Some(mistake) = mistake {
        let _untold = eprintln!(rt; "maildropd: {mistake}");
    }
}
