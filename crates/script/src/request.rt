//! What an operator asks of a running service.
ghost use Rattle.std.specs.Prelude.{◌≡◌};
ghost use Rattle.script.specs.Requests as spec;

use crate::key_prefix::KeyPrefix;
use crate::numbers::{node_of, node_or_any, number_between};
use crate::words::{cut_at_space, node_and_user};
use ballot::NodeId;
use maildrop::{Key, Name};

/// The most bytes of a request's line without its line feed: 512 octets with it.
pub const LONGEST_REQUEST: usize = 511;

/// The most bytes of a file that is delivered, and of a message that is put.
pub const LARGEST_FILE: u64 = 1 << 30;

/// What an operator asks of a running service, one request a connection.
#[derive(Drop)]
pub enum Request {
    /// `deliver NODE USER COUNT` or `deliver NODE USER COUNT KEY`: the messages of a mailbox file of so many bytes, which
    /// stand after the line, are delivered.
    Deliver {
        node: NodeId,
        user: Name,
        count: u64,
        key: Option<KeyPrefix>,
    },
    /// `put NODE USER COUNT` or `put NODE USER COUNT KEY`: one message of so many bytes, which follow the line as they
    /// are, is delivered. NODE 0 is any node that is up, `None`.
    Put {
        node: Option<NodeId>,
        user: Name,
        count: u64,
        key: Option<Key>,
    },
    /// `break NODE USER`: the user's lock is broken.
    Break {
        node: NodeId,
        user: Name,
    },
    /// `kick USER`: the user's sessions are cut.
    Kick {
        user: Name,
    },
    /// `crash NODE`: a node stops for good.
    Crash {
        node: NodeId,
    },
    /// `status`: what the nodes are doing.
    Status,
    /// `sessions`: which sessions are open.
    Sessions,
    /// `stats`: the counts that the service keeps.
    Stats,
    /// `locks`: which maildrops are locked.
    Locks,
    /// `users`: what each maildrop holds.
    Users,
    /// `roll`: the epoch ends, and the next one begins with the maildrops that it leaves.
    Roll,
    /// `reopen`: the service opens its log file anew.
    Reopen,
    /// `stop`, `stop now`, `stop wait` or `stop now wait`: the service ends.
    Stop {
        /// Open sessions are cut.
        now: bool,
        /// The connection stays open, and the verdict is reported on it.
        wait: bool,
    },
}

fn count_of(bytes: &[u8]) -> Option<u64>
    ensures { result ≡ spec.count_of bytes.now }
{
    number_between(0, LARGEST_FILE, bytes)
}

/// `COUNT` or `COUNT KEY`.
fn count_and_key(rest: &[u8]) -> Option<(u64, Option<KeyPrefix>)>
    ensures { result ≡ spec.count_and_key rest.now }
{
    match cut_at_space(rest) {
        None => {
            let count = count_of(rest)?;
            Some((count, None))
        }
        Some((count, key)) => {
            let count = count_of(count)?;
            let key = KeyPrefix::new(key)?;
            Some((count, Some(key)))
        }
    }
}

fn deliver_in(rest: &[u8]) -> Option<Request>
    ensures { result ≡ spec.deliver_in rest.now }
{
    let (node, behind) = cut_at_space(rest)?;
    let (user, behind) = cut_at_space(behind)?;
    let node = node_of(node)?;
    let user = Name::new(user)?;
    let (count, key) = count_and_key(behind)?;
    Some(Request::Deliver {
        node,
        user,
        count,
        key,
    })
}

/// `COUNT` or `COUNT KEY`, the key of one message.
fn count_and_message_key(rest: &[u8]) -> Option<(u64, Option<Key>)>
    ensures { result ≡ spec.count_and_message_key rest.now }
{
    match cut_at_space(rest) {
        None => {
            let count = count_of(rest)?;
            Some((count, None))
        }
        Some((count, key)) => {
            let count = count_of(count)?;
            let key = Key::new(key)?;
            Some((count, Some(key)))
        }
    }
}

fn put_in(rest: &[u8]) -> Option<Request>
    ensures { result ≡ spec.put_in rest.now }
{
    let (node, rest) = cut_at_space(rest)?;
    let (user, rest) = cut_at_space(rest)?;
    let node = node_or_any(node)?;
    let user = Name::new(user)?;
    let (count, key) = count_and_message_key(rest)?;
    Some(Request::Put {
        node,
        user,
        count,
        key,
    })
}

/// `now`, `wait` or `now wait`.
fn stop_in(rest: &[u8]) -> Option<Request>
    ensures { result ≡ spec.stop_in rest.now }
{
    if rest == b"now".as_slice() {
        Some(Request::Stop {
            now: true,
            wait: false,
        })
    } else if rest == b"wait".as_slice() {
        Some(Request::Stop {
            now: false,
            wait: true,
        })
    } else if rest == b"now wait".as_slice() {
        Some(Request::Stop {
            now: true,
            wait: true,
        })
    } else {
        None
    }
}

/// The request of a first word and what stands after its space.
fn request_with(word: &[u8], rest: &[u8]) -> Option<Request>
    ensures { result ≡ spec.request_with word.now rest.now }
{
    if word == b"deliver".as_slice() {
        deliver_in(rest)
    } else if word == b"break".as_slice() {
        let (node, user) = node_and_user(rest)?;
        Some(Request::Break { node, user })
    } else if word == b"crash".as_slice() {
        let node = node_of(rest)?;
        Some(Request::Crash { node })
    } else if word == b"put".as_slice() {
        put_in(rest)
    } else if word == b"kick".as_slice() {
        let user = Name::new(rest)?;
        Some(Request::Kick { user })
    } else if word == b"stop".as_slice() {
        stop_in(rest)
    } else {
        None
    }
}

pub(crate) fn single_word(line: &[u8]) -> Option<Request>
    ensures { result ≡ spec.single_word line.now }
{
    if line == b"status".as_slice() {
        Some(Request::Status)
    } else if line == b"stop".as_slice() {
        Some(Request::Stop {
            now: false,
            wait: false,
        })
    } else if line == b"sessions".as_slice() {
        Some(Request::Sessions)
    } else if line == b"stats".as_slice() {
        Some(Request::Stats)
    } else if line == b"locks".as_slice() {
        Some(Request::Locks)
    } else if line == b"users".as_slice() {
        Some(Request::Users)
    } else if line == b"roll".as_slice() {
        Some(Request::Roll)
    } else if line == b"reopen".as_slice() {
        Some(Request::Reopen)
    } else {
        None
    }
}

/// The request of a line without its line feed, if it is one and no longer than `LONGEST_REQUEST`. A carriage return at
/// its end is part of it, and so makes it none. Takes no memory.
pub fn parse_request(line: &[u8]) -> Option<Request>
    ensures { result ≡ spec.request_of line.now }
{
    if line.len() > LONGEST_REQUEST {
        return None;
    }
    match cut_at_space(line) {
        Some((word, rest)) => request_with(word, rest),
        None => single_word(line),
    }
}
