//! Reads the words after the keyword of a command.
ghost use Rattle.std.specs.Prelude.{◌≡◌};
ghost use Rattle.maildrop.specs.Text.{IsLine};
ghost use Rattle.script.specs.Commands as spec;

use crate::command::Command;
use crate::keyword::Keyword;
use crate::message_kind::MessageKind;
use crate::nonce::Nonce;
use crate::numbers::{node_of, number_between, number_of};
use crate::rest::Rest;
use crate::words::{cut_at_space, node_and_user};
use maildrop::{Key, Name};
use pop3_wire::{Line, LineBytes};

/// The highest number of a session: nine digits.
const LAST_SESSION: u64 = 999_999_999;

/// The most bytes of a client's line that ends in CR and LF: 512 octets with them.
const LONGEST_SENT: usize = 510;

/// The number of a session, after an `s`.
fn session_of(word: &[u8]) -> Option<u32>
    ensures { result ≡ spec.session_of word.now }
{
    match word {
        [b's', digits @ ..] => {
            let number = number_between(0, LAST_SESSION, digits)?;
            Some(number as u32)
        }
        _ => None,
    }
}

fn mail_in(rest: &[u8]) -> Option<Command<'_>>
    requires { IsLine rest.now }
    ensures { result ≡ spec.mail_in rest.now }
{
    let (node, behind) = cut_at_space(rest)?;
    let (user, written) = cut_at_space(behind)?;
    let node = node_of(node)?;
    let user = Name::new(user)?;
    Some(Command::Mail {
        node,
        user,
        key: None,
        written: Rest::new(written),
    })
}

fn keyed_in(rest: &[u8]) -> Option<Command<'_>>
    requires { IsLine rest.now }
    ensures { result ≡ spec.keyed_in rest.now }
{
    let (node, behind) = cut_at_space(rest)?;
    let (user, behind) = cut_at_space(behind)?;
    let (key, written) = cut_at_space(behind)?;
    let node = node_of(node)?;
    let user = Name::new(user)?;
    let key = Key::new(key)?;
    Some(Command::Mail {
        node,
        user,
        key: Some(key),
        written: Rest::new(written),
    })
}

fn connect_in(rest: &[u8]) -> Option<Command<'_>>
    ensures { result ≡ spec.connect_in rest.now }
{
    let (session, behind) = cut_at_space(rest)?;
    let (node, nonce) = cut_at_space(behind)?;
    let session = session_of(session)?;
    let node = node_of(node)?;
    let nonce = Nonce::new(nonce)?;
    Some(Command::Connect {
        session,
        node,
        nonce,
    })
}

/// The line that a client sends, with a CR and an LF after it.
fn sent_line(bytes: &[u8]) -> Line
    ensures { result ≡ spec.sent_line bytes.now }
{
    if bytes.len() > LONGEST_SENT {
        return Line::TooLong;
    }
    match LineBytes::new(bytes) {
        Some(line) => Line::Whole(line),
        None => Line::TooLong,
    }
}

fn line_in(rest: &[u8]) -> Option<Command<'_>>
    ensures { result ≡ spec.line_in rest.now }
{
    let (session, sent) = cut_at_space(rest)?;
    let session = session_of(session)?;
    Some(Command::Line {
        session,
        line: sent_line(sent),
    })
}

fn deliver_in(rest: &[u8]) -> Option<Command<'_>>
    ensures { result ≡ spec.deliver_in rest.now }
{
    let (from, behind) = cut_at_space(rest)?;
    let (to, kind) = cut_at_space(behind)?;
    let from = node_of(from)?;
    let to = node_of(to)?;
    let kind = MessageKind::from_word(kind)?;
    Some(Command::Deliver { from, to, kind })
}

fn storm_in(rest: &[u8]) -> Option<Command<'_>>
    ensures { result ≡ spec.storm_in rest.now }
{
    let (copies, limit) = cut_at_space(rest)?;
    let copies = number_of(copies)?;
    let limit = number_of(limit)?;
    Some(Command::Storm { copies, limit })
}

/// The command of a keyword and what stands after its space.
pub(crate) fn command_with(keyword: Keyword, rest: &[u8]) -> Option<Command<'_>>
    requires { IsLine rest.now }
    ensures { result ≡ spec.command_with keyword rest.now }
{
    match keyword {
        Keyword::Mail => mail_in(rest),
        Keyword::Keyed => keyed_in(rest),
        Keyword::Break => {
            let (node, user) = node_and_user(rest)?;
            Some(Command::Break { node, user })
        }
        Keyword::Connect => connect_in(rest),
        Keyword::Line => line_in(rest),
        Keyword::Hangup => {
            let session = session_of(rest)?;
            Some(Command::Hangup { session })
        }
        Keyword::Tick => {
            let node = node_of(rest)?;
            Some(Command::Tick { node })
        }
        Keyword::Campaign => {
            let node = node_of(rest)?;
            Some(Command::Campaign { node })
        }
        Keyword::Crash => {
            let node = node_of(rest)?;
            Some(Command::Crash { node })
        }
        Keyword::Deliver => deliver_in(rest),
        Keyword::Settle => {
            let limit = number_of(rest)?;
            Some(Command::Settle { limit })
        }
        Keyword::Storm => storm_in(rest),
        Keyword::Order => {
            let node = node_of(rest)?;
            Some(Command::Order { node })
        }
    }
}
