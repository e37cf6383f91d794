//! The replies of the server.
ghost use Rattle.std.specs.Prelude.{◌≡◌, ◌≤◌, length, IfOk};

use crate::listed::{Identified, Listed};
use crate::reply_text::{
    fixed, greeting, maildrop_has, message_deleted, message_text, message_top, scan_listings,
    two_numbers, unique_id_listings,
};
use ballot::Memory;
use maildrop::Text;
use std::alloc::{Allocator, Global};

/// A reply of the server (RFC 1939 sections 4 to 7), with what it tells. Each is one line, but for the listings of a
/// whole maildrop and for texts.
#[derive(Drop)]
pub enum Reply<'a, A: Allocator = Global> {
    /// The greeting, with the timestamp `<nonce@host>`.
    Greeting { nonce: &'a [u8], host: &'a [u8] },
    /// To USER.
    SendPass,
    /// To a login that got the lock: how many messages there are, and their octets together.
    LoggedIn { messages: u64, octets: u64 },
    /// To a login that was refused.
    InvalidLogin,
    /// To a login that found the maildrop locked, with the response code of RFC 2449 section 8.1.1.
    Locked,
    /// To a line of more than 512 octets.
    LineTooLong,
    /// To an unknown keyword.
    UnknownCommand,
    /// To a command of another state.
    WrongState,
    /// To arguments that the command does not take.
    BadArguments,
    /// To the number of a message that is absent or marked.
    NoSuchMessage,
    /// To STAT: how many messages are unmarked, and their octets together.
    Stat { messages: u64, octets: u64 },
    /// To LIST: the unmarked messages, and their octets together.
    Listing { octets: u64, messages: &'a [Listed] },
    /// To LIST of one message.
    List(Listed),
    /// To UIDL: the unmarked messages.
    UniqueIds(&'a [Identified]),
    /// To UIDL of one message.
    UniqueId(Identified),
    /// To RETR: the octets of the text, and the text.
    Message { octets: u64, text: &'a Text<A> },
    /// To TOP: the text, and how many lines of its body are asked for.
    Top { text: &'a Text<A>, lines: u32 },
    /// To DELE: the number of the message.
    Deleted { number: u64 },
    /// To CAPA: what the server can do beyond RFC 1939's minimum (RFC 2449 section 6).
    Capabilities,
    /// To NOOP.
    Noop,
    /// To RSET: how many messages there are, and their octets together.
    Reset { messages: u64, octets: u64 },
    /// To QUIT.
    SigningOff,
    /// To QUIT, if the marked messages could not be removed.
    NotRemoved,
}

impl<A: Allocator + Copy> Reply<'_, A> {
    ghost use Rattle.pop3_wire.specs.Reply.{reply_text, has_response_code, is_lock_refusal, HasShortParts, HasShortFirstLine};

    /// The bytes of the reply, CR and LF included.
    pub fn text(&self, alloc: A) -> Result<Vec<u8, A>, Memory>
        ensures value { IfOk result (λ text. text.items ≡ reply_text self.now) }

        // No other reply has a text that looks like a response code (RFC 2449 section 8).
        ensures code { IfOk result (λ text. has_response_code text.items ≡ is_lock_refusal self.now) }
        ensures short { HasShortParts self.now → IfOk result (λ text. HasShortFirstLine text.items) }
    {
        match self {
            Reply::Greeting { nonce, host } => greeting(alloc, nonce, host),
            Reply::SendPass => fixed(alloc, b"+OK send PASS\r\n"),
            Reply::LoggedIn { messages, octets } => maildrop_has(alloc, *messages, *octets),
            Reply::InvalidLogin => fixed(alloc, b"-ERR invalid login\r\n"),
            Reply::Locked => fixed(alloc, b"-ERR [IN-USE] maildrop already locked\r\n"),
            Reply::LineTooLong => fixed(alloc, b"-ERR line too long\r\n"),
            Reply::UnknownCommand => fixed(alloc, b"-ERR unknown command\r\n"),
            Reply::WrongState => fixed(alloc, b"-ERR not in this state\r\n"),
            Reply::BadArguments => fixed(alloc, b"-ERR bad arguments\r\n"),
            Reply::NoSuchMessage => fixed(alloc, b"-ERR no such message\r\n"),
            Reply::Stat { messages, octets } => two_numbers(alloc, *messages, *octets),
            Reply::Listing { octets, messages } => scan_listings(alloc, *octets, messages),
            Reply::List(message) => two_numbers(alloc, message.number, message.octets),
            Reply::UniqueIds(messages) => unique_id_listings(alloc, messages),
            Reply::UniqueId(message) => two_numbers(alloc, message.number, message.uid),
            Reply::Message { octets, text } => message_text(alloc, *octets, text),
            Reply::Top { text, lines } => message_top(alloc, text, *lines),
            Reply::Deleted { number } => message_deleted(alloc, *number),
            Reply::Capabilities => fixed(
                alloc,
                b"+OK\r\nTOP\r\nUSER\r\nUIDL\r\nRESP-CODES\r\n.\r\n",
            ),
            Reply::Noop => fixed(alloc, b"+OK\r\n"),
            Reply::Reset { messages, octets } => maildrop_has(alloc, *messages, *octets),
            Reply::SigningOff => fixed(alloc, b"+OK signing off\r\n"),
            Reply::NotRemoved => fixed(alloc, b"-ERR some deleted messages not removed\r\n"),
        }
    }
}
