//! What a session's reader, writer, gate and desk know of it in common.
ghost use Rattle.std.specs.Prelude.{◌≡◌, length};
ghost use Rattle.session_log.specs.Sessions as spec;

use maildrop::{Name, Op, Outcome, next_line};
use session::End;
use std::sync::{Arc, Mutex};
use std::time::Instant;

/// Why a client is read no further.
#[derive(Clone, Copy, Debug, PartialEq, Eq)]
pub enum Cut {
    /// It sent no whole line for too long.
    Idle,
    /// It sent too much.
    TooMuch,
}

/// What a reply is, as far as it is counted.
#[derive(Clone, Copy, Debug, PartialEq, Eq)]
pub(crate) enum ReplyKind {
    /// The refusal of a login.
    Refusal,
    /// A message.
    Message,
    /// Another reply.
    Other,
}

/// What a session asks of its desk, as far as it is counted.
#[derive(Clone, Copy, Debug, PartialEq, Eq)]
pub(crate) enum AskedKind {
    /// The lock of a maildrop, by a login.
    Take,
    /// That so many messages be removed.
    Commit(usize),
    /// Something else.
    Other,
}

/// How a session ended.
#[derive(Clone, Copy, Debug, PartialEq, Eq)]
pub enum Ending {
    /// It closed itself.
    Closed,
    /// Its client has gone, or its connection was cut.
    HungUp,
    /// Its client sent no whole line for too long.
    Idle,
    /// Its client sent too much.
    TooMuch,
    /// A read failed.
    ReadFault,
    /// A write failed, or took nothing for too long.
    WriteFault,
    /// Its node stopped.
    Stopped,
    /// It was out of memory.
    NoMemory,
}

/// What is known of a session.
#[derive(Drop)]
pub struct SessionFacts {
    /// Who is logged in.
    pub user: Option<Name>,
    /// How many bytes its client sent.
    pub bytes_read: u64,
    /// How many bytes of its replies were written.
    pub bytes_written: u64,
    /// How many messages were sent to its client.
    pub fetched: u64,
    /// How many messages were removed.
    pub removed: u64,
    /// How many logins were refused.
    pub refused: u64,
    /// Whether what is written next begins a reply.
    pub begins_reply: bool,
    /// Whether a login was refused after which nobody has waited yet.
    pub owes_pause: bool,
    /// Why its client is read no further.
    pub cut: Option<Cut>,
    /// Since when a line is awaited of which nothing has come. None also if the clock couldn't be read.
    pub awaits_line_since: Option<Instant>,
}

/// What is known of a session, for its own thread and for operators.
pub type SharedFacts = Arc<Mutex<SessionFacts>>;

/// Whether the first line of a reply announces a message.
fn announces_message(line: &[u8]) -> bool
    ensures { result ≡ spec.announces_message line.now }
{
    line.starts_with(b"+OK ") && line.ends_with(b" octets")
}

/// Whether a reply is a message.
fn is_message(reply: &[u8]) -> bool
    ensures { result ≡ spec.is_message reply.now }
{
    match next_line(reply) {
        Some((line, _)) => announces_message(line),
        None => false,
    }
}

/// What kind of reply begins with this, if this is the reply to a login that is refused.
pub(crate) fn reply_kind(refusal: &[u8], reply: &[u8]) -> ReplyKind
    ensures { result ≡ spec.reply_kind refusal.now reply.now }
{
    if reply == refusal {
        ReplyKind::Refusal
    } else if is_message(reply) {
        ReplyKind::Message
    } else {
        ReplyKind::Other
    }
}

/// What an operation is.
pub(crate) fn asked_kind(op: &Op) -> AskedKind
    ensures { result ≡ spec.asked_kind op.now }
{
    match op {
        Op::Take => AskedKind::Take,
        Op::Commit { uids, .. } => AskedKind::Commit(uids.get().len()),
        Op::Mail { .. } | Op::Free { .. } | Op::Break => AskedKind::Other,
    }
}

/// How a session ended for an operator, if its client was cut for this.
pub fn ending_of(end: End, cut: Option<Cut>) -> Ending
    ensures { result ≡ spec.ending_of end cut }
{
    match end {
        End::Closed => Ending::Closed,
        End::HungUp => Ending::HungUp,
        End::ReadFault => match cut {
            Some(Cut::Idle) => Ending::Idle,
            Some(Cut::TooMuch) => Ending::TooMuch,
            None => Ending::ReadFault,
        },
        End::WriteFault => Ending::WriteFault,
        End::DeskStopped => Ending::Stopped,
        End::Memory => Ending::NoMemory,
    }
}

impl SessionFacts {
    /// Of a session that has said nothing.
    pub fn new() -> Self
        ensures { result ≡ spec.no_facts }
    {
        SessionFacts {
            user: None,
            bytes_read: 0,
            bytes_written: 0,
            fetched: 0,
            removed: 0,
            refused: 0,
            begins_reply: false,
            owes_pause: false,
            cut: None,
            awaits_line_since: None,
        }
    }

    /// It awaits a line, since then if nothing of it has come.
    pub(crate) fn await_line(&mut self, since: Option<Instant>)
        ensures { self.new ≡ spec.after_awaiting since self.old }
    {
        self.awaits_line_since = since;
    }

    /// Its client sent so many bytes.
    pub(crate) fn read(&mut self, count: usize)
        ensures { self.new ≡ spec.after_read count self.old }
    {
        self.bytes_read = self.bytes_read.saturating_add(count as u64);
        self.awaits_line_since = None;
    }

    /// Its client is read no further.
    pub(crate) fn cut(&mut self, cut: Cut)
        ensures { self.new ≡ spec.after_cut cut self.old }
    {
        self.cut = Some(cut);
    }

    /// It hears a line: what is written next is the reply.
    pub fn hear(&mut self)
        ensures { self.new ≡ spec.after_line self.old }
    {
        self.begins_reply = true;
    }

    /// Of this piece of a reply so many bytes were taken. Returns whether a refusal begins with it.
    pub(crate) fn write(&mut self, refusal: &[u8], piece: &[u8], count: usize) -> bool
        ensures facts { self.new ≡ spec.after_write refusal.now piece.now count self.old }
        ensures refused { result ≡ spec.begins_refusal refusal.now piece.now self.old }
    {
        self.bytes_written = self.bytes_written.saturating_add(count as u64);
        if !self.begins_reply {
            return false;
        }
        self.begin(reply_kind(refusal, piece))
    }

    /// A reply of this kind begins. Returns whether it is a refusal.
    fn begin(&mut self, kind: ReplyKind) -> bool
        ensures facts { self.new ≡ spec.after_beginning kind self.old }
        ensures refused { result ≡ spec.is_refusal kind }
    {
        self.begins_reply = false;
        match kind {
            ReplyKind::Refusal => {
                self.refused = self.refused.saturating_add(1);
                self.owes_pause = true;
                true
            }
            ReplyKind::Message => {
                self.fetched = self.fetched.saturating_add(1);
                false
            }
            ReplyKind::Other => false,
        }
    }

    /// Whether a pause is due after a refused login. From then on none is.
    pub fn take_pause(&mut self) -> bool
        ensures facts { self.new ≡ spec.after_pause self.old }
        ensures due { result ≡ self.old.owes_pause }
    {
        let owes = self.owes_pause;
        self.owes_pause = false;
        owes
    }

    /// The desk answered what was asked for a user.
    pub(crate) fn answer(&mut self, user: Name, asked: AskedKind, outcome: &Outcome)
        ensures { self.new ≡ spec.after_answer user asked outcome.now self.old }
    {
        match (asked, outcome) {
            (AskedKind::Take, Outcome::Taken(_)) => self.user = Some(user),
            (AskedKind::Commit(count), Outcome::Done) => {
                self.removed = self.removed.saturating_add(count as u64);
            }
            _ => {}
        }
    }
}
