//! What a service has done since it was started.
ghost use Rattle.std.specs.Prelude.{◌≡◌, IfOk, OnOk};
ghost use Rattle.session_log.specs.Stats as spec;

use crate::facts::SessionFacts;
use crate::writing::{put, put_number_line};
use ballot::Memory;
use std::alloc::Global;
use std::sync::{Mutex, Wait};
use std::time::{Clock, Instant};

/// What is counted of the sessions that have ended, of deliveries, and of the start.
#[derive(Clone, Copy, Debug, PartialEq, Eq)]
pub struct Counts {
    /// Sessions that have ended.
    pub sessions_served: u64,
    /// Logins that were refused in these.
    pub logins_refused: u64,
    /// Messages that were stored by deliveries.
    pub messages_stored: u64,
    /// Messages that these sessions sent to their clients.
    pub messages_fetched: u64,
    /// Messages that these sessions removed.
    pub messages_removed: u64,
    /// Octets of the messages that were stored.
    pub octets_stored: u64,
    /// Bytes that the clients of these sessions sent.
    pub bytes_read: u64,
    /// Bytes that were written to the clients of these sessions.
    pub bytes_written: u64,
    /// Bytes that the start dropped of the data folder's newest segment.
    pub torn_bytes: u64,
}

impl Counts {
    /// Before the first session.
    fn new() -> Self
        ensures { result ≡ spec.no_counts }
    {
        Counts {
            sessions_served: 0,
            logins_refused: 0,
            messages_stored: 0,
            messages_fetched: 0,
            messages_removed: 0,
            octets_stored: 0,
            bytes_read: 0,
            bytes_written: 0,
            torn_bytes: 0,
        }
    }

    /// A session has ended.
    fn end(&mut self, facts: &SessionFacts)
        ensures { self.new ≡ spec.after_session facts.now self.old }
    {
        self.sessions_served = self.sessions_served.saturating_add(1);
        self.logins_refused = self.logins_refused.saturating_add(facts.refused);
        self.messages_fetched = self.messages_fetched.saturating_add(facts.fetched);
        self.messages_removed = self.messages_removed.saturating_add(facts.removed);
        self.bytes_read = self.bytes_read.saturating_add(facts.bytes_read);
        self.bytes_written = self.bytes_written.saturating_add(facts.bytes_written);
    }

    /// Messages were stored, of so many octets together.
    fn store(&mut self, messages: u64, octets: u64)
        ensures { self.new ≡ spec.after_delivery messages octets self.old }
    {
        self.messages_stored = self.messages_stored.saturating_add(messages);
        self.octets_stored = self.octets_stored.saturating_add(octets);
    }

    /// The start dropped so many bytes.
    fn tear(&mut self, bytes: u64)
        ensures { self.new ≡ spec.after_torn bytes self.old }
    {
        self.torn_bytes = self.torn_bytes.saturating_add(bytes);
    }
}

/// What the service has done, for operators.
#[derive(Clone, Copy, Debug, PartialEq, Eq)]
pub struct Stats {
    /// Sessions that are open.
    pub sessions_open: u64,
    /// What is counted.
    pub counts: Counts,
    /// The slot of the node that is furthest.
    pub slots: u64,
    /// How long the service runs.
    pub uptime_seconds: u64,
    /// Lines that are missing in the log.
    pub log_lines_lost: u64,
}

/// Adds the lines that speak of sessions and logins.
fn put_sessions(text: &mut Vec<u8>, stats: &Stats) -> Result<(), Memory>
    ensures { OnOk result (text.new.items ≡ spec.with_sessions text.old.items stats.now) }
{
    put_number_line(text, b"sessions_open ", stats.sessions_open)?;
    put_number_line(text, b"sessions_served ", stats.counts.sessions_served)?;
    put_number_line(text, b"logins_refused ", stats.counts.logins_refused)
}

/// Adds the lines that speak of messages.
fn put_messages(text: &mut Vec<u8>, counts: &Counts) -> Result<(), Memory>
    ensures { OnOk result (text.new.items ≡ spec.with_messages text.old.items counts.now) }
{
    put_number_line(text, b"messages_stored ", counts.messages_stored)?;
    put_number_line(text, b"messages_fetched ", counts.messages_fetched)?;
    put_number_line(text, b"messages_removed ", counts.messages_removed)?;
    put_number_line(text, b"octets_stored ", counts.octets_stored)
}

/// Adds the lines that speak of bytes, slots and time, and of what the start dropped.
fn put_rest(text: &mut Vec<u8>, stats: &Stats) -> Result<(), Memory>
    ensures { OnOk result (text.new.items ≡ spec.with_rest text.old.items stats.now) }
{
    put_number_line(text, b"bytes_read ", stats.counts.bytes_read)?;
    put_number_line(text, b"bytes_written ", stats.counts.bytes_written)?;
    put_number_line(text, b"slots ", stats.slots)?;
    put_number_line(text, b"uptime_seconds ", stats.uptime_seconds)?;
    put_number_line(text, b"torn_bytes ", stats.counts.torn_bytes)?;
    put_number_line(text, b"log_lines_lost ", stats.log_lines_lost)
}

impl Stats {
    /// The answer: a line for each number, and `end`.
    pub fn text(&self, alloc: Global) -> Result<Vec<u8>, Memory>
        ensures { IfOk result (λ text. text.items ≡ spec.text_of self.now) }
    {
        let mut text = Vec::new(alloc);
        put_sessions(&mut text, self)?;
        put_messages(&mut text, &self.counts)?;
        put_rest(&mut text, self)?;
        put(&mut text, b"end\n")?;
        Ok(text)
    }
}

/// What a service has done since it was started.
#[derive(Drop)]
pub struct Counters {
    /// When it was started, unless the clock couldn't be read.
    started: Option<Instant>,
    counts: Mutex<Counts>,
}

impl Counters {
    /// Of a service that is started.
    pub fn new<R: Clock>(rt: &R) -> Self {
        Counters {
            started: Instant::now(rt).ok(),
            counts: Mutex::new(Counts::new()),
        }
    }

    /// A session has ended.
    pub fn ended<R: Wait>(&self, rt: &R, facts: &SessionFacts) {
        self.counts.lock(rt).end(facts);
    }

    /// A delivery stored so many messages, of so many octets together.
    pub fn stored<R: Wait>(&self, rt: &R, messages: u64, octets: u64) {
        self.counts.lock(rt).store(messages, octets);
    }

    /// The start dropped so many bytes of the data folder's newest segment.
    pub fn torn<R: Wait>(&self, rt: &R, bytes: u64) {
        self.counts.lock(rt).tear(bytes);
    }

    /// What operators get, if so many sessions are open, this is the slot of the node that is furthest, and so many lines are missing in
    /// the log.
    pub fn stats<R: Wait + Clock>(
        &self,
        rt: &R,
        open: u64,
        slots: u64,
        log_lines_lost: u64,
    ) -> Stats {
        let counts = *self.counts.lock(rt);
        Stats {
            sessions_open: open,
            counts,
            slots,
            uptime_seconds: seconds_since(rt, &self.started),
            log_lines_lost,
        }
    }
}

/// How many seconds have passed since then, or 0 if the clock can't be read.
pub(crate) fn seconds_since<R: Clock>(rt: &R, since: &Option<Instant>) -> u64 {
    match since {
        Some(since) => match since.elapsed(rt) {
            Ok(time) => time.as_secs(),
            Err(_) => 0,
        },
        None => 0,
    }
}
