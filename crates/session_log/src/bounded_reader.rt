//! Reads what a client sends, within bounds.
ghost use Rattle.std.specs.Prelude.{◌≡◌};
ghost use Rattle.std.specs.Io.{ReadsAtMost};

use crate::bounds::{TimeLeft, bytes_left, line_seconds, next_read, time_left};
use crate::facts::{Cut, SessionFacts};
use memchr::memchr;
use std::io;
use std::io::Read;
use std::net::TcpStream;
use std::sync::{Mutex, Wait};
use std::time::{Clock, Duration, Instant};

/// What a client sends, until it has sent too much or has sent no whole line for too long: then a read fails. A whole line
/// starts the time anew, and a piece of a line doesn't.
#[derive(Drop)]
pub struct BoundedReader<'a, R> {
    rt: R,
    stream: &'a TcpStream,
    facts: &'a Mutex<SessionFacts>,
    idle_seconds: u64,
    /// How many milliseconds the system waits for the client, 0 for any number.
    timeout: u64,
    /// Since when a whole line is awaited, unless the clock couldn't be read.
    since: Option<Instant>,
    /// Whether the line that is awaited has come in part.
    has_part: bool,
}

impl<'a, R: Wait + Clock> BoundedReader<'a, R> {
    /// Of a client that has sent nothing. The system waits for it without an end so far.
    pub fn new(
        rt: R,
        stream: &'a TcpStream,
        facts: &'a Mutex<SessionFacts>,
        idle_seconds: u64,
    ) -> Self {
        BoundedReader {
            rt,
            stream,
            facts,
            idle_seconds,
            timeout: 0,
            since: None,
            has_part: false,
        }
    }

    /// How many bytes may still be read, and how much time is left for that. The wait for a new line begins now, or goes on.
    fn bounds(&mut self, is_new: bool) -> (u64, TimeLeft) {
        let waited = self.waited(is_new);
        let awaited = if self.has_part { None } else { self.since };
        let mut facts = self.facts.lock(&self.rt);
        facts.await_line(awaited);
        let is_logged_in = facts.user.is_some();
        let left = bytes_left(facts.bytes_read, is_logged_in);
        drop(facts);
        let seconds = line_seconds(is_logged_in, self.idle_seconds);
        (left, time_left(seconds, waited))
    }

    /// For how many milliseconds a line is awaited. The wait for a new one begins now.
    fn waited(&mut self, is_new: bool) -> u64 {
        if is_new {
            self.since = Instant::now(&self.rt).ok();
            return 0;
        }
        match &self.since {
            Some(since) => millis_since(&self.rt, since),
            None => 0,
        }
    }

    /// Has the system wait so long for the client. It is asked only if that changes.
    fn set_timeout(&mut self, millis: u64) -> io::Result<()> {
        if self.timeout == millis {
            return Ok(());
        }
        let time = if millis == 0 {
            None
        } else {
            Some(Duration::from_millis(millis))
        };
        self.stream.set_read_timeout(time)?;
        self.timeout = millis;
        Ok(())
    }

    /// The client is read no further. Returns the error that says so.
    fn cut(&self, cut: Cut) -> io::Error {
        self.facts.lock(&self.rt).cut(cut);
        io::Error::from(io::ErrorKind::TimedOut)
    }

    /// Reads into the room, and notes what has come.
    fn take(&mut self, room: &mut [u8]) -> io::Result<usize>
        ensures { ReadsAtMost result room.new }
    {
        let mut stream = self.stream;
        match stream.read(room) {
            Ok(count) => {
                self.note(&room[..count]);
                Ok(count)
            }
            Err(error) => {
                if error.kind() == io::ErrorKind::WouldBlock {
                    return Err(self.cut(Cut::Idle));
                }
                Err(error)
            }
        }
    }

    /// Notes what has come.
    fn note(&mut self, piece: &[u8]) {
        self.has_part = is_part(self.has_part, piece);
        self.facts.lock(&self.rt).read(piece.len());
    }
}

/// Whether a line is awaited of which a part has come, after this piece.
fn is_part(had_part: bool, piece: &[u8]) -> bool {
    match memchr(b'\n', piece) {
        Some(_) => false,
        None => had_part | !piece.is_empty(),
    }
}

/// How many milliseconds have passed since then, or 0 if the clock can't be read.
pub(crate) fn millis_since<R: Clock>(rt: &R, since: &Instant) -> u64 {
    match since.elapsed(rt) {
        Ok(time) => u64::try_from(time.as_millis()).unwrap_or(u64::MAX),
        Err(_) => 0,
    }
}

impl<'a, R: Wait + Clock> BoundedReader<'a, R> {
    /// Reads into the room once, within the bounds. The read may be interrupted.
    fn read_once(&mut self, is_new: bool, room: &mut [u8]) -> io::Result<usize>
        ensures { ReadsAtMost result room.new }
    {
        let (left, time) = self.bounds(is_new);
        if left == 0 {
            return Err(self.cut(Cut::TooMuch));
        }
        let millis = match time {
            TimeLeft::Any => 0,
            TimeLeft::Millis(millis) => millis,
            TimeLeft::Nothing => return Err(self.cut(Cut::Idle)),
        };
        self.set_timeout(millis)?;
        let most = next_read(left, room.len());
        self.take(&mut room[..most])
    }
}

impl<R: Wait + Clock> Read for BoundedReader<'_, R> {
    /// Linux interrupts a read with a time limit in a process that was stopped for a while. Then the rest of the time is waited for.
    fn read(&mut self, room: &mut [u8]) -> io::Result<usize> {
        let mut is_new = !self.has_part;
        for _ in 0..u64::MAX {
            match self.read_once(is_new, room) {
                Err(error) if error.kind() == io::ErrorKind::Interrupted => is_new = false,
                read => return read,
            }
        }
        Err(io::Error::from(io::ErrorKind::Interrupted))
    }
}
