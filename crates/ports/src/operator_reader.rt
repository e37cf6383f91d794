//! Reads what an operator sends, for as long as it comes in time.
ghost use Rattle.std.specs.Prelude.{◌≡◌, ◌≤◌, length};
ghost use Rattle.ports.specs.Deadlines as spec;

use crate::operator_connection::OperatorConnection;
use crate::operator_limits::{LONGEST_PAUSE_MS, PIECE};
use crate::operator_stream::read_once;
use ballot::Memory;
use std::alloc::Global;
use std::io;
use std::io::{ErrorKind, Read};
use std::sync::Wait;
use std::time::{Clock, Duration, Instant};

/// After how many milliseconds without a byte a read returns `WouldBlock`, so that its caller looks whether to go on. It may be longer by
/// a step.
const LOOK_MS: u64 = 400;

/// By how many milliseconds a read may wait longer than it should. The system is asked again only if this much has changed.
const STEP_MS: u64 = 100;

/// What is read.
#[derive(Clone, Copy, Debug, PartialEq, Eq)]
pub(crate) enum Awaited {
    /// The line of a request, which is whole within so many milliseconds.
    Line(u64),
    /// A file.
    File,
}

impl Awaited {
    /// For how many milliseconds a read may wait, when so many have passed since the line or the file began, and so many
    /// bytes have come. None are left once it is late.
    fn left_ms(self, passed_ms: u64, bytes: u64) -> u64
        ensures { result ≡ spec.left_ms self passed_ms bytes }
    {
        match self {
            Awaited::Line(most_ms) => most_ms.saturating_sub(passed_ms),
            Awaited::File => LONGEST_PAUSE_MS
                .max(bytes)
                .saturating_sub(passed_ms)
                .min(LONGEST_PAUSE_MS),
        }
    }
}

/// Reads what an operator sends. A read fails once the line or the file is late. If nothing comes for some 400 ms although there is time
/// left, it returns `WouldBlock`, and may be tried again. Takes no memory.
#[derive(Drop)]
pub struct OperatorReader<'a, R> {
    rt: R,
    connection: &'a OperatorConnection,
    awaited: Awaited,
    /// When the line or the file began.
    began: Instant,
    /// How many bytes of it have come.
    bytes: u64,
    /// How long a read of the stream waits, in steps. 0 before it was set.
    steps: u64,
    /// What was read of the stream: all while a line is awaited, and the last piece of a file. From `start` to `end` nobody has taken it.
    held: [u8; PIECE],
    start: usize,
    end: usize,
}

impl<'a, R: Clock + Wait + Copy> OperatorReader<'a, R> {
    /// Awaits a line, which is whole within so many milliseconds. It begins with what was put back of it.
    pub fn new(rt: R, connection: &'a OperatorConnection, most_ms: u64) -> io::Result<Self> {
        let began = Instant::now(&rt)?;
        let mut held = [0; PIECE];
        let end = connection.take_read(&rt, &mut held);
        Ok(OperatorReader {
            rt,
            connection,
            awaited: Awaited::Line(most_ms),
            began,
            bytes: 0,
            steps: 0,
            held,
            start: 0,
            end,
        })
    }

    /// Puts all back that was read, for who reads the connection next. No file may have begun.
    pub fn put_back(&self, alloc: Global) -> Result<(), Memory> {
        let read = self.held.get(..self.end).unwrap_or_default();
        self.connection.put_back(&self.rt, alloc, read)
    }
}

impl<R: Clock + Copy> OperatorReader<'_, R> {
    /// A file begins after the line.
    pub fn begin_file(&mut self) -> io::Result<()> {
        self.began = Instant::now(&self.rt)?;
        self.bytes = 0;
        self.awaited = Awaited::File;
        Ok(())
    }

    /// Lets the next read of the stream wait for as long as it may.
    fn set_timeout(&mut self) -> io::Result<()> {
        let passed = self.began.elapsed(&self.rt)?;
        let passed_ms = u64::try_from(passed.as_millis()).unwrap_or(u64::MAX);
        let left_ms = self.awaited.left_ms(passed_ms, self.bytes);
        if left_ms == 0 {
            return Err(io::Error::from(ErrorKind::TimedOut));
        }
        let steps = left_ms.min(LOOK_MS) / STEP_MS + 1;
        if steps != self.steps {
            self.connection
                .stream()
                .set_read_timeout(Duration::from_millis(steps * STEP_MS));
            self.steps = steps;
        }
        Ok(())
    }

    /// From where on the next piece is held. What was read of a line stays, as it may be put back.
    fn place(&self) -> usize {
        match self.awaited {
            Awaited::Line(_) => self.end,
            Awaited::File => 0,
        }
    }

    /// Reads the next piece of the stream. After an interruption it waits for as long as is left.
    fn fill(&mut self) -> io::Result<()> {
        for _ in 0..u64::MAX {
            self.set_timeout()?;
            let place = self.place();
            let Some(room) = self.held.get_mut(place..) else {
                break;
            };
            match read_once(self.connection.stream(), room) {
                Ok(count) => {
                    self.bytes = self.bytes.saturating_add(count as u64);
                    self.start = place;
                    self.end = place.saturating_add(count);
                    return Ok(());
                }
                Err(error) if error.kind() == ErrorKind::Interrupted => {}
                Err(error) => return Err(error),
            }
        }
        Err(io::Error::from(ErrorKind::Interrupted))
    }

    /// Hands out what is held, as far as there is room for it. Returns how many bytes that is.
    fn hand(&mut self, buf: &mut [u8]) -> usize
        ensures { result ≤ length buf.new }
    {
        let Some(held) = self.held.get(self.start..self.end) else {
            return 0;
        };
        let count = held.len().min(buf.len());
        buf[..count].copy_from_slice(&held[..count]);
        self.start = self.start.saturating_add(count);
        count
    }
}

impl<R: Clock + Copy> Read for OperatorReader<'_, R> {
    fn read(&mut self, buf: &mut [u8]) -> io::Result<usize> {
        if self.start >= self.end {
            self.fill()?;
        }
        Ok(self.hand(buf))
    }
}
