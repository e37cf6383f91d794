//! Writes replies, and counts them.
ghost use Rattle.std.specs.Io.{WritesAtMost};

use crate::facts::SessionFacts;
use std::io;
use std::io::{BufWriter, ErrorKind, Write};
use std::net::TcpStream;
use std::sync::{Mutex, Wait};

/// Writes a session's replies to its client. It gathers them, and counts each as it is written. The refusal of a login
/// is sent at once, since the session waits after it.
#[derive(Drop)]
pub struct ReplyWriter<'a, R> {
    rt: R,
    writer: BufWriter<&'a TcpStream>,
    facts: &'a Mutex<SessionFacts>,
    /// The reply to a login that is refused.
    refusal: &'a [u8],
}

impl<'a, R: Wait + Copy> ReplyWriter<'a, R> {
    /// A writer for a session that has replied nothing yet.
    pub fn new(
        rt: R,
        writer: BufWriter<&'a TcpStream>,
        facts: &'a Mutex<SessionFacts>,
        refusal: &'a [u8],
    ) -> Self {
        ReplyWriter {
            rt,
            writer,
            facts,
            refusal,
        }
    }

    /// Ends the writer. What was gathered and not written yet is not said.
    pub fn discard(self) {
        let (_stream, unsaid) = self.writer.into_parts();
        drop(unsaid);
    }
}

impl<R: Wait> ReplyWriter<'_, R> {
    /// Gathers or writes a piece, and again if that was interrupted: Linux interrupts a write with a time limit in a process that was
    /// stopped for a while.
    fn write_on(&mut self, piece: &[u8]) -> io::Result<usize>
        ensures { WritesAtMost result piece.now }
    {
        for _ in 0..u64::MAX {
            match self.writer.write(piece) {
                Err(error) if error.kind() == ErrorKind::Interrupted => {}
                written => return written,
            }
        }
        Err(io::Error::from(ErrorKind::Interrupted))
    }
}

impl<R: Wait> Write for ReplyWriter<'_, R> {
    fn write(&mut self, piece: &[u8]) -> io::Result<usize> {
        let count = self.write_on(piece)?;
        let is_refusal = self.facts.lock(&self.rt).write(self.refusal, piece, count);
        if is_refusal {
            // If this fails, so does the flush before the next read.
            let _later = self.writer.flush();
        }
        Ok(count)
    }

    fn flush(&mut self) -> io::Result<()> {
        self.writer.flush()
    }
}
