//! A writer that notes whether it is given a POP3 server's greeting.

use std::io;
use std::io::Write;

/// What a POP3 server greets with. It answers no operator.
const GREETING: &[u8] = b"+OK";

/// A writer that notes whether what it is given first is a POP3 server's greeting.
#[derive(Drop)]
pub(crate) struct GreetingWriter<W> {
    writer: W,
    has_heard: bool,
    is_greeted: bool,
}

impl<W> GreetingWriter<W> {
    pub(crate) fn new(writer: W) -> Self {
        GreetingWriter {
            writer,
            has_heard: false,
            is_greeted: false,
        }
    }

    /// Whether what it was given first is a greeting.
    pub(crate) fn is_greeted(&self) -> bool {
        self.is_greeted
    }
}

impl<W: Write> Write for GreetingWriter<W> {
    fn write(&mut self, buf: &[u8]) -> io::Result<usize> {
        if !self.has_heard {
            self.has_heard = true;
            self.is_greeted = buf.starts_with(GREETING);
        }
        self.writer.write(buf)
    }

    fn flush(&mut self) -> io::Result<()> {
        self.writer.flush()
    }
}
