//! A reader that keeps what it was given last, to show a line of it.

use memchr::memchr_iter;
use std::alloc::Global;
use std::io;
use std::io::Read;

/// How many bytes are kept of a line that began in an earlier read.
const MOST_BEGUN: usize = 256;

/// A reader that keeps what its last read gave, and the beginning of the line that this read went on with.
#[derive(Drop)]
pub(crate) struct KeptReader<R> {
    reader: R,
    /// How many line feeds came before what is kept.
    lines_before: u64,
    kept: Vec<u8>,
    /// Whether there was memory for all that is to be kept.
    is_whole: bool,
}

impl<R> KeptReader<R> {
    pub(crate) fn new(alloc: Global, reader: R) -> Self {
        KeptReader {
            reader,
            lines_before: 0,
            kept: Vec::new(alloc),
            is_whole: true,
        }
    }

    /// The line of this number, counted from 1, as far as it was read and is kept. Nothing if it came before what is kept.
    pub(crate) fn line(&self, number: u64) -> Option<&[u8]> {
        if !self.is_whole {
            return None;
        }
        let mut place = self.lines_before.checked_add(1)?;
        for line in self.kept.split(|byte| *byte == b'\n') {
            if place == number {
                return Some(line);
            }
            place = place.checked_add(1)?;
        }
        None
    }

    /// Keeps what a read gave, in place of the lines that ended before it.
    fn keep(&mut self, bytes: &[u8]) {
        let feeds = memchr_iter(b'\n', &self.kept).count();
        self.lines_before = self.lines_before.saturating_add(feeds as u64);
        let begin = memchr::memrchr(b'\n', &self.kept).map_or(0, |place| place.saturating_add(1));
        self.kept.drain(..begin);
        self.kept.truncate(MOST_BEGUN);
        if self.kept.extend_from_slice(bytes).is_err() {
            self.is_whole = false;
        }
    }
}

impl<R: Read> Read for KeptReader<R> {
    fn read(&mut self, buf: &mut [u8]) -> io::Result<usize> {
        let count = self.reader.read(buf)?;
        self.keep(&buf[..count]);
        Ok(count)
    }
}
