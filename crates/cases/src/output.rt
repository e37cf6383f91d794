//! A writer whose bytes the client sees at once.

use std::cell::RefCell;
use std::io;
use std::io::Write;

/// A writer that takes so many bytes a call, and no more than its room, after which it takes nothing or fails.
#[derive(Drop)]
pub struct Output<'a> {
    pub taken: &'a RefCell<Vec<u8>>,
    pub most: usize,
    pub room: usize,
    pub fails: bool,
}

impl Write for Output<'_> {
    fn write(&mut self, buf: &[u8]) -> io::Result<usize> {
        let mut taken = self
            .taken
            .try_borrow_mut()
            .map_err(|_| io::Error::from(io::ErrorKind::Other))?;
        let count = buf
            .len()
            .min(self.most)
            .min(self.room.saturating_sub(taken.len()));
        if count == 0 && self.fails {
            return Err(io::Error::from(io::ErrorKind::BrokenPipe));
        }
        taken.extend_from_slice(&buf[..count])?;
        Ok(count)
    }

    fn flush(&mut self) -> io::Result<()> {
        Ok(())
    }
}
