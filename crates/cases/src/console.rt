//! A standard error that keeps what it is told.

use std::cell::RefCell;
use std::fmt::{Display, Write};
use std::io;

/// A standard error that keeps what it is told.
#[derive(Drop)]
pub struct Console<'a> {
    pub told: &'a RefCell<String>,
}

fn unwritten() -> io::Error {
    io::Error::from(io::ErrorKind::Other)
}

impl Eprint for Console<'_> {
    fn eprint<D: Display + Drop>(&self, value: D) -> io::Result<()> {
        let mut told = self.told.try_borrow_mut().map_err(|_| unwritten())?;
        write!(*told, "{value}").map_err(|_| unwritten())
    }

    fn eprintln<D: Display + Drop>(&self, value: D) -> io::Result<()> {
        let mut told = self.told.try_borrow_mut().map_err(|_| unwritten())?;
        writeln!(*told, "{value}").map_err(|_| unwritten())
    }
}
