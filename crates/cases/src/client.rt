//! Readers that give what a client sends.
ghost use Rattle.std.specs.Prelude.{◌≤◌, length};

use crate::case::{Case, Turn};
use maildrop::{Name, Op};
use server::LoneDesk;
use std::cell::RefCell;
use std::io;
use std::io::Read;

/// Gives of the bytes what the buffer takes, up to so many. Leaves the rest.
fn give(rest: &mut &[u8], most: usize, buf: &mut [u8]) -> usize
    ensures { result ≤ length buf.new }
{
    let count = rest.len().min(most).min(buf.len());
    let (given, behind) = rest.split_at(count);
    buf[..count].copy_from_slice(given);
    *rest = behind;
    count
}

/// A client that sends so many bytes a call and awaits no reply. Behind the last byte its input ends or fails.
#[derive(Drop)]
pub struct Hasty<'a> {
    pub rest: &'a [u8],
    pub most: usize,
    pub fails: bool,
}

impl Read for Hasty<'_> {
    fn read(&mut self, buf: &mut [u8]) -> io::Result<usize> {
        let mut rest = self.rest;
        let count = give(&mut rest, self.most, buf);
        self.rest = rest;
        if count == 0 && self.fails {
            return Err(io::Error::from(io::ErrorKind::ConnectionReset));
        }
        Ok(count)
    }
}

/// Gives what another reader gives, but each read is first interrupted.
#[derive(Drop)]
pub struct Interrupted<R> {
    pub reader: R,
    pub interrupts_next: bool,
}

impl<R: Read> Read for Interrupted<R> {
    fn read(&mut self, buf: &mut [u8]) -> io::Result<usize> {
        let interrupts = self.interrupts_next;
        self.interrupts_next = !interrupts;
        if interrupts {
            return Err(io::Error::from(io::ErrorKind::Interrupted));
        }
        self.reader.read(buf)
    }
}

/// A client that sends a line only once it has the replies to those before, but for so many bytes of it, which come with
/// the line before. Where replies are missing, its input fails.
#[derive(Drop)]
pub struct Patient<'c, 'r> {
    pub case: &'c Case,
    pub sent: usize,
    pub ahead: usize,
    pub turns: &'c [Turn],
    /// What it got.
    pub taken: &'r RefCell<Vec<u8>>,
    /// The maildrop's desk and its user, if others come to the maildrop meanwhile.
    pub desk: Option<(&'r RefCell<LoneDesk>, Name)>,
}

impl Patient<'_, '_> {
    fn has(&self, wanted: usize) -> bool {
        match self.taken.try_borrow() {
            Ok(taken) => taken.len() >= wanted,
            Err(_) => false,
        }
    }

    /// Whether the replies that a turn awaits are there, and what others do then is done.
    fn goes_on(&self, turn: &Turn) -> bool {
        self.has(turn.wanted)
            && match (&turn.meanwhile, &self.desk) {
                (Some(operation), Some((desk, user))) => is_done(desk, *user, operation),
                _ => true,
            }
    }
}

/// Whether the desk has performed an operation of the user.
fn is_done(desk: &RefCell<LoneDesk>, user: Name, operation: &Op) -> bool {
    let (Ok(mut desk), Ok(operation)) = (desk.try_borrow_mut(), operation.copy()) else {
        return false;
    };
    desk.perform(user, operation).is_some()
}

impl Read for Patient<'_, '_> {
    fn read(&mut self, buf: &mut [u8]) -> io::Result<usize> {
        let mut rest = self.turns;
        for turn in self.turns {
            if turn.sent > self.sent {
                break;
            }
            if !self.goes_on(turn) {
                return Err(io::Error::from(io::ErrorKind::TimedOut));
            }
            rest = rest.get(1..).unwrap_or(&[]);
        }
        self.turns = rest;
        let sent = self.case.sent.as_slice();
        let end = match rest.first() {
            Some(turn) => turn.sent.saturating_add(self.ahead).min(sent.len()),
            None => sent.len(),
        };
        let mut bytes = sent.get(self.sent..end).unwrap_or(&[]);
        let count = give(&mut bytes, usize::MAX, buf);
        self.sent = self.sent.saturating_add(count);
        Ok(count)
    }
}
