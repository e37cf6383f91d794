//! The bytes of a payload, read one after another.
ghost use Rattle.std.specs.Prelude.{◌≡◌, ◌↔◌, [], IsTrue};
ghost use Rattle.std.specs.Int.{w32, w64};
ghost use Rattle.ledger.specs.Reading.{Reads, ReadsAs, byte_at, number_at, bytes_at};

use crate::malformed::Malformed;
use std::marker::Model;

/// The bytes of a payload that are still to be read. After a fault nothing is said of them.
#[derive(Drop)]
pub(crate) struct Cursor<'a> {
    rest: &'a [u8],
}

impl<'a> Model for Cursor<'a> {
    ghost use Rattle.std.specs.Prelude.{ℕ, List};

    ghost Value = { List ℕ };

    ghost view = { λ c. c.rest.now };
}

impl<'a> Cursor<'a> {
    pub(crate) fn new(bytes: &'a [u8]) -> Self
        ensures { result ≡ bytes.now }
    {
        Cursor { rest: bytes }
    }

    /// Whether all is read.
    pub(crate) fn is_empty(&self) -> bool
        ensures { IsTrue result ↔ (self.now ≡ []) }
    {
        self.rest.is_empty()
    }

    /// What is still to be read.
    pub(crate) fn rest(&self) -> &'a [u8]
        ensures { result.now ≡ self.now }
    {
        self.rest
    }

    pub(crate) fn read_byte(&mut self) -> Result<u8, Malformed>
        ensures { Reads result self.new (byte_at self.old) }
    {
        match self.rest {
            [first, rest @ ..] => {
                self.rest = rest;
                Ok(*first)
            }
            [] => Err(Malformed::Length),
        }
    }

    pub(crate) fn read_bytes(&mut self, len: usize) -> Result<&'a [u8], Malformed>
        ensures { ReadsAs (λ bytes. bytes.now) result self.new (bytes_at len self.old) }
    {
        if self.rest.len() < len {
            return Err(Malformed::Length);
        }
        let (front, rest) = self.rest.split_at(len);
        self.rest = rest;
        Ok(front)
    }

    pub(crate) fn read_u32(&mut self) -> Result<u32, Malformed>
        ensures { Reads result self.new (number_at w32 self.old) }
    {
        if self.rest.len() < 4 {
            return Err(Malformed::Length);
        }
        let (front, rest) = self.rest.split_at(4);
        self.rest = rest;
        Ok(u32::from_be_bytes([front[0], front[1], front[2], front[3]]))
    }

    pub(crate) fn read_u64(&mut self) -> Result<u64, Malformed>
        ensures { Reads result self.new (number_at w64 self.old) }
    {
        if self.rest.len() < 8 {
            return Err(Malformed::Length);
        }
        let (front, rest) = self.rest.split_at(8);
        self.rest = rest;
        Ok(u64::from_be_bytes([
            front[0], front[1], front[2], front[3], front[4], front[5], front[6], front[7],
        ]))
    }
}
