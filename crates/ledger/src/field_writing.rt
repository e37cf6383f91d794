//! Writes names, keys and lines.
ghost use Rattle.std.specs.Prelude.{◌≡◌, ◌++◌, ◌<◌, ◌^◌, length, true, Some, OnOk};
ghost use Rattle.maildrop.specs.Name.{is_name};
ghost use Rattle.maildrop.specs.Key.{is_key};
ghost use Rattle.ledger.specs.Fitting.{FitsKey};
ghost use Rattle.ledger.specs.Payloads.{short_string, long_string, key_bytes};

use crate::payload::{Front, Payload};
use ballot::Memory;
use maildrop::{Key, Name};
use std::alloc::Allocator;

impl<A: Allocator, F: Front> Payload<A, F> {
    pub(crate) fn put_name(&mut self, name: &Name) -> Result<(), Memory>
        ensures ok { OnOk result (self.new ≡ self.old ++ short_string name.now) }
        ensures fits { is_name name.now ≡ true }
    {
        let bytes = name.get();
        self.put_byte(bytes.len() as u8)?;
        self.put_bytes(bytes)
    }

    pub(crate) fn put_key(&mut self, key: &Key) -> Result<(), Memory>
        ensures ok { OnOk result (self.new ≡ self.old ++ short_string key.now) }
        ensures fits { is_key key.now ≡ true }
    {
        let bytes = key.get();
        self.put_byte(bytes.len() as u8)?;
        self.put_bytes(bytes)
    }

    /// Adds a key, or none as one of no bytes.
    pub(crate) fn put_optional_key(&mut self, key: &Option<Key>) -> Result<(), Memory>
        ensures ok { OnOk result (self.new ≡ self.old ++ key_bytes key.now) }
        ensures fits { FitsKey key.now }
    {
        match key {
            None => self.put_byte(0),
            Some(key) => self.put_key(key),
        }
    }

    pub(crate) fn put_line(&mut self, line: &[u8]) -> Result<(), Memory>
        requires { length line.now < 2 ^ 32 }
        ensures { OnOk result (self.new ≡ self.old ++ long_string line.now) }
    {
        self.put_count(line.len())?;
        self.put_bytes(line)
    }
}
