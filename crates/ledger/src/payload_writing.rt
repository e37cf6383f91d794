//! Writes payloads of changes.
ghost use Rattle.std.specs.Prelude.{◌≡◌, ◌++◌, ◌<◌, ◌^◌, Option, List, ℕ, Ok, length, take, IsTrue, OnOk, OnErr};
ghost use Rattle.maildrop.specs.Text.{octets_of};
ghost use Rattle.ledger.specs.Fitting.{FitsChange, FitsEntry, FitsStored};
ghost use Rattle.ledger.specs.Payloads.{u64_bytes, counted, long_string, key_bytes, change_bytes, payload, fits, entry};
ghost use Rattle.ledger.specs.Reading.{record_in};
ghost use Rattle.ledger.specs.declared.entry.Record.TheVariants as said;

use crate::kind::number_of;
use crate::payload::{Front, Payload};
use ballot::Memory;
use maildrop::{Change, Key, Name, Text};
use std::alloc::Allocator;
use std::marker::Brand;
use std::mem;

impl<B: Allocator, F: Front> Payload<B, F> {
    fn put_stored<A: Allocator + Copy>(
        &mut self,
        uid: u64,
        text: &Text<A>,
        key: &Option<Key>,
    ) -> Result<(), Memory>
        requires { octets_of text.now < 2 ^ 32 }
        ensures ok { OnOk result (self.new ≡ self.old ++ (u64_bytes uid ++ counted long_string text.now ++ key_bytes key.now)) }
        ensures fits { OnOk result (FitsStored uid text.now key.now) }
    {
        self.put_u64(uid)?;
        self.put_text(text)?;
        self.put_optional_key(key)
    }

    /// Adds the fields of a change.
    fn put_fields<A: Allocator + Copy>(&mut self, change: &Change<A>) -> Result<(), Memory>
        requires { IsTrue (fits change.now) }
        ensures ok { OnOk result (self.new ≡ self.old ++ change_bytes change.now) }
        ensures fits { OnOk result (FitsChange change.now) }
    {
        match change {
            Change::Stored { uid, text, key } => self.put_stored(*uid, text, key),
            Change::Removed(uids) => self.put_uids(uids),
            Change::Keyed { key, uid } => {
                self.put_key(key)?;
                self.put_u64(*uid)
            }
            Change::Next(uid) => self.put_u64(*uid),
        }
    }

    fn put_entry<A: Allocator + Copy>(
        &mut self,
        slot: u64,
        name: &Name,
        change: &Change<A>,
    ) -> Result<(), Memory>
        requires { IsTrue (fits change.now) }
        ensures ok { OnOk result (self.new ≡ self.old ++ payload slot name.now change.now) }
        ensures fits { OnOk result (FitsEntry slot name.now change.now) }
    {
        self.put_byte(number_of(change))?;
        self.put_u64(slot)?;
        self.put_name(name)?;
        self.put_fields(change)
    }
}

/// Adds a payload to a buffer. After an error a part of it may be there.
fn put_payload<A: Allocator + Copy, B: Allocator + Copy, F: Front>(
    bytes: &mut Vec<u8, B>,
    slot: u64,
    name: &Name,
    change: &Change<A>,
) -> Result<(), Memory>
    requires front { bytes.old.items ≡ F.front }
    requires fits { IsTrue (fits change.now) }
    ensures ok { OnOk result (bytes.new.items ≡ bytes.old.items ++ payload slot name.now change.now) }
    ensures kept { take (length bytes.old.items) bytes.new.items ≡ bytes.old.items }
    ensures valid { OnOk result (FitsEntry slot name.now change.now) }
{
    let alloc = *bytes.allocator();
    let front = mem::replace(bytes, Vec::new(alloc));
    let mut payload: Payload<B, F> = Payload::after(front);
    let written = payload.put_entry(slot, name, change);
    *bytes = payload.into_bytes();
    written
}

/// Adds to `out` the payload of what the command of a slot changed of this user's maildrop. After an error `out` is as it
/// was.
pub fn put_change<A: Allocator + Copy, B: Allocator + Copy>(
    out: &mut Vec<u8, B>,
    slot: u64,
    name: &Name,
    change: &Change<A>,
) -> Result<(), Memory>
    requires { IsTrue (fits change.now) }
    ensures value { OnOk result (out.new.items ≡ out.old.items ++ payload slot name.now change.now) }
    ensures kept { OnErr result (out.new.items ≡ out.old.items) }

    // What is written is read back.
    ensures read_back { OnOk result (record_in (payload slot name.now change.now) ≡ Ok (said.Entry (entry slot name.now change.now))) }
{
    let start = out.len();
    let written = put_payload::<A, B, Brand>(out, slot, name, change);
    if written.is_err() {
        out.truncate(start);
    }
    written
}
