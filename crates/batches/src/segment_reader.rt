//! Reads segments of either version that come by pieces.
ghost use Rattle.std.specs.Prelude.{◌≡◌, ◌++◌, ◌∷◌, [], ◌+◌, ◌<◌, ◌≤◌, ℕ, List, length, true, false, OnOk, IfOk, IfNone, IfSome, IsOk, option_to_list, option_map};
ghost use Rattle.records.specs.Readers.{IsDrained};
ghost use Rattle.batches.specs.Batches.{contents_of};
ghost use Rattle.batches.specs.Reading.{IsReadByBatches, IsReadSingly};
ghost use Rattle.batches.specs.Readers.{HasReadSegment, batch_salt};

use crate::place::FRAME;
use ballot::Memory;
use records::{Ending, LARGEST_PAYLOAD, Reader};
use std::alloc::{Allocator, Global};
use std::marker::Model;

/// Where the version stands: in the eighth byte of a file.
const VERSION_AT: u64 = 7;

/// The version of a file of batches.
const BATCHED: u8 = 2;

/// The version that a reader of records knows.
const FIRST: [u8; 1] = [1];

/// Reads a segment of either version that comes by pieces, however it is cut. Give it a piece by `add`, then call `next` until
/// it answers `None`. After an error of `add` it must not be used.
#[derive(Drop)]
pub struct SegmentReader<A: Allocator = Global> {
    reader: Reader<A>,
    seen: u64,
    batched: bool,
}

impl<A: Allocator> Model for SegmentReader<A> {
    ghost use Rattle.batches.specs.Readers.{SegmentKept};

    ghost Value = { SegmentKept };

    ghost view = { λ r. record { reader = r.reader; seen = r.seen; batched = r.batched } };
}

impl<A: Allocator + Copy> SegmentReader<A> {
    /// A reader at the start of a file. Takes no memory.
    pub fn new(alloc: A) -> Self
        ensures read { HasReadSegment [] [] result }
        ensures drained { IsDrained result.reader }
    {
        SegmentReader {
            reader: Reader::new(alloc),
            seen: 0,
            batched: false,
        }
    }

    /// Takes a piece in which the version stands. So many bytes have come then.
    fn add_version(&mut self, seen: u64, piece: &[u8]) -> Result<(), Memory>
        requires early { self.old.seen ≤ VERSION_AT }
        requires within { VERSION_AT < seen }
        requires all { seen ≡ self.old.seen + length piece.now }
        ensures { (bytes : List ℕ) (given : List (List ℕ)) → HasReadSegment bytes given self.old → OnOk result (HasReadSegment (bytes ++ piece.now) given self.new) }
    {
        let before = (VERSION_AT - self.seen) as usize;
        let (front, rest) = piece.split_at(before);
        let (version, rest) = rest.split_at(1);
        self.seen = seen;
        if version[0] != BATCHED {
            return self.reader.add(piece);
        }
        self.batched = true;
        self.reader.add(front)?;
        self.reader.add(&FIRST)?;
        self.reader.add(rest)
    }

    /// Takes the next piece of the file. Answers `Memory` too if more than 2^64 - 1 bytes have come.
    pub fn add(&mut self, piece: &[u8]) -> Result<(), Memory>
        ensures { (bytes : List ℕ) (given : List (List ℕ)) → HasReadSegment bytes given self.old → OnOk result (HasReadSegment (bytes ++ piece.now) given self.new) }
    {
        let Some(seen) = self.seen.checked_add(piece.len() as u64) else {
            return Err(Memory);
        };
        if self.seen > VERSION_AT {
            self.seen = seen;
            return self.reader.add(piece);
        }
        if seen > VERSION_AT {
            return self.add_version(seen, piece);
        }
        self.seen = seen;
        self.reader.add(piece)
    }

    /// The payload of the next record: in a file of batches it is the content of a batch. `None` if no whole record has come that
    /// was not handed out, or a bad one has. After an error nothing has changed.
    pub fn next(&mut self) -> Result<Option<Vec<u8, A>>, Memory>
        ensures read { (bytes : List ℕ) (given : List (List ℕ)) → HasReadSegment bytes given self.old → IfOk result (λ payload. HasReadSegment bytes (given ++ option_to_list (option_map (λ v. v.items) payload)) self.new) }
        ensures version { self.new.batched ≡ self.old.batched }
        ensures drained { IfOk result (λ payload. IfNone payload (IsDrained self.new.reader)) }
        ensures idle { IsDrained self.old.reader → IsOk result }
        ensures fewer { IfOk result (λ payload. IfSome payload (λ _. length self.new.reader.bytes < length self.old.reader.bytes)) }

        // If there is none, fewer bytes are kept than the largest batch has.
        ensures small { (bytes : List ℕ) (given : List (List ℕ)) → HasReadSegment bytes given self.old → IfOk result (λ payload. IfNone payload (length self.new.reader.bytes < FRAME + LARGEST_PAYLOAD)) }
    {
        self.reader.next()
    }

    /// Whether it is a file of batches. False while its version has not come.
    pub fn is_batched(&self) -> bool
        ensures { result ≡ self.now.batched }
    {
        self.batched
    }

    /// The salt of a file of batches. `None` if it is none, or before its head has come, or once the reader knows that it is
    /// damaged.
    pub fn salt(&self) -> Option<u64>
        ensures { result ≡ batch_salt self.now }
    {
        if !self.batched {
            return None;
        }
        self.reader.salt()
    }

    /// How many bytes have come.
    pub fn seen(&self) -> u64
        ensures { result ≡ self.now.seen }
    {
        self.seen
    }

    /// How the file ends, of which no more comes.
    pub fn finish(self) -> Ending
        // What was handed out of a file of batches are the contents of these.
        ensures batches { (bytes : List ℕ) (batches : List (List (List ℕ))) → HasReadSegment bytes (contents_of batches) self → self.batched ≡ true → IsDrained self.reader → IsReadByBatches bytes batches result }
        ensures single { (bytes : List ℕ) (given : List (List ℕ)) → HasReadSegment bytes given self → self.batched ≡ false → IsDrained self.reader → IsReadSingly bytes given result }
    {
        self.reader.finish()
    }
}
