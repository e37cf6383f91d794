//! Reads files of records that come by pieces.
ghost use Rattle.std.specs.Prelude.{◌≡◌, ◌++◌, ◌∷◌, [], ◌+◌, ◌-◌, ◌<◌, ◌≤◌, ◌^◌, ℕ, List, length, drop, nat_lt, if◌then◌else◌, false, IfOk, OnOk, OnErr, IfNone, IfSome, IsOk, None, option_to_list, option_map};
ghost use Rattle.records.specs.Reading as spec;
ghost use Rattle.records.specs.Readers.{HasRead, IsDrained, IsEndOf, begun, salt_in, taken_in};

use crate::ending::Ending;
use crate::ends::{ending_of, records_end};
use crate::head::{HEAD, may_begin, salt_of};
use crate::phase::Phase;
use crate::place::{FRAME, LARGEST_PAYLOAD, is_cut, record_at};
use crate::search::{pass_over, resumes};
use crate::unread::Unread;
use ballot::Memory;
use std::alloc::{Allocator, Global};
use std::marker::Model;

/// Reads a file of records that comes by pieces, however it is cut. Give it a piece by `add`, then call `next` until it
/// answers `None`. It keeps what it has not passed.
#[derive(Drop)]
pub struct Reader<A: Allocator = Global> {
    unread: Unread<A>,
    place: u64,
    phase: Phase,
}

impl<A: Allocator> Model for Reader<A> {
    ghost use Rattle.std.specs.Prelude.{◌+◌, ◌<◌, ◌^◌, length};
    ghost use Rattle.records.specs.Readers.{Kept};

    ghost Value = { Kept };

    ghost view = { λ r. record { phase = r.phase; place = r.place; bytes = r.unread } };

    ghost invariant = { λ r. r.place + length r.unread < 2 ^ 64 };
}

impl<A: Allocator + Copy> Reader<A> {
    ghost use Rattle.records.specs.declared.phase.Phase.TheVariants.{Head, Records, Search, Damaged};

    /// A reader at the start of a file. Takes no memory.
    pub fn new(alloc: A) -> Self
        ensures read { HasRead [] [] result }
        ensures drained { IsDrained result }
    {
        Reader {
            unread: Unread::new(alloc),
            place: 0,
            phase: Phase::Head,
        }
    }

    /// Adds a piece to what is kept.
    fn push(&mut self, piece: &[u8]) -> Result<(), Memory>
        ensures value { OnOk result (self.new ≡ record self.old { bytes = self.old.bytes ++ piece.now }) }
        ensures kept { OnErr result (self.new ≡ self.old) }
    {
        let end = self.place + self.unread.get().len() as u64;
        if u64::MAX - end < piece.len() as u64 {
            return Err(Memory);
        }
        self.unread.add(piece)
    }

    /// Passes over the head, once it has come whole.
    fn begin(&mut self)
        requires { self.old.phase ≡ Head }
        ensures { self.new ≡ (if nat_lt (length self.old.bytes) HEAD then self.old else begun self.old.bytes) }
    {
        let unread = self.unread.get();
        if unread.len() < HEAD {
            return;
        }
        if may_begin(unread) {
            self.phase = Phase::Records(salt_of(unread));
            self.unread.pass(HEAD);
        } else {
            self.phase = Phase::Other;
            self.unread.clear();
        }
        self.place = HEAD as u64;
    }

    /// Takes a piece in.
    fn take_in(&mut self, piece: &[u8]) -> Result<(), Memory>
        ensures value { OnOk result (self.new ≡ taken_in self.old.phase self.old.place self.old.bytes piece.now) }
        ensures kept { OnErr result (self.new ≡ self.old) }
    {
        match self.phase {
            Phase::Head => {
                self.push(piece)?;
                self.begin();
                Ok(())
            }
            Phase::Records(_) | Phase::Search(_, _) => self.push(piece),
            Phase::Damaged(_) | Phase::Other => Ok(()),
        }
    }

    /// Takes the next piece of the file. Keeps none of it, once the reader knows how the file ends. Answers `Memory` too if
    /// more than 2^64 - 1 bytes have come. After an error nothing has changed.
    pub fn add(&mut self, piece: &[u8]) -> Result<(), Memory>
        ensures read { (bytes : List ℕ) (given : List (List ℕ)) → HasRead bytes given self.old → OnOk result (HasRead (bytes ++ piece.now) given self.new) }
        ensures kept { OnErr result (self.new ≡ self.old) }
    {
        self.take_in(piece)
    }

    /// Passes over a record with a payload of this size.
    fn pass(&mut self, size: usize)
        requires { FRAME + size ≤ length self.old.bytes }
        ensures { self.new ≡ record self.old { place = self.old.place + (FRAME + size); bytes = drop (FRAME + size) self.old.bytes } }
    {
        self.unread.pass(FRAME + size);
        self.place += (FRAME + size) as u64;
    }

    /// Goes on with the search for a whole record after the bad one at this place.
    fn search(&mut self, salt: u64, bad: u64)
        requires { self.old.phase ≡ Search salt bad }
        ensures read { (bytes : List ℕ) (given : List (List ℕ)) → HasRead bytes given self.old → HasRead bytes given self.new }
        ensures drained { IsDrained self.new }
        ensures small { length self.new.bytes < FRAME + LARGEST_PAYLOAD }
    {
        let passed = pass_over(salt, self.place, self.unread.get());
        self.unread.pass(passed.count);
        self.place += passed.count as u64;
        if passed.is_found {
            self.phase = Phase::Damaged(bad);
            self.unread.clear();
        }
    }

    /// The next payload, while the reader reads records with this salt.
    #[tactic(auto, using(crate::proofs::More::cut_small))]
    fn next_record(&mut self, salt: u64) -> Result<Option<Vec<u8, A>>, Memory>
        requires { self.old.phase ≡ Records salt }
        ensures read { (bytes : List ℕ) (given : List (List ℕ)) → HasRead bytes given self.old → IfOk result (λ payload. HasRead bytes (given ++ option_to_list (option_map (λ v. v.items) payload)) self.new) }
        ensures drained { IfOk result (λ payload. IfNone payload (IsDrained self.new)) }
        ensures small { IfOk result (λ payload. IfNone payload (length self.new.bytes < FRAME + LARGEST_PAYLOAD)) }
        ensures fewer { IfOk result (λ payload. IfSome payload (λ _. length self.new.bytes < length self.old.bytes)) }
        ensures idle { spec.record_at salt self.old.place self.old.bytes ≡ None → IsOk result }
        ensures kept { OnErr result (self.new ≡ self.old) }
    {
        let place = self.place;
        let unread = self.unread.get();
        if let Some((payload, _)) = record_at(salt, place, unread) {
            let payload = Vec::from_slice(self.unread.allocator(), payload)?;
            self.pass(payload.len());
            return Ok(Some(payload));
        }
        if is_cut(salt, place, unread) {
            return Ok(None);
        }
        self.phase = Phase::Search(salt, place);
        self.search(salt, place);
        Ok(None)
    }

    /// The next payload of the file. `None` if no whole record has come that was not handed out, or a bad one has. Takes
    /// memory only for the payload. After an error nothing has changed.
    pub fn next(&mut self) -> Result<Option<Vec<u8, A>>, Memory>
        ensures read { (bytes : List ℕ) (given : List (List ℕ)) → HasRead bytes given self.old → IfOk result (λ payload. HasRead bytes (given ++ option_to_list (option_map (λ v. v.items) payload)) self.new) }
        ensures drained { IfOk result (λ payload. IfNone payload (IsDrained self.new)) }
        ensures kept { OnErr result (self.new ≡ self.old) }

        // Memory is taken only for a payload.
        ensures idle { IsDrained self.old → IsOk result }

        // A payload is taken out of what is kept, so that a loop that calls `next` ends.
        ensures fewer { IfOk result (λ payload. IfSome payload (λ _. length self.new.bytes < length self.old.bytes)) }

        // If there is none, fewer bytes are kept than the largest record has.
        ensures small { (bytes : List ℕ) (given : List (List ℕ)) → HasRead bytes given self.old → IfOk result (λ payload. IfNone payload (length self.new.bytes < FRAME + LARGEST_PAYLOAD)) }
    {
        match self.phase {
            Phase::Records(salt) => self.next_record(salt),
            Phase::Search(salt, bad) => {
                self.search(salt, bad);
                Ok(None)
            }
            Phase::Head | Phase::Damaged(_) | Phase::Other => Ok(None),
        }
    }

    /// The salt of the file: `None` before its head has come whole, or once the reader knows that the file is damaged or no
    /// segment.
    pub fn salt(&self) -> Option<u64>
        ensures { result ≡ salt_in self.now.phase }
    {
        match self.phase {
            Phase::Records(salt) | Phase::Search(salt, _) => Some(salt),
            Phase::Head | Phase::Damaged(_) | Phase::Other => None,
        }
    }

    /// How the file ends, of which no more comes. Passes over the whole records that were not handed out. Takes no memory.
    pub fn finish(self) -> Ending
        ensures { (bytes : List ℕ) (given : List (List ℕ)) → HasRead bytes given self → IsEndOf bytes given self result }
    {
        let unread = self.unread.get();
        match self.phase {
            Phase::Head => {
                if may_begin(unread) {
                    Ending::Cut(0)
                } else {
                    Ending::NotASegment
                }
            }
            Phase::Records(salt) => {
                let count = records_end(salt, self.place, unread);
                let (_, rest) = unread.split_at(count);
                ending_of(salt, self.place + count as u64, rest)
            }
            Phase::Search(salt, bad) => {
                if resumes(salt, self.place, unread) {
                    Ending::Damaged(bad)
                } else {
                    Ending::Torn(bad)
                }
            }
            Phase::Damaged(bad) => Ending::Damaged(bad),
            Phase::Other => Ending::NotASegment,
        }
    }
}
