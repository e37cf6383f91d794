//! Entries of an epoch that are to be added to its segment, in batches.
ghost use Rattle.std.specs.Prelude.{◌≡◌, ◌++◌, ◌∷◌, [], length, OnOk, OnErr};
ghost use Rattle.store.specs.Running.{IsAddition, IsEntry, with_payloads};

use crate::fault::StoreFault;
use batches::Batch;
use std::alloc::Global;
use std::collections::VecDeque;
use std::marker::Model;
use std::mem;

/// From so many bytes on a batch takes no more entries: 16 MiB. A longer entry has a batch of its own.
const FULL: usize = 1 << 24;

/// How many bytes stand before an entry in a batch.
const LENGTH: usize = 4;

/// A batch that takes no more entries.
#[derive(Drop)]
pub(crate) struct Closed {
    pub batch: Batch,
    /// All entries that were added up to this time are in it, or in batches before it.
    pub upto: u64,
}

/// Entries that are to be added to a file, in batches. Contracts see the contents of these, one after another.
#[derive(Drop)]
pub(crate) struct Pending {
    alloc: Global,
    /// Batches that take no more entries, the oldest first.
    closed: VecDeque<Closed>,
    /// The batch that takes entries.
    last: Batch,
    /// How many bytes the contents have.
    size: u64,
}

impl Model for Pending {
    ghost use Rattle.std.specs.Prelude.{ℕ, List, ◌++◌};
    ghost use Rattle.store.specs.Running.{ArePending, contents_in};

    ghost Value = { List ℕ };

    ghost view = { λ p. contents_in p.closed.items ++ p.last };

    ghost invariant = { λ p. ArePending p.closed.items p.last p.size };
}

impl Pending {
    /// No entries yet. Takes no memory.
    pub(crate) fn new(alloc: Global) -> Self
        ensures { result ≡ [] }
    {
        Pending {
            alloc,
            closed: VecDeque::new(alloc),
            last: Batch::new(alloc),
            size: 0,
        }
    }

    /// How many bytes the contents have.
    pub(crate) fn size(&self) -> u64
        ensures { result ≡ length self.now }
    {
        self.size
    }

    /// Closes the batch that takes entries. All entries up to this time are in it, or in batches before it.
    fn close(&mut self, upto: u64) -> Result<(), StoreFault>
        ensures { self.new ≡ self.old }
    {
        let batch = mem::replace(&mut self.last, Batch::new(self.alloc));
        match self.closed.push_back(Closed { batch, upto }) {
            Ok(()) => Ok(()),
            Err(failed) => {
                self.last = failed.value.batch;
                Err(StoreFault::Memory)
            }
        }
    }

    /// Whether another batch should take an entry of this size.
    fn is_full(&self, size: usize) -> bool {
        !self.last.is_empty() && self.last.size().saturating_add(size) > FULL
    }

    /// Adds an entry to the batch that takes entries. After an error nothing has changed: `Memory`, or `Write` if it has no room.
    fn put(&mut self, payload: &[u8]) -> Result<(), StoreFault>
        requires { IsEntry payload.now }
        ensures added { OnOk result (self.new ≡ with_payloads self.old (payload.now ∷ [])) }
        ensures kept { OnErr result (self.new ≡ self.old) }
    {
        if !self.last.has_room(payload.len()) {
            return Err(StoreFault::Write);
        }
        let Some(size) = self.size.checked_add((LENGTH + payload.len()) as u64) else {
            return Err(StoreFault::Write);
        };
        self.last.add(payload)?;
        self.size = size;
        Ok(())
    }

    /// Adds an entry. All entries up to this time were added before. After an error nothing has changed: `Memory`, or `Write` if
    /// no batch has room for it.
    pub(crate) fn add(&mut self, payload: &[u8], upto: u64) -> Result<(), StoreFault>
        requires { IsEntry payload.now }
        ensures added { OnOk result (self.new ≡ with_payloads self.old (payload.now ∷ [])) }
        ensures kept { OnErr result (self.new ≡ self.old) }
    {
        if self.is_full(payload.len()) {
            self.close(upto)?;
        }
        self.put(payload)
    }

    /// Takes the oldest batch out. If it is the one that takes entries, all entries up to this time are in it or in batches
    /// before it.
    pub(crate) fn take(&mut self, upto: u64) -> Closed
        ensures parts { self.old ≡ result.batch ++ self.new }
        ensures entries { IsAddition result.batch }
    {
        match self.closed.pop_front() {
            Some(closed) => {
                self.size -= closed.batch.size() as u64;
                closed
            }
            None => {
                let batch = mem::replace(&mut self.last, Batch::new(self.alloc));
                self.size = 0;
                Closed { batch, upto }
            }
        }
    }
}
