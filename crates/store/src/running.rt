//! A segment whose epoch runs.
ghost use Rattle.std.specs.Prelude.{◌≡◌, ◌++◌, [], true, false, IfOk, IfErr};
ghost use Rattle.store.specs.Device.{BeginsWith};
ghost use Rattle.store.specs.Running.{IsAddition, IsCommitted};
ghost use Rattle.store.specs.Whole.{IsEnded, IsNumbered, IsWhole};

use crate::device::Device;
use crate::growing::Growing;
use crate::opened::{EndedSegment, OpenedSegment};
use batches::Batch;
use std::alloc::Global;
use std::marker::Model;

/// The file of a segment whose epoch runs. The bytes that are on the disk for good are its whole snapshot and whole entries.
/// A write that failed, or one that was not synced, may leave more bytes after them.
#[derive(Drop)]
pub(crate) struct Running<D: Device> {
    file: Growing<D>,
    number: u64,
    salt: u64,
    /// How many bytes are on the disk.
    size: u64,
}

impl<D: Device> Model for Running<D> {
    ghost use Rattle.store.specs.Growing.{RunningFile};
    ghost use Rattle.store.specs.Whole.{IsNumbered};

    ghost Value = { RunningFile D };

    ghost view = { λ r. record { number = r.number; salt = r.salt; size = r.size; file = r.file } };

    ghost invariant = { λ r. IsNumbered r.number r.salt r.size (D.synced r.file.device) };
}

impl<D: Device> Running<D> {
    /// The file of a segment that is open to append.
    pub(crate) fn new(segment: OpenedSegment<D>) -> Self
        ensures { result ≡ record { number = segment.number; salt = segment.salt; size = segment.size; file = record { device = segment.device; failed = false } } }
    {
        let parts = segment.into_parts();
        Running {
            file: Growing::new(parts.device),
            number: parts.number,
            salt: parts.salt,
            size: parts.size,
        }
    }

    /// Adds a batch of entries, and waits until it is on the disk. False if memory ran out or the file has failed.
    pub(crate) fn commit(&mut self, batch: Batch) -> bool
        requires { IsAddition batch }
        ensures kept { result ≡ true → IsCommitted self.old.salt (D.synced self.old.file.device) batch (D.synced self.new.file.device) }
        ensures none_lost { result ≡ false → D.synced self.new.file.device ≡ D.synced self.old.file.device }
    {
        let Ok(bytes) = batch.into_record(self.salt, self.size) else {
            return false;
        };
        let Some(size) = self.size.checked_add(bytes.len() as u64) else {
            return false;
        };
        match self.file.commit(&bytes) {
            Ok(()) => {
                self.size = size;
                true
            }
            Err(_) => false,
        }
    }

    /// What there is of the segment once it is ended.
    fn ended(&self) -> EndedSegment
        ensures number { result.number ≡ self.now.number }
        ensures salt { result.salt ≡ self.now.salt }
        ensures size { result.size ≡ self.now.size }
        ensures numbered { IsNumbered self.now.number self.now.salt self.now.size (D.synced self.now.file.device) }
    {
        EndedSegment::new(self.number, self.salt, self.size)
    }

    /// Ends the segment: adds an empty batch, waits until it is on the disk, and returns the file, and what can be noted of it.
    /// So damage of a batch that has entries isn't taken for a torn end. If that fails, returns the file, which has failed.
    pub(crate) fn finish(mut self, alloc: Global) -> Result<(D, EndedSegment), D>
    where
        D: Drop,
        ensures added { IfOk result (λ r. IsCommitted self.salt (D.synced self.file.device) [] (D.synced r.0)) }
        ensures ended { IfOk result (λ r. IsEnded (D.synced r.0)) }
        ensures numbered { IfOk result (λ r. IsNumbered r.1.number r.1.salt r.1.size (D.synced r.0)) }
        ensures none_lost { IfErr result (λ device. D.synced device ≡ D.synced self.file.device) }
    {
        // Only a proof reads it, and what its clause says.
        let _before = self.ended();
        if !self.commit(Batch::new(alloc)) {
            return Err(self.file.into_device());
        }
        let ended = self.ended();
        Ok((self.file.into_device(), ended))
    }

    /// Whether a write has failed.
    pub(crate) fn has_failed_write(&self) -> bool
        ensures { result ≡ self.now.file.failed }
    {
        self.file.has_failed()
    }

    /// The file, to look at.
    pub(crate) fn device(&self) -> &D
        ensures { result.now ≡ self.now.file.device }
    {
        self.file.device()
    }

    /// The file.
    pub(crate) fn into_device(self) -> D
        ensures device { result ≡ self.file.device }
        ensures whole { IsWhole (D.synced result) }
    {
        self.file.into_device()
    }
}
