//! A segment to which an epoch adds, and one that was ended.
ghost use Rattle.std.specs.Prelude.{◌≡◌, IfOk};
ghost use Rattle.store.specs.Whole.{IsNumbered, IsRunning};

use crate::device::Device;
use crate::file_device::{FileDevice, SyncMode};
use crate::lock::FolderLock;
use std::marker::Model;
use std::sync::Arc;

/// A segment that is open to append. All that its file has is on the disk: its snapshot and whole entries.
#[derive(Drop)]
pub struct OpenedSegment<D: Device> {
    device: D,
    number: u64,
    salt: u64,
    size: u64,
}

impl<D: Device> Model for OpenedSegment<D> {
    ghost use Rattle.std.specs.Prelude.{◌≡◌};
    ghost use Rattle.store.specs.Growing.{OpenFile};
    ghost use Rattle.store.specs.Whole.{IsNumbered};

    ghost Value = { OpenFile D };

    ghost view = { λ s. record { number = s.number; salt = s.salt; size = s.size; device = s.device } };

    ghost invariant = { λ s. (D.synced s.device ≡ D.seen s.device) × IsNumbered s.number s.salt s.size (D.synced s.device) };
}

/// The parts of a segment that is open to append.
#[derive(Drop)]
pub struct OpenedParts<D: Device> {
    /// Its file.
    pub device: D,
    /// Its number.
    pub number: u64,
    /// The salt of its file.
    pub salt: u64,
    /// How many bytes the file has.
    pub size: u64,
}

impl<D: Device> OpenedSegment<D> {
    /// The segment with this number, whose file has this salt and this size.
    pub fn new(device: D, number: u64, salt: u64, size: u64) -> Self
        requires synced { D.synced device ≡ D.seen device }
        requires numbered { IsNumbered number salt size (D.synced device) }
        ensures { result ≡ record { number = number; salt = salt; size = size; device = device } }
    {
        OpenedSegment {
            device,
            number,
            salt,
            size,
        }
    }

    /// Its number.
    pub fn number(&self) -> u64
        ensures { result ≡ self.now.number }
    {
        self.number
    }

    /// The salt of its file.
    pub fn salt(&self) -> u64
        ensures { result ≡ self.now.salt }
    {
        self.salt
    }

    /// How many bytes its file has.
    pub fn size(&self) -> u64
        ensures { result ≡ self.now.size }
    {
        self.size
    }

    /// Its parts.
    pub fn into_parts(self) -> OpenedParts<D>
        ensures device { result.device ≡ self.device }
        ensures number { result.number ≡ self.number }
        ensures salt { result.salt ≡ self.salt }
        ensures size { result.size ≡ self.size }
        ensures synced { D.synced result.device ≡ D.seen result.device }
        ensures numbered { IsNumbered result.number result.salt result.size (D.synced result.device) }
    {
        OpenedParts {
            device: self.device,
            number: self.number,
            salt: self.salt,
            size: self.size,
        }
    }
}

impl OpenedSegment<FileDevice> {
    /// The same segment, whose file waits for what the mode says, and owns this share of its folder's lock.
    pub(crate) fn held(self, mode: SyncMode, lock: Arc<FolderLock>) -> Self
        ensures number { result.number ≡ self.number }
        ensures salt { result.salt ≡ self.salt }
        ensures size { result.size ≡ self.size }
        ensures calls { result.device.history.calls ≡ self.device.history.calls }
    {
        let parts = self.into_parts();
        OpenedSegment {
            device: parts.device.held(mode, lock),
            number: parts.number,
            salt: parts.salt,
            size: parts.size,
        }
    }
}

/// A segment that was ended in order: the last batch in its file has no entries, and all of it is on the disk. Only
/// `Journal::finish` makes one.
#[derive(Drop)]
pub struct EndedSegment {
    number: u64,
    salt: u64,
    size: u64,
}

impl EndedSegment {
    /// The segment with this number, whose file has this salt and this size.
    pub(crate) fn new(number: u64, salt: u64, size: u64) -> Self
        ensures { result ≡ record { number = number; salt = salt; size = size } }
    {
        EndedSegment { number, salt, size }
    }

    /// Its number.
    pub fn number(&self) -> u64
        ensures { result ≡ self.now.number }
    {
        self.number
    }

    /// The salt of its file.
    pub fn salt(&self) -> u64
        ensures { result ≡ self.now.salt }
    {
        self.salt
    }

    /// How many bytes its file has.
    pub fn size(&self) -> u64
        ensures { result ≡ self.now.size }
    {
        self.size
    }
}
