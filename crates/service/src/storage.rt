//! Where mail is kept beyond the process.
ghost use Rattle.std.specs.Prelude.{◌≡◌, [], false, is_some, IfOk, IsTrue};
ghost use Rattle.maildrop.specs.Name.{are_different};
ghost use Rattle.service.specs.Storages as spec;

use crate::epoch_journal::EpochJournal;
use cluster::Setup;
use ledger::Ledger;
use maildrop::{Kept, Shared};
use ports::{Fault, System};
use settings::ServeOptions;
use std::alloc::Global;
use std::fs::File;
use std::random::RandomSource;
use std::rt::Files;
use store::{
    CleanSegment, DataFolder, FileDevice, Journal, Loaded, OpenedSegment, StoreFault, SyncMode,
    keeps_keys,
};

/// The folder in which a service keeps mail, if it keeps mail beyond the process.
#[derive(Drop)]
pub(crate) struct Storage<R: Files<File = File>> {
    folder: Option<DataFolder<R>>,
    keep: usize,
    /// The segment that was read, unless too much was added to it. The first epoch may go on in it, as it opens with what was
    /// read.
    read: Option<CleanSegment>,
    /// The journal of the last epoch that was begun.
    journal: EpochJournal,
}

/// What a start has dropped after the last whole batch of a segment.
#[derive(Clone, Copy, Debug, PartialEq, Eq)]
pub(crate) struct Torn {
    /// The number of the segment.
    pub segment: u64,
    /// Where its last whole batch ends.
    pub at: u64,
    /// How many bytes followed it.
    pub bytes: u64,
}

/// A storage that was opened, and the maildrops that it had.
#[derive(Drop)]
pub(crate) struct OpenedStorage<R: Files<File = File>> {
    pub storage: Storage<R>,
    pub kept: Shared<Kept>,
    pub torn: Option<Torn>,
}

/// Why a folder can't be used.
pub fn fault_of_store(fault: StoreFault) -> Fault {
    match fault {
        StoreFault::InUse => Fault::InUse,
        StoreFault::NotBegun => Fault::NotBegun,
        StoreFault::NotEmpty => Fault::NotEmpty,
        StoreFault::Damaged { segment, at } => Fault::Damaged(segment, at),
        StoreFault::Missing { segment } => Fault::Missing(segment),
        StoreFault::NoteDamaged => Fault::NoteDamaged,
        StoreFault::Memory => Fault::Memory,
        StoreFault::Read => Fault::Read,
        StoreFault::Write => Fault::Write,
    }
}

/// A number that no sender of mail can know.
fn random_salt<R: RandomSource>(rt: &R) -> Result<u64, Fault> {
    let mut bytes = [0u8; 8];
    match rt.fill_bytes(&mut bytes) {
        Ok(()) => Ok(u64::from_be_bytes(bytes)),
        Err(_) => Err(Fault::Read),
    }
}

impl<R: System + Files<File = File> + Drop> Storage<R> {
    /// Opens the folder of the options, if they name one, and reads the maildrops that it has.
    pub(crate) fn open(
        rt: R,
        alloc: Global,
        options: &ServeOptions<'_>,
    ) -> Result<OpenedStorage<R>, Fault>
        ensures { IfOk result (λ opened. is_some options.now.data ≡ false → opened.kept ≡ []) }
    {
        let (folder, kept, read, torn) = match options.data {
            None => (None, Kept::new(alloc), None, None),
            Some(path) => {
                let (folder, loaded) = read_folder(&rt, alloc, path, options.sync)?;
                let torn = torn_of(&loaded);
                let Loaded {
                    number: _,
                    kept,
                    ending: _,
                    dropped: _,
                    changes: _,
                    clean,
                } = loaded;
                (Some(folder), kept, short(clean, options.epoch_bytes), torn)
            }
        };
        Ok(OpenedStorage {
            storage: Storage {
                folder,
                keep: options.keep as usize,
                read,
                journal: EpochJournal::none(),
            },
            kept: Shared::new(alloc, kept)?,
            torn,
        })
    }

    /// An epoch opens with this setup. The first one goes on in the segment that was read, if it can. Otherwise all maildrops are
    /// written to a new segment. Then old segments are removed. Returns the journal of what follows.
    pub(crate) fn begin_epoch(
        &mut self,
        rt: &R,
        alloc: Global,
        setup: &Setup,
    ) -> Result<EpochJournal, Fault>
        requires { IsTrue (are_different setup.now.names) }
    {
        let Some(folder) = &mut self.folder else {
            return Ok(EpochJournal::none());
        };
        // Once a newer segment is there, nothing may be noted of the last epoch's.
        self.journal = EpochJournal::none();
        let kept = setup.kept.get();
        let ledger = Ledger::open(alloc, setup.names.get(), kept, setup.limits, setup.keys)?;
        let segment = open_segment(rt, folder, self.read.take(), kept, setup.keys)?;
        // A segment that can't be removed is tried again at the next epoch.
        let _removed = folder.drop_old(self.keep);
        let journal = EpochJournal::of(alloc, Journal::new(alloc, ledger, segment))?;
        self.journal = journal.share()?;
        Ok(journal)
    }

    /// Ends the segment of the last epoch, and notes that, once no thread has its journal any more. Then the folder's lock is given
    /// back. If a write fails or has failed, or memory was wanting for one, that is the fault, and nothing is noted. Without a folder there is nothing to end.
    pub(crate) fn end(self, rt: &R) -> Result<(), Fault> {
        let Storage {
            folder,
            keep: _,
            read: _,
            journal,
        } = self;
        if let Some(fault) = journal.failure(rt) {
            return Err(fault);
        }
        let Some(mut folder) = folder else {
            return Ok(());
        };
        match journal.finish()? {
            None => Ok(()),
            Some(ended) => match folder.note_clean(&ended) {
                Ok(()) => Ok(()),
                Err(fault) => Err(fault_of_store(fault)),
            },
        }
    }
}

/// What was dropped of a segment that was read.
fn torn_of(loaded: &Loaded) -> Option<Torn>
    ensures { result ≡ spec.torn_of loaded.now }
{
    match loaded.dropped {
        None => None,
        Some(dropped) => Some(Torn {
            segment: loaded.number,
            at: dropped.at,
            bytes: dropped.bytes,
        }),
    }
}

/// The segment, if at most `epoch_bytes` bytes were added after its snapshot, or any number if that is 0. So a start reads at
/// most a snapshot, so many bytes, and what one more epoch changes.
fn short(segment: Option<CleanSegment>, epoch_bytes: u64) -> Option<CleanSegment> {
    let segment = segment?;
    if epoch_bytes > 0 && segment.added() > epoch_bytes {
        return None;
    }
    Some(segment)
}

/// The segment that an epoch writes its changes to. It is the one that was read, if this can be written and has no keys that the
/// epoch doesn't open with, and a new one otherwise.
fn open_segment<R: System + Files<File = File>>(
    rt: &R,
    folder: &mut DataFolder<R>,
    read: Option<CleanSegment>,
    kept: &Kept,
    keys: usize,
) -> Result<OpenedSegment<FileDevice>, Fault>
    ensures { IfOk result (λ segment. spec.IsOpened read kept.now keys segment) }
{
    if let Some(segment) = read {
        if keeps_keys(kept, keys) {
            // A file that can't be written any more is left behind.
            if let Ok(opened) = folder.go_on(segment) {
                return Ok(opened);
            }
        }
    }
    let salt = random_salt(rt)?;
    match folder.make_next(kept, keys, salt) {
        Ok(opened) => Ok(opened),
        Err(fault) => Err(fault_of_store(fault)),
    }
}

/// Opens a folder, and reads its newest segment.
fn read_folder<R: System + Files<File = File>>(
    rt: &R,
    alloc: Global,
    path: &str,
    sync: SyncMode,
) -> Result<(DataFolder<R>, Loaded), Fault> {
    let folder = match DataFolder::open(rt, alloc, path, sync) {
        Ok(folder) => folder,
        Err(fault) => return Err(fault_of_store(fault)),
    };
    match folder.load_newest() {
        Ok(loaded) => Ok((folder, loaded)),
        Err(fault) => Err(fault_of_store(fault)),
    }
}
