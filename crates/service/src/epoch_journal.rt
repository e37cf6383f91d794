//! The journal of an epoch.
ghost use Rattle.std.specs.Prelude.{◌≡◌, None, Some, IfErr, IsErr, IsOk, if◌then◌else◌};

use crate::brand::Service;
use ballot::Memory;
use cluster::{Link, NodeDesk, Performed};
use ports::Fault;
use std::alloc::Global;
use std::sync::{Arc, Wait};
use store::{EndedSegment, FileDevice, Journal, Performer};

/// How many messages of a file are under way at a time if each of them waits for the disk.
const UNDER_WAY: usize = 10;

/// What a node has performed, as its desk shows it.
#[derive(Clone, Copy)]
struct DeskPerformer<'a, D: Service, R: Wait, L: Link> {
    desk: &'a NodeDesk<D, R, L>,
}

impl<D: Service, R: Wait, L: Link> Performer for DeskPerformer<'_, D, R, L> {
    ghost use Rattle.cluster.specs.Performed.{ArePerformedAfter};

    ghost performed = { λ p taken commands. ArePerformedAfter taken D.setup p.desk.now commands };

    fn performed_after(&self, taken: u64) -> Result<Option<Performed>, Memory> {
        self.desk.performed_after(taken)
    }
}

/// Why a write has failed: because another process uses the file or the folder, or not.
fn write_fault(is_in_use: bool) -> Fault
    ensures { result ≡ (if is_in_use then Fault.InUse else Fault.Write) }
{
    if is_in_use {
        Fault::InUse
    } else {
        Fault::Write
    }
}

/// The fault of a write, unless it is out of memory.
fn of_write(failure: Option<Fault>) -> Result<(), Fault>
    ensures write { failure ≡ Some Fault.Write → IsErr result }
    ensures in_use { failure ≡ Some Fault.InUse → IsErr result }
    ensures fault { IfErr result (λ fault. failure ≡ Some fault) }
    ensures memory { failure ≡ Some Fault.Memory → IsOk result }
    ensures none { failure ≡ None → IsOk result }
{
    match failure {
        None | Some(Fault::Memory) => Ok(()),
        Some(fault) => Err(fault),
    }
}

/// Where what an epoch's commands change is written, if its service keeps mail beyond the process.
#[derive(Drop)]
pub(crate) struct EpochJournal {
    journal: Option<Arc<Journal<FileDevice>>>,
}

impl EpochJournal {
    /// Nothing is written.
    pub(crate) fn none() -> Self {
        EpochJournal { journal: None }
    }

    /// All is written to this journal.
    pub(crate) fn of(alloc: Global, journal: Journal<FileDevice>) -> Result<Self, Memory> {
        let journal = Arc::new(alloc, journal)?;
        Ok(EpochJournal {
            journal: Some(journal),
        })
    }

    /// The same journal, for another thread.
    pub(crate) fn share(&self) -> Result<Self, Memory> {
        match &self.journal {
            None => Ok(EpochJournal::none()),
            Some(journal) => {
                let journal = Arc::try_clone(journal)?;
                Ok(EpochJournal {
                    journal: Some(journal),
                })
            }
        }
    }

    /// Waits until all that the node has performed so far is written, as durably as the service asks for. Returns whether it
    /// is: not if the node has stopped without memory, or a write has failed. At once if nothing is written.
    pub(crate) fn settle<D: Service, R: Wait, L: Link>(
        &self,
        rt: &R,
        desk: &NodeDesk<D, R, L>,
    ) -> bool {
        match &self.journal {
            None => true,
            Some(journal) => journal.settle(rt, &DeskPerformer { desk }),
        }
    }

    /// Whether nothing more is written, since a write has failed or memory was wanting. No answer waits for a write any more then.
    pub(crate) fn has_failed<R: Wait>(&self, rt: &R) -> bool {
        match &self.journal {
            None => false,
            Some(journal) => journal.has_failed(rt),
        }
    }

    /// Why nothing more is written, if that is so: the fault of a write, or `Memory` if no write has failed.
    pub(crate) fn failure<R: Wait>(&self, rt: &R) -> Option<Fault> {
        match &self.journal {
            Some(journal) if journal.has_failed(rt) => {
                if journal.has_failed_write(rt) {
                    Some(write_fault(journal.is_in_use(rt)))
                } else {
                    Some(Fault::Memory)
                }
            }
            _ => None,
        }
    }

    /// The fault of a write, if one has failed. The service ends because of it. After running out of memory only the epoch ends, and
    /// the next one has all that was answered.
    pub(crate) fn written<R: Wait>(&self, rt: &R) -> Result<(), Fault> {
        of_write(self.failure(rt))
    }

    /// Ends the segment of the journal, which no other thread has any more. Returns nothing if nothing is written.
    pub(crate) fn finish(self) -> Result<Option<EndedSegment>, Fault> {
        let Some(shared) = self.journal else {
            return Ok(None);
        };
        let Some(journal) = Arc::into_inner(shared) else {
            // What another thread may still write can't be noted.
            return Err(Fault::Write);
        };
        match journal.finish() {
            Ok((_, ended)) => Ok(Some(ended)),
            Err(file) => Err(write_fault(file.is_in_use())),
        }
    }

    /// Whether anything is written.
    pub(crate) fn is_kept(&self) -> bool {
        self.journal.is_some()
    }

    /// How many messages of a file are under way at a time: more than one if each waits for a write, so that they share it.
    pub(crate) fn under_way(&self) -> usize {
        match &self.journal {
            None => 1,
            Some(_) => UNDER_WAY,
        }
    }
}
