//! The journal of an epoch: writes what the epoch's commands change into its segment, and answers once it is on the disk.
ghost use Rattle.std.specs.Prelude.{◌≡◌, ◌<◌, ◌+◌, ◌%◌, ◌^◌, ◌⊎◌, ◌++◌, ◌∷◌, [], true, false, List, ℕ, length, IfOk, IfSome};
ghost use Rattle.std.specs.declared.alloc.Global.{Global};
ghost use Rattle.maildrop.specs.declared.command.Command.{Command};
ghost use Rattle.store.specs.Whole.{IsEnded, IsNumbered, IsWhole};
ghost use Rattle.store.specs.Running.{HaveTaken, IsAddition, TakesSuch, decided_of};

use crate::device::Device;
use crate::file_device::FileDevice;
use crate::opened::{EndedSegment, OpenedSegment};
use crate::pending::{Closed, Pending};
use crate::running::Running;
use ballot::{Memory, Slot};
use ledger::Ledger;
use maildrop::SharedCommand;
use std::alloc::Global;
use std::sync::{Condvar, Mutex, Wait};

/// What performs the commands of an epoch in their decided order.
pub trait Performer {
    /// These commands, each with its slot, are those that it has performed after the first so many, in their order.
    ghost performed: { Self → ℕ → List (ℕ × Command Global) → Type 0 };

    /// The commands that it has performed after the first `taken`, in their order, each with its slot. `None` if they aren't
    /// known any more.
    fn performed_after(&self, taken: u64) -> Result<Option<Vec<(Slot, SharedCommand)>>, Memory>
        ensures { IfOk result (λ known. IfSome known (λ commands. performed self.now taken commands.items)) };
}

/// What is to be written, and what was.
#[derive(Drop)]
struct State {
    alloc: Global,
    ledger: Ledger,
    /// The entries that nobody is writing yet.
    pending: Pending,
    /// How many times entries were added to those that are pending.
    added: u64,
    /// How many of these times are on the disk.
    synced: u64,
    /// Whether somebody is writing.
    is_busy: bool,
    has_failed: bool,
}

/// The journal of an epoch. Threads share it. It keeps maildrops of its own, so that it knows what each command changes.
#[derive(Drop)]
pub struct Journal<D: Device> {
    state: Mutex<State>,
    /// Somebody has written.
    written: Condvar,
    file: Mutex<Running<D>>,
}

impl State {
    /// Takes the next command, and adds what it changes to the entries that are pending.
    fn take(&mut self, slot: u64, command: &SharedCommand) -> bool
        ensures taken { result ≡ true → HaveTaken (decided_of ((slot, command.now) ∷ [])) self.old.ledger self.old.pending self.new.ledger self.new.pending }
        ensures rest { self.new ≡ record self.old { ledger = self.new.ledger; pending = self.new.pending } }
    {
        let mut payload = Vec::new(self.alloc);
        match self.ledger.take(slot, command.get(), &mut payload) {
            Ok(true) => self.pending.add(&payload, self.added).is_ok(),
            Ok(false) => true,
            Err(_) => false,
        }
    }

    /// Takes commands. Answers false if one can't be taken.
    fn take_all(&mut self, commands: &[(Slot, SharedCommand)]) -> bool
        ensures taken { result ≡ true → HaveTaken (decided_of commands.now) self.old.ledger self.old.pending self.new.ledger self.new.pending }
        ensures rest { self.new ≡ record self.old { ledger = self.new.ledger; pending = self.new.pending } }
    {
        for one in commands {
            if !self.take(one.0.get(), &one.1) {
                return false;
            }
        }
        true
    }

    /// Takes the commands that the performer returns, those after the ones that the ledger has taken. Answers whether all of
    /// them were taken. If the performer answers `None` or `Memory` nothing changes. Fails for good if a command can't be
    /// taken.
    fn take_performed<P: Performer>(&mut self, performer: &P) -> bool
        ensures taken { result ≡ true → TakesSuch (P.performed performer.now self.old.ledger.taken) self.old.ledger self.old.pending self.new.ledger self.new.pending }

        // The entries that it adds are counted as one time, if there are any.
        ensures counted { result ≡ true → length self.old.pending < length self.new.pending → self.new.added ≡ (self.old.added + 1) % 2 ^ 64 }
        ensures uncounted { result ≡ true → self.new.pending ≡ self.old.pending → self.new.added ≡ self.old.added }
        ensures all_counted { result ≡ true → self.new.added ≡ self.old.added → self.new.pending ≡ self.old.pending }
        ensures none_counted { result ≡ false → self.new.added ≡ self.old.added }

        // Once it has failed nothing changes any more.
        ensures again { self.old.has_failed ≡ true → (result ≡ false) × (self.new ≡ self.old) }
        ensures failed { result ≡ false → (self.new ≡ self.old) ⊎ (self.new.has_failed ≡ true) }
        ensures goes_on { result ≡ true → self.new.has_failed ≡ false }

        // What is written is left to others.
        ensures synced { self.new.synced ≡ self.old.synced }
        ensures busy { self.new.is_busy ≡ self.old.is_busy }
    {
        if self.has_failed {
            return false;
        }
        let Ok(Some(commands)) = performer.performed_after(self.ledger.taken()) else {
            return false;
        };
        let before = self.pending.size();
        if !self.take_all(&commands) {
            self.has_failed = true;
            return false;
        }
        let now = self.pending.size();
        if now > before {
            self.added = self.added.wrapping_add(1);
        }
        true
    }
}

impl State {
    /// The oldest batch that is pending, with the time up to which all is in it or was taken before. The caller writes it, and
    /// nobody else does meanwhile.
    fn begin_write(&mut self) -> Closed
        ensures taken { self.old.pending ≡ result.batch ++ self.new.pending }
        ensures entries { IsAddition result.batch }
        ensures ledger { self.new.ledger ≡ self.old.ledger }
        ensures busy { self.new.is_busy ≡ true }
        ensures rest { self.new ≡ record self.old { pending = self.new.pending; is_busy = self.new.is_busy } }
    {
        self.is_busy = true;
        self.pending.take(self.added)
    }

    /// All that was added up to this time is on the disk, or the write has failed.
    fn end_write(&mut self, upto: u64, is_written: bool)
        ensures written { is_written ≡ true → (self.new.synced ≡ upto) × (self.new.has_failed ≡ self.old.has_failed) }
        ensures failed { is_written ≡ false → (self.new.synced ≡ self.old.synced) × (self.new.has_failed ≡ true) }
        ensures free { self.new.is_busy ≡ false }
        ensures pending { self.new.pending ≡ self.old.pending }
        ensures rest { self.new ≡ record self.old { synced = self.new.synced; is_busy = self.new.is_busy; has_failed = self.new.has_failed } }
    {
        self.is_busy = false;
        if is_written {
            self.synced = upto;
        } else {
            self.has_failed = true;
        }
    }
}

impl<D: Device> Journal<D> {
    /// The journal of an epoch that begins with this ledger. Its entries are added to this segment.
    pub fn new(alloc: Global, ledger: Ledger, segment: OpenedSegment<D>) -> Self {
        Journal {
            state: Mutex::new(State {
                alloc,
                ledger,
                pending: Pending::new(alloc),
                added: 0,
                synced: 0,
                is_busy: false,
                has_failed: false,
            }),
            written: Condvar::new(),
            file: Mutex::new(Running::new(segment)),
        }
    }

    /// Takes the commands that the performer returns, and waits until what they and those taken before them change is on the
    /// disk. A thread that finds no other one writing writes for all that wait, one batch after another. If nothing is left to
    /// write it doesn't wait.
    ///
    /// False if the performer answers `None` or `Memory`, or if a command couldn't be taken or a write has failed, in this call
    /// or before. After the last two it is false for good.
    pub fn settle<R: Wait, P: Performer>(&self, rt: &R, performer: &P) -> bool {
        let mut state = self.state.lock(rt);
        if !state.take_performed(performer) {
            return false;
        }
        let mark = state.added;
        for _ in rt.forever() {
            if state.has_failed {
                return false;
            }
            if state.synced >= mark {
                return true;
            }
            if state.is_busy {
                state = self.written.wait(rt, state);
                continue;
            }
            let oldest = state.begin_write();
            let upto = oldest.upto;
            drop(state);
            let is_written = self.file.lock(rt).commit(oldest.batch);
            state = self.state.lock(rt);
            state.end_write(upto, is_written);
            self.written.notify_all();
        }
        false
    }

    /// The file, once no thread has the journal. The bytes that are on the disk for good are a segment: its whole snapshot, and
    /// whole entries.
    pub fn into_device(self) -> D
        ensures { IsWhole (D.synced result) }
    {
        self.file.into_inner().into_device()
    }

    /// Ends the segment, once no thread has the journal: adds an empty batch, waits until it is on the disk, and returns the
    /// file, and what `DataFolder::note_clean` notes. Nothing more can be written then. If that fails, or if a call of `settle`
    /// has failed, the segment isn't ended, and only the file is returned.
    pub fn finish(self) -> Result<(D, EndedSegment), D>
    where
        D: Drop,
        ensures ended { IfOk result (λ r. IsEnded (D.synced r.0)) }
        ensures numbered { IfOk result (λ r. IsNumbered r.1.number r.1.salt r.1.size (D.synced r.0)) }
    {
        let state = self.state.into_inner();
        if state.has_failed {
            return Err(self.file.into_inner().into_device());
        }
        self.file.into_inner().finish(state.alloc)
    }

    /// Whether a call of `settle` has failed for good.
    pub fn has_failed<R: Wait>(&self, rt: &R) -> bool {
        self.state.lock(rt).has_failed
    }

    /// Whether a write has failed. If `has_failed` answers true without that, memory was wanting: all of which a call of `settle`
    /// has answered true is on the disk.
    pub fn has_failed_write<R: Wait>(&self, rt: &R) -> bool {
        self.file.lock(rt).has_failed_write()
    }
}

impl Journal<FileDevice> {
    /// Whether a write was refused since another process uses the file or the folder. `has_failed` answers true then.
    pub fn is_in_use<R: Wait>(&self, rt: &R) -> bool {
        self.file.lock(rt).device().is_in_use()
    }
}
