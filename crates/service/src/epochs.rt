//! The epochs of a service, one after another.
ghost use Rattle.std.specs.Prelude.{◌≡◌, None, Ok, option_map, IfErr, IfOk, IfSome, IsErr};
ghost use Rattle.cluster.specs.Ends.{IsLeftBy};
ghost use Rattle.service.specs.Epochs as spec;
ghost use Rattle.service.specs.EpochEnds.{IsLeftOf};
ghost use Rattle.service.specs.Epochs.{TellsOn};

use crate::epoch::EndedEpoch;
use crate::epoch_run::{EpochEnd, EpochLeft, run_epoch, tell_verdict};
use crate::life::ServiceLife;
use crate::past::Past;
use crate::serve::setup_of;
use crate::storage::Storage;
use crate::threads::{Ports, join_all};
use ports::{Fault, System};
use settings::{OnFault, Settings};
use std::alloc::Global;
use std::fs::File;
use std::io::Write;
use std::marker::Brand;
use std::mem;
use std::rt::Files;
use std::sync::Arc;
use std::sync::ledger::Blank;
use std::thread::JoinHandle;
use std::time::Duration;

/// The last epoch of a service.
#[derive(Drop)]
pub(crate) struct LastEpoch {
    /// Nothing if a node left no log, or the transcripts are gone.
    pub ended: Option<EndedEpoch>,
    /// Why it is the last one, unless the service was stopped.
    pub fault: Option<Fault>,
}

/// The threads of operators of the last two epochs that have ended. An operator may still wait for the next epoch, or for the
/// end of the service.
#[derive(Drop)]
pub(crate) struct PastOperators {
    last: Vec<JoinHandle<()>>,
    before: Vec<JoinHandle<()>>,
}

impl PastOperators {
    /// Of a service without such epochs. Takes no memory.
    pub(crate) fn new(alloc: Global) -> Self {
        PastOperators {
            last: Vec::new(alloc),
            before: Vec::new(alloc),
        }
    }

    /// Takes the threads of one more epoch. Those of the epoch two before it are waited for: their operators wait for nothing
    /// any more.
    fn add<R: System>(&mut self, rt: &R, life: &ServiceLife, threads: Vec<JoinHandle<()>>) {
        life.rolls().join_before_last(rt);
        let last = mem::replace(&mut self.last, threads);
        join_all(rt, mem::replace(&mut self.before, last));
    }

    /// Waits for all, once the service has ended.
    pub(crate) fn join<R: System>(self, rt: &R) {
        let PastOperators { last, before } = self;
        join_all(rt, before);
        join_all(rt, last);
    }
}

/// Runs the next epoch, once the segment for its changes is open.
fn run_next<R: System + Files<File = File>, W: Write>(
    rt: R,
    alloc: Global,
    settings: &Settings,
    ports: &Ports,
    life: &Arc<ServiceLife>,
    storage: &mut Storage<R>,
    past: &mut Past,
    writer: &mut W,
) -> Result<EpochEnd, Fault>
    ensures past { past.new.kept ≡ past.old.kept }
    ensures told { TellsOn (W.contents writer.old) (W.contents writer.new) past.old past.new }
    ensures end { IfOk result (λ end. IfSome end.left (IsLeftOf settings.now.cluster settings.now.window settings.now.limits settings.now.keys past.old.kept)) }
{
    ports.pause_ctl(&rt);
    past.release_descriptors();
    let accounts = past.accounts()?;
    let setup = setup_of(alloc, settings, &accounts, past.kept()?)?;
    let book = Blank::new(1);
    let journal = storage.begin_epoch(&rt, alloc, &setup)?;
    past.release(&rt);
    run_epoch::<Brand, R, W>(
        rt, alloc, settings, ports, life, setup, accounts, book, &journal, past, writer,
    )
}

/// Runs an epoch, and adds it to those that have ended. Returns it instead if it is the last one. If there was no memory or
/// no thread to open it, nobody was served, and the caller may try again once the audit of the one before it has ended.
#[tactic(auto, using(crate::proofs::Lasts::last_of))]
fn run_one<R: System + Files<File = File>, W: Write>(
    rt: R,
    alloc: Global,
    settings: &Settings,
    ports: &Ports,
    life: &Arc<ServiceLife>,
    operators: &mut PastOperators,
    storage: &mut Storage<R>,
    past: &mut Past,
    writer: &mut W,
) -> Result<Option<LastEpoch>, Fault>
    ensures told { TellsOn (W.contents writer.old) (W.contents writer.new) past.old past.new }
    ensures last { IfOk result (λ found. IfSome found (λ last. (past.new.pending ≡ None) × IfSome last.ended (spec.IsEpochOf settings.now.cluster settings.now.window settings.now.limits settings.now.keys past.new.kept))) }
{
    let EpochEnd {
        left,
        operators: theirs,
        served,
        written,
    } = run_next(rt, alloc, settings, ports, life, storage, past, writer)?;
    let is_over = tell_or_abandon(&rt, alloc, settings.on_fault, life, &written, past, writer);
    if is_over {
        life.stop(&rt);
    }
    if served.is_ok() {
        operators.add(&rt, life, theirs);
    } else {
        // The ports were never handed over to them, so they answer nobody, and the next try has the number of this epoch.
        join_all(&rt, theirs);
    }
    add_or_end(rt, alloc, life, is_over, written, served, left, past)
}

/// Reports the verdict on the epoch before this one, and returns whether the service is to end because of it. After a write that
/// failed nobody waits for the verdict.
fn tell_or_abandon<R: System, W: Write>(
    rt: &R,
    alloc: Global,
    on_fault: OnFault,
    life: &ServiceLife,
    written: &Result<(), Fault>,
    past: &mut Past,
    writer: &mut W,
) -> bool
    ensures kept { past.new.kept ≡ past.old.kept }
    ensures pending { past.new.pending ≡ None }
    ensures told { TellsOn (W.contents writer.old) (W.contents writer.new) past.old past.new }
{
    if written.is_err() {
        past.abandon();
        return true;
    }
    tell_verdict(rt, alloc, on_fault, life, past, writer)
}

/// Adds an epoch to those that have ended, or returns it if the service is over. An epoch in which nobody was served, or a write has
/// failed, is dropped without an audit, and the fault is returned.
fn add_or_end<R: System>(
    rt: R,
    alloc: Global,
    life: &Arc<ServiceLife>,
    is_over: bool,
    written: Result<(), Fault>,
    served: Result<(), Fault>,
    left: Option<EpochLeft>,
    past: &mut Past,
) -> Result<Option<LastEpoch>, Fault>
    requires left { IfSome left (λ left. (left.epoch.setup.kept ≡ past.old.kept) × IfOk left.kept (IsLeftBy left.epoch.setup left.epoch.logs)) }
    requires known { past.old.pending ≡ None }
    ensures first { past.new.first ≡ past.old.first }
    ensures told { past.new.told ≡ past.old.told }
    ensures good { past.new.is_good ≡ past.old.is_good }
    ensures added { result ≡ Ok None → option_map (λ left. left.epoch) left ≡ past.new.pending }
    ensures last { IfOk result (λ found. IfSome found (λ last. (past.new ≡ past.old) × (last.ended ≡ option_map (λ left. left.epoch) left))) }
    ensures unwritten { IfErr written (λ _. IsErr result) }
{
    served?;
    written?;
    let Some(EpochLeft { epoch, kept }) = left else {
        return Ok(Some(LastEpoch {
            ended: None,
            fault: None,
        }));
    };
    if is_over || life.rolls().is_stopping(&rt) {
        return Ok(Some(LastEpoch {
            ended: Some(epoch),
            fault: None,
        }));
    }
    let Ok(kept) = kept else {
        return Ok(Some(LastEpoch {
            ended: Some(epoch),
            fault: Some(Fault::Memory),
        }));
    };
    past.add(rt, alloc, life, epoch, kept)?;
    Ok(None)
}

/// How many seconds after an epoch couldn't begin it is tried again. The time doubles with each try.
const FIRST_TRY_SECONDS: u64 = 1;

/// After how many seconds without success the service ends.
const LAST_TRY_SECONDS: u64 = 32;

/// Whether what an epoch needs may be had later: memory, threads, or descriptors to read the data folder with.
fn may_be_had_later(fault: Fault) -> bool {
    matches!(fault, Fault::Memory | Fault::Read)
}

/// Runs epoch after epoch until the service is over, and returns the last one. It is judged by the caller, and all others are
/// judged here. If one can't begin since memory, threads or descriptors run out, nothing is lost, and it is tried again for a
/// minute, after 1 s, 2 s and so on. After a fault the last of those that have ended may still be audited.
pub(crate) fn run_epochs<R: System + Files<File = File>, W: Write>(
    rt: R,
    alloc: Global,
    settings: &Settings,
    ports: &Ports,
    life: &Arc<ServiceLife>,
    operators: &mut PastOperators,
    storage: &mut Storage<R>,
    past: &mut Past,
    writer: &mut W,
) -> Result<LastEpoch, Fault>
    ensures told { TellsOn (W.contents writer.old) (W.contents writer.new) past.old past.new }
    ensures last { IfOk result (λ last. (past.new.pending ≡ None) × IfSome last.ended (spec.IsEpochOf settings.now.cluster settings.now.window settings.now.limits settings.now.keys past.new.kept)) }
{
    let on_fault = settings.on_fault;
    let mut seconds = FIRST_TRY_SECONDS;
    for _ in rt.forever() {
        let epoch = life.rolls().epoch(&rt);
        let ran = run_one(
            rt, alloc, settings, ports, life, operators, storage, past, writer,
        );
        // If clients were served, what they were told is lost with their epoch, and no other one may take its place.
        let was_served = life.rolls().epoch(&rt) != epoch;
        let may_try_again = epoch > 0 && !was_served && seconds <= LAST_TRY_SECONDS;
        match ran {
            Ok(Some(last)) => return Ok(last),
            Ok(None) => seconds = FIRST_TRY_SECONDS,
            Err(fault) if may_try_again && may_be_had_later(fault) => {
                ports.resume_ctl(&rt);
                life.log().roll_failed(&rt, fault);
                // There is more memory once the audit has ended.
                if tell_verdict(&rt, alloc, on_fault, life, past, writer) {
                    life.stop(&rt);
                }
                if life
                    .rolls()
                    .pauses_unless_over(&rt, Duration::from_secs(seconds))
                {
                    return Err(fault);
                }
                seconds = seconds.saturating_mul(2);
            }
            Err(fault) => return Err(fault),
        }
    }
    unreachable!()
}
