//! The epochs of a service that have ended.
ghost use Rattle.std.specs.Prelude.{◌≡◌, ◌+◌, ℕ, List, Option, true, false, None, Some, is_some, IfOk, IfSome, OnOk, OnErr};
ghost use Rattle.maildrop.specs.Kept.{with_others_of};
ghost use Rattle.cluster.specs.Ends.{IsLeftBy};
ghost use Rattle.service.specs.Epochs as spec;
ghost use Rattle.service.specs.Epochs.{TellsOn, WasLegalEpoch};
ghost use Rattle.service.specs.declared.verdict.Verdict.TheVariants.{Legal};

use crate::epoch::EndedEpoch;
use crate::life::ServiceLife;
use crate::reserve::{Needs, Reserve};
use crate::verdict::Verdict;
use apop::Accounts;
use ballot::Memory;
use maildrop::{Kept, Shared};
use ports::{Fault, System};
use rolls::Retry;
use settings::some_accounts_of;
use std::alloc::Global;
use std::fs::File;
use std::marker::Model;
use std::rt::Files;
use std::snapshot::Snapshot;
use std::sync::{Arc, Wait};
use std::thread;
use std::thread::{Promise, PromisedHandle, Threads};
use std::time::{Clock, Duration};

/// What the thread that audits an epoch will return: `Legal` only if the epoch had a legal order.
#[derive(Drop)]
pub(crate) struct AuditOf(Snapshot<EndedEpoch>);

impl Promise<Verdict> for AuditOf {
    ghost use Rattle.std.specs.Prelude.{◌≡◌};
    ghost use Rattle.service.specs.Epochs.{WasLegalEpoch};
    ghost use Rattle.service.specs.declared.verdict.Verdict.TheVariants.{Legal};

    ghost kept_by = { λ promise verdict. verdict ≡ Legal → WasLegalEpoch promise.0.value };
}

/// The epochs of a service that have ended, and what the next one opens with. The last one may still be audited, on a thread
/// of its own.
#[derive(Drop)]
pub(crate) struct Past {
    /// What the first epoch opened with.
    first: Shared<Kept>,
    kept: Shared<Kept>,
    /// How many verdicts are known.
    told: u64,
    /// Whether each of them is that all is in order, and was reported.
    is_good: bool,
    /// The first one that isn't.
    first_bad: Option<Verdict>,
    audit: Option<PromisedHandle<Verdict, AuditOf>>,
    /// Who may log in in the next epoch.
    accounts: Arc<Accounts>,
    /// The path of the accounts file.
    accounts_path: String,
    /// What the next epoch needs of the system.
    reserve: Reserve,
    /// When an epoch that couldn't end is tried to end again.
    retry: Retry,
}

/// That all was had that the next epoch needs, before the one before it ends. Only `Past::hold` makes it.
#[derive(Clone, Copy, Debug, PartialEq, Eq)]
pub(crate) struct Prepared {
    made_by_hold: (),
}

impl Model for Past {
    ghost use Rattle.std.specs.Prelude.{option_map};
    ghost use Rattle.service.specs.Epochs.{PastValue, HasLedIfGood};

    ghost Value = { PastValue };

    ghost view = { λ p. record { first = p.first; kept = p.kept; told = p.told; is_good = p.is_good; pending = option_map (λ audit. audit.promise.0.value) p.audit } };

    ghost invariant = { λ p. HasLedIfGood (record { first = p.first; kept = p.kept; told = p.told; is_good = p.is_good; pending = option_map (λ audit. audit.promise.0.value) p.audit }) };
}

/// Whether a verdict is that all is in order.
fn is_legal(verdict: &Verdict) -> bool
    ensures { result ≡ true → verdict.now ≡ Legal }
{
    matches!(verdict, Verdict::Legal)
}

/// The first verdict that isn't that all is in order, once one more is known.
fn first_bad_of(first_bad: &Option<Verdict>, verdict: &Verdict) -> Option<Verdict>
    ensures { result ≡ spec.first_bad_of first_bad.now verdict.now }
{
    match (first_bad, verdict) {
        (Some(bad), _) => Some(*bad),
        (None, Verdict::Legal) => None,
        (None, bad) => Some(*bad),
    }
}

/// Counts one more. Returns false if no number is left.
fn count_one(count: &mut u64) -> bool
    ensures { result ≡ true → count.new ≡ count.old + 1 }
{
    match count.checked_add(1) {
        Some(more) => {
            *count = more;
            true
        }
        None => false,
    }
}

/// Audits an epoch, and notes that this has ended.
fn audit_epoch<R: Wait>(rt: &R, alloc: Global, life: &ServiceLife, epoch: EndedEpoch) -> Verdict
    ensures { result ≡ Legal → WasLegalEpoch epoch }
{
    let left = epoch.judge(alloc);
    let verdict = left.verdict;
    drop(left);
    life.rolls().end_audit(rt);
    verdict
}

/// What the next epoch opens with: what an epoch left, and what was kept of users without an account there.
fn handed_on(alloc: Global, left: Kept, before: &Kept) -> Result<Shared<Kept>, Memory>
    ensures { IfOk result (λ kept. kept ≡ with_others_of left before.now) }
{
    let mut left = left;
    left.add_others_of(before)?;
    Shared::new(alloc, left)
}

/// How often a thread is asked for that can't be had, and how many milliseconds lie between two times.
const THREAD_TRIES: u32 = 60;

const THREAD_TRY_MS: u64 = 1_000;

/// Waits until a thread can be had, for a minute at most: without one the epoch that has just ended would be lost.
fn await_thread<R: Threads + Wait + Clock + Copy>(rt: R) {
    for _ in 0..THREAD_TRIES {
        if let Ok(thread) = thread::spawn(&rt, || ()) {
            thread.join(&rt);
            return;
        }
        thread::sleep(&rt, Duration::from_millis(THREAD_TRY_MS));
    }
}

/// Starts the thread that audits an epoch.
fn start_audit<R: Threads + Wait + Clock + Copy + Send + 'static>(
    rt: R,
    alloc: Global,
    life: &Arc<ServiceLife>,
    epoch: EndedEpoch,
) -> Result<PromisedHandle<Verdict, AuditOf>, Memory>
    ensures { IfOk result (λ audit. audit.promise.0.value ≡ epoch) }
{
    let theirs = Arc::try_clone(life)?;
    await_thread(rt);
    life.rolls().begin_audit(&rt);
    let promise = AuditOf(Snapshot::of(&epoch));
    let audit = move || audit_epoch(&rt, alloc, &theirs, epoch);
    match thread::spawn_with(&rt, promise, audit) {
        Ok(handle) => Ok(handle),
        Err(_) => {
            life.rolls().end_audit(&rt);
            Err(Memory)
        }
    }
}

impl Past {
    /// Of a service without an epoch that has ended. The first one opens with these maildrops and accounts, which are those of the file of
    /// this path.
    pub(crate) fn new(
        alloc: Global,
        first: Shared<Kept>,
        accounts: Arc<Accounts>,
        accounts_path: String,
    ) -> Result<Self, Memory>
        ensures { IfOk result (λ past. past ≡ spec.no_past first) }
    {
        let kept = first.copy()?;
        Ok(Past {
            first,
            kept,
            told: 0,
            is_good: true,
            first_bad: None,
            audit: None,
            accounts,
            accounts_path,
            reserve: Reserve::new(alloc),
            retry: Retry::new(),
        })
    }

    /// Who may log in in the next epoch.
    pub(crate) fn accounts(&self) -> Result<Arc<Accounts>, Memory> {
        Ok(Arc::try_clone(&self.accounts)?)
    }

    /// Reads the accounts anew. If the file is faulty, or has none, those of the last epoch stay.
    pub(crate) fn read_accounts<R: Files>(&mut self, rt: &R, alloc: Global) -> Result<(), Fault>
        ensures { self.new ≡ self.old }
    {
        self.accounts = some_accounts_of(rt, alloc, self.accounts_path.as_str())?;
        Ok(())
    }

    /// Holds what the next epoch needs of the system, until it is released. After a fault nothing is held.
    pub(crate) fn hold<R: System + Files<File = File>>(
        &mut self,
        rt: R,
        needs: Needs,
    ) -> Result<Prepared, Fault>
        ensures { self.new ≡ self.old }
    {
        self.reserve.hold(rt, needs)?;
        self.retry = Retry::new();
        Ok(Prepared { made_by_hold: () })
    }

    /// Whether an epoch that couldn't end is tried to end again now.
    pub(crate) fn is_try_due<R: Clock>(&self, rt: &R) -> bool {
        self.retry.is_due(rt)
    }

    /// An epoch couldn't end.
    pub(crate) fn note_try<R: Clock>(&mut self, rt: &R)
        ensures { self.new ≡ self.old }
    {
        self.retry.note(rt);
    }

    /// The memory that is held is used from now on.
    pub(crate) fn release_memory(&mut self)
        ensures { self.new ≡ self.old }
    {
        self.reserve.release_memory();
    }

    /// The memory and the descriptors that are held are used from now on.
    pub(crate) fn release_descriptors(&mut self)
        ensures { self.new ≡ self.old }
    {
        self.reserve.release_memory();
        self.reserve.release_descriptors();
    }

    /// All that is held is used from now on.
    pub(crate) fn release<R: System>(&mut self, rt: &R)
        ensures { self.new ≡ self.old }
    {
        self.reserve.release(rt);
    }

    /// What the next epoch opens with.
    pub(crate) fn kept(&self) -> Result<Shared<Kept>, Memory>
        ensures { IfOk result (λ kept. kept ≡ self.now.kept) }
    {
        self.kept.copy()
    }

    /// How many verdicts are known.
    pub(crate) fn told(&self) -> u64
        ensures { result ≡ self.now.told }
    {
        self.told
    }

    /// Whether each of them is that all is in order, and was reported.
    pub(crate) fn is_good(&self) -> bool
        ensures { result ≡ self.now.is_good }
    {
        self.is_good
    }

    /// The first one that isn't.
    pub(crate) fn first_bad(&self) -> &Option<Verdict> {
        &self.first_bad
    }

    /// A verdict couldn't be reported.
    pub(crate) fn fail(&mut self)
        ensures first { self.new.first ≡ self.old.first }
        ensures kept { self.new.kept ≡ self.old.kept }
        ensures pending { self.new.pending ≡ self.old.pending }
        ensures bad { self.new.is_good ≡ false }
    {
        self.is_good = false;
    }

    /// Nobody waits for the verdict on the last epoch any more, if it isn't known.
    pub(crate) fn abandon(&mut self)
        ensures first { self.new.first ≡ self.old.first }
        ensures kept { self.new.kept ≡ self.old.kept }
        ensures told { self.new.told ≡ self.old.told }
        ensures pending { self.new.pending ≡ None }
        ensures known { self.old.pending ≡ None → self.new ≡ self.old }
        ensures bad { is_some self.old.pending ≡ true → self.new.is_good ≡ false }
        ensures silent { (written : Option (List ℕ)) → TellsOn written written self.old self.new }
    {
        if self.audit.is_some() {
            self.is_good = false;
            self.audit = None;
        }
    }

    /// Waits for the verdict on the last epoch, unless it is known.
    pub(crate) fn collect<R: Threads + Wait>(&mut self, rt: &R) -> Option<Verdict>
        ensures first { self.new.first ≡ self.old.first }
        ensures kept { self.new.kept ≡ self.old.kept }
        ensures pending { self.new.pending ≡ None }
        ensures known { result ≡ None → self.new ≡ self.old }
        ensures legal { IfSome result (λ verdict. verdict ≡ Legal → IfSome self.old.pending WasLegalEpoch) }
        ensures good { IfSome result (λ verdict. self.new.is_good ≡ true → (self.old.is_good ≡ true) × (verdict ≡ Legal) × (self.new.told ≡ self.old.told + 1)) }
    {
        let audit = self.audit.take()?;
        let verdict = audit.join(rt);
        let is_counted = count_one(&mut self.told);
        self.is_good = self.is_good & is_counted & is_legal(&verdict);
        self.first_bad = first_bad_of(&self.first_bad, &verdict);
        Some(verdict)
    }

    /// Adds an epoch that has ended, and left these maildrops. It is audited on a thread of its own. After `Memory` the epoch
    /// and its maildrops are lost, and nothing else has changed.
    pub(crate) fn add<R: System>(
        &mut self,
        rt: R,
        alloc: Global,
        life: &Arc<ServiceLife>,
        epoch: EndedEpoch,
        left: Kept,
    ) -> Result<(), Memory>
        requires opened { epoch.setup.kept ≡ self.old.kept }
        requires left { IsLeftBy epoch.setup epoch.logs left }
        requires known { self.old.pending ≡ None }
        ensures kept { OnOk result (self.new.kept ≡ with_others_of left self.old.kept) }
        ensures pending { OnOk result (self.new.pending ≡ Some epoch) }
        ensures first { self.new.first ≡ self.old.first }
        ensures told { self.new.told ≡ self.old.told }
        ensures good { self.new.is_good ≡ self.old.is_good }
        ensures err { OnErr result (self.new ≡ self.old) }
    {
        let kept = handed_on(alloc, left, self.kept.get())?;
        self.reserve.release_thread(&rt);
        let audit = start_audit(rt, alloc, life, epoch)?;
        self.kept = kept;
        self.audit = Some(audit);
        Ok(())
    }
}
