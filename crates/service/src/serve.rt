//! `maildropd serve`: nodes, sessions and an operator's port in one process.
ghost use Rattle.std.specs.Prelude.{◌≡◌, ◌≤◌, ◌++◌, ◌∷◌, [], None, Some, true, false, is_some, IsTrue, IsErrOf, IfOk, IfErr, IfSome, OnOk, map, if◌then◌else◌};
ghost use Rattle.std.specs.Io.KnownBytes.{Appends};
ghost use Rattle.settings.specs.Options as spec;
ghost use Rattle.ports.specs.Faults.{status_at};
ghost use Rattle.service.specs.Verdicts as verdicts;
ghost use Rattle.service.specs.Epochs.{FoundLegal, WasLegalEpoch, epoch_lines};
ghost use Rattle.service.specs.declared.verdict.Verdict.TheVariants.{Legal};
ghost use Rattle.apop.specs.Accounts.{name_of};
ghost use Rattle.maildrop.specs.Name.{are_different};

use crate::announcement::Announcement;
use crate::epoch::{Left, left_by};
use crate::epochs::{LastEpoch, PastOperators, run_epochs};
use crate::life::ServiceLife;
use crate::past::Past;
use crate::start_note::StartNote;
use crate::storage::{OpenedStorage, Storage, Torn};
use crate::threads::{Ports, join_all};
use crate::verdict::Verdict;
use apop::Accounts;
use ballot::Items;
use cluster::Setup;
use maildrop::{Kept, Shared};
use node::NodeLog;
use ports::{Fault, System, say};
use session::Transcript;
use session_log::EventLog;
use settings::{ServeOptions, Settings, accounts_of, agreement_line, settings_of};
use std::alloc::Global;
use std::fs::File;
use std::io::{Eprint, Write};
use std::rt::Files;
use std::sync::{Arc, Wait};
use std::thread::JoinHandle;
use std::time::Clock;

/// The node that asks to lead as soon as the service starts.
pub(crate) const FIRST_LEADER: u8 = 1;

/// What the nodes begin with, over these accounts and with these maildrops.
pub(crate) fn setup_of(
    alloc: Global,
    settings: &Settings,
    accounts: &Accounts,
    kept: Shared<Kept>,
) -> Result<Setup, Fault>
    ensures cluster { IfOk result (λ setup. setup.cluster ≡ settings.now.cluster) }
    ensures window { IfOk result (λ setup. setup.window ≡ settings.now.window) }
    ensures limits { IfOk result (λ setup. setup.limits ≡ settings.now.limits) }
    ensures kept { IfOk result (λ setup. setup.kept ≡ kept) }
    ensures keys { IfOk result (λ setup. setup.keys ≡ settings.now.keys) }
    ensures names { IfOk result (λ setup. setup.names ≡ map name_of accounts.now) }
    ensures different { IfOk result (λ setup. IsTrue (are_different setup.names)) }
    ensures some { IfOk result (λ setup. 1 ≤ setup.cluster) }
{
    prove!(1 <= settings.cluster.get());
    let names = Vec::from_slice(alloc, accounts.names())?;
    Ok(Setup {
        cluster: settings.cluster,
        window: settings.window,
        names: Items::from_vec(names),
        limits: settings.limits,
        kept,
        keys: settings.keys,
    })
}

/// How a service has ended.
#[derive(Drop)]
struct RunEnd {
    /// What its last epoch leaves.
    left: Left,
    /// How many epochs were before it.
    epochs: u64,
    /// Whether the verdict on each of these is that all is in order, and was reported.
    is_good: bool,
    /// Why it ended, unless an operator stopped it.
    fault: Option<Fault>,
}

/// What the threads of a service with these settings share, with the accounts of a file. If its nodes have ports it has one
/// epoch only, since what was sent in another one may still come there.
pub(crate) fn life_of<R: System + Files<File = File>>(
    rt: &R,
    alloc: Global,
    options: &ServeOptions<'_>,
    settings: &Settings,
    accounts: &Accounts,
) -> Result<Arc<ServiceLife>, Fault>
where
    R::Dir: Send,
{
    let log = EventLog::open(rt, alloc, options.log)?;
    let host = settings.host.copy()?;
    let (agreement, limits) = match settings.peer_port {
        None => (None, Some(settings.roll_limits)),
        Some(_) => (
            Some(agreement_line(alloc, options, accounts.names())?),
            None,
        ),
    };
    let idle_seconds = settings.idle_seconds;
    let start = StartNote::new(rt, alloc, options, settings)?;
    let life = ServiceLife::new(rt, alloc, host, idle_seconds, agreement, limits, log)?;
    Ok(Arc::new(alloc, life.with_start(start))?)
}

/// Notes a fault in the log, those of a data folder after its path. Without memory for its text nothing is noted.
pub(crate) fn note_fault<R: Wait + Clock>(
    rt: &R,
    alloc: Global,
    log: &EventLog,
    folder: Option<&str>,
    fault: Fault,
) {
    let text = match folder {
        Some(path) if fault.is_of_folder() => format!(in alloc; "{path}{fault}"),
        _ => format!(in alloc; "{fault}"),
    };
    if let Ok(text) = text {
        log.fault(rt, text.as_str());
    }
}

/// Notes the verdict on an epoch in the log. Without memory for its text nothing is noted.
pub(crate) fn note_audit<R: Wait + Clock>(
    rt: &R,
    alloc: Global,
    log: &EventLog,
    epoch: u64,
    verdict: &Verdict,
) {
    if let Ok(line) = verdict.line(alloc) {
        let text = line.as_str().trim_end();
        log.audit(rt, epoch, text.strip_prefix("audit ").unwrap_or(text));
    }
}

/// Counts the bytes that a start has dropped of the folder's newest segment, and reports them in the log, or on standard error
/// if there is no log.
fn tell_torn<R: Wait + Clock + Eprint>(rt: &R, life: &ServiceLife, folder: &str, torn: Torn) {
    let Torn { segment, at, bytes } = torn;
    life.counters().torn(rt, bytes);
    if life.log().is_kept() {
        life.log().torn(rt, segment, at, bytes);
    } else {
        let _untold = eprintln!(rt;
            "maildropd: {folder}/{segment:08}.log: {bytes} bytes are dropped from byte {at} on"
        );
    }
}

/// Judges the last epoch of a service, and announces the verdict on it, or the first one that isn't that all was in order.
fn judge<R: System>(
    rt: &R,
    alloc: Global,
    life: &ServiceLife,
    past: &Past,
    last: LastEpoch,
) -> RunEnd
    ensures told { result.epochs ≡ past.now.told }
    ensures good { result.is_good ≡ past.now.is_good }
    ensures legal { result.left.verdict ≡ Legal → is_some last.ended ≡ true }
    ensures order { result.left.verdict ≡ Legal → IfSome last.ended WasLegalEpoch }
    ensures logs { IfSome last.ended (λ epoch. result.left.logs.items ≡ epoch.logs) }
    ensures transcripts { IfSome last.ended (λ epoch. result.left.transcripts.items ≡ epoch.transcripts.kept) }
    ensures greeted { IfSome last.ended (λ epoch. result.left.greeted ≡ epoch.transcripts.greeted) }
{
    let LastEpoch { ended, fault } = last;
    let left = left_by(alloc, ended);
    note_audit(
        rt,
        alloc,
        life.log(),
        past.told().saturating_add(1),
        &left.verdict,
    );
    let announcement = Announcement::audited(past.first_bad(), &left);
    life.announcements().announce(rt, announcement);
    let fault = match fault {
        None if life.stages().lacks_majority(rt) => Some(Fault::NoMajority),
        fault => fault,
    };
    RunEnd {
        left,
        epochs: past.told(),
        is_good: past.is_good(),
        fault,
    }
}

/// The threads of a service that go on over its epochs.
#[derive(Drop)]
struct LifeThreads {
    /// Those that take connections.
    takers: Vec<JoinHandle<()>>,
    /// Those of the operators of epochs that have ended.
    operators: PastOperators,
}

impl LifeThreads {
    /// Of a service that begins. Takes no memory.
    fn new(alloc: Global) -> Self {
        LifeThreads {
            takers: Vec::new(alloc),
            operators: PastOperators::new(alloc),
        }
    }

    /// Waits for all, once the service has ended.
    fn join<R: System>(self, rt: &R) {
        let LifeThreads { takers, operators } = self;
        join_all(rt, takers);
        operators.join(rt);
    }
}

/// Runs the epochs of a service until it is over, and judges them.
fn run_life<R: System + Files<File = File>, W: Write>(
    rt: R,
    alloc: Global,
    options: &ServeOptions<'_>,
    settings: &Settings,
    ports: &Ports,
    life: &Arc<ServiceLife>,
    accounts: Arc<Accounts>,
    kept: Shared<Kept>,
    storage: &mut Storage<R>,
    threads: &mut LifeThreads,
    writer: &mut W,
) -> Result<RunEnd, Fault>
    requires kept { is_some options.now.data ≡ false → kept ≡ [] }
    ensures told { IfOk result (λ end. end.is_good ≡ true → Appends (W.contents writer.old) (W.contents writer.new) (epoch_lines end.epochs)) }
    ensures legal { IfOk result (λ end. end.left.verdict ≡ Legal → end.is_good ≡ true → FoundLegal settings.now.cluster settings.now.window settings.now.limits settings.now.keys (is_some options.now.data)
        end.epochs end.left.logs.items end.left.transcripts.items end.left.greeted) }
{
    let path = String::from_str(alloc, options.accounts)?;
    let mut past = Past::new(alloc, kept, accounts, path)?;
    ports.start_taking(rt, life, &mut threads.takers)?;
    let ran = run_epochs(
        rt,
        alloc,
        settings,
        ports,
        life,
        &mut threads.operators,
        storage,
        &mut past,
        writer,
    );
    ports.close(&rt);
    match ran {
        Ok(last) => Ok(judge(&rt, alloc, life, &past, last)),
        Err(fault) => {
            past.abandon();
            Err(fault)
        }
    }
}

/// Ends the storage of a service whose threads have ended, unless it has ended by a fault: then nothing is noted, and the next
/// start makes a new segment.
fn end_storage<R: System + Files<File = File> + Drop>(
    rt: &R,
    storage: Storage<R>,
    end: &Result<RunEnd, Fault>,
) -> Result<(), Fault> {
    match end {
        Ok(_) => storage.end(rt),
        Err(_) => Ok(()),
    }
}

/// Why a service has ended: the fault of its storage's end, or else the one that was there before.
fn last_fault(ended: Result<(), Fault>, fault: Option<Fault>) -> Option<Fault>
    ensures ended { IfOk ended (λ _. result ≡ fault) }
    ensures failed { IfErr ended (λ found. result ≡ Some found) }
{
    match ended {
        Ok(()) => fault,
        Err(found) => Some(found),
    }
}

/// Runs a service with these settings and accounts, and waits for all its threads.
fn run_service<R: System + Files<File = File>, W: Write>(
    rt: R,
    alloc: Global,
    options: &ServeOptions<'_>,
    settings: &Settings,
    life: &Arc<ServiceLife>,
    accounts: Arc<Accounts>,
    opened: OpenedStorage<R>,
    writer: &mut W,
) -> Result<RunEnd, Fault>
    requires opened { is_some options.now.data ≡ false → opened.kept ≡ [] }
    ensures told { IfOk result (λ end. end.is_good ≡ true → Appends (W.contents writer.old) (W.contents writer.new) (epoch_lines end.epochs)) }
    ensures legal { IfOk result (λ end. end.left.verdict ≡ Legal → end.is_good ≡ true → FoundLegal settings.now.cluster settings.now.window settings.now.limits settings.now.keys (is_some options.now.data)
        end.epochs end.left.logs.items end.left.transcripts.items end.left.greeted) }
{
    let OpenedStorage {
        mut storage,
        kept,
        torn: _,
    } = opened;
    let ports = Ports::open(&rt, alloc, settings, options.ctl_socket)?;
    let mut threads = LifeThreads::new(alloc);
    let end = run_life(
        rt,
        alloc,
        options,
        settings,
        &ports,
        life,
        accounts,
        kept,
        &mut storage,
        &mut threads,
        writer,
    );
    ports.close(&rt);
    life.end(&rt);
    threads.join(&rt);
    let ended = end_storage(&rt, storage, &end);
    if let Some(path) = options.ctl_socket {
        ports.remove_socket(&rt, path);
    }
    match end {
        Ok(end) => Ok(RunEnd {
            left: end.left,
            epochs: end.epochs,
            is_good: end.is_good,
            fault: last_fault(ended, end.fault),
        }),
        Err(fault) => Err(fault),
    }
}

/// Why a service has ended, unless an operator stopped it.
fn fault_after(end: &Result<RunEnd, Fault>) -> Option<Fault> {
    match end {
        Ok(end) => end.fault,
        Err(fault) => Some(*fault),
    }
}

/// The exit status of a service that has ended, if its last verdict can be written.
fn status_of(end: &Result<RunEnd, Fault>) -> u8 {
    match end {
        Ok(end) => match end.fault {
            None => status_after(end.left.verdict.status(), end.is_good),
            Some(fault) => fault.status(),
        },
        Err(fault) => fault.status(),
    }
}

/// Runs a service with these settings.
fn run_with<R: System + Files<File = File> + Eprint, W: Write>(
    rt: R,
    alloc: Global,
    options: &ServeOptions<'_>,
    settings: &Settings,
    writer: &mut W,
) -> Result<RunEnd, Fault>
where
    R::Dir: Send,
    ensures told { IfOk result (λ end. end.is_good ≡ true → Appends (W.contents writer.old) (W.contents writer.new) (epoch_lines end.epochs)) }
    ensures legal { IfOk result (λ end. end.left.verdict ≡ Legal → end.is_good ≡ true → FoundLegal settings.now.cluster settings.now.window settings.now.limits settings.now.keys (is_some options.now.data)
        end.epochs end.left.logs.items end.left.transcripts.items end.left.greeted) }
{
    let accounts = accounts_of(&rt, alloc, options.accounts)?;
    let life = life_of(&rt, alloc, options, settings, &accounts)?;
    let accounts = Arc::new(alloc, accounts)?;
    let opened = match Storage::open(rt, alloc, options) {
        Ok(opened) => opened,
        Err(fault) => {
            life.log().finish(&rt);
            return Err(fault);
        }
    };
    if let (Some(folder), Some(torn)) = (options.data, opened.torn) {
        tell_torn(&rt, &life, folder, torn);
    }
    let end = run_service(
        rt, alloc, options, settings, &life, accounts, opened, writer,
    );
    if let Some(fault) = fault_after(&end) {
        note_fault(&rt, alloc, life.log(), options.data, fault);
    }
    life.log().ended(&rt, status_of(&end));
    life.log().finish(&rt);
    end
}

fn run<R: System + Files<File = File> + Eprint, W: Write>(
    rt: R,
    alloc: Global,
    options: &ServeOptions<'_>,
    writer: &mut W,
) -> Result<RunEnd, Fault>
where
    R::Dir: Send,
    ensures values { (¬ spec.AreGood options.now) → IsErrOf result Fault.Value }
    ensures told { IfOk result (λ end. end.is_good ≡ true → Appends (W.contents writer.old) (W.contents writer.new) (epoch_lines end.epochs)) }
    ensures legal { IfOk result (λ end. end.left.verdict ≡ Legal → end.is_good ≡ true → FoundLegal options.now.nodes options.now.window (spec.limits_of options.now) options.now.keys (is_some options.now.data)
        end.epochs end.left.logs.items end.left.transcripts.items end.left.greeted) }
{
    match settings_of(alloc, options) {
        Ok(settings) => run_with(rt, alloc, options, &settings, writer),
        Err(fault) => Err(fault),
    }
}

/// Writes the line that reports a verdict, and returns the exit status. A good audit needs no memory for that, nor does one
/// that had none.
fn tell<W: Write>(alloc: Global, writer: &mut W, verdict: &Verdict) -> Result<u8, Fault>
    ensures status { IfOk result (λ status. status ≡ verdicts.status_of verdict.now) }
    ensures written { OnOk result (Appends (W.contents writer.old) (W.contents writer.new) (verdicts.text_of verdict.now ++ 10 ∷ [])) }
{
    match verdict {
        Verdict::Legal => say(writer, b"audit ok\n")?,
        Verdict::Memory => say(writer, b"audit no memory\n")?,
        Verdict::NoOrder(_) | Verdict::WrongAnswer(_) => {
            let line = verdict.line(alloc)?;
            say(writer, line.as_bytes())?;
        }
    }
    Ok(verdict.status())
}

/// The exit status after a verdict on the last epoch, if those on all others are that all is in order, or not.
fn status_after(status: u8, is_good: bool) -> u8
    requires { status ≤ 1 }
    ensures { result ≡ (if is_good then status else 1) }
{
    if is_good { status } else { 1 }
}

/// Reports how a service has ended: writes the line of the verdict on its last epoch, and returns the exit status, or why it
/// ended.
fn report<W: Write>(alloc: Global, writer: &mut W, end: &RunEnd) -> Result<u8, Fault>
    ensures status { IfOk result (λ status. status ≡ (if end.now.is_good then verdicts.status_of end.now.left.verdict else 1)) }
    ensures written { OnOk result (Appends (W.contents writer.old) (W.contents writer.new) (verdicts.text_of end.now.left.verdict ++ 10 ∷ [])) }
    ensures faultless { OnOk result (end.now.fault ≡ None) }
{
    let told = tell(alloc, writer, &end.left.verdict);
    match end.fault {
        None => Ok(status_after(told?, end.is_good)),
        Some(fault) => Err(fault),
    }
}

/// What a service that has ended leaves.
#[derive(Drop)]
pub struct ServiceEnd {
    /// The exit status, 0 to 2.
    pub status: u8,
    /// How many epochs were before the last one. 0 after a fault.
    pub epochs: u64,
    /// The logs of all nodes in the last epoch, in the order of their numbers. Empty without an audit, and after a fault.
    pub logs: Vec<NodeLog>,
    /// The transcripts of sessions that asked a node for something, in the order in which they ended. Empty without an
    /// audit, and after a fault.
    pub transcripts: Vec<Transcript>,
    /// How many sessions were greeted in the last epoch. 0 without an audit, and after a fault.
    pub greeted: usize,
    /// Why the service has ended, unless an operator stopped it. It was reported on standard error.
    pub fault: Option<Fault>,
}

/// Writes the verdict on a service that has ended, or reports why it ended on standard error.
fn tell_end<R: Eprint, W: Write>(
    rt: &R,
    alloc: Global,
    writer: &mut W,
    folder: Option<&str>,
    end: RunEnd,
) -> ServiceEnd
    ensures statuses { result.status ≤ 2 }
    ensures legal { result.status ≡ 0 → end.left.verdict ≡ Legal }
    ensures good { result.status ≡ 0 → end.is_good ≡ true }
    ensures faultless { result.status ≡ 0 → end.fault ≡ None }
    ensures epochs { result.status ≡ 0 → result.epochs ≡ end.epochs }
    ensures told { result.status ≡ 0 → Appends (W.contents writer.old) (W.contents writer.new) (verdicts.text_of Legal ++ 10 ∷ []) }
    ensures logs { result.status ≡ 0 → result.logs.items ≡ end.left.logs.items }
    ensures transcripts { result.status ≡ 0 → result.transcripts.items ≡ end.left.transcripts.items }
    ensures greeted { result.status ≡ 0 → result.greeted ≡ end.left.greeted }
    ensures fault { IfSome result.fault (λ fault. result.status ≡ status_at fault) }
{
    match report(alloc, writer, &end) {
        Ok(status) => ServiceEnd {
            status,
            epochs: end.epochs,
            logs: end.left.logs,
            transcripts: end.left.transcripts,
            greeted: end.left.greeted,
            fault: None,
        },
        Err(fault) => fail(rt, alloc, folder, fault),
    }
}

/// Reports a fault on standard error. Those of a data folder are reported after its path.
pub(crate) fn report_fault<R: Eprint>(rt: &R, folder: Option<&str>, fault: Fault) {
    match folder {
        Some(path) if fault.is_of_folder() => {
            let _untold = eprintln!(rt; "maildropd: {path}{fault}");
        }
        _ => {
            let _untold = eprintln!(rt; "maildropd: {fault}");
        }
    }
}

/// Reports a fault on standard error.
fn fail<R: Eprint>(rt: &R, alloc: Global, folder: Option<&str>, fault: Fault) -> ServiceEnd
    ensures status { result.status ≡ status_at fault }
    ensures fault { result.fault ≡ Some fault }
{
    report_fault(rt, folder, fault);
    ServiceEnd {
        status: fault.status(),
        epochs: 0,
        logs: Vec::new(alloc),
        transcripts: Vec::new(alloc),
        greeted: 0,
        fault: Some(fault),
    }
}

/// Serves POP3 (RFC 1939) at the ports of its options, and an operator's requests at a port or socket of their own, until an
/// operator stops it. Then no connection is taken any more, the sessions go on to their ends, the nodes stop, and the
/// verdict of an audit of all that they did is written. Before that the service has epochs: each ends once it has come to the
/// options' bounds, an operator asks for that, or the nodes lack a majority. The next one opens with the maildrops that it left, and
/// the line of its verdict is written as soon as it is known. Returns what the last epoch leaves, with the exit status: 0 if
/// each verdict is `audit ok`, 1 after another verdict or a fault of memory, reading, writing or the network, 2 for options
/// out of range or a malformed accounts file. A fault is reported on standard error.
pub fn serve_run<R: System + Files<File = File> + Eprint, W: Write>(
    rt: R,
    alloc: Global,
    writer: &mut W,
    options: &ServeOptions<'_>,
) -> ServiceEnd
where
    R::Dir: Send,
    ensures values { (¬ spec.AreGood options.now) → result.status ≡ 2 }
    ensures statuses { result.status ≤ 2 }
    ensures fault { IfSome result.fault (λ fault. result.status ≡ status_at fault) }

    // The status 0 comes only after lines which report that audits found each epoch in order, the last one too.
    ensures told { result.status ≡ 0
        → Appends (W.contents writer.old) (W.contents writer.new) (epoch_lines result.epochs ++ (verdicts.text_of Legal ++ 10 ∷ [])) }

    // The logs, one of each node, and the transcripts, with those of sessions that asked nothing, have a legal order. So had
    // those of each epoch before, and each epoch opened with what the one before it had left.
    ensures legal { result.status ≡ 0 → FoundLegal options.now.nodes options.now.window (spec.limits_of options.now) options.now.keys (is_some options.now.data)
        result.epochs result.logs.items result.transcripts.items result.greeted }
{
    match run(rt, alloc, options, writer) {
        Ok(end) => tell_end(&rt, alloc, writer, options.data, end),
        Err(fault) => fail(&rt, alloc, options.data, fault),
    }
}
