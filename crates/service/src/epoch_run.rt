//! One epoch of a service, from its start to its end.
ghost use Rattle.std.specs.Prelude.{◌≡◌, ◌≤◌, ◌<◌, ◌++◌, ◌∷◌, [], None, true, IsTrue, IfOk, IfSome, OnOk, string_bytes, map};
ghost use Rattle.std.specs.Arc.{arc_value};
ghost use Rattle.std.specs.Io.KnownBytes.{Appends};
ghost use Rattle.apop.specs.Accounts.{name_of};
ghost use Rattle.cluster.specs.Ends.{IsLeftBy};
ghost use Rattle.cluster.specs.Starts.{all_nodes, has_window};
ghost use Rattle.maildrop.specs.Name.{are_different};
ghost use Rattle.service.specs.Epochs.{TellsOn, epoch_line};
ghost use Rattle.service.specs.Verdicts.{CanServe};
ghost use Rattle.service.specs.Endings.{IfRolled};

use crate::brand::Service;
use crate::draining::{wait_for_deliveries, wait_for_last_deliveries};
use crate::epoch::EndedEpoch;
use crate::epoch_journal::EpochJournal;
use crate::furthest::furthest_up;
use crate::life::ServiceLife;
use crate::majority::crash_all;
use crate::past::{Past, Prepared};
use crate::reserve::{Needs, needs_of};
use crate::serve::{FIRST_LEADER, note_audit, note_fault};
use crate::served_node::ServedNode;
use crate::served_sessions::ServedSessions;
use crate::service_nodes::{ServiceDesk, ServiceNodes, StoppedNodes};
use crate::state::ServiceState;
use crate::threads;
use crate::threads::{EpochThreads, Ports, join_all};
use crate::verdict::Verdict;
use apop::Accounts;
use ballot::{Memory, NodeId};
use cluster::{Link, Setup};
use maildrop::Kept;
use ports::{Fault, System, say};
use rolls::Wake;
use settings::{OnFault, Settings};
use std::alloc::Global;
use std::fs::File;
use std::io::Write;
use std::rt::Files;
use std::sync::ledger::{Blank, Share};
use std::sync::{Arc, Wait};
use std::thread;
use std::thread::JoinHandle;
use std::time::{Clock, Duration};

/// How often a moment without an open session is looked for while new clients wait.
const QUIET_LOOKS: u32 = 20;

/// How many milliseconds lie between two such looks.
const QUIET_LOOK_MS: u64 = 1;

/// How often it is looked whether a write has failed while an audit is awaited, in milliseconds.
const AUDIT_LOOK_MS: u64 = 50;

/// How long the thread waits that finds an epoch which isn't tried to end yet, in milliseconds.
const RETRY_LOOK_MS: u64 = 20;

/// How an epoch ends.
#[derive(Clone, Copy, Debug, PartialEq, Eq)]
pub(crate) enum Ending {
    /// The service stops, and its sessions go on to their ends.
    Stopped,
    /// The service ends, and so do its sessions.
    Over,
    /// A thread of the epoch couldn't be had, so it has served nobody.
    Withdrawn,
    /// The next epoch begins, and the sessions are ended. What it needs was had before.
    Rolled(Prepared),
}

/// What an ended epoch leaves: what is audited, and the maildrops of a node that has performed the most.
#[derive(Drop)]
pub(crate) struct EpochLeft {
    pub epoch: EndedEpoch,
    pub kept: Result<Kept, Memory>,
}

/// An epoch that has ended.
#[derive(Drop)]
pub(crate) struct EpochEnd {
    /// Nothing if a node left no log, or the transcripts are gone.
    pub left: Option<EpochLeft>,
    /// The threads of operators, who may wait for the next epoch, or for the end of the service.
    pub operators: Vec<JoinHandle<()>>,
    /// The fault after which nobody was served.
    pub served: Result<(), Fault>,
    /// The fault of a write that mail was to outlive the process by.
    pub written: Result<(), Fault>,
}

/// Writes the line about an epoch of this number.
fn say_verdict<W: Write>(
    alloc: Global,
    writer: &mut W,
    number: u64,
    verdict: &Verdict,
) -> Result<(), Fault>
    ensures { OnOk result (Appends (W.contents writer.old) (W.contents writer.new) (epoch_line number verdict.now)) }
{
    let line = verdict_line(alloc, number, verdict)?;
    say(writer, line.as_bytes())
}

/// The line about an epoch of this number.
fn verdict_line(alloc: Global, number: u64, verdict: &Verdict) -> Result<String, Memory>
    ensures { IfOk result (λ line. string_bytes line ≡ epoch_line number verdict.now) }
{
    let mut line = format!(in alloc; "epoch {number}: ")?;
    let rest = verdict.line(alloc)?;
    line.push_str(rest.as_str())?;
    Ok(line)
}

/// Whether a verdict is that something was wrong. A lack of memory isn't.
fn is_wrong(verdict: &Verdict) -> bool {
    matches!(verdict, Verdict::NoOrder(_) | Verdict::WrongAnswer(_))
}

/// Waits for the verdict on the epoch before this one, unless it is known, and reports it. Returns whether the service is to
/// end because of it.
pub(crate) fn tell_verdict<R: System, W: Write>(
    rt: &R,
    alloc: Global,
    on_fault: OnFault,
    life: &ServiceLife,
    past: &mut Past,
    writer: &mut W,
) -> bool
    ensures kept { past.new.kept ≡ past.old.kept }
    ensures pending { past.new.pending ≡ None }
    ensures told { TellsOn (W.contents writer.old) (W.contents writer.new) past.old past.new }
{
    let Some(verdict) = past.collect(rt) else {
        return false;
    };
    if say_verdict(alloc, writer, past.told(), &verdict).is_err() {
        past.fail();
    }
    note_audit(rt, alloc, life.log(), past.told(), &verdict);
    if !is_wrong(&verdict) {
        return false;
    }
    note_verdict(rt, alloc, life, &verdict);
    matches!(on_fault, OnFault::Stop)
}

/// Notes in the log what is wrong with an epoch. Without memory for its text nothing is noted.
fn note_verdict<R: Wait + Clock>(rt: &R, alloc: Global, life: &ServiceLife, verdict: &Verdict) {
    if let Ok(line) = verdict.line(alloc) {
        life.log().fault(rt, line.as_str().trim_end());
    }
}

/// Holds new POP3 clients back, and waits some 20 ms for a moment without a session or a delivery. Returns whether there was
/// one: then the clients are still held back.
fn is_quiet<R: System>(rt: &R, ports: &Ports, state: &ServiceState) -> bool {
    ports.pause_pop(rt);
    for _ in 0..QUIET_LOOKS {
        // A connection that was just taken counts a moment later.
        thread::sleep(rt, Duration::from_millis(QUIET_LOOK_MS));
        if state.life().sessions().count(rt) == 0 && !state.is_delivering(rt) {
            return true;
        }
    }
    ports.resume_pop(rt);
    false
}

/// What the next epoch needs of the system, by what the node has that is furthest.
fn needs_after<N: ServedNode>(ports: &Ports, nodes: &[N]) -> Result<Needs, Memory> {
    let (mut users, mut messages): (usize, usize) = (0, 0);
    if let Some(node) = furthest_up(nodes) {
        for (_, usage) in &node.usage()? {
            users = users.saturating_add(1);
            let more = usize::try_from(usage.messages).unwrap_or(usize::MAX);
            messages = messages.saturating_add(more);
        }
    }
    Ok(needs_of(users, messages, nodes.len(), ports.count()))
}

/// Reads the accounts anew. If they can't be, an end that operators asked for is refused, and at any other end the accounts stay. Returns
/// whether they were read.
fn read_accounts<R: System + Files<File = File>>(
    rt: &R,
    alloc: Global,
    life: &ServiceLife,
    past: &mut Past,
) -> Result<bool, Fault>
    ensures { past.new ≡ past.old }
{
    let Err(fault) = past.read_accounts(rt, alloc) else {
        return Ok(true);
    };
    life.rolls().note_accounts(rt, false);
    if life.rolls().may_refuse(rt) {
        return Err(fault);
    }
    note_fault(rt, alloc, life.log(), None, fault);
    Ok(false)
}

/// Has what the next epoch needs, before this one ends.
fn prepare<R: System + Files<File = File>, N: ServedNode>(
    rt: R,
    alloc: Global,
    ports: &Ports,
    life: &ServiceLife,
    nodes: &[N],
    past: &mut Past,
) -> Result<Prepared, Fault>
    ensures { past.new ≡ past.old }
{
    let is_read = read_accounts(&rt, alloc, life, past)?;
    let needs = needs_after(ports, nodes)?;
    let prepared = past.hold(rt, needs)?;
    life.rolls().note_accounts(&rt, is_read);
    Ok(prepared)
}

/// Prepares the end of the epoch, if it may be tried now. If what the next one needs can't be had, operators who asked for the end get
/// that answer, and the epoch goes on.
fn prepared<R: System + Files<File = File>, N: ServedNode>(
    rt: &R,
    alloc: Global,
    ports: &Ports,
    life: &ServiceLife,
    nodes: &[N],
    past: &mut Past,
) -> Option<Prepared>
    ensures { past.new ≡ past.old }
{
    if !life.rolls().may_refuse(rt) && !past.is_try_due(rt) {
        thread::sleep(rt, Duration::from_millis(RETRY_LOOK_MS));
        return None;
    }
    let rolls = life.rolls();
    rolls.begin_end(rt, rolls.epoch(rt));
    match prepare(*rt, alloc, ports, life, nodes, past) {
        Ok(prepared) => Some(prepared),
        Err(fault) => {
            rolls.give_up_end(rt);
            life.log().roll_failed(rt, fault);
            life.rolls().refuse(rt, fault);
            past.note_try(rt);
            None
        }
    }
}

/// Prepares the end of the epoch, if this wake is for that.
fn due_end<R: System + Files<File = File>, N: ServedNode>(
    rt: &R,
    alloc: Global,
    ports: &Ports,
    state: &ServiceState,
    nodes: &[N],
    wake: Wake,
    past: &mut Past,
) -> Option<Prepared>
    ensures { past.new ≡ past.old }
{
    // The sessions of those who weren't held back may have ended while the audit went on.
    let is_due = match wake {
        Wake::Roll => true,
        Wake::Quiet | Wake::Behind => is_quiet(rt, ports, state),
        Wake::Stop | Wake::Audited | Wake::Look => false,
    };
    if !is_due {
        return None;
    }
    prepared(rt, alloc, ports, state.life(), nodes, past)
}

/// Holds new POP3 clients back until the audit of the epoch before this one has ended. Else each epoch would grow beyond the one
/// before it while sessions come faster than they are audited. Returns false, and holds nobody back, if the service stops or a
/// write has failed.
fn hold_back<R: System>(rt: &R, ports: &Ports, state: &ServiceState) -> bool {
    let rolls = state.life().rolls();
    let look = Duration::from_millis(AUDIT_LOOK_MS);
    ports.pause_pop(rt);
    for _ in rt.forever() {
        let is_over = state.journal().has_failed(rt) || rolls.is_stopping(rt);
        if is_over {
            ports.resume_pop(rt);
            return false;
        }
        if !rolls.awaits_audit(rt, look) && !rolls.is_stopping(rt) {
            return true;
        }
    }
    unreachable!()
}

/// Notes that the epoch leads, once a node does.
fn note_leader<R: Wait, N: ServedNode>(rt: &R, life: &ServiceLife, nodes: &[N]) {
    let rolls = life.rolls();
    if rolls.has_led(rt) {
        return;
    }
    for node in nodes {
        if node
            .status()
            .is_some_and(|status| status.up && status.active)
        {
            rolls.lead(rt);
            return;
        }
    }
}

/// Stops the nodes of an epoch whose changes can't be written any more. Returns whether the service ends: it does after a write that
/// failed. After running out of memory only the epoch ends, if there is a next one.
fn ends_by_journal<R: Wait, N: ServedNode>(rt: &R, state: &ServiceState, nodes: &[N]) -> bool {
    crash_all(nodes);
    state.journal().written(rt).is_err() || !state.life().rolls().require(rt, state.epoch())
}

/// Waits until the epoch is to end, and reports the verdict on the one before it as soon as it is known. Unless the service
/// stops, the epoch doesn't end before that. After a write that failed nobody waits for a verdict any more.
fn watch<R: System + Files<File = File>, W: Write, N: ServedNode>(
    rt: &R,
    alloc: Global,
    on_fault: OnFault,
    ports: &Ports,
    state: &ServiceState,
    nodes: &[N],
    past: &mut Past,
    writer: &mut W,
) -> Ending
    ensures kept { past.new.kept ≡ past.old.kept }
    ensures rolled { IfRolled result (past.new.pending ≡ None) }
    ensures told { TellsOn (W.contents writer.old) (W.contents writer.new) past.old past.new }
{
    let life = state.life();
    for _ in rt.forever() {
        note_leader(rt, life, nodes);
        let wake = life.rolls().wait(rt);
        if state.journal().has_failed(rt) && ends_by_journal(rt, state, nodes) {
            life.stop(rt);
            past.abandon();
            return Ending::Over;
        }
        if matches!(wake, Wake::Stop) {
            return Ending::Stopped;
        }
        let is_over = matches!(wake, Wake::Behind) && !hold_back(rt, ports, state);
        if is_over || matches!(wake, Wake::Look) {
            continue;
        }
        if tell_verdict(rt, alloc, on_fault, life, past, writer) {
            life.stop(rt);
            return Ending::Over;
        }
        if let Some(prepared) = due_end(rt, alloc, ports, state, nodes, wake, past) {
            return Ending::Rolled(prepared);
        }
        ports.resume_pop(rt);
    }
    unreachable!()
}

/// Ends the threads of an epoch. If its service stops, its sessions go on to their ends; else they are ended. Then the nodes need no more
/// time. Operators are heard until the next epoch hears them, or the service ends. Returns their threads.
pub(crate) fn end_threads<R: System>(
    rt: &R,
    threads: EpochThreads,
    ports: &Ports,
    state: &ServiceState,
    ending: Ending,
) -> Vec<JoinHandle<()>> {
    let EpochThreads {
        sessions,
        nodes,
        peers,
        operators,
    } = threads;
    if matches!(ending, Ending::Stopped) {
        ports.close_pop(rt);
    } else {
        ports.end_pop(rt);
        state.close_deliveries(rt);
        state.draining().begin(rt);
        wait_for_deliveries(rt, state);
    }
    join_all(rt, sessions);
    state.draining().end(rt);
    state.stages().end(rt);
    if matches!(ending, Ending::Stopped | Ending::Over) {
        ports.close_ctl(rt);
    }
    join_all(rt, nodes);
    ports.close_peers(rt);
    join_all(rt, peers);
    operators
}

/// What the threads of an epoch share that begins now.
pub(crate) fn state_of<R: System>(
    rt: &R,
    alloc: Global,
    life: &Arc<ServiceLife>,
    accounts: &Arc<Accounts>,
    journal: &EpochJournal,
) -> Result<Arc<ServiceState>, Fault> {
    let shared = Arc::try_clone(life)?;
    let accounts = Arc::try_clone(accounts)?;
    let journal = journal.share()?;
    let epoch = life.rolls().begin(rt);
    let state = ServiceState::new(alloc, shared, epoch, accounts, journal);
    match Arc::new(alloc, state) {
        Ok(state) => Ok(state),
        Err(error) => {
            life.rolls().withdraw(rt);
            Err(Fault::from(error))
        }
    }
}

/// What the nodes of an epoch leave whose sessions have ended.
#[derive(Drop)]
struct NodesEnd<D: Service> {
    /// Nothing if a node left no log.
    stopped: Option<StoppedNodes<D>>,
    /// The threads of operators, who may still wait.
    operators: Vec<JoinHandle<()>>,
    /// The fault after which nobody was served.
    served: Result<(), Fault>,
}

/// Watches an epoch whose threads were started until it is to end. If they weren't, it ends at once.
fn watch_started<R: System + Files<File = File>, W: Write, N: ServedNode>(
    rt: &R,
    alloc: Global,
    started: Result<(), Fault>,
    on_fault: OnFault,
    ports: &Ports,
    state: &ServiceState,
    nodes: &[N],
    past: &mut Past,
    writer: &mut W,
) -> Ending
    ensures kept { past.new.kept ≡ past.old.kept }
    ensures told { TellsOn (W.contents writer.old) (W.contents writer.new) past.old past.new }
{
    let life = state.life();
    if started.is_err() {
        life.rolls().withdraw(rt);
        return Ending::Withdrawn;
    }
    if state.epoch() > 1 {
        life.log().roll(rt, state.epoch());
    } else {
        life.note_start(rt, state.epoch(), nodes);
    }
    watch(rt, alloc, on_fault, ports, state, nodes, past, writer)
}

/// Serves clients over these nodes until the epoch ends. Returns the threads of operators, with the fault if a thread couldn't
/// be had: then nobody was served.
fn serve_clients<
    D: Service + Send + Sync + 'static,
    R: System + Files<File = File>,
    L: Link + Drop + Send + Sync + 'static,
    W: Write,
>(
    rt: R,
    alloc: Global,
    settings: &Settings,
    ports: &Ports,
    state: &Arc<ServiceState>,
    sessions: &Arc<ServedSessions<D>>,
    desks: &Arc<Vec<ServiceDesk<D, R, L>>>,
    past: &mut Past,
    writer: &mut W,
) -> (Vec<JoinHandle<()>>, Result<(), Fault>)
    ensures past { past.new.kept ≡ past.old.kept }
    ensures told { TellsOn (W.contents writer.old) (W.contents writer.new) past.old past.new }
{
    let (threads, started) = threads::start(rt, alloc, desks, ports, state, sessions, settings);
    let on_fault = settings.on_fault;
    let ending = watch_started(
        &rt, alloc, started, on_fault, ports, state, desks, past, writer,
    );
    let operators = end_threads(&rt, threads, ports, state, ending);
    (operators, started)
}

/// Serves clients over these nodes until the epoch ends, and stops them. After a fault nobody was served.
#[tactic(auto, using(crate::proofs::Tells::after_same))]
fn serve_nodes<
    D: Service + Send + Sync + 'static,
    R: System + Files<File = File>,
    L: Link + Drop + Send + Sync + 'static,
    W: Write,
>(
    rt: R,
    alloc: Global,
    settings: &Settings,
    ports: &Ports,
    life: &Arc<ServiceLife>,
    accounts: &Arc<Accounts>,
    sessions: &Arc<ServedSessions<D>>,
    journal: &EpochJournal,
    service_nodes: ServiceNodes<D, R, L>,
    past: &mut Past,
    writer: &mut W,
) -> Result<NodesEnd<D>, Fault>
    requires nodes { service_nodes ≡ all_nodes D.setup.cluster }
    ensures past { past.new.kept ≡ past.old.kept }
    ensures told { TellsOn (W.contents writer.old) (W.contents writer.new) past.old past.new }
    ensures kept { IfOk result (λ end. IfSome end.stopped (λ stopped. IfOk stopped.kept (λ kept. IsLeftBy D.setup stopped.logs kept))) }
{
    let desks = Arc::new(alloc, service_nodes.desks(alloc, settings.cluster)?)?;
    let state = state_of(&rt, alloc, life, accounts, journal)?;
    if let Some(leader) = NodeId::new(FIRST_LEADER) {
        service_nodes.campaign(leader);
    }
    let (operators, served) = serve_clients(
        rt, alloc, settings, ports, &state, sessions, &desks, past, writer,
    );
    past.release_memory();
    let stopped = service_nodes.stop();
    if journal.is_kept() && life.rolls().is_stopping(&rt) {
        // A write that they wait for may still fail, which is then why the service ends.
        wait_for_last_deliveries(&rt, &state);
    }
    Ok(NodesEnd {
        stopped,
        operators,
        served,
    })
}

/// Starts the nodes of an epoch, serves clients until it ends, and stops them. After a fault nobody was served.
fn run_nodes<D: Service + Send + Sync + 'static, R: System + Files<File = File>, W: Write>(
    rt: R,
    alloc: Global,
    settings: &Settings,
    ports: &Ports,
    life: &Arc<ServiceLife>,
    setup: &Setup,
    accounts: &Arc<Accounts>,
    sessions: &Arc<ServedSessions<D>>,
    journal: &EpochJournal,
    part: Share<D>,
    past: &mut Past,
    writer: &mut W,
) -> Result<NodesEnd<D>, Fault>
    requires deployment { setup.now ≡ D.setup }
    requires different { IsTrue (are_different setup.now.names) }
    requires part { 0 < part.parts }
    ensures past { past.new.kept ≡ past.old.kept }
    ensures told { TellsOn (W.contents writer.old) (W.contents writer.new) past.old past.new }
    ensures window { OnOk result (has_window setup.now ≡ true) }
    ensures kept { IfOk result (λ end. IfSome end.stopped (λ stopped. IfOk stopped.kept (λ kept. IsLeftBy D.setup stopped.logs kept))) }
{
    match settings.peer_port {
        None => {
            let nodes = ServiceNodes::start(rt, alloc, setup, part, journal.share()?)?;
            serve_nodes(
                rt, alloc, settings, ports, life, accounts, sessions, journal, nodes, past, writer,
            )
        }
        Some(base) => {
            let shared = journal.share()?;
            let nodes = ServiceNodes::start_over(rt, alloc, setup, part, base, None, shared)?;
            serve_nodes(
                rt, alloc, settings, ports, life, accounts, sessions, journal, nodes, past, writer,
            )
        }
    }
}

/// What an epoch leaves whose nodes have stopped. Nothing if the transcripts are gone.
fn left_by_nodes<D: Service, T: Wait>(
    rt: &T,
    stopped: StoppedNodes<D>,
    sessions: &ServedSessions<D>,
    accounts: Arc<Accounts>,
    setup: Setup,
) -> Option<EpochLeft>
    requires begins { CanServe D.accounts D.setup }
    requires accounts { arc_value accounts ≡ D.accounts }
    requires setup { setup ≡ D.setup }
    requires kept { IfOk stopped.kept (λ kept. IsLeftBy D.setup stopped.logs kept) }
    ensures setup { IfSome result (λ left. left.epoch.setup ≡ setup) }
    ensures kept { IfSome result (λ left. IfOk left.kept (λ kept. IsLeftBy setup left.epoch.logs kept)) }
{
    let transcripts = sessions.take(rt)?;
    let StoppedNodes { logs, kept } = stopped;
    Some(EpochLeft {
        epoch: EndedEpoch::new(accounts, setup, logs, transcripts),
        kept,
    })
}

/// The sessions of an epoch that begins, with its part for nodes.
fn sessions_of<D: Service>(
    alloc: Global,
    accounts: &Arc<Accounts>,
    book: Blank,
) -> Result<(Arc<ServedSessions<D>>, Share<D>), Fault>
    requires accounts { arc_value accounts.now ≡ D.accounts }
    requires name { book.name ≡ D.name }
    requires parts { book.parts ≡ D.parts }
    requires one { book.parts ≡ 1 }
    ensures { IfOk result (λ both. 0 < both.1.parts) }
{
    let accounts = Arc::try_clone(accounts)?;
    let (book, part) = book.open::<D>();
    let sessions = Arc::new(alloc, ServedSessions::new(alloc, accounts, book, true))?;
    Ok((sessions, part))
}

/// Runs the nodes of an epoch and its sessions until it ends. After a fault nobody was served.
pub(crate) fn run_epoch<
    D: Service + Send + Sync + 'static,
    R: System + Files<File = File>,
    W: Write,
>(
    rt: R,
    alloc: Global,
    settings: &Settings,
    ports: &Ports,
    life: &Arc<ServiceLife>,
    setup: Setup,
    accounts: Arc<Accounts>,
    book: Blank,
    journal: &EpochJournal,
    past: &mut Past,
    writer: &mut W,
) -> Result<EpochEnd, Fault>
    requires deployment { setup ≡ D.setup }
    requires accounts { arc_value accounts ≡ D.accounts }
    requires name { book.name ≡ D.name }
    requires parts { book.parts ≡ D.parts }
    requires names { setup.names ≡ map name_of D.accounts }
    requires different { IsTrue (are_different setup.names) }
    requires some { 1 ≤ setup.cluster }
    requires one { book.parts ≡ 1 }
    ensures past { past.new.kept ≡ past.old.kept }
    ensures told { TellsOn (W.contents writer.old) (W.contents writer.new) past.old past.new }
    ensures setup { IfOk result (λ end. IfSome end.left (λ left. left.epoch.setup ≡ setup)) }
    ensures kept { IfOk result (λ end. IfSome end.left (λ left. IfOk left.kept (λ kept. IsLeftBy setup left.epoch.logs kept))) }
{
    let (sessions, part) = sessions_of::<D>(alloc, &accounts, book)?;
    let NodesEnd {
        stopped,
        operators,
        served,
    } = run_nodes(
        rt, alloc, settings, ports, life, &setup, &accounts, &sessions, journal, part, past, writer,
    )?;
    let left = match stopped {
        Some(stopped) => left_by_nodes(&rt, stopped, &sessions, accounts, setup),
        None => None,
    };
    Ok(EpochEnd {
        left,
        operators,
        served,
        written: journal.written(&rt),
    })
}
