//! The end of an epoch's sessions, if the service goes on without them, or a write has failed.

use crate::epoch_journal::EpochJournal;
use crate::majority::{count_up, crash_all, is_majority};
use crate::served_node::ServedNode;
use crate::state::ServiceState;
use ports::{Fault, STACK};
use std::sync::{Arc, Condvar, Mutex, Wait};
use std::thread;
use std::thread::{Builder, JoinHandle, Threads};
use std::time::{Clock, Duration};

/// How many milliseconds lie between two looks at the sessions. A session whose client is silent for so long ends.
const LOOK_MS: u64 = 500;

/// How many milliseconds lie between two looks at the journal.
const JOURNAL_LOOK_MS: u64 = 100;

/// How many times the journal is looked at between two looks at the sessions.
const JOURNAL_LOOKS: u64 = LOOK_MS / JOURNAL_LOOK_MS;

/// From which look on all sessions end: after 10 seconds.
const LAST_LOOK: u32 = 20;

/// From which look on their connections are cut, and the nodes stop that they may wait for: after 15 seconds.
const CUT_LOOK: u32 = 30;

/// How often deliveries are looked at that are under way: for 10 seconds.
const DELIVERY_LOOKS: u32 = 2_000;

/// How many milliseconds lie between two looks at them.
const DELIVERY_LOOK_MS: u64 = 5;

/// How far the end of an epoch's sessions has come.
#[derive(Clone, Copy, Debug, PartialEq, Eq)]
enum Stage {
    /// They go on.
    Open,
    /// They are to end.
    Ending,
    /// They have ended.
    Ended,
}

/// What the thread finds that ends the sessions, after it has waited.
#[derive(Clone, Copy, Debug, PartialEq, Eq)]
enum Found {
    /// The sessions are as far as this.
    Sessions(Stage),
    /// A write has failed, and sessions may be open.
    Failure,
}

/// The end of an epoch's sessions.
#[derive(Drop)]
pub(crate) struct Draining {
    stage: Mutex<Stage>,
    changes: Condvar,
}

impl Draining {
    /// Of sessions that go on.
    pub(crate) fn new() -> Self {
        Draining {
            stage: Mutex::new(Stage::Open),
            changes: Condvar::new(),
        }
    }

    /// The sessions are to end.
    pub(crate) fn begin<R: Wait>(&self, rt: &R) {
        *self.stage.lock(rt) = Stage::Ending;
        self.changes.notify_all();
    }

    /// The sessions have ended.
    pub(crate) fn end<R: Wait>(&self, rt: &R) {
        *self.stage.lock(rt) = Stage::Ended;
        self.changes.notify_all();
    }

    /// Whether the sessions are to end, or have ended so.
    pub(crate) fn has_begun<R: Wait>(&self, rt: &R) -> bool {
        !matches!(*self.stage.lock(rt), Stage::Open)
    }

    /// Waits until the sessions are to end, or have ended by themselves, and returns which.
    fn begun<R: Wait>(&self, rt: &R) -> Stage {
        let guard = self.stage.lock(rt);
        let stage = self
            .changes
            .wait_while(rt, guard, |stage| matches!(*stage, Stage::Open));
        *stage
    }

    /// The same, but waits for no longer than this.
    fn begun_within<R: Wait + Clock>(&self, rt: &R, time: Duration) -> Stage {
        let guard = self.stage.lock(rt);
        let (stage, _) = self
            .changes
            .wait_timeout_while(rt, guard, time, |stage| matches!(*stage, Stage::Open));
        *stage
    }

    /// Waits so long, or until the sessions have ended. Returns whether they have.
    fn pauses<R: Wait + Clock>(&self, rt: &R, time: Duration) -> bool {
        let guard = self.stage.lock(rt);
        let (stage, _) = self
            .changes
            .wait_timeout_while(rt, guard, time, |stage| !matches!(*stage, Stage::Ended));
        matches!(*stage, Stage::Ended)
    }
}

/// Waits until the sessions are to end or have ended, or a write to the journal has failed.
fn await_begin<R: Wait + Clock>(rt: &R, draining: &Draining, journal: &EpochJournal) -> Found {
    if !journal.is_kept() {
        return Found::Sessions(draining.begun(rt));
    }
    for _ in rt.forever() {
        let stage = draining.begun_within(rt, Duration::from_millis(JOURNAL_LOOK_MS));
        if matches!(stage, Stage::Ended) {
            return Found::Sessions(stage);
        }
        if journal.has_failed(rt) {
            return Found::Failure;
        }
        if matches!(stage, Stage::Ending) {
            return Found::Sessions(stage);
        }
    }
    unreachable!()
}

/// Waits half a second, or until the sessions have ended or a write to the journal has failed.
fn await_look<R: Wait + Clock>(rt: &R, draining: &Draining, journal: &EpochJournal) -> Found {
    for _ in 0..JOURNAL_LOOKS {
        if draining.pauses(rt, Duration::from_millis(JOURNAL_LOOK_MS)) {
            return Found::Sessions(Stage::Ended);
        }
        if journal.has_failed(rt) {
            return Found::Failure;
        }
    }
    Found::Sessions(Stage::Ending)
}

/// Starts the thread that ends the sessions of an epoch, once that is asked for or a write to its journal has failed.
pub(crate) fn start<
    R: Threads + Wait + Clock + Copy + Send + 'static,
    N: ServedNode + Send + Sync + Drop + 'static,
>(
    rt: R,
    nodes: &Arc<Vec<N>>,
    state: &Arc<ServiceState>,
    threads: &mut Vec<JoinHandle<()>>,
) -> Result<(), Fault> {
    threads.reserve(1)?;
    let nodes = Arc::try_clone(nodes)?;
    let state = Arc::try_clone(state)?;
    let Ok(thread) = Builder::new()
        .stack_size(STACK)
        .spawn(&rt, move || drain(&rt, &nodes, &state))
    else {
        return Err(Fault::Memory);
    };
    threads.push_reserved(thread);
    Ok(())
}

/// Ends the sessions once that is asked for. Once a write to the journal has failed it cuts them, whether that was asked for or
/// not.
fn drain<R: Wait + Clock, N: ServedNode>(rt: &R, nodes: &[N], state: &ServiceState) {
    let mut found = await_begin(rt, state.draining(), state.journal());
    if matches!(found, Found::Sessions(Stage::Ending)) {
        found = end_sessions(rt, nodes, state);
    }
    if matches!(found, Found::Failure) {
        note_want_of_memory(rt, state);
        cut_sessions(rt, nodes, state);
    }
}

/// Ends the sessions: for 10 s those whose clients are silent, then all, each after the reply that it writes. From 15 s on it
/// cuts their connections and stops the nodes. Without a majority the nodes stop at once, since no session could get an
/// answer. Returns once the sessions have ended, or a write to the journal has failed.
fn end_sessions<R: Wait + Clock, N: ServedNode>(
    rt: &R,
    nodes: &[N],
    state: &ServiceState,
) -> Found {
    if !is_majority(count_up(nodes), nodes.len()) {
        crash_all(nodes);
    }
    let sessions = state.life().sessions();
    let mut looks: u32 = 0;
    for _ in rt.forever() {
        if looks < LAST_LOOK {
            sessions.end_idle(rt, LOOK_MS);
        } else if looks < CUT_LOOK {
            sessions.end_all(rt);
        } else {
            sessions.cut_all(rt);
            crash_all(nodes);
        }
        let found = await_look(rt, state.draining(), state.journal());
        if !matches!(found, Found::Sessions(Stage::Ending)) {
            return found;
        }
        looks = looks.saturating_add(1);
    }
    unreachable!()
}

/// Notes in the log that nothing more is written after running out of memory. The fault of a write is noted as the service ends.
fn note_want_of_memory<R: Wait + Clock>(rt: &R, state: &ServiceState) {
    if matches!(state.journal().failure(rt), Some(Fault::Memory)) {
        state.life().log().fault(rt, "no memory");
    }
}

/// Stops all nodes, and cuts the connections of sessions until all have ended. So nobody is answered any more, however slow its
/// client is.
fn cut_sessions<R: Wait + Clock, N: ServedNode>(rt: &R, nodes: &[N], state: &ServiceState) {
    for _ in rt.forever() {
        crash_all(nodes);
        state.life().sessions().cut_all(rt);
        let look = Duration::from_millis(JOURNAL_LOOK_MS);
        if state.draining().pauses(rt, look) {
            return;
        }
    }
}

/// Waits until no delivery is under way, but not for long, nor once a write to the journal has failed.
pub(crate) fn wait_for_deliveries<R: Wait + Clock>(rt: &R, state: &ServiceState) {
    for _ in 0..DELIVERY_LOOKS {
        // A connection that was just taken counts a moment later.
        thread::sleep(rt, Duration::from_millis(DELIVERY_LOOK_MS));
        if !state.is_delivering(rt) || state.journal().has_failed(rt) {
            return;
        }
    }
}

/// Waits until no delivery is under way, once the nodes have stopped and operators aren't heard any more. Then a delivery may
/// only wait for its write.
pub(crate) fn wait_for_last_deliveries<R: Wait + Clock>(rt: &R, state: &ServiceState) {
    for _ in rt.forever() {
        if !state.is_delivering(rt) {
            return;
        }
        thread::sleep(rt, Duration::from_millis(DELIVERY_LOOK_MS));
    }
}
