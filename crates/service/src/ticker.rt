//! The time of the nodes.

use crate::hearing::Hearing;
use crate::majority::is_majority;
use crate::pace::Pace;
use crate::served_node::ServedNode;
use crate::state::ServiceState;
use ballot::Cluster;
use cluster::Patience;
use ports::Fault;
use std::alloc::Global;
use std::sync::{Arc, Wait};
use std::thread;
use std::thread::{JoinHandle, Threads};
use std::time::{Clock, Duration};

/// How many milliseconds lie between two looks at the locks of sessions whose nodes are down.
const LOCK_LOOK_MS: u64 = 1_000;

/// For how many milliseconds a tick is put off at most.
const LONGEST_PUT_OFF_MS: u64 = 10_000;

/// A node, and how long it has waited in vain.
#[derive(Drop)]
struct Watched<N: ServedNode> {
    node: N,
    patience: Patience,
}

impl<N: ServedNode> Watched<N> {
    /// Time has passed for the node. If it has waited in vain for long enough, it asks to lead.
    fn tick(&mut self) {
        self.node.tick();
        if let Some(status) = self.node.status() {
            if status.up && self.patience.tick(status) {
                self.node.campaign();
            }
        }
    }
}

/// What a look at all nodes found.
#[derive(Clone, Copy, Debug, PartialEq, Eq)]
struct Look {
    /// How many are up.
    up: usize,
    /// Whether nobody waits for a node, and all that are up have come equally far.
    are_at_rest: bool,
}

/// A node that is alone here, with the other nodes of its cluster elsewhere.
#[derive(Drop)]
struct Alone {
    hearing: Hearing,
    pace: Pace,
    hears: bool,
}

impl Alone {
    /// So much time has passed. Returns whether the node ticks now. Notes in the log if it hears too few others from now on.
    fn is_due<R: Wait + Clock>(
        &mut self,
        rt: &R,
        state: &ServiceState,
        passed_ms: u64,
        is_busy: bool,
    ) -> bool {
        let heard = self.hears;
        self.hears = self.hearing.look(rt, state.heard_nodes(), passed_ms);
        if heard && !self.hears {
            state.life().log().no_majority(rt);
        }
        self.pace.is_due(passed_ms, is_busy, self.hears)
    }
}

/// Ticks the nodes again and again, on a thread of its own, until the sessions have ended. `elsewhere` is the cluster of a
/// node that is alone here.
pub(crate) fn start<
    R: Threads + Wait + Clock + Copy + Send + 'static,
    N: ServedNode + Send + Sync + Drop + 'static,
>(
    rt: R,
    alloc: Global,
    nodes: &Arc<Vec<N>>,
    state: &Arc<ServiceState>,
    every: Duration,
    elsewhere: Option<Cluster>,
    threads: &mut Vec<JoinHandle<()>>,
) -> Result<(), Fault> {
    threads.reserve(1)?;
    let mut watched = Vec::new(alloc);
    for node in nodes.iter() {
        let patience = Patience::new(node.me());
        let node = node.share()?;
        watched.push(Watched { node, patience })?;
    }
    let nodes = Arc::try_clone(nodes)?;
    let state = Arc::try_clone(state)?;
    let alone = elsewhere.map(|cluster| Alone {
        hearing: Hearing::new(cluster),
        pace: Pace::new(),
        hears: true,
    });
    let Ok(thread) = thread::spawn(&rt, move || {
        run(&rt, watched, &nodes, &state, every, alone)
    }) else {
        return Err(Fault::Memory);
    };
    threads.push_reserved(thread);
    Ok(())
}

/// A tick has the nodes send again whatever awaits an answer, and after a change of the leader that is all that was ever
/// decided. So it is put off while something that was sent waits to be heard: the answer may be there, and a node that has
/// much to hear doesn't wait in vain. Nodes at rest need no time, and their logs don't grow by it. Nor do nodes without a
/// majority, since nothing is decided there. A node that is alone keeps a pace of its own.
fn run<R: Wait + Clock, N: ServedNode + Drop>(
    rt: &R,
    mut watched: Vec<Watched<N>>,
    nodes: &[N],
    state: &ServiceState,
    every: Duration,
    mut alone: Option<Alone>,
) {
    let every_ms = u64::try_from(every.as_millis()).unwrap_or(u64::MAX);
    let mut put_off_ms: u64 = 0;
    let mut waited = Duration::ZERO;
    for _ in rt.forever() {
        if state.stages().pauses(rt, every) {
            return;
        }
        // A thread that makes a long step holds the lock, and this waits for it.
        let look = look_at(&watched);
        waited = waited.saturating_add(every);
        if look.up < nodes.len() && waited >= Duration::from_millis(LOCK_LOOK_MS) {
            waited = Duration::ZERO;
            let _more = state.lock_breaker().look(rt, nodes, state.life().log());
        }
        if put_off_ms < LONGEST_PUT_OFF_MS && has_unheard(&watched) {
            put_off_ms = put_off_ms.saturating_add(every_ms);
            continue;
        }
        put_off_ms = 0;
        let is_busy = !look.are_at_rest;
        let is_due = match &mut alone {
            None => is_busy,
            Some(alone) => alone.is_due(rt, state, every_ms, is_busy),
        };
        if is_due && is_majority(look.up, nodes.len()) {
            tick_all(&mut watched);
        }
    }
}

/// Whether something that was sent to a node waits to be heard.
fn has_unheard<N: ServedNode>(nodes: &[Watched<N>]) -> bool {
    nodes.iter().any(|watched| watched.node.has_unheard())
}

/// Looks at each node.
fn look_at<N: ServedNode>(nodes: &[Watched<N>]) -> Look {
    let mut front = None;
    let mut up: usize = 0;
    let mut are_at_rest = true;
    for watched in nodes {
        match watched.node.status() {
            Some(status) if status.up => {
                let is_apart = front.is_some_and(|slot| slot != status.slot_out);
                are_at_rest = are_at_rest && !status.waiting && !is_apart;
                front = Some(status.slot_out);
                up = up.saturating_add(1);
            }
            _ => {}
        }
    }
    Look { up, are_at_rest }
}

fn tick_all<N: ServedNode>(nodes: &mut [Watched<N>]) {
    for watched in nodes.iter_mut() {
        watched.tick();
    }
}
