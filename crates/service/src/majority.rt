//! Whether enough nodes of a service are up for anything to be decided.
ghost use Rattle.std.specs.Prelude.{◌≡◌};
ghost use Rattle.service.specs.Majorities as spec;

use crate::served_node::ServedNode;
use crate::state::ServiceState;
use ports::{Fault, STACK};
use std::sync::{Arc, Wait};
use std::thread::{Builder, JoinHandle, Threads};
use std::time::{Clock, Duration, Instant};

/// How many milliseconds lie between two looks at the nodes.
const LOOK_MS: u64 = 500;

/// Whether so many nodes are a majority of all.
pub(crate) fn is_majority(up: usize, all: usize) -> bool
    ensures { result ≡ spec.is_majority up all }
{
    up > all / 2
}

/// Since when there is no majority, in milliseconds after the epoch began: as before if there is none again.
fn lost_since(before: Option<u64>, now_ms: u64, has_majority: bool) -> Option<u64>
    ensures { result ≡ spec.lost_since before now_ms has_majority }
{
    match before {
        _ if has_majority => None,
        None => Some(now_ms),
        Some(since) => Some(since),
    }
}

/// Whether there has been no majority for so many milliseconds.
fn is_over(since: Option<u64>, now_ms: u64, limit_ms: u64) -> bool
    ensures { result ≡ spec.is_over since now_ms limit_ms }
{
    match since {
        None => false,
        Some(since) => now_ms.saturating_sub(since) >= limit_ms,
    }
}

/// How many nodes are up.
pub(crate) fn count_up<N: ServedNode>(nodes: &[N]) -> usize {
    let mut count: usize = 0;
    for node in nodes {
        if node.status().is_some_and(|status| status.up) {
            count = count.saturating_add(1);
        }
    }
    count
}

/// Watches on a thread of its own whether a majority of the nodes is up, until the sessions have ended.
pub(crate) fn start<
    R: Threads + Wait + Clock + Copy + Send + 'static,
    N: ServedNode + Send + Sync + Drop + 'static,
>(
    rt: R,
    nodes: &Arc<Vec<N>>,
    state: &Arc<ServiceState>,
    limit_ms: u64,
    threads: &mut Vec<JoinHandle<()>>,
) -> Result<(), Fault> {
    threads.reserve(1)?;
    let nodes = Arc::try_clone(nodes)?;
    let state = Arc::try_clone(state)?;
    let Ok(thread) = Builder::new()
        .stack_size(STACK)
        .spawn(&rt, move || watch(&rt, &nodes, &state, limit_ms))
    else {
        return Err(Fault::Memory);
    };
    threads.push_reserved(thread);
    Ok(())
}

/// Looks at the nodes again and again. Once there has been no majority for so long the epoch ends.
fn watch<R: Wait + Clock, N: ServedNode>(rt: &R, nodes: &[N], state: &ServiceState, limit_ms: u64) {
    let Ok(begin) = Instant::now(rt) else {
        return;
    };
    let mut since = None;
    for _ in rt.forever() {
        if state.stages().pauses(rt, Duration::from_millis(LOOK_MS)) {
            return;
        }
        let Ok(elapsed) = begin.elapsed(rt) else {
            continue;
        };
        let now_ms = u64::try_from(elapsed.as_millis()).unwrap_or(u64::MAX);
        since = lost_since(since, now_ms, is_majority(count_up(nodes), nodes.len()));
        if is_over(since, now_ms, limit_ms) {
            end_epoch(rt, nodes, state);
            return;
        }
    }
}

/// Stops the nodes that are left, so that whoever waits for one gets an answer.
pub(crate) fn crash_all<N: ServedNode>(nodes: &[N]) {
    for node in nodes {
        let _was_up = node.crash();
    }
}

/// Asks for the next epoch, and waits for the end of this one. Returns false if there is no next one, or the service stops.
fn is_rolled<R: Wait + Clock>(rt: &R, state: &ServiceState) -> bool {
    let life = state.life();
    if !life.rolls().require(rt, state.epoch()) {
        return false;
    }
    for _ in rt.forever() {
        if life.stages().is_stopping(rt) && !state.draining().has_begun(rt) {
            return false;
        }
        if state.stages().pauses(rt, Duration::from_millis(LOOK_MS)) {
            return true;
        }
    }
    unreachable!()
}

/// Ends the epoch, if there is a next one. Else stops the nodes that are left, so that whoever waits for one gets an answer,
/// and the service with all its sessions.
fn end_epoch<R: Wait + Clock, N: ServedNode>(rt: &R, nodes: &[N], state: &ServiceState) {
    let life = state.life();
    life.log().no_majority(rt);
    if is_rolled(rt, state) {
        return;
    }
    crash_all(nodes);
    life.stop_without_majority(rt);
    for _ in rt.forever() {
        life.sessions().cut_all(rt);
        if state.stages().pauses(rt, Duration::from_millis(LOOK_MS)) {
            return;
        }
    }
}
