//! Breaks the locks that sessions of nodes which are down hold.
//!
//! A session asks one node only. Once that is down the session can't commit, and nobody else would free its lock.
//!
//! A Break has no condition: it takes the lock from whoever holds it when it is decided, and that could be a session which
//! lives, if the lock was free in between. So there is one Break at most for a lock, that is, for a user and the ticket of
//! the Take: what was tried is kept for good, also since a node that lags still shows a lock that is broken. A Break isn't
//! lost, since the node that was asked proposes it at each tick until it is decided. Another node is asked only if that one
//! goes down before the outcome is known.
ghost use Rattle.std.specs.Prelude.{◌≡◌, IfOk};
ghost use Rattle.ballot.specs.Nodes as nodes;
ghost use Rattle.service.specs.Locks as spec;

use crate::furthest::{furthest_slot, furthest_up};
use crate::majority::is_majority;
use crate::served_node::{OperatorOp, ServedNode};
use ballot::{Memory, NodeId};
use indexmap::IndexMap;
use maildrop::{CommandId, Name, Op, Outcome, Ticket};
use session_log::EventLog;
use std::alloc::Global;
use std::sync::{Mutex, Wait};
use std::time::{Clock, Duration};

/// What became of the Break of a lock.
#[derive(Clone, Copy, Debug, PartialEq, Eq)]
pub(crate) struct Attempt {
    /// The ticket of the Break.
    pub ticket: Ticket,
    /// Whether its outcome is known.
    pub is_done: bool,
}

/// What was tried, by the user and the ticket of the Take that held the lock.
type Attempts = IndexMap<CommandId, Attempt>;

fn is_among(node: NodeId, up: &[NodeId]) -> bool
    ensures { result ≡ nodes.is_among node up.now }
{
    let mut rest = up;
    while let Some((other, others)) = rest.split_first() {
        if node == *other {
            return true;
        }
        rest = others;
    }
    false
}

/// Whether the node of a ticket is down, by the numbers of all nodes that are up.
fn is_of_down(ticket: Ticket, up: &[NodeId]) -> bool
    ensures { result ≡ spec.is_of_down up.now ticket }
{
    let (node, _) = ticket.get();
    !is_among(node, up)
}

/// The locks that sessions of nodes hold which are down.
fn locks_of_down(
    alloc: Global,
    locks: &[(Name, Ticket)],
    up: &[NodeId],
) -> Result<Vec<(Name, Ticket)>, Memory>
    ensures { IfOk result (λ locks_of_down. locks_of_down.items ≡ spec.locks_of_down up.now locks.now) }
{
    let mut locks_of_down = Vec::new(alloc);
    for lock in locks {
        if is_of_down(lock.1, up) {
            locks_of_down.push(*lock)?;
        }
    }
    Ok(locks_of_down)
}

/// Whether a Break may be submitted for a lock for which this was tried.
fn may_try(attempt: Option<Attempt>, up: &[NodeId]) -> bool
    ensures { result ≡ spec.may_try up.now attempt }
{
    match attempt {
        None => true,
        Some(attempt) => !attempt.is_done && is_of_down(attempt.ticket, up),
    }
}

/// Whether the outcome of a Break is still to come.
fn is_awaited(attempt: Attempt, up: &[NodeId]) -> bool
    ensures { result ≡ spec.is_awaited up.now attempt }
{
    let (node, _) = attempt.ticket.get();
    !attempt.is_done && is_among(node, up)
}

/// The numbers of the nodes that are up.
fn numbers_up<N: ServedNode>(alloc: Global, nodes: &[N]) -> Result<Vec<NodeId>, Memory> {
    let mut up = Vec::new(alloc);
    for node in nodes {
        if node.status().is_some_and(|status| status.up) {
            up.push(node.me())?;
        }
    }
    Ok(up)
}

/// Whether an operation's outcome is there, at the node that was asked for it.
fn is_known<N: ServedNode>(nodes: &[N], user: Name, ticket: Ticket) -> bool {
    let (number, _) = ticket.get();
    for node in nodes {
        if node.me() == number {
            let outcome = node.outcome_within(user, ticket, Duration::ZERO);
            return matches!(&outcome, Ok(Some(_)));
        }
    }
    false
}

/// Breaks the locks that sessions of nodes which are down hold.
#[derive(Drop)]
pub(crate) struct LockBreaker {
    alloc: Global,
    attempts: Mutex<Attempts>,
}

impl LockBreaker {
    /// Nothing was tried yet. Takes no memory.
    pub(crate) fn new(alloc: Global) -> Self {
        LockBreaker {
            alloc,
            attempts: Mutex::new(IndexMap::new(alloc)),
        }
    }

    /// Has each lock broken that a session of a node which is down holds, as far as a node that is up shows it. Does nothing
    /// if no node is down, or without a majority, as nothing is decided then. Returns whether there is more to wait for:
    /// outcomes, or what a node had performed that is down now. After `Memory` some locks may be left to the next look.
    pub(crate) fn look<R: Wait + Clock, N: ServedNode>(
        &self,
        rt: &R,
        nodes: &[N],
        log: &EventLog,
    ) -> Result<bool, Memory> {
        let up = numbers_up(self.alloc, nodes)?;
        if up.len() == nodes.len() || !is_majority(up.len(), nodes.len()) {
            return Ok(false);
        }
        let Some(node) = furthest_up(nodes) else {
            return Ok(false);
        };
        let is_behind = node
            .status()
            .is_some_and(|status| status.slot_out < furthest_slot(nodes));
        let mut attempts = self.attempts.lock(rt);
        hear(rt, nodes, &mut attempts, log);
        let locks = node.locks()?;
        let locks_of_down = locks_of_down(self.alloc, locks.as_slice(), up.as_slice())?;
        for lock in &locks_of_down {
            submit(node, lock.0, lock.1, up.as_slice(), &mut attempts)?;
        }
        Ok(
            is_behind
                || attempts
                    .values()
                    .any(|attempt| is_awaited(*attempt, up.as_slice())),
        )
    }
}

/// Hears the outcomes that are there by now, and logs each lock that is broken.
fn hear<R: Wait + Clock, N: ServedNode>(
    rt: &R,
    nodes: &[N],
    attempts: &mut Attempts,
    log: &EventLog,
) {
    for (lock, attempt) in attempts.iter_mut() {
        let (user, take) = lock.get();
        if !attempt.is_done && is_known(nodes, user, attempt.ticket) {
            attempt.is_done = true;
            let (holder, _) = take.get();
            log.lock_broken(rt, &user, holder);
        }
    }
}

/// Has a lock broken at a node, if that may be tried.
fn submit<N: ServedNode>(
    node: &N,
    user: Name,
    take: Ticket,
    up: &[NodeId],
    attempts: &mut Attempts,
) -> Result<(), Memory> {
    let lock = CommandId::new(user, take);
    let tried = attempts.get(&lock).copied();
    if !may_try(tried, up) {
        return Ok(());
    }
    // Room first, so that no Break is submitted that isn't kept.
    attempts.reserve(1)?;
    if let Some(ticket) = node.submit(user, OperatorOp::Break) {
        let attempt = Attempt {
            ticket,
            is_done: false,
        };
        attempts.insert(lock, attempt)?;
    }
    Ok(())
}
