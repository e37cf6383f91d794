//! Operations that a node is asked for on behalf of a client who may go.

use crate::served_node::{OperatorOp, ServedNode};
use maildrop::{Name, Outcome, Ticket};
use ports::OperatorStream;
use settings::LOOK_MS;
use std::sync::Wait;
use std::time::Duration;

/// Why an operation has no outcome.
#[derive(Clone, Copy, Debug, PartialEq, Eq)]
pub(crate) enum Unanswered {
    /// The node has stopped. The operation may have been performed or not.
    Stopped,
    /// The client has gone, and nobody awaits the outcome any more.
    Gone,
}

/// Whether a client has gone. It counts as gone once it seems so twice in a row, so whoever has sent all that it sends is
/// still answered within the time between.
#[derive(Clone, Copy, Debug, PartialEq, Eq)]
pub(crate) struct Absence {
    seems_gone: bool,
}

impl Absence {
    /// A client that is there.
    pub(crate) fn new() -> Self {
        Absence { seems_gone: false }
    }

    /// Looks once more. Returns whether the client has gone.
    pub(crate) fn look(&mut self, stream: &OperatorStream) -> bool {
        let seemed_gone = self.seems_gone;
        self.seems_gone = stream.has_gone();
        seemed_gone && self.seems_gone
    }
}

/// Asks a node for an operation, and waits for its outcome for as long as the node is up and the client of the connection is
/// there.
pub(crate) fn ask<R: Wait, N: ServedNode>(
    rt: &R,
    node: &N,
    stream: &OperatorStream,
    user: Name,
    op: OperatorOp,
) -> Result<(Ticket, Outcome), Unanswered> {
    let Some(ticket) = node.submit(user, op) else {
        return Err(Unanswered::Stopped);
    };
    let outcome = await_outcome(rt, node, stream, user, ticket)?;
    Ok((ticket, outcome))
}

/// Waits for the outcome of an operation that was submitted, for as long as the node is up and the client of the connection is
/// there.
fn await_outcome<R: Wait, N: ServedNode>(
    rt: &R,
    node: &N,
    stream: &OperatorStream,
    user: Name,
    ticket: Ticket,
) -> Result<Outcome, Unanswered> {
    let mut absence = Absence::new();
    for _ in rt.forever() {
        match node.outcome_within(user, ticket, Duration::from_millis(LOOK_MS)) {
            Ok(Some(outcome)) => return Ok(outcome),
            Ok(None) => {}
            Err(_) => return Err(Unanswered::Stopped),
        }
        if absence.look(stream) {
            node.forget(user, ticket);
            return Err(Unanswered::Gone);
        }
    }
    unreachable!()
}

/// Waits until the first of these operations has an outcome, and takes that and those after it that are there. They were
/// submitted in this order, and `room` has room for one of each. Gives up if the node has stopped or the client has gone. The
/// caller forgets the operations without an outcome.
pub(crate) fn await_outcomes<R: Wait, N: ServedNode>(
    rt: &R,
    node: &N,
    stream: &OperatorStream,
    user: Name,
    tickets: &[Ticket],
    room: Vec<Outcome>,
) -> Result<Vec<Outcome>, Unanswered> {
    let mut absence = Absence::new();
    let mut room = room;
    for _ in rt.forever() {
        match node.outcomes_within(user, tickets, Duration::from_millis(LOOK_MS), room) {
            Ok(outcomes) if outcomes.is_empty() => room = outcomes,
            Ok(outcomes) => return Ok(outcomes),
            Err(_) => return Err(Unanswered::Stopped),
        }
        if absence.look(stream) {
            return Err(Unanswered::Gone);
        }
    }
    unreachable!()
}
