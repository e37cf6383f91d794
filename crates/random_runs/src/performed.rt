//! What nodes perform.

use crate::chosen::Votes;
use crate::play::{Kind, Play};
use ballot::{NodeId, Payload, Slot};
use maildrop::{Command, Op, SharedCommand};

/// Whether some node was asked for the command.
fn was_submitted(play: &Play, command: &Command) -> bool {
    let kind = match &command.op {
        Op::Mail { .. } => Kind::Mail,
        Op::Break => Kind::Break,
        Op::Take | Op::Commit { .. } | Op::Free { .. } => Kind::Lock,
    };
    play.submitted.iter().any(|it| {
        it.user == command.user && it.ticket == command.ticket && it.kind == kind
    })
}

/// Whether the one has performed the same as the other in each place that both have.
fn is_same_order(one: &[(Slot, SharedCommand)], other: &[(Slot, SharedCommand)]) -> bool {
    one.iter()
        .zip(other)
        .all(|(left, right)| left.0 == right.0 && left.1.same(&right.1))
}

/// What is wrong with what the nodes have performed, if something is.
pub fn wrong_order(play: &Play, votes: &Votes) -> Option<&'static str> {
    let longest = play.service.longest();
    for (slot, command) in longest {
        if votes.chosen(*slot) != Some(command.id()) {
            return Some("a node performs a command that isn't chosen");
        }
        if !was_submitted(play, command.get()) {
            return Some("a node performs a command that nobody submitted");
        }
    }
    for number in 1..=play.service.cluster.get() {
        if let Some(node) = NodeId::new(number)
            && let Some(performed) = play.service.world.performed(node)
            && !is_same_order(performed, longest)
        {
            return Some("two nodes perform different commands");
        }
    }
    None
}
