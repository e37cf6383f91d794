//! The answers of a log's node, once all its inputs have come.
ghost use Rattle.std.specs.Prelude.{◌≡◌, false, is_some, List, [], IfOk};
ghost use Rattle.node.specs.declared.log.NodeLog.{NodeLog};
ghost use Rattle.session.specs.declared.transcript.Transcript.{Transcript};
ghost use Rattle.audit.specs.Checks.{AreReplayed, AreLeft};
ghost use Rattle.maildrop.specs.CommandId.{CommandId, same_id};
ghost use Rattle.audit.specs.Nodes.{answers_left};

use crate::replay::Replay;
use ballot::Memory;
use maildrop::{CommandId, Outcome};
use node::Node;
use std::alloc::{Allocator, Global};
use std::marker::Model;

/// The answers of a node that weren't taken.
#[derive(Drop)]
pub(crate) struct Outcomes<A: Allocator + Copy = Global> {
    pub(crate) node: Option<Node<A>>,
}

impl<A: Allocator + Copy> Model for Outcomes<A> {
    ghost use Rattle.std.specs.Prelude.{Option};
    ghost use Rattle.node.specs.Nodes.{NodeValue};

    ghost Value = { Option (NodeValue A) };

    ghost view = { λ o. o.node };
}

impl<A: Allocator + Copy> Outcomes<A> {
    /// Whether the log has a node.
    pub(crate) fn begun(&self) -> bool
        ensures { result ≡ is_some self.now }
    {
        self.node.is_some()
    }

    /// The answer to a command, if it is there. It is given once. Takes no memory.
    pub(crate) fn take(&mut self, id: CommandId) -> Option<Outcome<A>>
        ensures answer { result ≡ answers_left self.old id }
        ensures begun { is_some self.new ≡ is_some self.old }
        ensures others { (other : CommandId) → same_id id other ≡ false → answers_left self.new other ≡ answers_left self.old other }
    {
        let (user, ticket) = id.get();
        let Some(node) = &mut self.node else {
            return None;
        };
        node.take_answer(user, ticket)
    }
}

/// The answers of the nodes of logs that were replayed.
pub(crate) fn outcomes_of<A: Allocator + Copy>(
    alloc: A,
    replays: Vec<Replay<A>, A>,
) -> Result<Vec<Outcomes<A>, A>, Memory>
    ensures { (logs : List (NodeLog A)) (transcripts : List (Transcript A)) → AreReplayed logs transcripts replays.items → IfOk result (λ outcomes. AreLeft logs transcripts [] outcomes.items) }
{
    let mut outcomes = Vec::with_capacity(alloc, replays.len())?;
    for replay in replays {
        outcomes.push(replay.into_outcomes())?;
    }
    Ok(outcomes)
}
