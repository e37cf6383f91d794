//! The second phase: a leader's pvalue, and who voted for it.
ghost use Rattle.std.specs.Prelude.{◌≡◌, ◌↔◌, ◌∷◌, Some};
ghost use Rattle.ballot.specs.Nodes.{is_among, IsMajority};
ghost use Rattle.proposer.specs.Quorums.{left_by};

use ballot::{Ballot, Cluster, NodeId, NodeSet, Slot, Vote};
use std::marker::Model;

/// What a vote means to a commander.
#[derive(Clone, Copy, Debug, PartialEq, Eq)]
pub enum Verdict {
    /// It is counted, and more are needed.
    Waiting,
    /// It is counted, and more than half of the acceptors have voted: the command is decided.
    Decided,
    /// The acceptor has a higher ballot, and the commander has ended.
    Preempted(Ballot),
    /// It changes nothing.
    Stale,
}

/// A commander: it counts the votes for one ballot's pvalue of a slot, until they are more than
/// half or an acceptor has a higher ballot.
#[derive(Drop)]
pub struct Commander {
    cluster: Cluster,
    ballot: Ballot,
    slot: Slot,
    heard: NodeSet,
    ended: bool,
}

impl Model for Commander {
    ghost use Rattle.std.specs.Prelude.{Some, None, if◌then◌else◌};
    ghost use Rattle.ballot.specs.Nodes.{AreDistinct};
    ghost use Rattle.proposer.specs.Quorums.{Pending};
    ghost use Rattle.proposer.specs.Commanders.{CommanderState};

    ghost Value = { Pending CommanderState };

    ghost view = { λ k. record { size = k.cluster; state = if k.ended then None else Some (record { ballot = k.ballot; slot = k.slot; heard = k.heard }) } };

    ghost invariant = { λ k. AreDistinct k.cluster k.heard };
}

impl Commander {
    ghost use Rattle.proposer.specs.Commanders.{CommanderState, new_commander, commander_step, verdict_of, IsCounted};

    /// A commander that has heard from nobody. Takes no memory.
    pub fn start(cluster: Cluster, ballot: Ballot, slot: Slot) -> Self
        ensures { result ≡ record { size = cluster; state = Some (new_commander ballot slot) } }
    {
        Commander {
            cluster,
            ballot,
            slot,
            heard: NodeSet::new(),
            ended: false,
        }
    }

    /// Hears a vote. Takes no memory.
    pub fn hear(&mut self, from: NodeId, vote: Vote) -> Verdict
        ensures state { self.new ≡ record self.old { state = left_by self.old.state (commander_step self.old from vote) } }
        ensures verdict { result ≡ verdict_of (commander_step self.old from vote) }
        ensures decided { (k : CommanderState) → self.old.state ≡ Some k → (result ≡ Verdict.Decided) ↔ (IsCounted self.old.size k from vote × IsMajority self.old.size (λ node. is_among node (from ∷ k.heard))) }
    {
        if self.ended || !self.cluster.contains(from) {
            return Verdict::Stale;
        }
        if vote.asked != self.ballot || vote.slot != self.slot {
            return Verdict::Stale;
        }
        if self.ballot < vote.ballot {
            self.ended = true;
            return Verdict::Preempted(vote.ballot);
        }
        if vote.ballot < self.ballot || self.heard.contains(from) {
            return Verdict::Stale;
        }
        self.heard.insert(from);
        if self.cluster.majority(self.heard.len()) {
            self.ended = true;
            return Verdict::Decided;
        }
        Verdict::Waiting
    }
}
