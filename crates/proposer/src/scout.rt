//! The first phase: a leader's ballot, and who promised it.
ghost use Rattle.std.specs.Prelude.{◌≡◌, ◌↔◌, ◌∷◌, Some, Ok, [], false, IsOk, IsTrue, OnOk, OnErr, IfOk};
ghost use Rattle.ballot.specs.Ballots.{BallotNumber};
ghost use Rattle.ballot.specs.Nodes.{is_among, IsMajority};
ghost use Rattle.proposer.specs.Quorums.{Ignores, Yields, left_by, is_counted};

use crate::union::Union;
use ballot::{Ballot, Cluster, Items, Memory, NodeId, NodeSet, PValue, Payload, Promise};
use std::alloc::{Allocator, Global};
use std::marker::Model;

/// What a promise means to a scout.
#[derive(Drop)]
pub enum Progress<C, A: Allocator = Global> {
    /// It is counted, and more are needed.
    Waiting,
    /// It is counted, and more than half of the acceptors have promised the ballot: these are the
    /// pvalues that they have accepted, in the order in which they were told, equal ones once.
    Adopted(Items<PValue<C>, A>),
    /// The acceptor has a higher ballot, and the scout has ended.
    Preempted(Ballot),
    /// It changes nothing.
    Stale,
}

/// A scout: it counts the promises of one ballot, until they are more than half or an acceptor has
/// a higher ballot.
#[derive(Drop)]
pub struct Scout<C, A: Allocator = Global> {
    cluster: Cluster,
    ballot: Ballot,
    heard: NodeSet,
    pvalues: Union<C, A>,
    ended: bool,
}

impl<C, A: Allocator> Model for Scout<C, A> {
    ghost use Rattle.std.specs.Prelude.{Some, None, if◌then◌else◌};
    ghost use Rattle.ballot.specs.Nodes.{AreDistinct};
    ghost use Rattle.proposer.specs.Quorums.{Pending};
    ghost use Rattle.proposer.specs.Scouts.{ScoutState};

    ghost Value = { Pending (ScoutState C) };

    ghost view = { λ s. record { size = s.cluster; state = if s.ended then None else Some (record { ballot = s.ballot; heard = s.heard; pvalues = s.pvalues }) } };

    ghost invariant = { λ s. AreDistinct s.cluster s.heard };
}

impl<C: Payload, A: Allocator + Copy> Scout<C, A> {
    ghost use Rattle.proposer.specs.Scouts.{ScoutState, new_scout, scout_step, progress_of, is_adopted, IsCounted};

    /// A scout that has heard from nobody. Takes no memory.
    pub fn start(alloc: A, cluster: Cluster, ballot: Ballot) -> Self
        ensures { result ≡ record { size = cluster; state = Some (new_scout ballot) } }
    {
        Scout {
            cluster,
            ballot,
            heard: NodeSet::new(),
            pvalues: Union::new(alloc),
            ended: false,
        }
    }

    /// Hears a promise. After `Memory` the scout is as it was. A promise that isn't counted, or that
    /// tells nothing, takes no memory.
    pub fn hear(&mut self, from: NodeId, promise: Promise<C, A>) -> Result<Progress<C, A>, Memory>
        ensures state { OnOk result (self.new ≡ record self.old { state = left_by self.old.state (scout_step C.equal self.old from promise) }) }
        ensures progress { IfOk result (λ progress. progress ≡ progress_of (scout_step C.equal self.old from promise)) }
        ensures adopted { (s : ScoutState C) → self.old.state ≡ Some s → IfOk result (λ progress. IsTrue (is_adopted progress) ↔ (IsCounted self.old.size s from promise × IsMajority self.old.size (λ node. is_among node (from ∷ s.heard)))) }
        ensures stale { scout_step C.equal self.old from promise ≡ Ignores → result ≡ Ok Progress.Stale }
        ensures preempted { (b : BallotNumber) → scout_step C.equal self.old from promise ≡ Yields b → result ≡ Ok (Progress.Preempted b) }
        ensures uncounted { is_counted (scout_step C.equal self.old from promise) ≡ false → IsOk result }
        ensures nothing_told { promise.accepted ≡ [] → IsOk result }
        ensures err { OnErr result (self.new ≡ self.old) }
    {
        if self.ended || !self.cluster.contains(from) || promise.asked != self.ballot {
            return Ok(Progress::Stale);
        }
        if self.ballot < promise.ballot {
            self.ended = true;
            return Ok(Progress::Preempted(promise.ballot));
        }
        if promise.ballot < self.ballot || self.heard.contains(from) {
            return Ok(Progress::Stale);
        }
        self.pvalues.join(promise.accepted)?;
        self.heard.insert(from);
        if self.cluster.majority(self.heard.len()) {
            self.ended = true;
            return Ok(Progress::Adopted(self.pvalues.take()));
        }
        Ok(Progress::Waiting)
    }
}
