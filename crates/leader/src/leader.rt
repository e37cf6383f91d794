//! The leader.
ghost use Rattle.std.specs.Prelude.{◌≡◌, ◌↔◌, ◌&&◌, Some, None, true, false, IsErr, IsOk, IsSome, IfSome};
ghost use Rattle.std.specs.Option.{option_map_or};
ghost use Rattle.ballot.specs.Ballots.{same_ballot};

use crate::state::{Phase, State};
use crate::{adopting, events};
use ballot::{Ballot, Cluster, Items, Memory, NodeId, PValue, Payload, Promise, Sends, Slot, Vote};
use std::alloc::{Allocator, Global};
use std::collections::BTreeMap;
use std::marker::Model;

/// A leader. Each call gives the messages that it sends. After a call that answers `Memory` the
/// leader is spent: each later one that can answer `Memory` does.
#[derive(Drop)]
pub struct Leader<C, A: Allocator = Global> {
    state: State<C, A>,
    spent: bool,
}

impl<C, A: Allocator> Model for Leader<C, A> {
    ghost use Rattle.std.specs.Prelude.{Option, Some, None, if◌then◌else◌};
    ghost use Rattle.leader.specs.Leaders.{LeaderState};
    ghost use Rattle.leader.specs.States.{state_of};

    ghost Value = { Option (LeaderState C) };

    ghost view = { λ l. if l.spent then None else Some (state_of l.state) };
}

impl<C: Payload, A: Allocator + Copy> Leader<C, A> {
    ghost use Rattle.ballot.specs.Slots.{at_slot};
    ghost use Rattle.leader.specs.Leaders.{LeaderState, IsMoved, new_leader, phase_is_active, phase_is_passive, phase_is_scouting, proposed, hears_promise, hears_vote, adopted, preempted, campaigned, leader_ticks};
    ghost use Rattle.leader.specs.Parts.{counts_in, decides_in, has_to_ask};

    /// A passive leader of the lowest ballot of this node, without proposals. Takes no memory.
    pub fn new(alloc: A, me: NodeId, cluster: Cluster) -> Self
        ensures { result ≡ Some (new_leader me cluster) }
    {
        let ballot = Ballot {
            round: 0,
            leader: me,
        };
        Leader {
            state: State {
                me,
                cluster,
                ballot,
                proposals: BTreeMap::new(alloc),
                phase: Phase::Passive,
                alloc,
            },
            spent: false,
        }
    }

    /// Hears `Message::Propose`: keeps the command for the slot, unless it has one for it, and if it
    /// is active asks the acceptors to accept it.
    pub fn propose(&mut self, slot: Slot, command: C) -> Result<Sends<C, A>, Memory>
        ensures moves { IsMoved (λ l. proposed l slot command) self.old self.new result }
        ensures taken { (l : LeaderState C) → self.old ≡ Some l → IsSome (at_slot slot l.proposals) → IsOk result }
    {
        spend(&mut self.spent)?;
        let sends = events::propose(&mut self.state, slot, command)?;
        self.spent = false;
        Ok(sends)
    }

    /// Hears `Message::P1b`: hands it to its scout, and does what `adopted` or `preempted` does if
    /// that ends.
    pub fn hear1(&mut self, from: NodeId, promise: Promise<C, A>) -> Result<Sends<C, A>, Memory>
        ensures moves { IsMoved (λ l. hears_promise C.equal l from promise) self.old self.new result }
        ensures uncounted { (l : LeaderState C) → self.old ≡ Some l → counts_in C.equal from promise l.phase ≡ false → IsOk result }
    {
        spend(&mut self.spent)?;
        let sends = adopting::hear_promise(&mut self.state, from, promise)?;
        self.spent = false;
        Ok(sends)
    }

    /// Hears `Message::P2b`: hands it to the commander of its slot, sends the decision to all nodes
    /// if that decides, and does what `preempted` does if a higher ballot ends it.
    pub fn hear2(&mut self, from: NodeId, vote: Vote) -> Result<Sends<C, A>, Memory>
        ensures moves { IsMoved (λ l. hears_vote l from vote) self.old self.new result }
        ensures undecided { (l : LeaderState C) → self.old ≡ Some l → decides_in from vote l.phase ≡ false → IsOk result }
    {
        spend(&mut self.spent)?;
        let sends = events::hear_vote(&mut self.state, from, vote)?;
        self.spent = false;
        Ok(sends)
    }

    /// Adopts these pvalues, if a scout for this ballot runs: for each of their slots the command of
    /// the highest ballot, the first at a tie, replaces the proposal. The leader is active, and asks
    /// the acceptors to accept each proposal, in slot order.
    pub fn adopted(
        &mut self,
        ballot: Ballot,
        pvalues: Items<PValue<C>, A>,
    ) -> Result<Sends<C, A>, Memory>
        ensures moves { IsMoved (λ l. adopted l ballot pvalues) self.old self.new result }
        ensures not_asked { (l : LeaderState C) → self.old ≡ Some l → (phase_is_scouting l.phase && same_ballot ballot l.ballot) ≡ false → IsOk result }
    {
        spend(&mut self.spent)?;
        let sends = adopting::adopt_for(&mut self.state, ballot, pvalues)?;
        self.spent = false;
        Ok(sends)
    }

    /// Yields to this ballot, if it is above its own: the leader is passive, and its ballot is of the
    /// round after. Where there is no round after, it keeps its ballot and is passive for ever.
    /// Takes no memory: it answers `Memory` only if the leader is spent.
    pub fn preempted(&mut self, ballot: Ballot) -> Result<Sends<C, A>, Memory>
        ensures moves { IsMoved (λ l. preempted l ballot) self.old self.new result }
        ensures spent { IsErr result ↔ (self.old ≡ None) }
    {
        spend(&mut self.spent)?;
        events::preempt(&mut self.state, ballot);
        let sends = Items::new(self.state.alloc);
        self.spent = false;
        Ok(sends)
    }

    /// Starts a scout for its ballot, if the leader is passive and has none.
    pub fn campaign(&mut self) -> Result<Sends<C, A>, Memory>
        ensures moves { IsMoved (λ l. campaigned l) self.old self.new result }
        ensures not_passive { (l : LeaderState C) → self.old ≡ Some l → phase_is_passive l.phase ≡ false → IsOk result }
    {
        spend(&mut self.spent)?;
        let sends = events::campaign(&mut self.state)?;
        self.spent = false;
        Ok(sends)
    }

    /// Sends again what its scout asks, or what its commanders ask, in slot order.
    pub fn tick(&mut self) -> Result<Sends<C, A>, Memory>
        ensures moves { IsMoved (λ l. leader_ticks l) self.old self.new result }
        ensures nothing_to_ask { (l : LeaderState C) → self.old ≡ Some l → has_to_ask l.phase ≡ false → IsOk result }
    {
        spend(&mut self.spent)?;
        let sends = events::tick(&self.state)?;
        self.spent = false;
        Ok(sends)
    }

    /// Whether a majority has promised its ballot, and no higher ballot has preempted it. A spent
    /// leader isn't active.
    pub fn is_active(&self) -> bool
        ensures { result ≡ option_map_or (λ l. phase_is_active l.phase) self.now false }
    {
        !self.spent && matches!(&self.state.phase, Phase::Active(_))
    }

    /// Its ballot.
    pub fn ballot(&self) -> Ballot
        ensures { IfSome self.now (λ l. result ≡ l.ballot) }
    {
        self.state.ballot
    }
}

/// Marks a leader as spent, until its call has an answer.
fn spend(spent: &mut bool) -> Result<(), Memory>
    ensures once { IsOk result ↔ (spent.old ≡ false) }
    ensures marked { spent.new ≡ true }
{
    if *spent {
        return Err(Memory);
    }
    *spent = true;
    Ok(())
}
