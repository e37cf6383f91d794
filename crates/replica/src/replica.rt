//! The replica.
ghost use Rattle.std.specs.Prelude.{◌≡◌, ◌↔◌, ◌≤◌, ◌+◌, Some, None, true, false, is_some, option_map, option_and_then, IsErr, IsOk, IfOk, IfSome};
ghost use Rattle.std.specs.Option.{option_map_or};
ghost use Rattle.ballot.specs.declared.slot.TheConstants.{LAST_SLOT};

use crate::decisions::Decisions;
use crate::performed::Performed;
use crate::remainder::Remainder;
use crate::state::State;
use crate::{awaiting, moves, proposing};
use ballot::{Cluster, LAST_SLOT, Machine, Memory, NodeId, Payload, Sends, Slot};
use std::alloc::{Allocator, Global};
use std::collections::{BTreeMap, VecDeque};
use std::marker::Model;

/// A replica: a machine, with the decisions that it performs. A call that changes it gives the
/// messages that it sends. After one that answers `Memory` the replica is spent: each later call
/// that can answer `Memory` does.
#[derive(Drop)]
pub struct Replica<M: Machine, A: Allocator = Global> {
    state: State<M, A>,
    spent: bool,
}

impl<M: Machine, A: Allocator> Model for Replica<M, A> {
    ghost use Rattle.std.specs.Prelude.{◌≡◌, Option, Some, None, false, if◌then◌else◌};
    ghost use Rattle.replica.specs.Replicas.{ReplicaState, IsSettled, rules_of};

    ghost Value = { Option (ReplicaState M.Command M.Command.Id M.Answer M) };

    ghost view = { λ r. if r.spent then None else Some r.state };

    ghost invariant = { λ r. r.spent ≡ false → IsSettled (rules_of M.Command.identity M.Command.Id.cmp M.answer_to M.after) r.state };
}

impl<M: Machine, A: Allocator + Copy> Replica<M, A> {
    ghost use Rattle.replica.specs.Replicas.{ReplicaState, IsMoved, IsSettled, rules_of, new_replica, is_decided, requested, learns, replica_ticks, taken, answer_for, is_waiting, slots_used, is_behind};
    ghost use Rattle.ballot.specs.Slots.{at_slot};

    /// A replica of node `me` that has performed nothing. It proposes for at most `window` slots
    /// ahead of what it has performed. Takes no memory.
    pub fn new(alloc: A, me: NodeId, cluster: Cluster, window: u64, machine: M) -> Self
        ensures { result ≡ Some (new_replica me cluster window machine) }
    {
        Replica {
            state: State {
                me,
                cluster,
                window,
                slot_in: 1,
                slot_out: 1,
                machine,
                requests: VecDeque::new(alloc),
                proposals: BTreeMap::new(alloc),
                decisions: Decisions::new(alloc),
                performed: Performed::new(alloc),
                awaited: BTreeMap::new(alloc),
                alloc,
            },
            spent: false,
        }
    }

    /// A command is requested here: it is proposed for a slot once the window allows it, and its
    /// answer is held once it is performed.
    pub fn request(&mut self, command: M::Command) -> Result<Sends<M::Command, A>, Memory>
        ensures { IsMoved (λ r. requested (rules_of M.Command.identity M.Command.Id.cmp M.answer_to M.after) command r) self.old self.new result }
    {
        spend(&mut self.spent)?;
        let sends = moves::request(&mut self.state, command)?;
        self.spent = false;
        Ok(sends)
    }

    /// Hears `Message::Decision`: keeps it, unless the slot has one, performs what is decided
    /// without a gap, each identity once, and proposes what the window then allows. A decision for
    /// a slot that has one changes nothing and takes no memory.
    pub fn decision(
        &mut self,
        slot: Slot,
        command: M::Command,
    ) -> Result<Sends<M::Command, A>, Memory>
        ensures moves { IsMoved (λ r. learns (rules_of M.Command.identity M.Command.Id.cmp M.answer_to M.after) slot command r) self.old self.new result }
        ensures again { (r : ReplicaState M.Command M.Command.Id M.Answer M) → self.old ≡ Some r → is_decided slot r.decisions ≡ true → IsOk result × (self.new ≡ self.old) }
    {
        spend(&mut self.spent)?;
        let sends = moves::decide(&mut self.state, slot, command)?;
        self.spent = false;
        Ok(sends)
    }

    /// Sends its undecided proposals again, in slot order, and asks for the decision of the next
    /// slot that it performs.
    pub fn tick(&mut self) -> Result<Sends<M::Command, A>, Memory>
        ensures { IsMoved (λ r. replica_ticks r) self.old self.new result }
    {
        spend(&mut self.spent)?;
        let sends = proposing::tick(&self.state)?;
        self.spent = false;
        Ok(sends)
    }

    /// Hears `Message::Ask`: the command that is decided for the slot. Takes no memory if none
    /// is.
    pub fn ask(&self, slot: Slot) -> Result<Option<M::Command>, Memory>
        ensures decision { (r : ReplicaState M.Command M.Command.Id M.Answer M) → self.now ≡ Some r → IfOk result (λ command. command ≡ at_slot slot r.decisions) }
        ensures undecided { (r : ReplicaState M.Command M.Command.Id M.Answer M) → self.now ≡ Some r → is_decided slot r.decisions ≡ false → IsOk result }
        ensures spent { self.now ≡ None → IsErr result }
    {
        if self.spent {
            return Err(Memory);
        }
        match self.state.decisions.get(slot) {
            None => Ok(None),
            Some(command) => Ok(Some(command.copy()?)),
        }
    }

    /// What it has performed: the whole gapless front of the decisions, each identity once, with
    /// the first slot in which it was decided.
    pub fn performed(&self) -> &[(Slot, M::Command)]
        ensures value { IfSome self.now (λ r. result.now ≡ r.performed) }
        ensures front { IfSome self.now (λ r. IsSettled (rules_of M.Command.identity M.Command.Id.cmp M.answer_to M.after) r) }
    {
        self.state.performed.get()
    }

    /// The machine, which has performed these commands. Unknown once the replica is spent.
    pub fn machine(&self) -> &M
        ensures { IfSome self.now (λ r. result.now ≡ r.machine) }
    {
        &self.state.machine
    }

    /// The machine, which has performed these commands, and what is left of the replica. The machine is unknown once the
    /// replica is spent. Takes no memory, and the same time however much was performed.
    pub fn into_parts(self) -> (M, Remainder<M, A>)
        ensures { IfSome self (λ r. result.0 ≡ r.machine) }
    {
        let State {
            me: _,
            cluster: _,
            window: _,
            slot_in: _,
            slot_out: _,
            machine,
            requests,
            proposals,
            decisions,
            performed,
            awaited,
            alloc: _,
        } = self.state;
        let remainder = Remainder {
            requests,
            proposals,
            decisions,
            performed,
            awaited,
        };
        (machine, remainder)
    }

    /// The first slot that isn't decided, 1 to 2^63: all below it are performed.
    pub fn slot_out(&self) -> u64
        ensures value { IfSome self.now (λ r. result ≡ r.slot_out) }
        ensures range { IfSome self.now (λ r. (1 ≤ result) × (result ≤ LAST_SLOT + 1)) }
    {
        self.state.slot_out
    }

    /// Whether no slot is left to propose for.
    pub fn slots_used(&self) -> bool
        ensures { IfSome self.now (λ r. result ≡ slots_used r) }
    {
        self.state.slot_in > LAST_SLOT
    }

    /// Whether a later slot than the next one that it performs is decided here. Takes no memory.
    pub fn is_behind(&self) -> bool
        ensures { IfSome self.now (λ r. result ≡ is_behind r) }
    {
        self.state.decisions.count() >= self.state.slot_out as u128
    }

    /// Whether a command that was requested here isn't performed yet. In proportion to the answers that are awaited
    /// here, and to those that weren't taken.
    pub fn is_waiting(&self) -> bool
        ensures { IfSome self.now (λ r. result ≡ is_waiting r.awaited) }
    {
        awaiting::is_waiting(&self.state.awaited)
    }

    /// Whether an answer is held for the identity. A spent replica holds none.
    pub fn has_answer(&self, identity: <M::Command as Payload>::Id) -> bool
        ensures { result ≡ option_map_or (λ r. is_some (answer_for (rules_of M.Command.identity M.Command.Id.cmp M.answer_to M.after) identity r.awaited)) self.now false }
    {
        !self.spent && matches!(self.state.awaited.get(&identity), Some(Some(_)))
    }

    /// The answer to the command of this identity that was requested here, once it is performed.
    /// It is given once. Takes no memory.
    pub fn take_answer(&mut self, identity: <M::Command as Payload>::Id) -> Option<M::Answer>
        ensures answer { result ≡ option_and_then (λ r. answer_for (rules_of M.Command.identity M.Command.Id.cmp M.answer_to M.after) identity r.awaited) self.old }
        ensures replica { self.new ≡ option_map (λ r. taken (rules_of M.Command.identity M.Command.Id.cmp M.answer_to M.after) identity r) self.old }
    {
        if !self.has_answer(identity) {
            return None;
        }
        match self.state.awaited.remove(&identity) {
            Some(answer) => answer,
            None => None,
        }
    }
}

/// Marks a replica as spent, until its call has an answer.
fn spend(spent: &mut bool) -> Result<(), Memory>
    ensures once { IsOk result ↔ (spent.old ≡ false) }
    ensures marked { spent.new ≡ true }
{
    if *spent {
        return Err(Memory);
    }
    *spent = true;
    Ok(())
}
