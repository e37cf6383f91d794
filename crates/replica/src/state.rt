//! What a replica keeps.
use crate::decisions::Decisions;
use crate::performed::Performed;
use ballot::{Cluster, Machine, NodeId, Payload, Slot};
use std::alloc::Allocator;
use std::collections::{BTreeMap, VecDeque};
use std::marker::Model;

/// Answers by the identities of their commands: none until the command is performed.
pub type Awaited<I, R, A> = BTreeMap<I, Option<R>, A>;

/// A replica that isn't spent.
#[derive(Drop)]
pub struct State<M: Machine, A: Allocator> {
    /// Its node.
    pub me: NodeId,
    /// The nodes whose leaders it asks.
    pub cluster: Cluster,
    /// How many slots it proposes for ahead of what is performed.
    pub window: u64,
    /// The next slot that it proposes for, 1 to 2^63.
    pub slot_in: u64,
    /// The next slot that it performs, 1 to 2^63.
    pub slot_out: u64,
    /// What performs the commands.
    pub machine: M,
    /// What waits for a slot.
    pub requests: VecDeque<M::Command, A>,
    /// What it proposed in each slot that it has not performed yet.
    pub proposals: BTreeMap<Slot, M::Command, A>,
    /// Every decision, also those that are performed.
    pub decisions: Decisions<M::Command, A>,
    /// What was performed, in the order of the slots.
    pub performed: Performed<M::Command, A>,
    /// What was requested here, each with its answer once it is performed, until that is taken.
    pub awaited: Awaited<<M::Command as Payload>::Id, M::Answer, A>,
    /// Where its memory comes from.
    pub alloc: A,
}

impl<M: Machine, A: Allocator> Model for State<M, A> {
    ghost use Rattle.std.specs.Prelude.{◌≤◌};
    ghost use Rattle.replica.specs.Replicas.{ReplicaState, AreSlots};

    ghost Value = { ReplicaState M.Command M.Command.Id M.Answer M };

    ghost view = { λ s. record { me = s.me; size = s.cluster; window = s.window; slot_in = s.slot_in; slot_out = s.slot_out; machine = s.machine; requests = s.requests.items; proposals = s.proposals.entries; decisions = s.decisions; performed = s.performed; awaited = s.awaited.entries } };

    ghost invariant = { λ s. (1 ≤ s.slot_in) × (1 ≤ s.slot_out) × AreSlots s.decisions };
}
