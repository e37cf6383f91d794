//! What a leader keeps.
use ballot::{Ballot, Cluster, NodeId, Slot};
use proposer::{Commander, Scout};
use std::alloc::Allocator;
use std::collections::BTreeMap;

/// The commanders that wait, by slot.
pub type Commanders<A> = BTreeMap<Slot, Commander, A>;

/// What a leader is doing.
#[derive(Drop)]
pub enum Phase<C, A: Allocator> {
    /// Nothing, until it campaigns.
    Passive,
    /// Its scout asks for its ballot.
    Scouting(Scout<C, A>),
    /// It has its ballot, and these commanders ask for its proposals.
    Active(Commanders<A>),
    /// Nothing, for ever: no ballot is left to it.
    Over,
}

/// A leader that isn't spent.
#[derive(Drop)]
pub struct State<C, A: Allocator> {
    /// Its node.
    pub me: NodeId,
    /// The nodes that it asks.
    pub cluster: Cluster,
    /// The ballot that it has, asks for or would ask for next.
    pub ballot: Ballot,
    /// What it proposes for each slot. A proposal is replaced at an adoption alone, and never
    /// taken out.
    pub proposals: BTreeMap<Slot, C, A>,
    /// What it is doing.
    pub phase: Phase<C, A>,
    /// Where its memory comes from.
    pub alloc: A,
}
