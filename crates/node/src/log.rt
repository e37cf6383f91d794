//! What a node began with, and what it was given to do.
ghost use Rattle.std.specs.Prelude.{◌≡◌, IfOk};

use crate::input::Input;
use ballot::{Cluster, Items, Memory, NodeId};
use maildrop::{Kept, Limits, Name, Shared};
use std::alloc::{Allocator, Global};

/// What a node begins with.
#[derive(Drop)]
pub struct Opening<A: Allocator = Global> {
    /// Its number.
    pub me: NodeId,
    /// The nodes that it is one of.
    pub cluster: Cluster,
    /// For how many slots it proposes, from the next one on that it performs: 1 to 1,000 in a node.
    pub window: u64,
    /// The users who have a maildrop, all different.
    pub names: Items<Name, A>,
    /// The limits of each maildrop.
    pub limits: Limits,
    /// What the maildrops open with, each by the name of its user. A user of whom nothing is kept begins with an empty
    /// one. Copies of an opening share it.
    pub kept: Shared<Kept<A>, A>,
    /// How many keys a maildrop opens with at most: the last ones that are kept of it.
    pub keys: usize,
}

impl<A: Allocator + Copy> Opening<A> {
    /// The same opening for the node with this number. Takes memory for the names. What is kept is shared.
    pub fn copy_for(&self, alloc: A, me: NodeId) -> Result<Self, Memory>
        ensures { IfOk result (λ opening. opening ≡ record self.now { me = me }) }
    {
        Ok(Opening {
            me,
            cluster: self.cluster,
            window: self.window,
            names: Items::from_vec(Vec::from_slice(alloc, self.names.get())?),
            limits: self.limits,
            kept: self.kept.copy()?,
            keys: self.keys,
        })
    }
}

/// A node's log: its opening, and the inputs that it took, the oldest first. What a node sends follows from it, and what
/// it is, but for the answers that were taken of it and for a stop without memory or tickets.
#[derive(Drop)]
pub struct NodeLog<A: Allocator = Global> {
    /// What the node began with.
    pub opening: Opening<A>,
    /// What it took, the oldest first.
    pub inputs: Items<Input<A>, A>,
}
