//! Small sets of nodes.
ghost use Rattle.std.specs.Prelude.{◌≡◌, ◌∷◌, [], false, length, ◌≤◌, ◌↔◌, IsTrue};
ghost use Rattle.ballot.specs.Nodes.{is_among};

use crate::node_id::{LAST_NODE, NodeId};
use arrayvec::ArrayVec;
use std::marker::Model;

/// How many nodes there are at most.
const ROOM: usize = LAST_NODE as usize;

/// A set of nodes, seen as the list of them, the one added last first. It takes no memory, since
/// it has room for all nodes.
#[derive(Drop)]
pub struct NodeSet {
    numbers: ArrayVec<u8, ROOM>,
}

impl Model for NodeSet {
    ghost use Rattle.std.specs.Prelude.{List, ℕ};
    ghost use Rattle.ballot.specs.Nodes.{AreDistinct};
    ghost use Rattle.ballot.specs.declared.node_id.TheConstants.{LAST_NODE};

    ghost Value = { List ℕ };

    ghost view = { λ s. s.numbers.items };

    ghost invariant = { λ s. AreDistinct LAST_NODE s.numbers.items };
}

impl NodeSet {
    /// The set of no nodes.
    pub fn new() -> Self
        ensures { result ≡ [] }
    {
        NodeSet {
            numbers: ArrayVec::new(),
        }
    }

    /// Whether the node is in the set.
    pub fn contains(&self, node: NodeId) -> bool
        ensures { result ≡ is_among node self.now }
    {
        self.numbers.as_slice().contains(&node.get())
    }

    /// Adds a node that isn't in the set.
    pub fn insert(&mut self, node: NodeId)
        requires { is_among node self.old ≡ false }
        ensures { self.new ≡ node ∷ self.old }
    {
        self.numbers.insert(0, node.get());
    }

    /// How many nodes are in the set.
    pub fn len(&self) -> usize
        ensures value { result ≡ length self.now }
        ensures range { result ≤ LAST_NODE }
    {
        self.numbers.len()
    }

    /// Whether no node is in the set.
    pub fn is_empty(&self) -> bool
        ensures { IsTrue result ↔ (self.now ≡ []) }
    {
        self.numbers.is_empty()
    }
}
