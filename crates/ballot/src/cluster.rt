//! How many nodes there are, and how many of them are a majority.
ghost use Rattle.std.specs.Prelude.{◌≡◌, ℕ, ◌≤◌, ◌<◌, ◌*◌, ◌↔◌, IsTrue, IsSome, IfSome};
ghost use Rattle.ballot.specs.Nodes.{in_cluster};
ghost use Rattle.ballot.specs.declared.node_id.TheConstants.{LAST_NODE};

use crate::node_id::{LAST_NODE, NodeId};
use std::marker::Model;

/// A cluster of the nodes 1 to its size, which is 1 to `LAST_NODE`.
#[derive(Clone, Copy, Debug, PartialEq, Eq, Hash)]
pub struct Cluster {
    size: u8,
}

impl Model for Cluster {
    ghost Value = { ℕ };

    ghost view = { λ c. c.size };

    ghost invariant = { λ c. (1 ≤ c.size) × (c.size ≤ LAST_NODE) };

    ghost inverse = { λ n. record { size = n } };
}

impl Cluster {
    /// The cluster of this many nodes, if they are 1 to `LAST_NODE`.
    pub fn new(size: u8) -> Option<Self>
        ensures valid { IsSome result ↔ ((1 ≤ size) × (size ≤ LAST_NODE)) }
        ensures value { IfSome result (λ c. c ≡ size) }
    {
        if 1 <= size && size <= LAST_NODE {
            Some(Cluster { size })
        } else {
            None
        }
    }

    /// The number of nodes that the cluster was made of.
    pub fn get(self) -> u8
        ensures value { result ≡ self }
        ensures range { (1 ≤ self) × (self ≤ LAST_NODE) }
    {
        self.size
    }

    /// Whether the node is one of the cluster's.
    pub fn contains(self, node: NodeId) -> bool
        ensures { result ≡ in_cluster self node }
    {
        node.get() <= self.size
    }

    /// Whether this many nodes are more than half of the cluster.
    pub fn majority(self, nodes: usize) -> bool
        ensures { IsTrue result ↔ (self < 2 * nodes) }
    {
        nodes > usize::from(self.size) / 2
    }
}
