//! The numbers of nodes.
ghost use Rattle.std.specs.Prelude.{◌≡◌, ℕ, ◌≤◌, ◌↔◌, IsSome, IfSome};
ghost use Rattle.ballot.specs.declared.node_id.TheConstants.{LAST_NODE};

use std::marker::Model;

/// The highest number of a node, and so the most nodes of a cluster.
pub const LAST_NODE: u8 = 9;

/// The number of a node, 1 to `LAST_NODE`.
#[derive(Clone, Copy, Debug, PartialEq, Eq, PartialOrd, Ord, Hash)]
pub struct NodeId {
    number: u8,
}

impl Model for NodeId {
    ghost Value = { ℕ };

    ghost view = { λ n. n.number };

    ghost invariant = { λ n. (1 ≤ n.number) × (n.number ≤ LAST_NODE) };

    ghost inverse = { λ n. record { number = n } };
}

impl NodeId {
    /// The node of this number, if it is 1 to `LAST_NODE`.
    pub fn new(number: u8) -> Option<Self>
        ensures valid { IsSome result ↔ ((1 ≤ number) × (number ≤ LAST_NODE)) }
        ensures value { IfSome result (λ n. n ≡ number) }
    {
        if 1 <= number && number <= LAST_NODE {
            Some(NodeId { number })
        } else {
            None
        }
    }

    /// The node of this number, which is 1 to `LAST_NODE`.
    pub(crate) fn numbered(number: u8) -> Self
        requires { (1 ≤ number) × (number ≤ LAST_NODE) }
        ensures { result ≡ number }
    {
        NodeId { number }
    }

    /// The number that the node was made of.
    pub fn get(self) -> u8
        ensures value { result ≡ self }
        ensures range { (1 ≤ self) × (self ≤ LAST_NODE) }
    {
        self.number
    }
}
