//! A node that was taken away.
ghost use Rattle.std.specs.Prelude.{◌≡◌};
ghost use Rattle.cluster.specs.Members.{IsLogOf};

use crate::setup::Deployment;
use node::Node;
use std::marker::{Model, PhantomData};

/// A node of the deployment that was taken away from its lock. Contracts see it as its log.
#[derive(Drop)]
pub(crate) struct Retired<D: Deployment> {
    node: Node,
    of: PhantomData<D>,
}

impl<D: Deployment> Model for Retired<D> {
    ghost use Rattle.std.specs.declared.alloc.Global.{Global};
    ghost use Rattle.node.specs.declared.log.NodeLog.{NodeLog};
    ghost use Rattle.cluster.specs.Members.{IsLogOf};

    ghost Value = { NodeLog Global };

    ghost view = { λ r. r.node.log };

    ghost invariant = { λ r. IsLogOf D.setup r.node.log.opening.me r.node.log };
}

impl<D: Deployment> Retired<D> {
    /// This node.
    pub(crate) fn new(node: Node) -> Self
        requires { IsLogOf D.setup node.log.opening.me node.log }
        ensures { result ≡ node.log }
    {
        Retired {
            node,
            of: PhantomData,
        }
    }

    /// The node.
    pub(crate) fn into_node(self) -> Node
        ensures log { result.log ≡ self }
        ensures own { IsLogOf D.setup result.log.opening.me result.log }
    {
        self.node
    }
}
