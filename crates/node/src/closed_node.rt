//! A node whose maildrops were taken out.
ghost use Rattle.std.specs.Prelude.{◌≡◌};

use crate::log::NodeLog;
use crate::roles::RolesLeft;
use std::alloc::{Allocator, Global};
use std::marker::Model;

/// A node whose maildrops were taken out. Contracts see its log. To free it, or to take the log out, takes time in proportion
/// to what the node has performed, so whoever needs the maildrops at once can leave that to others.
#[derive(Drop)]
pub struct ClosedNode<A: Allocator + Copy = Global> {
    log: NodeLog<A>,
    roles: RolesLeft<A>,
}

impl<A: Allocator + Copy> Model for ClosedNode<A> {
    ghost use Rattle.node.specs.declared.log.NodeLog.{NodeLog};

    ghost Value = { NodeLog A };

    ghost view = { λ n. n.log };
}

impl<A: Allocator + Copy> ClosedNode<A> {
    /// A closed node with this log.
    pub(crate) fn new(log: NodeLog<A>, roles: RolesLeft<A>) -> Self
        ensures { result ≡ log }
    {
        ClosedNode { log, roles }
    }

    /// The log, without the rest.
    pub fn into_log(self) -> NodeLog<A>
        ensures { result ≡ self }
    {
        let ClosedNode { log, roles: _ } = self;
        log
    }
}
