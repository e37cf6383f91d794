//! A node that has ended, of which only the log is asked for.
ghost use Rattle.std.specs.Prelude.{◌≡◌};
ghost use Rattle.cluster.specs.Ends.{log_of};

use node::{ClosedNode, Node, NodeLog};

/// A node that has ended. To free a node takes time in proportion to what it has performed. Whoever takes its log frees it,
/// unless it stopped without memory: then only its log is left.
#[derive(Drop)]
pub enum EndedNode {
    Whole(Node),
    /// Its maildrops were taken out.
    Closed(ClosedNode),
    Log(NodeLog),
}

impl EndedNode {
    /// Its log.
    pub(crate) fn into_log(self) -> NodeLog
        ensures { result ≡ log_of self }
    {
        match self {
            EndedNode::Whole(node) => node.into_log(),
            EndedNode::Closed(node) => node.into_log(),
            EndedNode::Log(log) => log,
        }
    }
}
