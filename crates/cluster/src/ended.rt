//! What the end of a cluster leaves.
ghost use Rattle.std.specs.Prelude.{◌≡◌, ◌≤◌, [], IsTrue, IfOk, vec_len, vec_capacity};
ghost use Rattle.std.specs.List.{All};
ghost use Rattle.maildrop.specs.Name.{are_different};
ghost use Rattle.cluster.specs.Ends.{IsLeftBy};
ghost use Rattle.cluster.specs.Members.{IsLogOf};

use crate::closed::{kept_at_end, next_best};
use crate::ended_node::EndedNode;
use crate::retired::Retired;
use crate::setup::Deployment;
use ballot::Memory;
use maildrop::Kept;
use node::NodeLog;
use std::alloc::Global;
use std::marker::Model;

/// What is left of a cluster that has ended.
#[derive(Drop)]
pub struct Ended {
    /// The logs of its nodes, in the order in which these were started.
    pub logs: EndedLogs,
    /// What is kept of the maildrops, by a log that has performed the most; without a node, what the setup kept. `Memory`
    /// if a node has stopped without memory or tickets, and there is none to replay its log. Without a node it is a copy, which
    /// takes memory too.
    pub kept: Result<Kept, Memory>,
}

/// The logs of nodes that have ended. Contracts see the logs. The rest of the nodes' state is freed with the logs, or when
/// they are taken out. That takes time in proportion to what the nodes have performed, so a thread that has time can do it.
#[derive(Drop)]
pub struct EndedLogs {
    nodes: Vec<EndedNode>,
    /// Room for their logs.
    logs: Vec<NodeLog>,
}

impl Model for EndedLogs {
    ghost use Rattle.std.specs.Prelude.{◌≡◌, ◌≤◌, List, [], map, vec_len, vec_capacity};
    ghost use Rattle.std.specs.declared.alloc.Global.{Global};
    ghost use Rattle.node.specs.declared.log.NodeLog.{NodeLog};
    ghost use Rattle.cluster.specs.Ends.{log_of};

    ghost Value = { List (NodeLog Global) };

    ghost view = { λ l. map log_of l.nodes.items };

    ghost invariant = { λ l. (l.logs.items ≡ []) × (vec_len l.nodes ≤ vec_capacity l.logs) };
}

impl EndedLogs {
    /// The logs, without the nodes. Takes no memory.
    pub fn into_vec(self) -> Vec<NodeLog>
        ensures { result.items ≡ self }
    {
        let EndedLogs { nodes, mut logs } = self;
        for node in nodes {
            logs.push_reserved(node.into_log());
        }
        logs
    }
}

/// What nodes leave that were taken away. `nodes` and `logs` have room for them.
pub(crate) fn end_all<D: Deployment>(
    alloc: Global,
    opened: &Kept,
    retired: Vec<Retired<D>>,
    mut nodes: Vec<EndedNode>,
    logs: Vec<NodeLog>,
) -> Ended
    requires names { IsTrue (are_different D.setup.names) }
    requires opened { opened.now ≡ D.setup.kept }
    requires none { nodes.items ≡ [] }
    requires room { vec_len retired ≤ vec_capacity nodes }
    requires no_logs { logs.items ≡ [] }
    requires room_for_logs { vec_len retired ≤ vec_capacity logs }
    ensures all { result.logs ≡ retired.items }
    ensures logs { All (λ log. IsLogOf D.setup log.opening.me log) result.logs }
    ensures kept { IfOk result.kept (λ kept. IsLeftBy D.setup result.logs kept) }
{
    let mut best = Ok(None);
    for node in retired {
        let (next, node) = next_best(alloc, best, node.into_node());
        best = next;
        nodes.push_reserved(node);
    }
    let kept = kept_at_end(alloc, opened, best);
    Ended {
        logs: EndedLogs { nodes, logs },
        kept,
    }
}
