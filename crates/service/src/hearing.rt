//! Which other nodes were heard.

use crate::majority::is_majority;
use ballot::{Cluster, NodeId, NodeSet};
use std::sync::{Mutex, Wait};

/// For how many milliseconds a node counts as heard. Each sends something to all others once a second, unless it hears too
/// few itself.
const HEARD_MS: u64 = 3_000;

/// The nodes of other processes that were heard since they were counted anew.
#[derive(Drop)]
pub(crate) struct HeardNodes {
    nodes: Mutex<NodeSet>,
}

impl HeardNodes {
    /// None yet. Takes no memory.
    pub(crate) fn new() -> Self {
        HeardNodes {
            nodes: Mutex::new(NodeSet::new()),
        }
    }

    /// A node was heard.
    pub(crate) fn note<R: Wait>(&self, rt: &R, node: NodeId) {
        let mut guard = self.nodes.lock(rt);
        let nodes = &mut *guard;
        if !nodes.contains(node) {
            nodes.insert(node);
        }
    }

    /// How many were heard. Then begins anew if asked to.
    fn count<R: Wait>(&self, rt: &R, begins_anew: bool) -> usize {
        let mut guard = self.nodes.lock(rt);
        let nodes = &mut *guard;
        let count = nodes.len();
        if begins_anew {
            *nodes = NodeSet::new();
        }
        count
    }
}

/// Whether a node that is alone in its process hears enough others to be one of a majority with them.
#[derive(Drop)]
pub(crate) struct Hearing {
    cluster: Cluster,
    has_majority: bool,
    /// How many milliseconds have passed since the nodes that are heard were counted anew.
    passed_ms: u64,
}

impl Hearing {
    /// Until the others are first counted, a majority is taken to be there.
    pub(crate) fn new(cluster: Cluster) -> Self {
        Hearing {
            cluster,
            has_majority: true,
            passed_ms: 0,
        }
    }

    /// So many milliseconds have passed. Returns whether a majority is heard now, with the node itself. That is so as soon
    /// as enough others were heard, until too few were heard for three seconds.
    pub(crate) fn look<R: Wait>(&mut self, rt: &R, heard: &HeardNodes, passed_ms: u64) -> bool {
        self.passed_ms = self.passed_ms.saturating_add(passed_ms);
        let is_over = self.passed_ms >= HEARD_MS;
        let up = heard.count(rt, is_over).saturating_add(1);
        let is_heard = is_majority(up, usize::from(self.cluster.get()));
        if is_over {
            self.passed_ms = 0;
            self.has_majority = is_heard;
        } else {
            self.has_majority = self.has_majority || is_heard;
        }
        self.has_majority
    }
}
