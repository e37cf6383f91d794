//! The node that has performed the most.

use crate::served_node::ServedNode;

/// The node that has performed the most of those that are up, the first of several.
pub(crate) fn furthest_up<N: ServedNode>(nodes: &[N]) -> Option<&N> {
    let mut furthest = None;
    let mut most = 0;
    for node in nodes {
        match node.status() {
            Some(status) if status.up && status.slot_out > most => {
                most = status.slot_out;
                furthest = Some(node);
            }
            _ => {}
        }
    }
    furthest
}

/// The slot of the node that is furthest, up or down.
pub(crate) fn furthest_slot<N: ServedNode>(nodes: &[N]) -> u64 {
    let mut furthest = 0;
    for node in nodes {
        if let Some(status) = node.status() {
            furthest = furthest.max(status.slot_out);
        }
    }
    furthest
}
