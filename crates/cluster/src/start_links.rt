//! The nodes that links are for.
ghost use Rattle.std.specs.Prelude.{◌≡◌, map};
ghost use Rattle.ballot.specs.Nodes as nodes;
ghost use Rattle.node.specs.Nodes as node;
ghost use Rattle.cluster.specs.Starts as spec;

use crate::setup::Setup;
use ballot::NodeId;
use node::WIDEST_WINDOW;

/// Whether the setup has a window that a node can have.
pub(crate) fn has_window(setup: &Setup) -> bool
    ensures { result ≡ spec.has_window setup.now }
{
    1 <= setup.window && setup.window <= WIDEST_WINDOW
}

/// Whether the nodes of these links can run together.
pub(crate) fn can_run<L>(setup: &Setup, links: &[(NodeId, L)]) -> bool
    ensures { result ≡ spec.can_run setup.now (map (λ link. link.0) links.now) }
{
    let mut rest = links;
    while let Some(((me, _), others)) = rest.split_first() {
        if !can_begin(setup, *me) || is_among(*me, others) {
            return false;
        }
        rest = others;
    }
    true
}

fn can_begin(setup: &Setup, me: NodeId) -> bool
    ensures { result ≡ node.can_begin me setup.now.cluster setup.now.window }
{
    setup.cluster.contains(me) && has_window(setup)
}

/// Whether one of the links is for this node.
fn is_among<L>(node: NodeId, links: &[(NodeId, L)]) -> bool
    ensures { result ≡ nodes.is_among node (map (λ link. link.0) links.now) }
{
    let mut rest = links;
    while let Some(((other, _), others)) = rest.split_first() {
        if node == *other {
            return true;
        }
        rest = others;
    }
    false
}
