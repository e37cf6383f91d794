//! What nodes leave that were taken away.
ghost use Rattle.std.specs.Prelude.{◌≡◌, [], ◌∷◌, ◌++◌, List, Some, true, false, IsTrue, IfOk};
ghost use Rattle.std.specs.declared.alloc.Global.{Global};
ghost use Rattle.maildrop.specs.Name.{are_different};
ghost use Rattle.node.specs.Nodes.{IsKnown};
ghost use Rattle.node.specs.declared.log.NodeLog.{NodeLog};
ghost use Rattle.cluster.specs.Bests.{IsBestOf, IsEndOf, has_performed_more};
ghost use Rattle.cluster.specs.Ends.{IsLeftBy, log_of};
ghost use Rattle.cluster.specs.declared.setup.Setup.{Setup};

use crate::ended_node::EndedNode;
use ballot::Memory;
use maildrop::Kept;
use node::{ClosedNode, Node, NodeLog, Stopped, replay};
use std::alloc::Global;

/// What a log leads to: what is kept of the maildrops, and how many commands were performed.
#[derive(Drop)]
pub(crate) struct Left {
    kept: Kept,
    performed: usize,
}

/// Whether what a node is follows from its log, if it has stopped so: not if it ran out of memory.
pub(crate) fn is_known(stopped: Option<Stopped>) -> bool
    ensures known { result ≡ true → IsKnown stopped }
    ensures unknown { result ≡ false → stopped ≡ Some Stopped.Memory }
{
    match stopped {
        Some(Stopped::Memory) => false,
        _ => true,
    }
}

/// What is left of a node, and what its log leads to if the node is known. Takes no memory, and the same time however much
/// was performed.
fn close(node: Node) -> (ClosedNode, Left)
    ensures log { result.0 ≡ node.log }
    ensures left { IsKnown node.stopped → IsEndOf node.log result.1 }
{
    let performed = node.performed().len();
    let (closed, kept) = node.close();
    (closed, Left { kept, performed })
}

/// What a log leads to, by a node that takes its inputs. Takes memory.
fn replay_end(alloc: Global, log: &NodeLog) -> Result<Left, Memory>
    requires names { IsTrue (are_different log.now.opening.names) }
    ensures { IfOk result (λ left. IsEndOf log.now left) }
{
    match replay(alloc, log) {
        Ok(Some(node)) => {
            let (closed, left) = close(node);
            drop(closed);
            Ok(left)
        }
        _ => Err(Memory),
    }
}

/// Whether so many commands are more than the best so far has performed.
fn has_more(best: &Option<Left>, performed: usize) -> bool
    ensures { result ≡ has_performed_more best.now performed }
{
    match best {
        Some(best) => best.performed < performed,
        None => true,
    }
}

/// What has performed more; the one that is there already, if both have performed as much.
fn better(best: Option<Left>, left: Left) -> Left
    ensures { (logs : List (NodeLog Global)) (log : NodeLog Global) →
        IsBestOf logs best → IsEndOf log left → IsBestOf (logs ++ log ∷ []) (Some result) }
{
    let Some(best) = best else {
        return left;
    };
    if left.performed <= best.performed {
        best
    } else {
        left
    }
}

/// The best of the logs so far and that of one more node, which has stopped without memory: its log is replayed, which takes
/// memory.
fn next_best_by_log(
    alloc: Global,
    best: Option<Left>,
    node: Node,
) -> (Result<Option<Left>, Memory>, EndedNode)
    requires names { IsTrue (are_different node.log.opening.names) }
    ensures log { log_of result.1 ≡ node.log }
    ensures best { (logs : List (NodeLog Global)) → IsBestOf logs best → IfOk result.0 (IsBestOf (logs ++ node.log ∷ [])) }
{
    let log = node.into_log();
    match replay_end(alloc, &log) {
        Ok(left) => (Ok(Some(better(best, left))), EndedNode::Log(log)),
        Err(Memory) => (Err(Memory), EndedNode::Log(log)),
    }
}

/// The best of the logs so far and that of one more node, whose state follows from its log. Only a node that has performed
/// more than the best is closed. So of nodes that have performed as much only one is. Takes no memory.
fn next_best_known(best: Option<Left>, node: Node) -> (Option<Left>, EndedNode)
    requires known { IsKnown node.stopped }
    ensures log { log_of result.1 ≡ node.log }
    ensures best { (logs : List (NodeLog Global)) → IsBestOf logs best → IsBestOf (logs ++ node.log ∷ []) result.0 }
{
    if has_more(&best, node.performed().len()) {
        let (closed, left) = close(node);
        (Some(left), EndedNode::Closed(closed))
    } else {
        (best, EndedNode::Whole(node))
    }
}

/// The best of the logs so far and that of one more node, which has ended. `Memory` if it wasn't found of one of them.
pub(crate) fn next_best(
    alloc: Global,
    best: Result<Option<Left>, Memory>,
    node: Node,
) -> (Result<Option<Left>, Memory>, EndedNode)
    requires names { IsTrue (are_different node.log.opening.names) }
    ensures log { log_of result.1 ≡ node.log }
    ensures best { (logs : List (NodeLog Global)) → IfOk best (IsBestOf logs) → IfOk result.0 (IsBestOf (logs ++ node.log ∷ [])) }
{
    let Ok(best) = best else {
        return (Err(Memory), EndedNode::Whole(node));
    };
    if is_known(node.stopped()) {
        let (best, node) = next_best_known(best, node);
        (Ok(best), node)
    } else {
        next_best_by_log(alloc, best, node)
    }
}

/// What is kept by the best of logs, or what the nodes opened with if there is no log. Only a copy of the latter takes
/// memory.
pub(crate) fn kept_at_end(
    alloc: Global,
    opened: &Kept,
    best: Result<Option<Left>, Memory>,
) -> Result<Kept, Memory>
    ensures { IfOk result (λ kept. (setup : Setup) (logs : List (NodeLog Global)) → opened.now ≡ setup.kept →
        IfOk best (λ best. IsBestOf logs best) → IsLeftBy setup logs kept) }
{
    match best? {
        Some(left) => Ok(left.kept),
        None => copy_of(alloc, opened),
    }
}

fn copy_of(alloc: Global, kept: &Kept) -> Result<Kept, Memory>
    ensures { IfOk result (λ copy. copy ≡ kept.now) }
{
    let mut copy = Kept::new(alloc);
    copy.add_others_of(kept)?;
    Ok(copy)
}
