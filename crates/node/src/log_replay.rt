//! The node to which a log leads.
ghost use Rattle.std.specs.Prelude.{◌≡◌, is_some, IsTrue, IfOk, IfSome, OnOk};
ghost use Rattle.maildrop.specs.Name.{are_different};
ghost use Rattle.node.specs.Nodes.{IsKnown, can_begin, lengthened};

use crate::input::Input;
use crate::log::NodeLog;
use crate::node::Node;
use crate::stopped::Stopped;
use std::alloc::Allocator;

/// The node that takes the inputs of a log, and so is what the log leads to. None if no node begins so. An error if there
/// is no memory, or if the log goes on after a crash.
pub fn replay<A: Allocator + Copy>(alloc: A, log: &NodeLog<A>) -> Result<Option<Node<A>>, Stopped>
    requires { IsTrue (are_different log.now.opening.names) }
    ensures valid { IfOk result (λ node. is_some node ≡ can_begin log.now.opening.me log.now.opening.cluster log.now.opening.window) }
    ensures log { IfOk result (λ node. IfSome node (λ n. n.log ≡ log.now)) }
    ensures known { IfOk result (λ node. IfSome node (λ n. IsKnown n.stopped)) }
{
    let opening = log.opening.copy_for(alloc, log.opening.me)?;
    let Some(mut node) = Node::open(alloc, opening)? else {
        return Ok(None);
    };
    take_all(&mut node, log.inputs.get())?;
    Ok(Some(node))
}

/// A node takes copies of these inputs, in order.
fn take_all<A: Allocator + Copy>(node: &mut Node<A>, inputs: &[Input<A>]) -> Result<(), Stopped>
    ensures log { OnOk result (node.new.log ≡ lengthened node.old.log inputs.now) }
    ensures known { IsKnown node.old.stopped → OnOk result (IsKnown node.new.stopped) }
{
    for input in inputs {
        node.step(input.copy()?)?;
    }
    Ok(())
}
