//! Inputs that are left.
ghost use Rattle.std.specs.Prelude.{◌≡◌, ◌<◌, ◌≤◌, length};
ghost use Rattle.ballot.specs.declared.node_id.TheConstants.{LAST_NODE};
ghost use Rattle.audit.specs.Left.{IsLeast};

use crate::replay::Replay;
use ballot::NodeId;
use node::NodeLog;
use std::alloc::Allocator;

/// What no node has as its number.
const NO_NUMBER: u8 = u8::MAX;

/// The number of a log's node, if an input is left, and otherwise `NO_NUMBER`.
fn number_left<A: Allocator + Copy>(log: &NodeLog<A>, replay: &Replay<A>) -> u8
    ensures number { replay.now.placed < length log.now.inputs → result ≡ log.now.opening.me }
    ensures range { replay.now.placed < length log.now.inputs → (1 ≤ result) × (result ≤ LAST_NODE) }
    ensures none { length log.now.inputs ≤ replay.now.placed → result ≡ NO_NUMBER }
{
    if replay.placed() < log.inputs.len() {
        return log.opening.me.get();
    }
    NO_NUMBER
}

/// The least number of a node whose log has an input left.
pub(crate) fn least_left<A: Allocator + Copy>(
    logs: &[NodeLog<A>],
    replays: &[Replay<A>],
) -> Option<NodeId>
    requires { length replays.now ≡ length logs.now }
    ensures { IsLeast logs.now replays.now (length logs.now) result }
{
    let mut least = NO_NUMBER;
    for place in 0..logs.len() {
        least = least.min(number_left(&logs[place], &replays[place]));
    }
    NodeId::new(least)
}
