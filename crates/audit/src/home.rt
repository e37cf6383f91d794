//! The logs of nodes, by the nodes' numbers, and the nodes of sessions.
ghost use Rattle.std.specs.Prelude.{◌≡◌, List};
ghost use Rattle.session.specs.declared.transcript.Transcript.{Transcript};
ghost use Rattle.audit.specs.Case.{turns_of};
ghost use Rattle.audit.specs.Records.{case_of};
ghost use Rattle.audit.specs.Turns.{script_of};
ghost use Rattle.audit.specs.Wrong.{node_of};
ghost use Rattle.audit.specs.Records as spec;
ghost use Rattle.audit.specs.Checks as checks;

use ballot::NodeId;
use node::NodeLog;
use session::{Asked, Transcript};
use std::alloc::Allocator;

/// The place of the node's first log, or the place after the last log if the node has none. It takes as long as there
/// are logs, which are nine at most if each is of another node.
pub(crate) fn place_of<A: Allocator + Copy>(logs: &[NodeLog<A>], node: NodeId) -> usize
    ensures { result ≡ spec.place_of node logs.now }
{
    for (place, log) in logs.iter().enumerate() {
        if log.opening.me == node {
            return place;
        }
    }
    logs.len()
}

/// The node of the first ticket, if entries have any.
pub(crate) fn first_node<A: Allocator + Copy>(entries: &[Asked<A>]) -> Option<NodeId>
    ensures { result ≡ checks.first_node entries.now }
{
    for entry in entries {
        if let Some(ticket) = entry.ticket {
            return Some(ticket.get().0);
        }
    }
    None
}

/// The place of the log of a session's node: that of its first ticket, or the first node.
pub(crate) fn seat_of<A: Allocator + Copy>(logs: &[NodeLog<A>], transcript: &Transcript<A>) -> usize
    ensures { (transcripts : List (Transcript A)) → result ≡ node_of (case_of logs.now transcripts) (turns_of (case_of logs.now transcripts) (script_of transcript.now)) }
{
    match first_node(transcript.asked.get()) {
        Some(node) => place_of(logs, node),
        None => 0,
    }
}
