//! What is reported to an operator about the nodes.
ghost use Rattle.std.specs.Prelude.{◌≡◌, ◌++◌, OnOk};
ghost use Rattle.service.specs.Standings as spec;

use ballot::{Memory, NodeId};
use cluster::Status;
use session_log::{put, put_labelled, put_number_line};

/// Adds the line that reports the state of a node.
pub(crate) fn put_standing(
    text: &mut Vec<u8>,
    node: NodeId,
    status: &Option<Status>,
) -> Result<(), Memory>
    ensures { OnOk result (text.new.items ≡ text.old.items ++ spec.standing_line node status.now) }
{
    put_labelled(text, b"node ", node.get() as u64)?;
    match status {
        Some(status) if status.up => put_up(text, status),
        _ => put(text, b" down\n"),
    }
}

/// Adds what is reported of a node that is up.
fn put_up(text: &mut Vec<u8>, status: &Status) -> Result<(), Memory>
    ensures { OnOk result (text.new.items ≡ text.old.items ++ spec.up_text status.now) }
{
    let role: &[u8] = if status.active { b"active" } else { b"passive" };
    put(text, b" up ")?;
    put(text, role)?;
    put_number_line(text, b" slot ", status.slot_out)
}
