//! What a script's run writes.
ghost use Rattle.std.specs.Prelude.{◌≡◌, ◌≤◌, ◌++◌, [], length, OnErr, OnOk, take};
ghost use Rattle.script.specs.Output as spec;
ghost use Rattle.simulator.specs.Reports.{order_lines, slot_lines};

use ballot::{Memory, NodeId, Slot};
use maildrop::{Name, Outcome, SharedCommand, Ticket};
use script::{Refusal, put_outcome, put_performed, put_refusal, put_replies, put_slot};
use std::alloc::Global;
use std::marker::Model;

/// Lines of output that are still to be written. `Memory` adds none.
#[derive(Drop)]
pub(crate) struct Report {
    bytes: Vec<u8>,
}

impl Model for Report {
    ghost use Rattle.std.specs.Prelude.{ℕ, List};

    ghost Value = { List ℕ };

    ghost view = { λ r. r.bytes.items };
}

/// Adds the lines that a node's commands bring, each with its slot. After `Memory` only the first `start` bytes are left.
fn put_slots(
    out: &mut Vec<u8>,
    start: usize,
    performed: &[(Slot, SharedCommand)],
) -> Result<(), Memory>
    requires { start ≤ length out.old.items }
    ensures ok { OnOk result (out.new.items ≡ out.old.items ++ slot_lines performed.now) }
    ensures err { OnErr result (out.new.items ≡ take start out.old.items) }
{
    for (slot, command) in performed {
        let Ok(()) = put_slot(out, *slot, command.get()) else {
            out.truncate(start);
            return Err(Memory);
        };
    }
    Ok(())
}

/// Adds the lines of `order`.
fn put_order(
    out: &mut Vec<u8>,
    node: NodeId,
    performed: &[(Slot, SharedCommand)],
) -> Result<(), Memory>
    ensures ok { OnOk result (out.new.items ≡ out.old.items ++ order_lines node performed.now) }
    ensures err { OnErr result (out.new.items ≡ out.old.items) }
{
    let start = out.len();
    put_performed(out, node, performed.len())?;
    put_slots(out, start, performed)
}

impl Report {
    /// Nothing. Takes no memory.
    pub(crate) fn new(alloc: Global) -> Self
        ensures { result ≡ [] }
    {
        Report {
            bytes: Vec::new(alloc),
        }
    }

    pub(crate) fn get(&self) -> &[u8]
        ensures { result.now ≡ self.now }
    {
        self.bytes.as_slice()
    }

    /// Everything has been written.
    pub(crate) fn clear(&mut self)
        ensures { self.new ≡ [] }
    {
        self.bytes.clear();
    }

    /// What a Mail or a Break was answered.
    pub(crate) fn outcome(
        &mut self,
        user: &Name,
        ticket: Ticket,
        outcome: &Outcome,
    ) -> Result<(), Memory>
        ensures ok { OnOk result (self.new ≡ self.old ++ spec.outcome_line user.now ticket outcome.now) }
        ensures err { OnErr result (self.new ≡ self.old) }
    {
        put_outcome(&mut self.bytes, user, ticket, outcome)
    }

    /// Why the service refuses an event.
    pub(crate) fn refusal(&mut self, refusal: Refusal) -> Result<(), Memory>
        ensures ok { OnOk result (self.new ≡ self.old ++ spec.refusal_line refusal) }
        ensures err { OnErr result (self.new ≡ self.old) }
    {
        put_refusal(&mut self.bytes, refusal)
    }

    /// What a session was told.
    pub(crate) fn replies(&mut self, session: u32, replies: &[u8]) -> Result<(), Memory>
        ensures ok { OnOk result (self.new ≡ self.old ++ spec.reply_lines session replies.now) }
        ensures err { OnErr result (self.new ≡ self.old) }
    {
        put_replies(&mut self.bytes, session, replies)
    }

    /// What a node has performed.
    pub(crate) fn order(
        &mut self,
        node: NodeId,
        performed: &[(Slot, SharedCommand)],
    ) -> Result<(), Memory>
        ensures ok { OnOk result (self.new ≡ self.old ++ order_lines node performed.now) }
        ensures err { OnErr result (self.new ≡ self.old) }
    {
        put_order(&mut self.bytes, node, performed)
    }
}
