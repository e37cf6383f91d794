//! The lines that a run of a script writes. Each call adds to the end of what is written. After `Memory` nothing has
//! changed: no part of a line stands there.
ghost use Rattle.std.specs.Prelude.{◌≡◌, ◌++◌, ◌≤◌, length, take, is_ok, if◌then◌else◌, OnOk, OnErr, decimal};
ghost use Rattle.script.specs.Output as spec;

use crate::refusal::Refusal;
use crate::writing::{put, put_number};
use ballot::{Memory, NodeId, Slot};
use maildrop::{Command, Name, Op, Outcome, Ticket, next_line};
use std::alloc::Allocator;

/// Adds `USER NODE/SEQ`. After `Memory` as `put`.
fn put_command<A: Allocator>(
    out: &mut Vec<u8, A>,
    start: usize,
    user: &Name,
    ticket: Ticket,
) -> Result<(), Memory>
    requires { start ≤ length out.old.items }
    ensures { out.new.items
        ≡ (if is_ok result then out.old.items ++ spec.command_text user.now ticket else take start out.old.items) }
{
    let (node, seq) = ticket.get();
    put(out, start, user.get())?;
    put(out, start, b" ")?;
    put_number(out, start, u64::from(node.get()))?;
    put(out, start, b"/")?;
    put_number(out, start, seq)
}

/// Adds an outcome. After `Memory` as `put`.
fn put_outcome_text<A: Allocator, B: Allocator>(
    out: &mut Vec<u8, A>,
    start: usize,
    outcome: &Outcome<B>,
) -> Result<(), Memory>
    requires { start ≤ length out.old.items }
    ensures { out.new.items
        ≡ (if is_ok result then out.old.items ++ spec.outcome_text outcome.now else take start out.old.items) }
{
    match outcome {
        Outcome::NoSuchUser => put(out, start, b"no such user"),
        Outcome::TooLarge => put(out, start, b"too large"),
        Outcome::Full => put(out, start, b"full"),
        Outcome::IdsUsed => put(out, start, b"ids used"),
        Outcome::Stored(uid) => {
            put(out, start, b"stored ")?;
            put_number(out, start, *uid)
        }
        Outcome::InUse => put(out, start, b"in use"),
        Outcome::Taken(_) => put(out, start, b"taken"),
        Outcome::Done => put(out, start, b"done"),
        Outcome::NotHolder => put(out, start, b"not holder"),
    }
}

/// Adds `op USER NODE/SEQ OUTCOME`: what a command was answered.
pub fn put_outcome<A: Allocator, B: Allocator>(
    out: &mut Vec<u8, A>,
    user: &Name,
    ticket: Ticket,
    outcome: &Outcome<B>,
) -> Result<(), Memory>
    ensures ok { OnOk result (out.new.items ≡ out.old.items ++ spec.outcome_line user.now ticket outcome.now) }
    ensures err { OnErr result (out.new.items ≡ out.old.items) }
{
    let start = out.len();
    put(out, start, b"op ")?;
    put_command(out, start, user, ticket)?;
    put(out, start, b" ")?;
    put_outcome_text(out, start, outcome)?;
    put(out, start, b"\n")
}

/// Adds `refused NUMBER NAME`.
pub fn put_refusal<A: Allocator>(out: &mut Vec<u8, A>, refusal: Refusal) -> Result<(), Memory>
    ensures ok { OnOk result (out.new.items ≡ out.old.items ++ spec.refusal_line refusal) }
    ensures err { OnErr result (out.new.items ≡ out.old.items) }
{
    let start = out.len();
    put(out, start, b"refused ")?;
    put_number(out, start, u64::from(refusal.number()))?;
    put(out, start, b" ")?;
    put(out, start, refusal.name())?;
    put(out, start, b"\n")
}

/// Adds `node N performed K`: how many commands a node has performed.
pub fn put_performed<A: Allocator>(
    out: &mut Vec<u8, A>,
    node: NodeId,
    count: usize,
) -> Result<(), Memory>
    ensures ok { OnOk result (out.new.items ≡ out.old.items ++ spec.performed_line node count) }
    ensures err { OnErr result (out.new.items ≡ out.old.items) }
{
    let start = out.len();
    put(out, start, b"node ")?;
    put_number(out, start, u64::from(node.get()))?;
    put(out, start, b" performed ")?;
    put_number(out, start, count as u64)?;
    put(out, start, b"\n")
}

fn op_text<A: Allocator>(op: &Op<A>) -> &'static [u8]
    ensures { result.now ≡ spec.op_text op.now }
{
    match op {
        Op::Mail { .. } => b"mail",
        Op::Take => b"take",
        Op::Commit { .. } => b"commit",
        Op::Free { .. } => b"free",
        Op::Break => b"break",
    }
}

/// Adds `slot S USER NODE/SEQ OP`: a command that a node has performed, and its slot.
pub fn put_slot<A: Allocator, B: Allocator>(
    out: &mut Vec<u8, A>,
    slot: Slot,
    command: &Command<B>,
) -> Result<(), Memory>
    ensures ok { OnOk result (out.new.items ≡ out.old.items ++ spec.slot_line slot command.now) }
    ensures err { OnErr result (out.new.items ≡ out.old.items) }
{
    let start = out.len();
    put(out, start, b"slot ")?;
    put_number(out, start, slot.get())?;
    put(out, start, b" ")?;
    put_command(out, start, &command.user, command.ticket)?;
    put(out, start, b" ")?;
    put(out, start, op_text(&command.op))?;
    put(out, start, b"\n")
}

/// Adds a line of replies to a session. After `Memory` as `put`.
fn put_reply_line<A: Allocator>(
    out: &mut Vec<u8, A>,
    start: usize,
    session: u32,
    line: &[u8],
) -> Result<(), Memory>
    requires { start ≤ length out.old.items }
    ensures { out.new.items
        ≡ (if is_ok result then out.old.items ++ spec.reply_line session line.now else take start out.old.items) }
{
    put(out, start, b"s")?;
    put_number(out, start, u64::from(session))?;
    put(out, start, b"|")?;
    put(out, start, line)?;
    put(out, start, b"\n")
}

/// Adds `sK|LINE` for each line of replies to a session, without its CR and LF.
pub fn put_replies<A: Allocator>(
    out: &mut Vec<u8, A>,
    session: u32,
    replies: &[u8],
) -> Result<(), Memory>
    ensures ok { OnOk result (out.new.items ≡ out.old.items ++ spec.reply_lines session replies.now) }
    ensures err { OnErr result (out.new.items ≡ out.old.items) }
{
    let start = out.len();
    let mut rest = replies;
    while let Some((line, behind)) = next_line(rest) {
        put_reply_line(out, start, session, line)?;
        rest = behind;
    }
    Ok(())
}
