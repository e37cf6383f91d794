//! Answers, for whoever awaits them.
ghost use Rattle.std.specs.Prelude.{◌≡◌, Some, None, OnOk};
ghost use Rattle.std.specs.Map.{set_value};
ghost use Rattle.std.specs.BTreeMap.{insert_entry, is_at};
ghost use Rattle.replica.specs.Replicas as spec;
ghost use Rattle.replica.specs.Replicas.{rules_of, awaiting};

use crate::state::{Awaited, State};
use ballot::{Machine, Memory, Payload};
use std::alloc::Allocator;

/// Awaits the answer to a command, unless its identity was performed.
pub fn await_answer<M: Machine, A: Allocator + Copy>(
    state: &mut State<M, A>,
    command: &M::Command,
) -> Result<(), Memory>
    ensures { OnOk result (state.new ≡ awaiting (rules_of M.Command.identity M.Command.Id.cmp M.answer_to M.after) command.now state.old) }
{
    let identity = command.id();
    if state.performed.has(identity) {
        return Ok(());
    }
    wait(&mut state.awaited, identity)?;
    Ok(())
}

/// Waits for the answer to a command.
fn wait<I: Copy + Ord, R: Drop, A: Allocator + Copy>(
    awaited: &mut Awaited<I, R, A>,
    identity: I,
) -> Result<(), Memory>
    ensures { OnOk result (awaited.new.entries ≡ insert_entry I.cmp awaited.old.entries identity None) }
{
    let _ = awaited.insert(identity, None)?;
    Ok(())
}

/// Keeps the answer for whoever awaits it.
pub fn answer<I: Copy + Ord, R: Drop, A: Allocator + Copy>(
    awaited: &mut Awaited<I, R, A>,
    identity: I,
    answer: R,
)
    ensures { awaited.new.entries ≡ set_value (is_at (I.cmp identity)) awaited.old.entries (Some answer) }
{
    if let Some(awaited) = awaited.get_mut(&identity) {
        *awaited = Some(answer);
    }
}

/// Whether an answer is awaited that isn't there.
pub fn is_waiting<I: Copy + Ord, R: Drop, A: Allocator>(awaited: &Awaited<I, R, A>) -> bool
    ensures { result ≡ spec.is_waiting awaited.now.entries }
{
    awaited.values().any(|answer| answer.is_none())
}
