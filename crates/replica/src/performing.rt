//! Performing what is decided.
ghost use Rattle.std.specs.Prelude.{◌≡◌, Some, false, length, OnOk};
ghost use Rattle.replica.specs.Replicas.{rules_of, is_decided, gives_way, performs, performs_slots};
ghost use Rattle.ballot.specs.Slots.{at_slot};
ghost use Rattle.replica.specs.Parts.{with_decision};

use crate::awaiting::answer;
use crate::state::State;
use ballot::{LAST_SLOT, Machine, Memory, Payload, Slot};
use std::alloc::Allocator;

/// Keeps a decision for a slot that has none.
pub fn keep<M: Machine, A: Allocator + Copy>(
    state: &mut State<M, A>,
    slot: Slot,
    command: M::Command,
) -> Result<(), Memory>
    requires { is_decided slot state.old.decisions ≡ false }
    ensures { OnOk result (state.new ≡ with_decision slot command state.old) }
{
    prove!(slot.get() <= LAST_SLOT);
    state.decisions.insert(slot, command)
}

/// Takes back what was proposed here for `slot_out`. Where its identity is another than that of
/// the decided command, it is the first request again.
fn give_way<M: Machine, A: Allocator + Copy>(
    state: &mut State<M, A>,
    slot: Slot,
    decided: &M::Command,
) -> Result<(), Memory>
    requires { slot ≡ state.old.slot_out }
    ensures { OnOk result (state.new ≡ gives_way (rules_of M.Command.identity M.Command.Id.cmp M.answer_to M.after) decided.now (at_slot state.old.slot_out state.old.proposals) state.old) }
{
    let Some(own) = state.proposals.remove(&slot) else {
        return Ok(());
    };
    if own.id().cmp(&decided.id()).is_eq() {
        return Ok(());
    }
    state.requests.push_front(own)?;
    Ok(())
}

/// Performs the decided command in `slot_out`, unless its identity was performed.
fn perform<M: Machine, A: Allocator + Copy>(
    state: &mut State<M, A>,
    slot: Slot,
    command: M::Command,
) -> Result<(), Memory>
    requires { slot ≡ state.old.slot_out }
    ensures { OnOk result (state.new ≡ performs (rules_of M.Command.identity M.Command.Id.cmp M.answer_to M.after) command state.old) }
{
    let identity = command.id();
    state.slot_out = slot.get() + 1;
    if !state.performed.push(slot, command)? {
        return Ok(());
    }
    let Some((_, command)) = state.performed.get().last() else {
        return Ok(());
    };
    let result = state.machine.apply(command)?;
    answer(&mut state.awaited, identity, result);
    Ok(())
}

/// Performs what is decided from `slot_out` on.
pub fn perform_all<M: Machine, A: Allocator + Copy>(state: &mut State<M, A>) -> Result<(), Memory>
    ensures { OnOk result (state.new ≡ performs_slots (rules_of M.Command.identity M.Command.Id.cmp M.answer_to M.after) (length state.old.decisions) state.old) }
{
    let turns = state.decisions.count();
    for turn in 0..turns {
        let Some(slot) = Slot::new(state.slot_out) else {
            return Ok(());
        };
        let Some(decided) = state.decisions.get(slot) else {
            return Ok(());
        };
        let command = decided.copy()?;
        give_way(state, slot, &command)?;
        perform(state, slot, command)?;
    }
    Ok(())
}
