//! Proposing what was requested.
ghost use Rattle.std.specs.Prelude.{◌≡◌, ◌++◌, ◌<◌, ◌≤◌, ◌+◌, ℕ, Some, None, true, false, OnOk, IfOk, IfSome, IsSome, ◌↔◌};
ghost use Rattle.std.specs.List.{flat_map};
ghost use Rattle.ballot.specs.Sends.{to_all};
ghost use Rattle.ballot.specs.declared.message.Message.TheVariants.{Propose, Ask};
ghost use Rattle.ballot.specs.declared.slot.TheConstants.{LAST_SLOT};
ghost use Rattle.replica.specs.Replicas.{is_decided, is_open, can_propose, proposes_next, proposes, replica_ticks, proposal_again, asks};
ghost use Rattle.ballot.specs.Slots.{with_slot};

use crate::state::State;
use ballot::{Cluster, Items, Machine, Memory, Message, Payload, Sends, Slot};
use std::alloc::Allocator;
use std::collections::BTreeMap;

/// Sends the command as a proposal for the slot.
fn send_proposal<C: Payload, A: Allocator + Copy>(
    cluster: Cluster,
    slot: Slot,
    command: &C,
    sends: &mut Sends<C, A>,
) -> Result<(), Memory>
    ensures { OnOk result (sends.new ≡ sends.old ++ to_all cluster (Propose slot command.now)) }
{
    sends.broadcast(cluster, Message::Propose(slot, command.copy()?))
}

/// The slot of this number, if there is one and it is inside the window.
fn open_slot(slot_in: u64, slot_out: u64, window: u64) -> Option<Slot>
    requires { 1 ≤ slot_in }
    ensures open { IsSome result ↔ ((slot_in < slot_out + window) × (slot_in ≤ LAST_SLOT)) }
    ensures slot { IfSome result (λ slot. slot ≡ slot_in) }
{
    if slot_in as u128 >= slot_out as u128 + window as u128 {
        return None;
    }
    Slot::new(slot_in)
}

/// Proposes the first request, if the next slot is open, and tells whether there was one to
/// propose.
fn propose_next<M: Machine, A: Allocator + Copy>(
    state: &mut State<M, A>,
    sends: &mut Sends<M::Command, A>,
) -> Result<bool, Memory>
    ensures replica { OnOk result (state.new ≡ (proposes_next {A = A} state.old.requests state.old).after) }
    ensures sends { OnOk result (sends.new ≡ sends.old ++ (proposes_next state.old.requests state.old).sends) }
    ensures proposes { IfOk result (λ one. one ≡ can_propose state.old.requests state.old) }
{
    if state.requests.is_empty() {
        return Ok(false);
    }
    let Some(slot) = open_slot(state.slot_in, state.slot_out, state.window) else {
        return Ok(false);
    };
    if state.decisions.has(slot) {
        state.slot_in = slot.get() + 1;
        return Ok(true);
    }
    let Some(command) = state.requests.pop_front() else {
        return Ok(false);
    };
    state.slot_in = slot.get() + 1;
    send_proposal(state.cluster, slot, &command, sends)?;
    keep_proposal(&mut state.proposals, slot, command)?;
    Ok(true)
}

/// Keeps what is proposed for a slot.
fn keep_proposal<C: Payload, A: Allocator + Copy>(
    proposals: &mut BTreeMap<Slot, C, A>,
    slot: Slot,
    command: C,
) -> Result<(), Memory>
    ensures { OnOk result (proposals.new.entries ≡ with_slot slot command proposals.old.entries) }
{
    let _ = proposals.insert(slot, command)?;
    Ok(())
}

/// Passes over the slots that are performed, if a request waits.
fn pass_over<M: Machine, A: Allocator + Copy>(state: &mut State<M, A>)
    requires { (s : ℕ) → 1 ≤ s → s < state.old.slot_out → is_decided s state.old.decisions ≡ true }
    ensures { proposes {A = A} state.new ≡ proposes state.old }
{
    if state.slot_in < state.slot_out && !state.requests.is_empty() {
        state.slot_in = state.slot_out;
    }
}

/// Proposes requests as far as the window goes.
pub fn propose_all<M: Machine, A: Allocator + Copy>(
    state: &mut State<M, A>,
) -> Result<Sends<M::Command, A>, Memory>
    requires { (s : ℕ) → 1 ≤ s → s < state.old.slot_out → is_decided s state.old.decisions ≡ true }
    ensures replica { OnOk result (state.new ≡ (proposes {A = A} state.old).after) }
    ensures sends { IfOk result (λ sends. sends ≡ (proposes state.old).sends) }
{
    pass_over(state);
    propose_open(state)
}

/// Proposes requests for each open slot.
fn propose_open<M: Machine, A: Allocator + Copy>(
    state: &mut State<M, A>,
) -> Result<Sends<M::Command, A>, Memory>
    ensures replica { OnOk result (state.new ≡ (proposes {A = A} state.old).after) }
    ensures sends { IfOk result (λ sends. sends ≡ (proposes state.old).sends) }
{
    let mut sends = Items::new(state.alloc);
    let end = state.slot_out as u128 + state.window as u128;
    let turns = end.saturating_sub(state.slot_in as u128);
    for turn in 0..turns {
        if !propose_next(state, &mut sends)? {
            return Ok(sends);
        }
    }
    Ok(sends)
}

/// Sends each proposal again whose slot isn't decided.
fn send_again<M: Machine, A: Allocator + Copy>(
    state: &State<M, A>,
) -> Result<Sends<M::Command, A>, Memory>
    ensures { IfOk result (λ sends. sends ≡ flat_map (proposal_again state.now) state.now.proposals) }
{
    let mut sends = Items::new(state.alloc);
    for (slot, command) in &state.proposals {
        if !state.decisions.has(*slot) {
            send_proposal(state.cluster, *slot, command, &mut sends)?;
        }
    }
    Ok(sends)
}

/// Sends what isn't decided again, and asks for the next decision.
pub fn tick<M: Machine, A: Allocator + Copy>(
    state: &State<M, A>,
) -> Result<Sends<M::Command, A>, Memory>
    ensures { IfOk result (λ sends. sends ≡ (replica_ticks state.now).sends) }
{
    let mut sends = send_again(state)?;
    let Some(slot) = Slot::new(state.slot_out) else {
        return Ok(sends);
    };
    sends.broadcast(state.cluster, Message::Ask(slot))?;
    Ok(sends)
}
