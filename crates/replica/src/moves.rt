//! The calls of a replica that isn't spent.
ghost use Rattle.std.specs.Prelude.{◌≡◌, true, OnOk, IfOk, IsOk};
ghost use Rattle.replica.specs.Replicas.{rules_of, is_decided, requested, learns, IsSettled};
ghost use Rattle.replica.specs.Parts.{with_request};

use crate::awaiting::await_answer;
use crate::performing::{keep, perform_all};
use crate::proposing::propose_all;
use crate::state::State;
use ballot::{Items, Machine, Memory, Sends, Slot};
use std::alloc::Allocator;
use std::cmp::Ordering;

/// A command is requested: its answer is awaited, and it is proposed once the window allows it.
pub fn request<M: Machine, A: Allocator + Copy>(
    state: &mut State<M, A>,
    command: M::Command,
) -> Result<Sends<M::Command, A>, Memory>
    requires { IsSettled (rules_of M.Command.identity M.Command.Id.cmp M.answer_to M.after) state.old }
    ensures replica { OnOk result (state.new ≡ (requested {A = A} (rules_of M.Command.identity M.Command.Id.cmp M.answer_to M.after) command state.old).after) }
    ensures sends { IfOk result (λ sends. sends ≡ (requested (rules_of M.Command.identity M.Command.Id.cmp M.answer_to M.after) command state.old).sends) }
{
    await_answer(state, &command)?;
    add_request(state, command)?;
    propose_all(state)
}

/// Puts a command after the other requests.
fn add_request<M: Machine, A: Allocator + Copy>(
    state: &mut State<M, A>,
    command: M::Command,
) -> Result<(), Memory>
    ensures { OnOk result (state.new ≡ with_request command state.old) }
{
    state.requests.push_back(command)?;
    Ok(())
}

/// A decision is kept, what is then decided without a gap is performed, and requests are proposed
/// as far as the window allows. A slot that has a decision keeps it, and nothing changes.
pub fn decide<M: Machine, A: Allocator + Copy>(
    state: &mut State<M, A>,
    slot: Slot,
    command: M::Command,
) -> Result<Sends<M::Command, A>, Memory>
    requires { IsSettled (rules_of M.Command.identity M.Command.Id.cmp M.answer_to M.after) state.old }
    ensures replica { OnOk result (state.new ≡ (learns {A = A} (rules_of M.Command.identity M.Command.Id.cmp M.answer_to M.after) slot command state.old).after) }
    ensures sends { IfOk result (λ sends. sends ≡ (learns (rules_of M.Command.identity M.Command.Id.cmp M.answer_to M.after) slot command state.old).sends) }
    ensures again { is_decided slot state.old.decisions ≡ true → IsOk result × (state.new ≡ state.old) }
{
    if has_decision(state, slot) {
        return Ok(Items::new(state.alloc));
    }
    keep(state, slot, command)?;
    perform_all(state)?;
    propose_all(state)
}

/// Whether the slot has a decision. Every slot below `slot_out` has one and `slot_out` has none, so a decision that
/// comes in order is not looked up.
fn has_decision<M: Machine, A: Allocator + Copy>(state: &State<M, A>, slot: Slot) -> bool
    requires { IsSettled (rules_of M.Command.identity M.Command.Id.cmp M.answer_to M.after) state.now }
    ensures { result ≡ is_decided slot state.now.decisions }
{
    match slot.get().cmp(&state.slot_out) {
        Ordering::Less => true,
        Ordering::Equal => false,
        Ordering::Greater => state.decisions.has(slot),
    }
}
