//! Laws of leaders over any calls. Each is a function that does nothing: its contract is the law.
ghost use Rattle.std.specs.Prelude.{◌≡◌, ℕ, List, Some, true};
ghost use Rattle.ballot.specs.declared.pvalue.PValue.{PValue};
ghost use Rattle.ballot.specs.Slots.{at_slot};
ghost use Rattle.leader.specs.Leaders.{LeaderState, new_leader, adopts, phase_is_active};
ghost use Rattle.leader.specs.Calls.{Call, called, all_called, Asks, IsAsked, IsOrderly, HasHighest, KeepsOthers};

use ballot::Payload;
use std::alloc::Allocator;

/// Whatever was called before, each pvalue that a call asks for is of the leader's ballot, which it
/// has, and of its proposal for the slot.
pub fn leaders_ask_for_their_proposals<C: Payload, A: Allocator>()
    ensures { (me size : ℕ) (before : List (Call C A)) (call : Call C A) (p : PValue C) → Asks (called C.equal (all_called C.equal (new_leader me size) before).after call).sends p → IsAsked (called C.equal (all_called C.equal (new_leader me size) before).after call).after p }
{}

/// A proposal stays while the leader is active with one ballot.
pub fn proposals_stay<C: Payload, A: Allocator>()
    ensures { (l : LeaderState C) (call : Call C A) (slot : ℕ) (command : C) → phase_is_active l.phase ≡ true → phase_is_active (called C.equal l call).after.phase ≡ true → (called C.equal l call).after.ballot ≡ l.ballot → at_slot slot l.proposals ≡ Some command → at_slot slot (called C.equal l call).after.proposals ≡ Some command }
{}

/// With one ballot a leader asks for at most one command in a slot, whatever is called.
pub fn one_command_for_a_slot<C: Payload, A: Allocator>()
    ensures { (me size : ℕ) (calls : List (Call C A)) (p q : PValue C) → Asks (all_called C.equal (new_leader me size) calls).sends p → Asks (all_called C.equal (new_leader me size) calls).sends q → p.ballot ≡ q.ballot → p.slot ≡ q.slot → p.command ≡ q.command }
{}

/// An adoption gives each slot of the adopted pvalues the command of one of them, of that slot,
/// whose ballot is at least that of each other of that slot. Every other slot keeps its proposal.
pub fn adoptions_take_the_highest<C: Payload, A: Allocator>()
    ensures highest { (l : LeaderState C) (pvalues : List (PValue C)) → HasHighest pvalues (adopts {A = A} l pvalues).after.proposals }
    ensures others { (l : LeaderState C) (pvalues : List (PValue C)) → KeepsOthers pvalues l.proposals (adopts {A = A} l pvalues).after.proposals }
{}

/// Whatever was called: a leader's ballot is its own, its proposals and its commanders rise strictly
/// by slot, its scout waits for its ballot, each of its commanders waits for its ballot at a slot that
/// has a proposal, and what these have heard are distinct nodes of the cluster.
pub fn leaders_are_orderly<C: Payload, A: Allocator>()
    ensures always { (me size : ℕ) (calls : List (Call C A)) → IsOrderly me size (all_called C.equal (new_leader me size) calls).after }
    ensures after_each_call { (me size : ℕ) (l : LeaderState C) (call : Call C A) → IsOrderly me size l → IsOrderly me size (called C.equal l call).after }
{}
