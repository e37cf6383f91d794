//! Laws of replicas over any calls. Each is a function that does nothing: its contract is the law.
ghost use Rattle.std.specs.Prelude.{◌≡◌, ◌↔◌, ℕ, List, Some, None, true, false, if◌then◌else◌};
ghost use Rattle.std.specs.Ordering.{is_eq};
ghost use Rattle.replica.specs.Replicas.{ReplicaState, rules_of, new_replica, is_decided, has_identity, requested, learns, replica_ticks, taken, answer_for, IsFrontOf, IsSettled, is_waiting};
ghost use Rattle.ballot.specs.Sends.{stays};
ghost use Rattle.ballot.specs.Slots.{at_slot};
ghost use Rattle.replica.specs.Taken.{IsButTaken};
ghost use Rattle.replica.specs.Calls.{Call, called, all_called, given, is_requested, awaited_for, AreAnswers, Performs, IsBehind};

use ballot::{Machine, Payload};
use std::alloc::Allocator;

/// Whatever was called, and in whatever order and however often decisions came: a replica has
/// performed the whole gapless front of what was given, each identity once.
pub fn replicas_perform_the_front<M: Machine, A: Allocator>()
    ensures front { let rules = rules_of M.Command.identity M.Command.Id.cmp M.answer_to M.after in
        (me size window : ℕ) (machine : M) (calls : List (Call M.Command M.Command.Id)) →
        IsFrontOf rules (given calls) (all_called A rules calls (new_replica me size window machine)) }
    ensures at_first { let rules = rules_of M.Command.identity M.Command.Id.cmp M.answer_to M.after in
        (me size window : ℕ) (machine : M) → IsSettled rules (new_replica me size window machine) }
    ensures after_each_call { let rules = rules_of M.Command.identity M.Command.Id.cmp M.answer_to M.after in
        (call : Call M.Command M.Command.Id) (r : ReplicaState M.Command M.Command.Id M.Answer M) →
        IsSettled rules r → IsSettled rules (called {A = A} rules call r).after }
{}

/// A decision for a slot that has one changes nothing and sends nothing.
pub fn repeated_decisions_do_nothing<M: Machine, A: Allocator>()
    ensures { let rules = rules_of M.Command.identity M.Command.Id.cmp M.answer_to M.after in
        (slot : ℕ) (command : M.Command) (r : ReplicaState M.Command M.Command.Id M.Answer M) →
        IsSettled rules r → is_decided slot r.decisions ≡ true → learns {A = A} rules slot command r ≡ stays r }
{}

/// A replica that was given at least what another was given has performed what that one has, and maybe more after
/// it. Replicas that were given the same for each slot have performed the same.
pub fn fronts_agree<M: Machine>()
    ensures behind { let rules = rules_of M.Command.identity M.Command.Id.cmp M.answer_to M.after in
        (ours theirs : List (ℕ × M.Command)) (one other : ReplicaState M.Command M.Command.Id M.Answer M) →
        ((s : ℕ) → is_decided s ours ≡ true → at_slot s theirs ≡ at_slot s ours)
        → IsFrontOf rules ours one → IsFrontOf rules theirs other → IsBehind one other }
    ensures same { let rules = rules_of M.Command.identity M.Command.Id.cmp M.answer_to M.after in
        (ours theirs : List (ℕ × M.Command)) (one other : ReplicaState M.Command M.Command.Id M.Answer M) →
        ((s : ℕ) → at_slot s ours ≡ at_slot s theirs)
        → IsFrontOf rules ours one → IsFrontOf rules theirs other
        → (one.slot_out ≡ other.slot_out) × (one.performed ≡ other.performed) }
{}

/// What is awaited is what was requested here. A request whose identity wasn't performed is awaited from then on,
/// without an answer, and no other identity's answer changes. Whatever was called: just those identities are awaited
/// without an answer that were requested here and aren't performed, and an answer is held for none that wasn't
/// requested here.
pub fn requests_are_awaited<M: Machine, A: Allocator>()
    ensures request { let rules = rules_of M.Command.identity M.Command.Id.cmp M.answer_to M.after in
        (command : M.Command) (i : M.Command.Id) (r : ReplicaState M.Command M.Command.Id M.Answer M) →
        awaited_for rules i (requested {A = A} rules command r).after
        ≡ if has_identity rules (M.Command.identity command) r.performed
        then awaited_for rules i r
        else (if is_eq (M.Command.Id.cmp (M.Command.identity command) i) then Some None else awaited_for rules i r) }
    ensures waiting { let rules = rules_of M.Command.identity M.Command.Id.cmp M.answer_to M.after in
        (me size window : ℕ) (machine : M) (calls : List (Call M.Command M.Command.Id)) (i : M.Command.Id) →
        (awaited_for rules i (all_called A rules calls (new_replica me size window machine)) ≡ Some None)
        ↔ ((is_requested rules i calls ≡ true) × (has_identity rules i (all_called A rules calls (new_replica me size window machine)).performed ≡ false)) }
    ensures answers { let rules = rules_of M.Command.identity M.Command.Id.cmp M.answer_to M.after in
        (me size window : ℕ) (machine : M) (calls : List (Call M.Command M.Command.Id)) (i : M.Command.Id) (answer : M.Answer) →
        answer_for rules i (all_called A rules calls (new_replica me size window machine)).awaited ≡ Some answer
        → is_requested rules i calls ≡ true }
{}

/// A decision adds the answers to exactly those commands that it performs and that are awaited, and
/// a request adds none. Whatever was called: what is awaited without an answer isn't performed, and
/// an answer is the machine's, after the commands that were performed before.
pub fn answers_are_of_what_is_performed<M: Machine, A: Allocator>()
    ensures always { let rules = rules_of M.Command.identity M.Command.Id.cmp M.answer_to M.after in
        (me size window : ℕ) (machine : M) (calls : List (Call M.Command M.Command.Id)) →
        AreAnswers rules machine (all_called A rules calls (new_replica me size window machine)) }
    ensures after_each_call { let rules = rules_of M.Command.identity M.Command.Id.cmp M.answer_to M.after in
        (first : M) (call : Call M.Command M.Command.Id) (r : ReplicaState M.Command M.Command.Id M.Answer M) →
        AreAnswers rules first r → AreAnswers rules first (called {A = A} rules call r).after }
    ensures decision { let rules = rules_of M.Command.identity M.Command.Id.cmp M.answer_to M.after in
        (first : M) (slot : ℕ) (command : M.Command) (r : ReplicaState M.Command M.Command.Id M.Answer M) →
        AreAnswers rules first r → Performs rules r (learns {A = A} rules slot command r).after }
    ensures request { let rules = rules_of M.Command.identity M.Command.Id.cmp M.answer_to M.after in
        (first : M) (command : M.Command) (i : M.Command.Id) (r : ReplicaState M.Command M.Command.Id M.Answer M) →
        AreAnswers rules first r
        → answer_for rules i (requested {A = A} rules command r).after.awaited ≡ answer_for rules i r.awaited }
{}

/// An answer that was taken is gone for good, and the others stay.
pub fn answers_are_taken_once<M: Machine, A: Allocator>()
    ensures gone { let rules = rules_of M.Command.identity M.Command.Id.cmp M.answer_to M.after in
        (first : M) (i : M.Command.Id) (answer : M.Answer) (calls : List (Call M.Command M.Command.Id)) (r : ReplicaState M.Command M.Command.Id M.Answer M) →
        AreAnswers rules first r → answer_for rules i r.awaited ≡ Some answer
        → answer_for rules i (all_called A rules calls (taken rules i r)).awaited ≡ None }
    ensures others { let rules = rules_of M.Command.identity M.Command.Id.cmp M.answer_to M.after in
        (first : M) (i j : M.Command.Id) (r : ReplicaState M.Command M.Command.Id M.Answer M) →
        AreAnswers rules first r → is_eq (M.Command.Id.cmp i j) ≡ false
        → answer_for rules j (taken rules i r).awaited ≡ answer_for rules j r.awaited }
{}

/// A replica whose answers were taken goes on as one that keeps them, with which it began: both send the same, and
/// then differ in such answers alone.
pub fn taken_answers_change_nothing_else<M: Machine, A: Allocator>()
    ensures at_first { let rules = rules_of M.Command.identity M.Command.Id.cmp M.answer_to M.after in
        (first : M) (r : ReplicaState M.Command M.Command.Id M.Answer M) → AreAnswers rules first r → IsButTaken rules first r r }
    ensures request { let rules = rules_of M.Command.identity M.Command.Id.cmp M.answer_to M.after in
        (first : M) (command : M.Command) (r s : ReplicaState M.Command M.Command.Id M.Answer M) →
        IsButTaken rules first r s
        → IsButTaken rules first (requested {A = A} rules command r).after (requested {A = A} rules command s).after
        × ((requested {A = A} rules command r).sends ≡ (requested {A = A} rules command s).sends) }
    ensures decision { let rules = rules_of M.Command.identity M.Command.Id.cmp M.answer_to M.after in
        (first : M) (slot : ℕ) (command : M.Command) (r s : ReplicaState M.Command M.Command.Id M.Answer M) →
        IsButTaken rules first r s
        → IsButTaken rules first (learns {A = A} rules slot command r).after (learns {A = A} rules slot command s).after
        × ((learns {A = A} rules slot command r).sends ≡ (learns {A = A} rules slot command s).sends) }
    ensures tick { let rules = rules_of M.Command.identity M.Command.Id.cmp M.answer_to M.after in
        (first : M) (r s : ReplicaState M.Command M.Command.Id M.Answer M) →
        IsButTaken rules first r s
        → IsButTaken rules first (replica_ticks {A = A} r).after (replica_ticks {A = A} s).after
        × ((replica_ticks {A = A} r).sends ≡ (replica_ticks {A = A} s).sends) }
    ensures taking { let rules = rules_of M.Command.identity M.Command.Id.cmp M.answer_to M.after in
        (first : M) (i : M.Command.Id) (r s : ReplicaState M.Command M.Command.Id M.Answer M) →
        IsButTaken rules first r s → IsButTaken rules first (taken rules i r) s }
    ensures waiting { let rules = rules_of M.Command.identity M.Command.Id.cmp M.answer_to M.after in
        (first : M) (r s : ReplicaState M.Command M.Command.Id M.Answer M) →
        IsButTaken rules first r s → is_waiting r.awaited ≡ is_waiting s.awaited }
{}
