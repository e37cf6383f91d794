//! Laws of audits. Each is a function that does nothing: its contract is the law.
//!
//! Inputs are placed one at a time, each when it can come by what is placed: it is the next of its log, no crash stands
//! before it, its message was sent, and what its session asked before is answered. By these laws it makes no difference in
//! which order that is done: whoever places inputs until none can be placed knows whether there is a legal order, but for
//! what the transcripts say of answers.
ghost use Rattle.std.specs.Prelude.{◌≡◌, ◌<◌, ◌≤◌, ℕ, suc, List, [], length, None, true};
ghost use Rattle.node.specs.declared.log.NodeLog.{NodeLog};
ghost use Rattle.session.specs.declared.transcript.Transcript.{Transcript};
ghost use Rattle.audit.specs.Order.{IsLegalOrder};
ghost use Rattle.audit.specs.Placing.{IsPlacing, can_place, is_stuck, put};
ghost use Rattle.audit.specs.Records.{AreFit, case_of};
ghost use Rattle.audit.specs.declared.placement.Placement.{Placement};
ghost use Rattle.audit.specs.Written.{ArePlaced, written_order};
ghost use Rattle.audit.specs.Wrong.{first_wrong, seat};
ghost use Rattle.audit.specs.declared.event.Event.{Event};

use std::alloc::Allocator;

/// Where no input can be placed and a log has some left, there is no legal order, whatever the logs and the transcripts
/// are.
pub fn a_stuck_placing_has_no_order<A: Allocator>()
    ensures { (logs : List (NodeLog A)) (transcripts : List (Transcript A)) (placed : ℕ → ℕ) (node : ℕ) →
        is_stuck (case_of logs transcripts) placed ≡ true
        → placed node < length ((case_of logs transcripts).logs node)
        → (events : List Event) → IsLegalOrder (case_of logs transcripts) events → ⊥ }
{}

/// Where all inputs are placed, and no transcript has a wrong answer, there is a legal order, if the logs and transcripts can
/// be a service's.
pub fn a_whole_placing_has_an_order<A: Allocator>()
    ensures { (logs : List (NodeLog A)) (transcripts : List (Transcript A)) → AreFit logs transcripts
        → (order : List ℕ) (placed : ℕ → ℕ) → IsPlacing (case_of logs transcripts) order placed
        → ((node : ℕ) → placed node ≡ length ((case_of logs transcripts).logs node))
        → first_wrong (case_of logs transcripts) 0 [] (case_of logs transcripts).scripts ≡ None
        → (events : List Event) × IsLegalOrder (case_of logs transcripts) events }
{}

/// Such an order can be written down as the inputs were placed: a session takes its answer and says its lines just before
/// it asks again, before its node crashes, and at the end.
pub fn a_written_order_is_legal<A: Allocator>()
    ensures { (logs : List (NodeLog A)) (transcripts : List (Transcript A)) → AreFit logs transcripts
        → (placements : List Placement) → ArePlaced (case_of logs transcripts) (λ n. 0) [] placements
        → first_wrong (case_of logs transcripts) 0 [] (case_of logs transcripts).scripts ≡ None
        → IsLegalOrder (case_of logs transcripts) (written_order (case_of logs transcripts) (seat (case_of logs transcripts)) placements) }
{}

/// An input that can be placed still can once one of another node is placed.
pub fn placing_takes_no_turn_away<A: Allocator>()
    ensures { (logs : List (NodeLog A)) (transcripts : List (Transcript A)) (placed : ℕ → ℕ) (node other : ℕ) → (node ≡ other → ⊥)
        → can_place (case_of logs transcripts) placed node ≡ true
        → can_place (case_of logs transcripts) (put placed other (suc (placed other))) node ≡ true }
{}

/// Whatever the logs and the transcripts are, inputs can be placed until none can be placed.
pub fn a_placing_ends<A: Allocator>()
    ensures { (logs : List (NodeLog A)) (transcripts : List (Transcript A)) →
        (order : List ℕ) × (placed : ℕ → ℕ) × IsPlacing (case_of logs transcripts) order placed × (is_stuck (case_of logs transcripts) placed ≡ true) }
{}

/// Where no input can be placed, each that anybody can place is placed already, whatever the logs and the transcripts are.
/// So all that end there have placed the same; and if all inputs can be placed, none is left.
pub fn a_stuck_placing_holds_every_placing<A: Allocator>()
    ensures { (logs : List (NodeLog A)) (transcripts : List (Transcript A)) (stuck : ℕ → ℕ) →
        is_stuck (case_of logs transcripts) stuck ≡ true
        → (order : List ℕ) (placed : ℕ → ℕ) → IsPlacing (case_of logs transcripts) order placed
        → (node : ℕ) → placed node ≤ stuck node }
{}
