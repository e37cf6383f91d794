//! Laws of logs, and of what they lead to. Each is a function that does nothing: its contract is the law.
ghost use Rattle.std.specs.Prelude.{◌≡◌, ◌↔◌, ◌≤◌, ℕ, List, [], length, Some, None, is_some, true, false};
ghost use Rattle.std.specs.List.{list_any};
ghost use Rattle.maildrop.specs.CommandId.{CommandId};
ghost use Rattle.maildrop.specs.Office.{maildrop_of, maildrop_after_all};
ghost use Rattle.maildrop.specs.declared.op.Op.{Op};
ghost use Rattle.maildrop.specs.declared.outcome.Outcome.{Outcome};
ghost use Rattle.replica.specs.Replicas.{IsFrontOf, has_identity};
ghost use Rattle.node.specs.Replay.{mail_rules, is_crash, new_node, replayed, sends_of, ticket_of, last_ticket};
ghost use Rattle.node.specs.Nodes.{logged, lengthened, answered, user_of, no_ticket_for};
ghost use Rattle.node.specs.Tickets.{LAST_TICKET};
ghost use Rattle.node.specs.Submits.{IsSubmitted, log_until, next_id, op_of};
ghost use Rattle.node.specs.Told.{told_decisions};
ghost use Rattle.node.specs.Outcomes.{IsOutcomeOf, first_maildrop, own_of};
ghost use Rattle.node.specs.declared.input.Input.{Input};
ghost use Rattle.node.specs.declared.input.Input.TheVariants.{Submit, Crash};
ghost use Rattle.node.specs.declared.log.NodeLog.{NodeLog};
ghost use Rattle.node.specs.declared.log.Opening.{Opening};

use std::alloc::Allocator;

/// An answer that a log has got stays, whatever inputs follow.
pub fn answers_stay<A: Allocator>()
    ensures { (log : NodeLog A) (more : List (Input A)) (id : CommandId) (answer : Outcome A) →
        answered log id ≡ Some answer → answered (lengthened log more) id ≡ Some answer }
{}

/// A log has an answer only for an operation that was submitted in it, under a ticket of its own node.
pub fn answers_are_of_submits<A: Allocator>()
    ensures submitted { (log : NodeLog A) (id : CommandId) (answer : Outcome A) →
        answered log id ≡ Some answer → (op : Op A) × IsSubmitted log id op }
    ensures own { (log : NodeLog A) (id : CommandId) (answer : Outcome A) →
        answered log id ≡ Some answer → id.ticket.node ≡ log.opening.me }
{}

/// Each answer that a log has got is that of its user's maildrop alone, after the user's own commands that were performed
/// before it.
pub fn answers_are_outcomes<A: Allocator>()
    ensures { (log : NodeLog A) (id : CommandId) (answer : Outcome A) →
        answered log id ≡ Some answer → IsOutcomeOf log.opening (replayed log).replica.performed id answer }
{}

/// What a log leaves of a user's maildrop is what this maildrop alone is after the user's own commands that were
/// performed. It began as the log's opening says.
pub fn logs_leave_lone_maildrops<A: Allocator>()
    ensures { (log : NodeLog A) (name : List ℕ) →
        maildrop_of name (replayed log).replica.machine ≡ maildrop_after_all (first_maildrop log.opening name) (own_of name (replayed log).replica.performed) }
{}

/// Whatever a node took, and in whatever order and however often decisions came: it has performed the whole gapless front
/// of the decisions that it was told, each identity once.
pub fn nodes_perform_the_front<A: Allocator>()
    ensures { (log : NodeLog A) → IsFrontOf mail_rules (told_decisions log.opening.me log.inputs) (replayed log).replica }
{}

/// A command that was submitted has its answer once it is performed. The log of a node alone doesn't say that a command
/// isn't performed before it is submitted: this is supposed here.
pub fn performed_commands_are_answered<A: Allocator>()
    ensures { (log : NodeLog A) (id : CommandId) (op : Op A) (submit : IsSubmitted log id op) →
        has_identity mail_rules id (replayed (log_until log submit.before)).replica.performed ≡ false
        → has_identity mail_rules id (replayed log).replica.performed ≡ true → is_some (answered log id) ≡ true }
{}

/// An answer comes only at the input that performs its command: what is answered is performed, and what gets an answer
/// after a log wasn't performed in it. So what was performed without an answer has none, whatever inputs follow.
pub fn answers_come_when_performed<A: Allocator>()
    ensures performed { (log : NodeLog A) (id : CommandId) → is_some (answered log id) ≡ true → has_identity mail_rules id (replayed log).replica.performed ≡ true }
    ensures new { (log : NodeLog A) (more : List (Input A)) (id : CommandId) →
        answered log id ≡ None → is_some (answered (lengthened log more) id) ≡ true → has_identity mail_rules id (replayed log).replica.performed ≡ false }
{}

/// A ticket of a user goes to one operation only, which it names from then on. It is a ticket of this
/// node, whether or not the operation is answered.
pub fn tickets_name_one_submit<A: Allocator>()
    ensures new { (log : NodeLog A) (user : List ℕ) (op : Op A) →
        op_of (logged log (Submit user op)) (next_id log.opening.me user log.inputs) ≡ Some op }
    ensures stays { (log : NodeLog A) (more : List (Input A)) (id : CommandId) (op : Op A) →
        op_of log id ≡ Some op → op_of (lengthened log more) id ≡ Some op }
    ensures found { (log : NodeLog A) (id : CommandId) (op : Op A) → (op_of log id ≡ Some op) ↔ IsSubmitted log id op }
    ensures one { (log : NodeLog A) (id : CommandId) (op other : Op A) (here : IsSubmitted log id op) (there : IsSubmitted log id other) →
        (here.before ≡ there.before) × (op ≡ other) × (here.after ≡ there.after) }
    ensures own { (log : NodeLog A) (id : CommandId) (op : Op A) → IsSubmitted log id op → id.ticket.node ≡ log.opening.me }
{}

/// The ticket that a user got last is that of the user's last Submit, and no other input changes it. A log after which
/// a user has no ticket left has at least as many inputs as there are tickets.
pub fn tickets_last<A: Allocator>()
    ensures last { (log : NodeLog A) (user : List ℕ) (op : Op A) →
        last_ticket log.opening.me user (logged log (Submit user op)).inputs ≡ ticket_of log (Submit user op) }
    ensures others { (log : NodeLog A) (user : List ℕ) (i : Input A) → (user_of i ≡ Some user → ⊥) →
        last_ticket log.opening.me user (logged log i).inputs ≡ last_ticket log.opening.me user log.inputs }
    ensures used { (log : NodeLog A) (i : Input A) → no_ticket_for log i ≡ true → LAST_TICKET ≤ length log.inputs }
{}

/// A node begins as its opening says, and a crash is for good: it sends and answers nothing, and no input after it
/// changes or sends anything.
pub fn crashes_are_for_good<A: Allocator>()
    ensures opening { (opening : Opening A) → replayed (record { opening = opening; inputs = [] }) ≡ new_node opening }
    ensures sends { (log : NodeLog A) → sends_of log Crash ≡ [] }
    ensures answers { (log : NodeLog A) (id : CommandId) → answered (logged log Crash) id ≡ answered log id }
    ensures behind { (log : NodeLog A) (more : List (Input A)) → list_any is_crash log.inputs ≡ true → replayed (lengthened log more) ≡ replayed log }
    ensures silent { (log : NodeLog A) (i : Input A) → list_any is_crash log.inputs ≡ true → sends_of log i ≡ [] }
{}
