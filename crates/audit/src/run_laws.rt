//! Laws that tie audits to runs of a service. Each is a function that does nothing: its contract is the law.
//!
//! A legal order of logs and transcripts is a run: what nodes logged and what sessions were told is what came of it. So
//! what holds of every run holds of what was audited, to each byte that a session counted.
ghost use Rattle.std.specs.Prelude.{◌≡◌, ◌<◌, ◌≤◌, ℕ, length, List, true};
ghost use Rattle.apop.specs.Stamp.{Stamp};
ghost use Rattle.node.specs.declared.log.NodeLog.{NodeLog};
ghost use Rattle.session.specs.declared.transcript.Transcript.{Transcript};
ghost use Rattle.runs.specs.Services.{Happening, opening_of, run_of};
ghost use Rattle.runs.specs.declared.config.Config.{Config};
ghost use Rattle.audit.specs.Order.{IsLegalOrder};
ghost use Rattle.audit.specs.Records.{is_fit, AreFit, case_of};
ghost use Rattle.audit.specs.Runs.{AreInOrder, AreOfService, IsRunOf, IsTaken, AreAllSaidAlone};
ghost use Rattle.audit.specs.declared.event.Event.{Event};

use std::alloc::Allocator;

/// Logs and transcripts of a service are what an audit is made for, if a node can begin as its nodes do, and the logs
/// are those of some of its nodes, from the first on.
pub fn a_service_is_fit<A: Allocator>()
    ensures { (config : Config A) (stamps : ℕ → Stamp) (logs : List (NodeLog A)) (transcripts : List (Transcript A)) →
        is_fit (opening_of config) ≡ true → 0 < length logs → length logs ≤ config.cluster → AreInOrder logs
        → AreOfService config stamps logs transcripts
        → AreFit logs transcripts }
{}

/// A legal order of logs and transcripts of a service is a run of that service: there is a run in which each node took
/// the inputs of its log, and each session that began sent its lines, got its tickets, and was told all that its
/// transcript tells.
pub fn a_legal_order_is_a_run<A: Allocator>()
    ensures { (config : Config A) (stamps : ℕ → Stamp) (logs : List (NodeLog A)) (transcripts : List (Transcript A)) →
        AreFit logs transcripts → AreOfService config stamps logs transcripts
        → (events : List Event) → IsLegalOrder (case_of logs transcripts) events
        → (happenings : List (Happening A)) × IsRunOf config stamps logs transcripts (run_of config happenings) }
{}

/// The service takes such an order event by event, and refuses none: each can happen where it stands, and where each
/// message and each break that a node was given is for a user with an account a caller is refused none either. So a legal
/// order can be played, and brings what the transcripts tell.
pub fn a_legal_order_is_taken<A: Allocator>()
    ensures { (config : Config A) (stamps : ℕ → Stamp) (logs : List (NodeLog A)) (transcripts : List (Transcript A)) →
        AreFit logs transcripts → AreOfService config stamps logs transcripts
        → (events : List Event) → IsLegalOrder (case_of logs transcripts) events
        → IsTaken config stamps logs transcripts events }
{}

/// In such a run each byte that a session wrote and counted is said by a server that has the user's maildrop alone.
pub fn counted_bytes_are_projected<A: Allocator>()
    ensures { (config : Config A) (stamps : ℕ → Stamp) (logs : List (NodeLog A)) (transcripts : List (Transcript A)) (happenings : List (Happening A)) →
        IsRunOf config stamps logs transcripts (run_of config happenings)
        → AreAllSaidAlone config stamps transcripts (run_of config happenings) }
{}
