//! Every run of a service is linearizable: it is as if each operation took effect at one moment, if at all, after it was
//! submitted to a node and before the node has got its answer. Each law is a function that does nothing: its contract is
//! the law.
//!
//! The object is the table of all users' maildrops, and its operations are Mail, Take, Commit, Free and Break. The order
//! of the moments is the decided order: it has each command once, only commands that were submitted, and all that are
//! answered; the answers are right in that order; and a command that was answered before another one was submitted
//! stands before it.
#![tactic(auto)]

ghost use Rattle.std.specs.Prelude.{ℕ, List, ◌++◌};
ghost use Rattle.maildrop.specs.CommandId.{CommandId};
ghost use Rattle.maildrop.specs.declared.command.Command.{Command};
ghost use Rattle.maildrop.specs.declared.outcome.Outcome.{Outcome};
ghost use Rattle.session.specs.Prefix.{IsPrefix};
ghost use Rattle.runs.specs.Chosen.{IsChosen};
ghost use Rattle.runs.specs.Messages.{envelopes};
ghost use Rattle.runs.specs.Projection.{decided};
ghost use Rattle.runs.specs.Services.{Happening, run_of};
ghost use Rattle.runs.specs.declared.config.Config.{Config};
ghost use Rattle.linearizability.specs.Linearized.{IsAnswered, IsNew, IsLinearized, Precedes};

use std::alloc::Allocator;

/// In every run the decided order has each command once, and only commands that were submitted. Each answer that a node
/// has got is for a command of that order, and is that of its user's maildrop after the user's own commands before it.
pub fn runs_are_linearized<A: Allocator>()
    ensures { (config : Config A) (happenings : List (Happening A)) → IsLinearized config (run_of config happenings) }
{}

/// A command that is answered before another one is submitted stands before it in the decided order, whatever happens
/// later.
pub fn answered_commands_come_first<A: Allocator>()
    ensures { (config : Config A) (early late : List (Happening A)) (id other : CommandId) (answer : Outcome A) →
        IsAnswered (run_of config early) id answer → IsNew (run_of config early) other
        → Precedes id other (decided config (run_of config (early ++ late))) }
{}

/// Whatever happens later, a command that is chosen in a slot stays chosen there, and the decided order only grows.
pub fn what_is_decided_stays<A: Allocator>()
    ensures chosen { (config : Config A) (early late : List (Happening A)) (slot : ℕ) (c : Command A) →
        IsChosen config.cluster (envelopes (run_of config early).network) slot c
        → IsChosen config.cluster (envelopes (run_of config (early ++ late)).network) slot c }
    ensures order { (config : Config A) (early late : List (Happening A)) →
        IsPrefix (decided config (run_of config early)) (decided config (run_of config (early ++ late))) }
{}
