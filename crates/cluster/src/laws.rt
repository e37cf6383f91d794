//! What holds of the definitions.
ghost use Rattle.std.specs.Prelude.{◌≡◌, List, true};
ghost use Rattle.maildrop.specs.Office.{User, outcome_in};
ghost use Rattle.maildrop.specs.declared.command.Command.{Command};
ghost use Rattle.cluster.specs.Fits.{may_answer};

use std::alloc::Allocator;

/// Whatever maildrops answer to a command is an outcome that its operation may have. So a desk that looks for that
/// refuses no answer of theirs.
pub fn outcomes_fit_their_operations<A: Allocator>()
    ensures { (users : List (User A)) (c : Command A) → may_answer (outcome_in users c) c.op ≡ true }
{}
