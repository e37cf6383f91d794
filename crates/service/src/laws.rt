//! What holds of the epochs of a service. A function that does nothing has the law as its contract.
ghost use Rattle.std.specs.Prelude.{◌≡◌, List};
ghost use Rattle.std.specs.List.{All};
ghost use Rattle.std.specs.declared.alloc.Global.{Global};
ghost use Rattle.maildrop.specs.Kept.{KeptTable};
ghost use Rattle.runs.specs.Lives.{Epoch, IsLife, first_of};
ghost use Rattle.runs.specs.declared.config.Config.{Config};
ghost use Rattle.service.specs.Epochs.{EpochValue, LeadTo, WasLegalEpoch};
ghost use Rattle.service.specs.Lives.{AreRunsOf};

use audit::a_legal_order_is_a_run;
use std::alloc::Global;

/// Epochs of which each had a legal order, and each opened with what the one before it handed on, are one life of services:
/// there is a run of each that brings what its nodes and sessions left, and each run opens with what a node of the one before
/// it left. The first one opened with what a data folder had, or with nothing. So what `runs::lives_go_on` states holds of them: in the service that opens
/// next, each session gets the replies that one server alone would give after the user's commands of all epochs.
pub fn audited_epochs_are_a_life()
    ensures { (first : KeptTable Global) (before : List EpochValue) (last : Config Global) → LeadTo first before last.kept → All WasLegalEpoch before
        → (runs : List (Epoch Global)) × AreRunsOf before runs × IsLife runs last × ((first_of runs last).kept ≡ first) }
{
    a_legal_order_is_a_run::<Global>();
}
