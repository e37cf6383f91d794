//! Laws of what is written. Each is a function that does nothing: its contract is the law.
ghost use Rattle.std.specs.Prelude.{◌≡◌, ◌≤◌, ◌++◌, ℕ, List, Some, IsTrue};
ghost use Rattle.std.specs.List.{All};
ghost use Rattle.std.specs.List.Sorted.{IsStrictlyIncreasing};
ghost use Rattle.maildrop.specs.Kept.{KeptMaildrop, IsConsistent, nothing_kept};
ghost use Rattle.maildrop.specs.Changes.{changed_if_fit};
ghost use Rattle.maildrop.specs.Limits.{AreLimits, Limits};
ghost use Rattle.maildrop.specs.Maildrop.{Maildrop, opened, closed};
ghost use Rattle.maildrop.specs.Office.{User, maildrop_of, commands_of, ids_given};
ghost use Rattle.maildrop.specs.Reopening.{after_steps};
ghost use Rattle.maildrop.specs.declared.command.Command.{Command};
ghost use Rattle.maildrop.specs.declared.change.Change.{Change};
ghost use Rattle.ledger.specs.Taking.{Decided, entries_of, commands_in, changes_for, written_at};
ghost use Rattle.ledger.specs.Coming.{IsSound, can_come, taken_by};
ghost use Rattle.ledger.specs.Changes.{Epoch, StaysConsistent, changed_by, performing, written_of, stored_in, snapshot_of, opening_after, file_of, read_file, joined, outcomes_by_epochs, outcomes_in_steps, ids_by_epochs, ids_in_file};

use maildrop::reopening_keeps_ids;
use std::alloc::Allocator;

/// What was written of a user's commands, read over what was kept of the maildrop before them, is what is kept of it
/// after them. Nothing more has to be written. The unique ids that are written are those that were given.
pub fn what_is_written_is_enough<A: Allocator>()
    ensures enough { (maildrop : Maildrop A) (commands : List (Command A)) →
        changed_by (closed maildrop) (written_of maildrop commands) ≡ closed (after_steps maildrop (performing commands)) }
    ensures ids { (maildrop : Maildrop A) (commands : List (Command A)) →
        stored_in (written_of maildrop commands) ≡ ids_given maildrop commands }
{}

/// A snapshot, read over nothing, is what was kept, also if more is written after it.
pub fn a_snapshot_is_the_maildrop<A: Allocator>()
    ensures whole { (kept : KeptMaildrop A) → changed_by nothing_kept (snapshot_of kept) ≡ kept }
    ensures more { (maildrop : Maildrop A) (commands : List (Command A)) →
        changed_by nothing_kept (snapshot_of (closed maildrop) ++ written_of maildrop commands)
        ≡ closed (after_steps maildrop (performing commands)) }
{}

/// What is kept stays consistent after each change that is read, whether it was written of commands or is part of a
/// snapshot. So a reader can refuse a change that breaks this.
pub fn each_change_keeps_consistency<A: Allocator>()
    ensures written { (maildrop : Maildrop A) (commands : List (Command A)) → AreLimits maildrop.limits → IsConsistent (closed maildrop) →
        StaysConsistent (closed maildrop) (written_of maildrop commands) }
    ensures snapshot { (kept : KeptMaildrop A) → IsConsistent kept → StaysConsistent nothing_kept (snapshot_of kept) }
{}

/// What is written can be read by a reader that takes only changes that can come: each change that is written of commands
/// can come where it comes, and so can each change of a sound maildrop's snapshot. So what such a reader has is what was
/// written. The snapshot has to be of the maildrop as it was opened: a key that the opening has dropped may come again, and
/// such a reader would refuse it if the snapshot still had it.
pub fn what_is_written_can_be_read<A: Allocator>()
    ensures written { (maildrop : Maildrop A) (commands : List (Command A)) → AreLimits maildrop.limits →
        IsTrue (can_come (closed maildrop) (written_of maildrop commands)) }
    ensures snapshot { (kept : KeptMaildrop A) → IsSound kept → IsTrue (can_come nothing_kept (snapshot_of kept)) }
    ensures all_taken { (kept : KeptMaildrop A) (changes : List (Change A)) → IsTrue (can_come kept changes) →
        taken_by kept changes ≡ changed_by kept changes }
    ensures written_read { (maildrop : Maildrop A) (commands : List (Command A)) → AreLimits maildrop.limits →
        taken_by (closed maildrop) (written_of maildrop commands) ≡ closed (after_steps maildrop (performing commands)) }
    ensures snapshot_read { (kept : KeptMaildrop A) → IsSound kept → taken_by nothing_kept (snapshot_of kept) ≡ kept }
    ensures more_read { (maildrop : Maildrop A) (commands : List (Command A)) → AreLimits maildrop.limits → IsSound (closed maildrop) →
        taken_by nothing_kept (snapshot_of (closed maildrop) ++ written_of maildrop commands)
        ≡ closed (after_steps maildrop (performing commands)) }
{}

/// Each maildrop is sound that came from nothing by changes that could come, by openings and by commands.
pub fn maildrops_stay_sound<A: Allocator>()
    ensures nothing { IsSound {A = A} nothing_kept }
    ensures changed { (kept : KeptMaildrop A) (change : Change A) → IsSound kept → IsSound (changed_if_fit kept change) }
    ensures opened { (limits : Limits) (keys : ℕ) (kept : KeptMaildrop A) → IsSound kept → IsSound (closed (opened limits keys kept)) }
    ensures performed { (maildrop : Maildrop A) (commands : List (Command A)) → AreLimits maildrop.limits → IsSound (closed maildrop) →
        IsSound (closed (after_steps maildrop (performing commands))) }
{}

/// What is added of commands of all users that are taken one after another: for each user, it is what is written of the
/// user's own commands, in their order. So a reader that takes a snapshot of the user's maildrop and then these changes has
/// what is kept of that maildrop after the user's commands.
pub fn what_is_taken_is_written<A: Allocator>()
    ensures own { (name : List ℕ) (users : List (User A)) (decided : List (Decided A)) →
        changes_for name (entries_of users decided) ≡ written_at (maildrop_of name users) (commands_of name (commands_in decided)) }
    ensures read { (name : List ℕ) (users : List (User A)) (decided : List (Decided A)) (maildrop : Maildrop A) →
        maildrop_of name users ≡ Some maildrop → AreLimits maildrop.limits → IsSound (closed maildrop) →
        taken_by nothing_kept (snapshot_of (closed maildrop) ++ changes_for name (entries_of users decided))
        ≡ closed (after_steps maildrop (performing (commands_of name (commands_in decided)))) }
{}

/// A restart is an epoch that opens with what the one before it left. What was written in all epochs, read back, is what
/// the next one opens with. That is what is kept of one maildrop that lived through all of them and was opened again at
/// each restart, and each command got the outcome there that it got in its epoch.
pub fn restarts_are_reopenings<A: Allocator>()
    ensures read_back { (kept : KeptMaildrop A) (epochs : List (Epoch A)) →
        read_file kept (file_of kept epochs) ≡ opening_after kept epochs }
    ensures one_maildrop { (maildrop : Maildrop A) (epochs : List (Epoch A)) →
        opening_after (closed maildrop) epochs ≡ closed (after_steps maildrop (joined epochs)) }
    ensures outcomes { (maildrop : Maildrop A) (epochs : List (Epoch A)) →
        outcomes_by_epochs (closed maildrop) epochs ≡ outcomes_in_steps maildrop (joined epochs) }
{}

/// A unique id is never given twice, in whatever epochs, and none is below the next one with which they began. Those in
/// the file rise too: they are the ones that were given.
pub fn ids_are_given_once<A: Allocator>()
    ensures rising { (kept : KeptMaildrop A) (epochs : List (Epoch A)) → IsStrictlyIncreasing (ids_by_epochs kept epochs) }
    ensures above { (kept : KeptMaildrop A) (epochs : List (Epoch A)) → All (λ uid. kept.next_uid ≤ uid) (ids_by_epochs kept epochs) }
    ensures written { (kept : KeptMaildrop A) (epochs : List (Epoch A)) → ids_in_file (file_of kept epochs) ≡ ids_by_epochs kept epochs }
{
    reopening_keeps_ids::<A>();
}
