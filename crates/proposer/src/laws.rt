//! Laws of scouts and commanders over any list of answers. Each is a function that does nothing: its
//! contract is the law.
ghost use Rattle.std.specs.Prelude.{◌≡◌, ℕ, List, [], ◌∷◌, ◌++◌, Some};
ghost use Rattle.ballot.specs.Ballots.{BallotNumber};
ghost use Rattle.ballot.specs.declared.pvalue.PValue.{PValue};
ghost use Rattle.ballot.specs.declared.message.Promise.{Promise};
ghost use Rattle.ballot.specs.declared.message.Vote.{Vote};
ghost use Rattle.proposer.specs.Scouts.{ScoutState, new_scout, scout_step, scout_after, HasPromises, IsAdoption};
ghost use Rattle.proposer.specs.Quorums.{Wins};
ghost use Rattle.proposer.specs.Commanders.{CommanderState, new_commander, commander_step, commander_after, verdict_of, HasVotes, IsDecision};
ghost use Rattle.proposer.specs.declared.commander.Verdict.TheVariants.{Decided};

use ballot::Payload;
use std::alloc::Allocator;

/// A scout that waits has counted distinct acceptors of the cluster, each by a promise of its
/// ballot among the answers, and holds what those promises told.
pub fn scouts_count_promises<C: Payload, A: Allocator>()
    ensures { (size : ℕ) (b : BallotNumber) (answers : List (ℕ × Promise C A)) (s : ScoutState C) → (scout_after C.equal (record { size = size; state = Some (new_scout b) }) answers).state ≡ Some s → HasPromises answers size b s }
{}

/// What a scout adopts are the pvalues of distinct acceptors of the cluster that are more than half
/// of it, each by a promise of its ballot among the answers, and nothing else.
pub fn scouts_adopt_what_a_majority_told<C: Payload, A: Allocator>()
    ensures { (size : ℕ) (b : BallotNumber) (answers : List (ℕ × Promise C A)) (from : ℕ) (p : Promise C A) (pvalues : List (PValue C)) → scout_step C.equal (scout_after C.equal (record { size = size; state = Some (new_scout b) }) answers) from p ≡ Wins pvalues → IsAdoption (answers ++ (from, p) ∷ []) size b pvalues }
{}

/// A commander that waits has counted distinct acceptors of the cluster, each by a vote for its
/// ballot and slot among the answers.
pub fn commanders_count_votes()
    ensures { (size : ℕ) (b : BallotNumber) (slot : ℕ) (answers : List (ℕ × Vote)) (k : CommanderState) → (commander_after (record { size = size; state = Some (new_commander b slot) }) answers).state ≡ Some k → HasVotes answers size b slot k }
{}

/// Where a commander decides, distinct acceptors of the cluster that are more than half of it have
/// voted, each for its ballot and slot among the answers.
pub fn commanders_decide_what_a_majority_voted()
    ensures { (size : ℕ) (b : BallotNumber) (slot : ℕ) (answers : List (ℕ × Vote)) (from : ℕ) (v : Vote) → verdict_of (commander_step (commander_after (record { size = size; state = Some (new_commander b slot) }) answers) from v) ≡ Decided → IsDecision (answers ++ (from, v) ∷ []) size b slot }
{}
