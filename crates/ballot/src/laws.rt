//! Laws of the definitions that contracts of several crates speak of. Each is a function that does
//! nothing: its contract is the law.
ghost use Rattle.std.specs.Prelude.{◌≡◌, ℕ, ◌<◌, ◌⊎◌, ◌↔◌, List, ◌++◌, Bool, true, false, length, IsTrue};
ghost use Rattle.std.specs.Ordering.{is_lt};
ghost use Rattle.ballot.specs.Ballots.{BallotNumber, Below, below};
ghost use Rattle.ballot.specs.Lists.{IsIn};
ghost use Rattle.ballot.specs.Nodes.{in_cluster, is_among, count_to, AreDistinct, IsMajority};
ghost use Rattle.ballot.specs.PValues.{joined};
ghost use Rattle.ballot.specs.declared.pvalue.PValue.{PValue};

use crate::ballot::Ballot;
use crate::payload::Payload;

/// Ballots are in a strict total order, by the round and then by the leader, and comparisons
/// follow it.
pub fn ballots_are_ordered()
    ensures compared { (a b : BallotNumber) → is_lt (⟦<Ballot as Ord>⟧.cmp a b) ≡ below a b }
    ensures tested { (a b : BallotNumber) → IsTrue (below a b) ↔ Below a b }
    ensures irreflexive { (a : BallotNumber) → ¬ Below a a }
    ensures transitive { (a b c : BallotNumber) → Below a b → Below b c → Below a c }
    ensures total { (a b : BallotNumber) → (a ≡ b) ⊎ (Below a b ⊎ Below b a) }
{}

/// Two majorities of one cluster share a node.
pub fn majorities_share_a_node()
    ensures { (size : ℕ) (first second : ℕ → Bool) → IsMajority size first → IsMajority size second → (node : ℕ) × IsTrue (in_cluster size node) × IsTrue (first node) × IsTrue (second node) }
{}

/// Distinct nodes of a cluster are as many as those of its nodes that are among them.
pub fn distinct_nodes_are_counted()
    ensures { (size : ℕ) (nodes : List ℕ) → AreDistinct size nodes → count_to size (λ node. is_among node nodes) ≡ length nodes }
{}

/// A union of pvalues holds what either list holds, and nothing else.
pub fn a_union_holds_both<C: Payload>()
    ensures { (first second : List (PValue C)) (pvalue : PValue C) → IsIn pvalue (joined C.equal first second) ↔ (IsIn pvalue first ⊎ IsIn pvalue second) }
{}
