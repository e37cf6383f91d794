//! Ballots and their order.
ghost use Rattle.std.specs.Prelude.{◌≡◌, IfSome};
ghost use Rattle.ballot.specs.Ballots.{BallotNumber, Below, next_ballot};

use crate::node_id::NodeId;
use std::marker::Model;

/// A ballot: a round of the leader that opened it. The higher round is the higher ballot, and at
/// a tie the higher leader.
#[derive(Clone, Copy, Debug, PartialEq, Eq, PartialOrd, Ord, Hash)]
pub struct Ballot {
    /// The round, 0 to 2^64 - 1.
    pub round: u64,
    /// The node that opened it.
    pub leader: NodeId,
}

impl Model for Ballot {
    ghost Value = { BallotNumber };

    ghost view = { λ b. record { round = b.round; leader = b.leader } };

    ghost inverse = { λ b. record { round = b.round; leader = b.leader } };
}

impl Ballot {
    /// The ballot of `me` that is above each ballot of the seen one's round, if there is a round
    /// after it.
    pub fn next(seen: Ballot, me: NodeId) -> Option<Ballot>
        ensures value { result ≡ next_ballot seen me }
        ensures above { IfSome result (Below seen) }
    {
        let round = seen.round.checked_add(1)?;
        Some(Ballot { round, leader: me })
    }
}
