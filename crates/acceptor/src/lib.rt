//! Acceptors of Multi-Paxos. An acceptor promises ballots, and keeps for each slot the accepted
//! pvalue of the highest ballot.
#![tactic(auto)]

mod acceptor;
mod laws;

pub use acceptor::Acceptor;
pub use laws::{
    acceptors_keep_the_highest, acceptors_reach_what_they_keep, what_is_kept_stays_or_is_topped,
};
