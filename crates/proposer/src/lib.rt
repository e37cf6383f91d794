//! Scouts and commanders of Multi-Paxos: each waits for the answers of more than half of the
//! acceptors, and ends at a higher ballot.
#![tactic(auto)]

mod commander;
mod laws;
mod scout;
mod union;

pub use commander::{Commander, Verdict};
pub use laws::{
    commanders_count_votes, commanders_decide_what_a_majority_voted,
    scouts_adopt_what_a_majority_told, scouts_count_promises,
};
pub use scout::{Progress, Scout};
