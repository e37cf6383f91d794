//! Replicas of Multi-Paxos: a replica turns decisions, in whatever order and however often they
//! come, into one list of performed commands, and holds the answers to those that were requested
//! here.
#![tactic(auto)]

mod awaiting;
mod decisions;
mod laws;
mod moves;
mod performed;
mod performing;
mod proposing;
mod remainder;
mod replica;
mod state;

pub use ballot::Machine;
pub use laws::{
    answers_are_of_what_is_performed, answers_are_taken_once, fronts_agree,
    repeated_decisions_do_nothing, replicas_perform_the_front, requests_are_awaited,
    taken_answers_change_nothing_else,
};
pub use remainder::Remainder;
pub use replica::Replica;
