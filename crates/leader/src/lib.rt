//! Leaders of Multi-Paxos: a leader campaigns for a ballot, and once it has it, asks the acceptors
//! to accept its proposals.
#![tactic(auto)]

mod adopting;
mod events;
mod laws;
mod leader;
mod state;

pub use laws::{
    adoptions_take_the_highest, leaders_are_orderly, leaders_ask_for_their_proposals,
    one_command_for_a_slot, proposals_stay,
};
pub use leader::Leader;
