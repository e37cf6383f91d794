//! What tests share: samples of the values that many of them need, and scenarios whose requests for memory are refused
//! in turn. No product crate stands on it.
#![tactic(auto)]

mod maildrops;
mod paxos;
mod random;
mod scenario;

pub use maildrops::{alice, limits, mail, name, node_ticket, text, ticket, widest_limits};
pub use paxos::{
    Accepted, Number, are, ballot, cluster, new_number, node, promise, pvalue, slot, three,
};
pub use random::Random;
pub use scenario::{Heap, Scenario, check, refuse, requests};
