//! The command `maildropd ctl`: an operator's request to a service, and its answer.
#![tactic(auto)]

mod answer;
mod client;
mod exchange;
mod put;
mod requests;

pub use client::{CtlOptions, ctl_run};
pub use requests::awaits_nodes;
