//! `maildropd sim`: plays a script against a whole service, and writes what comes of each line.
#![tactic(auto)]

mod deliveries;
mod events;
mod fault;
mod operations;
mod play;
mod reading;
mod refusal;
mod report;
mod run;
mod service;
mod sessions;
mod sim;
mod undelivered;

pub use sim::{SimEnd, sim_run};
