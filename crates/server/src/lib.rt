//! The command `maildropd lone`, which serves one session over one maildrop, as calls over any reader and writer.
#![tactic(auto)]

mod fault;
mod lone;
mod lone_asks;
mod lone_desk;
mod mail;
mod options;

pub use fault::Fault;
pub use lone::lone_run;
pub use lone_desk::LoneDesk;
pub use options::{LONE_IDS, LONE_MESSAGES, LONE_OCTETS, LoneOptions};
