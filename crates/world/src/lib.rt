//! A whole service under a list of events: what its nodes decide and what its clients read, whatever is lost, repeated,
//! late or crashed.
#![tactic(auto)]

mod act;
mod collect;
mod connection;
mod connections;
mod hangup;
mod host;
mod hosts;
mod index;
mod line;
mod next;
mod nodes;
mod operations;
mod refusal;
mod sent_messages;
mod sessions;
mod settle;
mod waiting;
mod whole_run;
mod world;

pub use runs::{Config, Event, Refused, Sent, SessionId};
pub use waiting::Waiting;
pub use whole_run::{Runs, run};
pub use world::{WIDEST_WINDOW, World};
