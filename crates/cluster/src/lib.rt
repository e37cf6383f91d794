//! Nodes on threads: one thread a node, which hears what comes to its inbox, and desks by which sessions on threads of their
//! own ask a node and await its answers. All that a thread does to a node it does under the node's lock: steps, up to 32
//! envelopes at a time and each with what the node sends to itself, the taking and letting go of answers, and the end.
#![tactic(auto)]

mod closed;
mod cluster;
mod desk;
mod ended;
mod ended_node;
mod handle;
mod hub;
mod laws;
mod link;
mod member;
mod op_kind;
mod outbox;
mod patience;
mod performed;
mod retired;
mod sessions;
mod setup;
mod start_error;
mod start_links;
mod status;
mod users;
mod waiters;

pub use cluster::Cluster;
pub use desk::NodeDesk;
pub use ended::{Ended, EndedLogs};
pub use laws::outcomes_fit_their_operations;
pub use link::{InboxLink, Link};
pub use patience::Patience;
pub use performed::Performed;
pub use sessions::Job;
pub use setup::{Deployment, Setup};
pub use start_error::StartError;
pub use status::Status;
