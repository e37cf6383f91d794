//! What a service is given, what its nodes do with it, and the laws of every such run: the headline is among them. Nothing
//! here runs a service. `world` does, and `audit` compares what threads did with a run.
#![tactic(auto)]

mod config;
mod event;
mod laws;
mod refused;
mod sent;
mod service_laws;
mod session_id;

pub use config::Config;
pub use event::Event;
pub use laws::{
    agreement, answers_are_of_own_commands, learning, the_decided_order_grows, validity,
};
pub use refused::Refused;
pub use sent::Sent;
pub use service_laws::{
    answers_fit, lives_go_on, one_user, projection, refused_changes_nothing, services_go_on,
    services_run_on_nodes, tickets_of_sessions, two_runs, what_was_told_stays,
};
pub use session_id::SessionId;
