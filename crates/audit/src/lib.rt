//! An audit of a service that ran: was what its nodes and its sessions did legal? `audit` looks for a legal order of what
//! they logged. What a legal order is, and what follows from one, is stated here too.
#![tactic(auto)]

mod audit_error;
mod auditing;
mod check;
mod command_index;
mod different_names;
mod envelope;
mod event;
mod findings;
mod home;
mod kind;
mod last_answers;
mod laws;
mod left;
mod numbers;
mod outcomes;
mod pass;
mod placement;
mod placing;
mod replay;
mod run_laws;
mod sent;
mod sources;
mod speaker;
mod turns;
mod write;

pub use audit_error::AuditError;
pub use auditing::audit;
pub use event::Event;
pub use laws::{
    a_placing_ends, a_stuck_placing_has_no_order, a_stuck_placing_holds_every_placing,
    a_whole_placing_has_an_order, a_written_order_is_legal, placing_takes_no_turn_away,
};
pub use run_laws::{
    a_legal_order_is_a_run, a_legal_order_is_taken, a_service_is_fit, counted_bytes_are_projected,
};
