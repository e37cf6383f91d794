//! One node of the service: an acceptor, a leader and a replica over the maildrops of all users. It takes one input in one
//! step, and all that it is follows from the inputs that it took: its log.
#![tactic(auto)]

mod closed_node;
mod input;
mod laws;
mod log;
mod log_replay;
mod node;
mod outputs;
mod roles;
mod step;
mod stopped;
mod tickets;

pub use closed_node::ClosedNode;
pub use input::{Input, SharedOp};
pub use laws::{
    answers_are_of_submits, answers_are_outcomes, answers_come_when_performed, answers_stay,
    crashes_are_for_good, logs_leave_lone_maildrops, nodes_perform_the_front,
    performed_commands_are_answered, tickets_last, tickets_name_one_submit,
};
pub use log::{NodeLog, Opening};
pub use log_replay::replay;
pub use node::{Node, WIDEST_WINDOW};
pub use outputs::{Envelopes, Outputs};
pub use stopped::Stopped;
