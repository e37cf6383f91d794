//! What a service notes of its sessions: facts, counters, events, the list of open sessions; and the bounds on their time
//! and bytes.
#![tactic(auto)]

mod bounded_reader;
mod bounds;
mod counters;
mod desk;
mod event_lines;
mod event_log;
mod facts;
mod log_queue;
mod log_writer;
mod open_sessions;
mod reply_writer;
mod writing;

pub use bounded_reader::BoundedReader;
pub use bounds::{REFUSED_LOGIN_SECONDS, WRITE_SECONDS};
pub use counters::Counters;
pub use desk::SessionDesk;
pub use event_lines::StartLoad;
pub use event_log::EventLog;
pub use facts::{SessionFacts, SharedFacts, ending_of};
pub use open_sessions::{OpenSession, OpenSessions};
pub use reply_writer::ReplyWriter;
pub use writing::{put, put_labelled, put_number_line};
