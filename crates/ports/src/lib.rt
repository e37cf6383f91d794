//! Ports of a service: listeners, the threads that serve their connections, and operators' streams with their limits.
#![tactic(auto)]

mod arrivals;
mod connection;
mod delivery_budget;
mod fault;
mod file;
mod handler;
mod idle;
mod listener;
mod opening;
mod operator_connection;
mod operator_limits;
mod operator_place;
mod operator_reader;
mod operator_socket;
mod operator_stream;
mod request_places;
mod saying;
mod stages;
mod system;
mod worker;
mod workers;

pub use connection::{Connection, Listening};
pub use delivery_budget::DeliveryBudget;
pub use fault::Fault;
pub use file::{ReadOn, read_file, read_within};
pub use handler::{Handler, ServeEnd};
pub use listener::{Port, listen_at, start_reserve, start_serving, start_taking};
pub use opening::Opening;
pub use operator_connection::OperatorConnection;
pub use operator_limits::{LONGEST_PAUSE_MS, PIECE};
pub use operator_place::{OperatorPlace, connect};
pub use operator_reader::OperatorReader;
pub use operator_socket::OperatorSocket;
pub use operator_stream::{OperatorListener, OperatorStream};
pub use request_places::RequestPlaces;
pub use saying::say;
pub use stages::Stages;
pub use system::System;
pub use worker::STACK;
