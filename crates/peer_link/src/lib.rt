//! The link by which nodes on one machine reach each other over TCP, in processes of their own or in one.
#![tactic(auto)]

mod connection;
mod frames;
mod link;
mod peer;
mod ports;
#[cfg(test)]
mod tests;

pub use link::TcpLink;
pub use ports::port_of;
