//! Frames that come in over a connection, and where their envelopes go.
#![tactic(auto)]

mod inbox;
mod received;
mod receiving;

pub use inbox::Inbox;
pub use received::{End, Received};
pub use receiving::receive;
