//! The frames that nodes of a cluster send one another over a stream of bytes, one for each envelope.
//!
//! A frame is the length of its content in four bytes, and the content: one byte each for the version, the kind of the
//! message, the sender and the addressee, then the message's fields. `encode` and `append` write version 2, `decode` reads
//! 2 and 1. They differ only in the key of a delivery, which version 1 doesn't have.
#![tactic(auto)]

mod command_reading;
mod command_writing;
mod content;
mod cursor;
mod decoding;
mod encode_error;
mod encoding;
mod fault;
mod field_reading;
mod field_writing;
mod header;
mod kind;
mod laws;
mod malformed;
mod message_reading;
mod message_writing;
mod version;

pub use decoding::decode;
pub use encode_error::EncodeError;
pub use encoding::{append, encode};
pub use fault::FrameFault;
pub use laws::{frames_are_not_read_in_part, frames_are_read_back};
