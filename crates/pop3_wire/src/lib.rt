//! What a POP3 server and its clients send one another (RFC 1939): lines and commands of the client, replies and
//! texts of the server.
#![tactic(auto)]

mod line;
mod line_bytes;
mod line_reader;
mod listed;
mod parsing;
mod reply;
mod reply_text;
mod stuffing;
mod unstuffing;
mod verb;
mod writing;

pub use line::Line;
pub use line_bytes::{LONGEST_LINE, LineBytes};
pub use line_reader::{LineReader, reader_cuts_lines};
pub use listed::{Identified, Listed};
pub use parsing::parse;
pub use reply::Reply;
pub use reply_text::message_line;
pub use stuffing::stuffed;
pub use unstuffing::unstuffed;
pub use verb::{Keyword, LineFault, Verb};
