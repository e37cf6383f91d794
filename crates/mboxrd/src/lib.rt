//! Mailboxes in the mboxrd format: texts one after another in a file, each after a line `From ..`.
#![tactic(auto)]

mod error;
mod laws;
mod open_text;
mod quoting;
mod reader;
mod reading;
mod writing;

pub use error::MboxError;
pub use laws::written_texts_are_read_back;
pub use reader::{Reader, can_begin};
pub use reading::read;
pub use writing::write;
