//! Who may log in (RFC 1939 section 7, PASS and APOP), and the timestamp of a greeting.
#![tactic(auto)]

mod accounts;
mod constant_time;
mod credential;
mod digest;
mod error;
mod from_parts;
mod method;
mod reading;
mod row;
mod single;
mod timestamp;

pub use accounts::Accounts;
pub use error::AccountsError;
pub use from_parts::stamp;
pub use method::Method;
pub use row::{Row, row_of};
pub use timestamp::Stamp;
