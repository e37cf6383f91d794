//! When the epochs of a service end, and who waits for that.
#![tactic(auto)]

mod deliveries;
mod progress;
mod retry;
mod rolls;

pub use deliveries::Deliveries;
pub use progress::{Wake, millis_since};
pub use retry::Retry;
pub use rolls::{Asked, EpochLoad, EpochStats, RollEnd, RollLimits, Rolls, session_bytes};
