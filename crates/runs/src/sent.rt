//! What was sent.

use ballot::Envelope;
use maildrop::SharedCommand;
use std::alloc::{Allocator, Global};

/// A message that was sent, and how often it has arrived.
#[derive(Drop)]
pub struct Sent<A: Allocator = Global> {
    /// From which node to which it goes, and what it says.
    pub envelope: Envelope<SharedCommand<A>, A>,
    /// How often it has arrived, 0 at first.
    pub arrived: u64,
}
