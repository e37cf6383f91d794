//! What a payload says.

use maildrop::{Change, Name};
use std::alloc::{Allocator, Global};

/// What a payload says: a segment begins, a maildrop changes, or all maildrops of the segment's snapshot are there.
#[derive(Drop)]
pub enum Record<A: Allocator = Global> {
    /// The segment with this number begins.
    Begin(u64),
    /// A maildrop changes.
    Entry(Entry<A>),
    /// The snapshot at the front of the segment is whole.
    Opened,
}

/// What a command changed, or a part of a snapshot.
#[derive(Drop)]
pub struct Entry<A: Allocator = Global> {
    /// The slot in which the command was decided. Nothing here depends on it.
    pub slot: u64,
    /// Whose maildrop has changed.
    pub name: Name,
    /// What has changed.
    pub change: Change<A>,
}
