//! What a service begins with.

use apop::Accounts;
use ballot::Cluster;
use maildrop::{Kept, Limits, Shared};
use std::alloc::{Allocator, Global};

/// What a service begins with. Its nodes have the same accounts, limits and window.
#[derive(Drop)]
pub struct Config<A: Allocator = Global> {
    /// The users who may log in. Each has a maildrop.
    pub accounts: Accounts<A>,
    /// The limits of each maildrop.
    pub limits: Limits,
    /// What the maildrops open with, each by the name of its user. A user of whom nothing is kept begins with an empty
    /// one.
    pub kept: Shared<Kept<A>, A>,
    /// How many keys a maildrop opens with at most: the last ones that are kept of it.
    pub keys: usize,
    /// The nodes.
    pub cluster: Cluster,
    /// For how many slots a node proposes, from the next one on that it performs: 1 to 1,000.
    pub window: u64,
}
