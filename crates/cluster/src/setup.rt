//! What the nodes of a cluster begin with.

use ballot::{Cluster, Items};
use maildrop::{Kept, Limits, Name, Shared};
use std::marker::Brand;

/// What all nodes of a cluster begin with, beside their numbers.
#[derive(Drop)]
pub struct Setup {
    /// How many nodes there are.
    pub cluster: Cluster,
    /// For how many slots a node proposes, from the next one on that it performs: 1 to 1,000.
    pub window: u64,
    /// The users who have a maildrop, all different.
    pub names: Items<Name>,
    /// The limits of each maildrop.
    pub limits: Limits,
    /// What the maildrops open with, each by the name of its user. A user of whom nothing is kept begins with an empty
    /// one.
    pub kept: Shared<Kept>,
    /// How many keys a maildrop opens with at most: the last ones that are kept of it.
    pub keys: usize,
}

/// One cluster, by what its nodes began with. It has no values: types that lie under a lock name it, so that whoever
/// gets the lock knows the cluster. Each call of a program that starts a cluster picks it.
pub trait Deployment {
    ghost use Rattle.cluster.specs.declared.setup.Setup.{Setup};

    ghost setup: { Setup };
}

impl Deployment for Brand {
    ghost use Rattle.std.specs.Prelude.{[]};
    ghost use Rattle.cluster.specs.declared.setup.Setup.{Setup};

    ghost setup = { record { cluster = 1; window = 1; names = []; limits = record { messages = 0; octets = 0; ids = 0 }; kept = []; keys = 0 } };
}
