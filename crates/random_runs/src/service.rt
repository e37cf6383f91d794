//! A service, and what happened in it.

use crate::config::{ACCOUNTS, WINDOW, accounts, limits};
use crate::happening::{Happening, event_of};
use ballot::{Cluster, NodeId, Slot};
use maildrop::{Kept, Shared, SharedCommand};
use std::alloc::Global;
use std::test::Fail;
use world::{Config, Event, World};

/// A service, and what happened in it.
#[derive(Drop)]
pub struct Service {
    pub world: World,
    pub cluster: Cluster,
    /// All that it took, the oldest first.
    pub happened: Vec<Happening>,
}

impl Service {
    /// A service of which nothing has happened.
    pub fn new(alloc: Global, cluster: Cluster) -> Result<Service, Fail> {
        let limits = limits()?;
        let accounts = accounts(alloc, ACCOUNTS)?;
        let config = Config {
            accounts,
            limits,
            kept: Shared::new(alloc, Kept::new(alloc))?,
            keys: 0,
            cluster,
            window: WINDOW,
        };
        Ok(Service {
            world: World::new(alloc, config)?,
            cluster,
            happened: Vec::new(alloc),
        })
    }

    /// It happens, if it can. Whether it could.
    pub fn take(&mut self, happening: Happening) -> Result<bool, Fail> {
        let event = event_of(&happening)?;
        if self.world.step(event).is_err() {
            return Ok(false);
        }
        self.happened.push(happening)?;
        Ok(true)
    }

    /// What comes next by itself, the oldest or the newest: messages may come twice if the newest come first.
    pub fn next(&self, newest: bool) -> Option<Happening> {
        let event = if newest {
            self.world.next_newest(0, 2)
        } else {
            self.world.next_oldest(0)
        };
        match &event? {
            Event::Arrive(which) => Some(Happening::Arrive(*which)),
            Event::Collect { session } => Some(Happening::Collect(session.get() as usize)),
            _ => None,
        }
    }

    /// The most that a node has performed.
    pub fn longest(&self) -> &[(Slot, SharedCommand)] {
        let mut longest: &[(Slot, SharedCommand)] = &[];
        for number in 1..=self.cluster.get() {
            if let Some(node) = NodeId::new(number)
                && let Some(performed) = self.world.performed(node)
                && performed.len() > longest.len()
            {
                longest = performed;
            }
        }
        longest
    }
}
