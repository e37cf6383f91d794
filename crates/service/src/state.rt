//! What all threads of an epoch share.

use crate::draining::Draining;
use crate::epoch_journal::EpochJournal;
use crate::hearing::HeardNodes;
use crate::life::ServiceLife;
use crate::lock_breaker::LockBreaker;
use apop::Accounts;
use ports::Stages;
use rolls::Deliveries;
use std::alloc::Global;
use std::sync::{Arc, Mutex, Wait};

/// What all threads of an epoch share: who may log in, and how far the epoch has come. What names a ticket is here, since
/// tickets begin at 1 in each epoch.
#[derive(Drop)]
pub(crate) struct ServiceState {
    life: Arc<ServiceLife>,
    /// The number of the epoch, counted from 1.
    epoch: u64,
    accounts: Arc<Accounts>,
    stages: Stages,
    draining: Draining,
    lock_breaker: LockBreaker,
    heard_nodes: HeardNodes,
    deliveries: Mutex<Deliveries>,
    journal: EpochJournal,
}

impl ServiceState {
    /// What threads share at the start of an epoch.
    pub(crate) fn new(
        alloc: Global,
        life: Arc<ServiceLife>,
        epoch: u64,
        accounts: Arc<Accounts>,
        journal: EpochJournal,
    ) -> Self {
        ServiceState {
            life,
            epoch,
            accounts,
            stages: Stages::new(),
            draining: Draining::new(),
            lock_breaker: LockBreaker::new(alloc),
            heard_nodes: HeardNodes::new(),
            deliveries: Mutex::new(Deliveries::new()),
            journal,
        }
    }

    /// What goes on over all epochs.
    pub(crate) fn life(&self) -> &ServiceLife {
        &self.life
    }

    /// The number of the epoch, counted from 1.
    pub(crate) fn epoch(&self) -> u64 {
        self.epoch
    }

    /// Who may log in.
    pub(crate) fn accounts(&self) -> &Accounts {
        &self.accounts
    }

    /// How far the epoch has come.
    pub(crate) fn stages(&self) -> &Stages {
        &self.stages
    }

    /// The end of its sessions, if the service goes on without them.
    pub(crate) fn draining(&self) -> &Draining {
        &self.draining
    }

    /// What breaks the locks of sessions whose nodes are down.
    pub(crate) fn lock_breaker(&self) -> &LockBreaker {
        &self.lock_breaker
    }

    /// Which nodes of other processes were heard.
    pub(crate) fn heard_nodes(&self) -> &HeardNodes {
        &self.heard_nodes
    }

    /// Where what its commands change is written.
    pub(crate) fn journal(&self) -> &EpochJournal {
        &self.journal
    }

    /// Whether the epoch has ended, or ends, and the service goes on with the next one.
    pub(crate) fn is_followed<R: Wait>(&self, rt: &R) -> bool {
        (self.stages.has_ended(rt) || self.are_deliveries_closed(rt))
            && !self.life.stages().is_stopping(rt)
    }

    /// A delivery begins, unless it is to wait for the next epoch. Returns whether it begins.
    pub(crate) fn begin_delivery<R: Wait>(&self, rt: &R) -> bool {
        let mut guard = self.deliveries.lock(rt);
        let deliveries = &mut *guard;
        deliveries.begin()
    }

    /// A delivery has ended.
    pub(crate) fn end_delivery<R: Wait>(&self, rt: &R) {
        let mut guard = self.deliveries.lock(rt);
        let deliveries = &mut *guard;
        deliveries.end();
    }

    /// Lets no delivery begin any more.
    pub(crate) fn close_deliveries<R: Wait>(&self, rt: &R) {
        self.deliveries.lock(rt).are_closed = true;
    }

    /// Whether no delivery begins any more.
    pub(crate) fn are_deliveries_closed<R: Wait>(&self, rt: &R) -> bool {
        self.deliveries.lock(rt).are_closed
    }

    /// Whether a delivery is under way.
    pub(crate) fn is_delivering<R: Wait>(&self, rt: &R) -> bool {
        self.deliveries.lock(rt).count > 0
    }
}
