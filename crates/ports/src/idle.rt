//! Threads that wait for their next connection.

use crate::arrivals::Arrival;
use ballot::Memory;
use crossbeam_channel::{Receiver, Sender, unbounded};
use std::alloc::Global;
use std::sync::{Arc, Mutex, Wait};

/// How many threads of a port wait at most. One more ends with its connection.
const MOST_IDLE: usize = 64;

/// A connection that a thread serves, and others may shut.
pub(crate) type SharedArrival<S> = Arrival<Arc<S>>;

/// The threads of a port that wait for their next connection, as who hands out connections sees them. Once this is gone
/// none waits any more.
#[derive(Drop)]
pub(crate) struct IdleWorkers<S> {
    /// How many wait to which no connection was handed yet.
    count: Arc<Mutex<usize>>,
    sender: Sender<SharedArrival<S>>,
    receiver: Receiver<SharedArrival<S>>,
}

/// Where a thread waits for its next connection.
#[derive(Drop)]
pub(crate) struct NextConnection<S> {
    count: Arc<Mutex<usize>>,
    receiver: Receiver<SharedArrival<S>>,
}

/// Counts one more, unless there are enough. Returns whether it did.
fn add(count: &mut usize) -> bool {
    if *count >= MOST_IDLE {
        return false;
    }
    *count += 1;
    true
}

/// Counts one less, if there is one. Returns whether it did.
fn take(count: &mut usize) -> bool {
    if *count == 0 {
        return false;
    }
    *count -= 1;
    true
}

impl<S: Drop> IdleWorkers<S> {
    /// No threads.
    pub(crate) fn new(alloc: Global) -> Result<Self, Memory> {
        let count = Arc::new(alloc, Mutex::new(0))?;
        let (sender, receiver) = unbounded(alloc)?;
        Ok(IdleWorkers {
            count,
            sender,
            receiver,
        })
    }

    /// Where one more thread waits.
    pub(crate) fn connections(&self) -> Result<NextConnection<S>, Memory> {
        let count = Arc::try_clone(&self.count)?;
        let receiver = self.receiver.clone()?;
        Ok(NextConnection { count, receiver })
    }

    /// Hands the connection to a thread that waits. Returns it if there is none.
    pub(crate) fn hand<R: Wait>(
        &self,
        rt: &R,
        arrival: SharedArrival<S>,
    ) -> Option<SharedArrival<S>> {
        if !take(&mut *self.count.lock(rt)) {
            return Some(arrival);
        }
        match self.sender.send(rt, arrival) {
            Ok(()) => None,
            Err(error) => {
                let _enough = add(&mut *self.count.lock(rt));
                Some(error.into_inner())
            }
        }
    }
}

impl<S: Drop> NextConnection<S> {
    /// Waits for a connection. None if enough threads wait already, and once the port is closed.
    pub(crate) fn next<R: Wait>(&self, rt: &R) -> Option<SharedArrival<S>> {
        if !add(&mut *self.count.lock(rt)) {
            return None;
        }
        self.receiver.recv(rt).ok()
    }
}
