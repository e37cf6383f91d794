//! Connections that were taken and are not served yet.

use std::alloc::{AllocError, Global};
use std::collections::VecDeque;
use std::net::SocketAddr;
use std::sync::{Condvar, Mutex, Wait};

/// A connection, and the address of its client.
#[derive(Drop)]
pub(crate) struct Arrival<S> {
    pub stream: S,
    pub peer: SocketAddr,
}

/// A connection that was put back by who served the queue as one of this generation.
#[derive(Drop)]
struct PutBack<S> {
    generation: u64,
    arrival: Arrival<S>,
}

/// Connections that wait, in the order in which they came.
#[derive(Drop)]
struct Queue<S> {
    arrivals: VecDeque<Arrival<S>>,
    most: usize,
    /// Those that were put back. Only a later generation gets them.
    put_back: VecDeque<PutBack<S>>,
    most_put_back: usize,
    /// Whether none is handed out.
    is_paused: bool,
    /// Whether none is taken, though those that were are handed out.
    is_taking_paused: bool,
    /// The generation of those who serve the queue now: only they get connections.
    generation: u64,
    /// The last generation that has a number.
    last: u64,
    /// The last generation that never serves the queue.
    withdrawn: u64,
    is_closed: bool,
}

impl<S: Drop> Queue<S> {
    /// Whether whoever brings one more has to wait.
    fn is_full(&self) -> bool {
        !self.is_closed && self.arrivals.len() >= self.most
    }

    /// Whether the first that was put back is for this generation.
    fn has_put_back(&self, generation: u64) -> bool {
        self.put_back
            .front()
            .is_some_and(|put_back| put_back.generation < generation)
    }

    /// Whether those of this generation get nothing any more.
    fn is_over(&self, generation: u64) -> bool {
        let is_withdrawn = self.generation < generation && generation <= self.withdrawn;
        self.is_closed || self.generation > generation || is_withdrawn
    }

    /// Whether who is of this generation has to wait.
    fn keeps_waiting(&self, generation: u64) -> bool {
        let is_empty = self.arrivals.is_empty() && !self.has_put_back(generation);
        !self.is_over(generation) && (self.generation < generation || self.is_paused || is_empty)
    }

    /// Takes the oldest out if there is no room for one more.
    fn make_room(&mut self) -> Option<Arrival<S>> {
        if self.is_full() {
            return self.arrivals.pop_front();
        }
        None
    }

    /// Adds one, unless there is no room or the queue is closed. Returns it then.
    fn put(&mut self, arrival: Arrival<S>) -> Option<Arrival<S>> {
        if self.is_closed || self.arrivals.len() >= self.most {
            return Some(arrival);
        }
        match self.arrivals.push_back(arrival) {
            Ok(()) => None,
            Err(refused) => Some(refused.value),
        }
    }

    /// Puts one back, unless there is no room or the queue is closed. Returns it then. One that is put back late comes first.
    fn put_back(&mut self, generation: u64, arrival: Arrival<S>) -> Option<Arrival<S>> {
        if self.is_closed || self.put_back.len() >= self.most_put_back {
            return Some(arrival);
        }
        let put_back = PutBack {
            generation,
            arrival,
        };
        let put = if generation < self.generation {
            self.put_back.push_front(put_back)
        } else {
            self.put_back.push_back(put_back)
        };
        match put {
            Ok(()) => None,
            Err(refused) => Some(refused.value.arrival),
        }
    }

    /// Takes the first for this generation out: those that were put back come first.
    fn take(&mut self, generation: u64) -> Option<Arrival<S>> {
        if self.has_put_back(generation) {
            return match self.put_back.pop_front() {
                Some(put_back) => Some(put_back.arrival),
                None => None,
            };
        }
        self.arrivals.pop_front()
    }
}

/// Connections that were taken and are not served yet. Their room is taken before the first comes. They are served by one generation
/// after another, each with a number of its own.
#[derive(Drop)]
pub(crate) struct Arrivals<S> {
    queue: Mutex<Queue<S>>,
    changes: Condvar,
}

impl<S: Drop> Arrivals<S> {
    /// Room for so many connections, and so many that are put back.
    pub(crate) fn new(
        alloc: Global,
        most: usize,
        most_put_back: usize,
    ) -> Result<Self, AllocError> {
        let arrivals = VecDeque::with_capacity(alloc, most)?;
        let put_back = VecDeque::with_capacity(alloc, most_put_back)?;
        let queue = Queue {
            arrivals,
            most,
            put_back,
            most_put_back,
            is_paused: false,
            is_taking_paused: false,
            generation: 0,
            last: 0,
            withdrawn: 0,
            is_closed: false,
        };
        Ok(Arrivals {
            queue: Mutex::new(queue),
            changes: Condvar::new(),
        })
    }

    /// Adds a connection, as soon as there is room. Returns false once the queue is closed.
    pub(crate) fn put<R: Wait>(&self, rt: &R, arrival: Arrival<S>) -> bool {
        let guard = self.queue.lock(rt);
        let mut guard = self.changes.wait_while(rt, guard, |queue| queue.is_full());
        let refused = guard.put(arrival);
        self.changes.notify_all();
        refused.is_none()
    }

    /// Adds a connection. If there is no room for it, the one that has waited longest is closed.
    pub(crate) fn put_newest<R: Wait>(&self, rt: &R, arrival: Arrival<S>) {
        let mut guard = self.queue.lock(rt);
        let oldest = guard.make_room();
        let _refused = guard.put(arrival);
        drop(oldest);
        self.changes.notify_all();
    }

    /// Puts a connection back, which one of this generation has. The next generation gets it. Returns it if there is no room for it, or
    /// the queue is closed.
    pub(crate) fn put_back<R: Wait>(
        &self,
        rt: &R,
        generation: u64,
        arrival: Arrival<S>,
    ) -> Option<Arrival<S>> {
        let mut guard = self.queue.lock(rt);
        let refused = guard.put_back(generation, arrival);
        self.changes.notify_all();
        refused
    }

    /// Waits for a connection, and returns the one that came last. None once those of this generation get nothing any more.
    pub(crate) fn newest<R: Wait>(&self, rt: &R, generation: u64) -> Option<Arrival<S>> {
        let guard = self.queue.lock(rt);
        let mut guard = self
            .changes
            .wait_while(rt, guard, |queue| queue.keeps_waiting(generation));
        if guard.is_over(generation) {
            return None;
        }
        guard.arrivals.pop_back()
    }

    /// Waits for the next connection. None once those of this generation get nothing any more.
    pub(crate) fn next<R: Wait>(&self, rt: &R, generation: u64) -> Option<Arrival<S>> {
        let guard = self.queue.lock(rt);
        let mut guard = self
            .changes
            .wait_while(rt, guard, |queue| queue.keeps_waiting(generation));
        if guard.is_over(generation) {
            return None;
        }
        let next = guard.take(generation);
        self.changes.notify_all();
        next
    }

    /// Waits while no connection is to be taken.
    pub(crate) fn wait_for_resume<R: Wait>(&self, rt: &R) {
        let guard = self.queue.lock(rt);
        let _resumed = self.changes.wait_while(rt, guard, |queue| {
            (queue.is_paused || queue.is_taking_paused) && !queue.is_closed
        });
    }

    /// Has no connection taken, or has connections taken again.
    pub(crate) fn pause_taking<R: Wait>(&self, rt: &R, is_paused: bool) {
        self.queue.lock(rt).is_taking_paused = is_paused;
        self.changes.notify_all();
    }

    /// The number of a new generation. Those who are of it wait until the queue is handed over to them.
    pub(crate) fn new_generation<R: Wait>(&self, rt: &R) -> u64 {
        let mut guard = self.queue.lock(rt);
        let queue = &mut *guard;
        queue.last = queue.last.saturating_add(1);
        queue.last
    }

    /// Has the newest generation serve the queue. Those of earlier ones get nothing any more.
    pub(crate) fn hand_over<R: Wait>(&self, rt: &R) {
        let mut guard = self.queue.lock(rt);
        let queue = &mut *guard;
        queue.generation = queue.last;
        self.changes.notify_all();
    }

    /// The generations that are newer than the one that serves the queue now never serve it.
    pub(crate) fn withdraw<R: Wait>(&self, rt: &R) {
        let mut guard = self.queue.lock(rt);
        let queue = &mut *guard;
        queue.withdrawn = queue.last;
        self.changes.notify_all();
    }

    /// Lets connections wait, and who serves them.
    pub(crate) fn pause<R: Wait>(&self, rt: &R) {
        self.queue.lock(rt).is_paused = true;
        self.changes.notify_all();
    }

    /// Hands connections out again.
    pub(crate) fn resume<R: Wait>(&self, rt: &R) {
        self.queue.lock(rt).is_paused = false;
        self.changes.notify_all();
    }

    /// Whether connections wait.
    pub(crate) fn are_waiting<R: Wait>(&self, rt: &R) -> bool {
        !self.queue.lock(rt).arrivals.is_empty()
    }

    /// Whether no connection is taken any more.
    pub(crate) fn is_closed<R: Wait>(&self, rt: &R) -> bool {
        self.queue.lock(rt).is_closed
    }

    /// A connection that was put back and that nobody is to serve any more, once the queue is closed.
    pub(crate) fn left<R: Wait>(&self, rt: &R) -> Option<Arrival<S>> {
        let mut guard = self.queue.lock(rt);
        let queue = &mut *guard;
        if !queue.is_closed {
            return None;
        }
        match queue.put_back.pop_front() {
            Some(put_back) => Some(put_back.arrival),
            None => None,
        }
    }

    /// Takes no connection any more. Those that wait are closed, but those that were put back are left.
    pub(crate) fn close<R: Wait>(&self, rt: &R) {
        let mut guard = self.queue.lock(rt);
        let queue = &mut *guard;
        queue.is_closed = true;
        queue.arrivals.clear();
        self.changes.notify_all();
    }
}
