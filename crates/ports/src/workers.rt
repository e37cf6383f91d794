//! The threads of a port's connections.

use crate::arrivals::{Arrival, Arrivals};
use crate::connection::Connection;
use crate::handler::Handler;
use crate::idle::{IdleWorkers, SharedArrival};
use crate::worker::{Ended, Held, STACK, Unserved, Worker, cut, hold};
use std::alloc::Global;
use std::net::SocketAddr;
use std::sync::{Arc, Wait};
use std::thread::{Builder, JoinHandle, Threads};

/// A thread, and its connection if that is to be cut at the end.
#[derive(Drop)]
struct RunningWorker<S> {
    thread: JoinHandle<()>,
    held: Option<Held<S>>,
}

/// The threads of a port's connections, at most so many at a time. One that has served its connection waits for another,
/// or ends. Each has a place, which it reports as its last act, so that it is joined and its place is used again.
#[derive(Drop)]
pub(crate) struct Workers<S> {
    running: Vec<Option<RunningWorker<S>>>,
    free: Vec<usize>,
    ended: Ended,
    idle: IdleWorkers<S>,
    most: usize,
    generation: u64,
}

impl<S: Connection + Send + Sync + Drop + 'static> Workers<S> {
    /// No threads, of this generation. Takes no memory.
    pub(crate) fn new(
        alloc: Global,
        ended: Ended,
        idle: IdleWorkers<S>,
        most: usize,
        generation: u64,
    ) -> Self {
        Workers {
            running: Vec::new(alloc),
            free: Vec::new(alloc),
            ended,
            idle,
            most,
            generation,
        }
    }

    /// Joins the threads that have ended, at most so many.
    pub(crate) fn reap<R: Threads + Wait>(&mut self, rt: &R, most: usize) {
        for _ in 0..most {
            let Some(place) = self.ended.lock(rt).pop() else {
                return;
            };
            if let Some(worker) = self.running.get_mut(place).and_then(Option::take) {
                worker.thread.join(rt);
                // There is room: it was made with the place.
                let _full = self.free.push(place);
            }
        }
    }

    /// A place without a thread, if there is one or may be one more.
    fn place<R: Threads + Wait>(&mut self, rt: &R) -> Option<usize> {
        if let Some(place) = self.free.pop() {
            return Some(place);
        }
        let count = self.running.len();
        if count >= self.most {
            self.reap(rt, count);
            return self.free.pop();
        }
        let room = count + 1;
        self.running.reserve(1).ok()?;
        self.free.reserve(room).ok()?;
        self.ended.lock(rt).reserve(room).ok()?;
        self.running.push_reserved(None);
        Some(count)
    }

    /// Has a connection served by a thread that waits for one, or by a new one. Returns it if there is no thread, no place
    /// or no memory.
    pub(crate) fn take<
        R: Threads + Wait + Copy + Send + 'static,
        H: Handler<S> + Send + Drop + 'static,
    >(
        &mut self,
        rt: R,
        alloc: Global,
        arrival: Arrival<Unserved<S>>,
        handler: &H,
        arrivals: &Arc<Arrivals<Unserved<S>>>,
    ) -> Option<Arrival<Unserved<S>>> {
        let Arrival { stream, peer } = arrival;
        match shared(alloc, stream) {
            Ok(stream) => self.take_shared(rt, alloc, Arrival { stream, peer }, handler, arrivals),
            Err(refused) => {
                let stream = Unserved::Alone(refused);
                Some(Arrival { stream, peer })
            }
        }
    }

    /// The same for a connection that is shared.
    fn take_shared<
        R: Threads + Wait + Copy + Send + 'static,
        H: Handler<S> + Send + Drop + 'static,
    >(
        &mut self,
        rt: R,
        alloc: Global,
        arrival: SharedArrival<S>,
        handler: &H,
        arrivals: &Arc<Arrivals<Unserved<S>>>,
    ) -> Option<Arrival<Unserved<S>>> {
        let Arrival { stream, peer } = self.idle.hand(&rt, arrival)?;
        if self.is_added(rt, alloc, &stream, peer, handler, arrivals) {
            return None;
        }
        let stream = Unserved::Shared(stream);
        Some(Arrival { stream, peer })
    }

    /// Serves a connection on a new thread. Returns false if there is no thread, no place or no memory.
    fn is_added<R: Threads + Wait + Copy + Send + 'static, H: Handler<S> + Send + Drop + 'static>(
        &mut self,
        rt: R,
        alloc: Global,
        stream: &Arc<S>,
        peer: SocketAddr,
        handler: &H,
        arrivals: &Arc<Arrivals<Unserved<S>>>,
    ) -> bool {
        let Some(place) = self.place(&rt) else {
            return false;
        };
        let first = (stream, peer);
        match self.start(rt, alloc, first, handler, arrivals, place) {
            Some(worker) => {
                if let Some(slot) = self.running.get_mut(place) {
                    *slot = Some(worker);
                }
                true
            }
            None => {
                let _full = self.free.push(place);
                false
            }
        }
    }

    /// Starts the thread of a place. Returns nothing if no thread or no memory is to be had.
    fn start<R: Threads + Wait + Copy + Send + 'static, H: Handler<S> + Send + Drop + 'static>(
        &self,
        rt: R,
        alloc: Global,
        first: (&Arc<S>, SocketAddr),
        handler: &H,
        arrivals: &Arc<Arrivals<Unserved<S>>>,
        place: usize,
    ) -> Option<RunningWorker<S>> {
        let (stream, peer) = first;
        let first = Arrival {
            stream: Arc::try_clone(stream).ok()?,
            peer,
        };
        let (held, theirs) = if handler.is_cut_at_the_end() {
            let (held, theirs) = hold(alloc, stream).ok()?;
            (Some(held), Some(theirs))
        } else {
            (None, None)
        };
        let mut worker = Worker {
            handler: handler.share().ok()?,
            connections: self.idle.connections().ok()?,
            held: theirs,
            arrivals: Arc::try_clone(arrivals).ok()?,
            generation: self.generation,
            ended: Arc::try_clone(&self.ended).ok()?,
            place,
        };
        let thread = Builder::new()
            .stack_size(STACK)
            .spawn(&rt, move || worker.run(&rt, first))
            .ok()?;
        Some(RunningWorker { thread, held })
    }

    /// Joins all threads. If the port is closed, connections that are to be cut are shut for reading first.
    pub(crate) fn end<R: Threads + Wait>(self, rt: &R, is_closed: bool) {
        let Workers {
            running,
            free: _,
            ended: _,
            idle,
            most: _,
            generation: _,
        } = self;
        drop(idle);
        if is_closed {
            cut_all(rt, &running);
        }
        for worker in running {
            if let Some(worker) = worker {
                worker.thread.join(rt);
            }
        }
    }
}

/// A connection that others may shut. It is returned if there is no memory for that.
fn shared<S: Drop>(alloc: Global, stream: Unserved<S>) -> Result<Arc<S>, S> {
    match stream {
        Unserved::Shared(stream) => Ok(stream),
        Unserved::Alone(stream) => match Arc::new(alloc, stream) {
            Ok(stream) => Ok(stream),
            Err(refused) => Err(refused.value),
        },
    }
}

/// Shuts the connections for reading that are to be cut.
fn cut_all<S: Connection, R: Wait>(rt: &R, running: &[Option<RunningWorker<S>>]) {
    for worker in running {
        if let Some(worker) = worker {
            if let Some(held) = &worker.held {
                cut(rt, held);
            }
        }
    }
}
