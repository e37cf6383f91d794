//! The thread of a connection.

use crate::arrivals::{Arrival, Arrivals};
use crate::connection::Connection;
use crate::handler::{Handler, ServeEnd};
use crate::idle::{NextConnection, SharedArrival};
use ballot::Memory;
use std::alloc::Global;
use std::net::Shutdown;
use std::sync::{Arc, Mutex, Wait};

/// How many bytes the stack of a connection's thread has.
pub const STACK: usize = 262_144;

/// The places of threads that have ended.
pub(crate) type Ended = Arc<Mutex<Vec<usize>>>;

/// A connection until it has been served. Then there is nothing, so that it is closed although its thread isn't joined yet.
pub(crate) type Held<S> = Arc<Mutex<Option<Arc<S>>>>;

/// A connection that no thread serves now. It may be shared already.
#[derive(Drop)]
pub(crate) enum Unserved<S> {
    Alone(S),
    Shared(Arc<S>),
}

impl<S> Unserved<S> {
    pub(crate) fn stream(&self) -> &S {
        match self {
            Unserved::Alone(stream) => stream,
            Unserved::Shared(stream) => stream,
        }
    }
}

/// What a thread serves connections by.
#[derive(Drop)]
pub(crate) struct Worker<S, H: Handler<S>> {
    pub handler: H,
    /// Where it waits for the next connection.
    pub connections: NextConnection<S>,
    /// What `Workers` has of the connection, if that is to be cut at the end.
    pub held: Option<Held<S>>,
    /// Where connections are put back.
    pub arrivals: Arc<Arrivals<Unserved<S>>>,
    /// The generation of the thread.
    pub generation: u64,
    pub ended: Ended,
    pub place: usize,
}

impl<S: Connection + Drop, H: Handler<S>> Worker<S, H> {
    /// Serves a connection, and closes it unless it is put back: a client that still sends what nobody reads is not to wait for ever.
    fn serve<R: Wait>(&mut self, rt: &R, arrival: SharedArrival<S>) {
        match self.handler.serve(&arrival.stream, arrival.peer) {
            // First, so that its end reaches the client before the reset that a close with unread bytes sends.
            ServeEnd::Closed => arrival.stream.shut(Shutdown::Both),
            ServeEnd::PutBack => self.put_back(rt, arrival),
        }
        if let Some(held) = &self.held {
            *held.lock(rt) = None;
        }
    }

    /// Puts a connection back. If it can't be, it is turned away and closed.
    fn put_back<R: Wait>(&mut self, rt: &R, arrival: SharedArrival<S>) {
        let Arrival { stream, peer } = arrival;
        let stream = Unserved::Shared(stream);
        let arrival = Arrival { stream, peer };
        if let Some(refused) = self.arrivals.put_back(rt, self.generation, arrival) {
            let stream = refused.stream.stream();
            self.handler.turn_away(stream);
            stream.shut(Shutdown::Both);
        }
    }

    /// The next connection. One that is to be cut at the end has a thread of its own.
    fn next<R: Wait>(&self, rt: &R) -> Option<SharedArrival<S>> {
        if self.handler.is_cut_at_the_end() {
            return None;
        }
        self.connections.next(rt)
    }

    /// Serves this connection, and those that are handed to it then.
    pub(crate) fn run<R: Wait>(&mut self, rt: &R, first: SharedArrival<S>) {
        let mut next = Some(first);
        for _ in rt.forever() {
            let Some(arrival) = next.take() else {
                break;
            };
            self.serve(rt, arrival);
            next = self.next(rt);
        }
        // There is room: it was made with the place.
        let _full = self.ended.lock(rt).push(self.place);
    }
}

/// A connection that is to be cut at the end, for `Workers` and for its thread.
pub(crate) fn hold<S: Drop>(alloc: Global, stream: &Arc<S>) -> Result<(Held<S>, Held<S>), Memory> {
    let stream = Arc::try_clone(stream)?;
    let held = Arc::new(alloc, Mutex::new(Some(stream)))?;
    let theirs = Arc::try_clone(&held)?;
    Ok((held, theirs))
}

/// Shuts a connection for reading, unless it has been served. What comes without a pause may still be heard.
pub(crate) fn cut<S: Connection, R: Wait>(rt: &R, held: &Held<S>) {
    if let Some(stream) = &*held.lock(rt) {
        stream.shut(Shutdown::Read);
    }
}
