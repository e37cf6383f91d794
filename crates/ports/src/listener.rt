//! A port, and the threads that take its connections.
ghost use Rattle.std.specs.Prelude.{◌≡◌, IfErr};

use crate::arrivals::{Arrival, Arrivals};
use crate::connection::{Connection, Listening, let_wait};
use crate::fault::Fault;
use crate::handler::Handler;
use crate::idle::IdleWorkers;
use crate::opening::Opening;
use crate::system::System;
use crate::worker::{Ended, STACK, Unserved};
use crate::workers::Workers;
use std::alloc::Global;
use std::net::{IpAddr, Shutdown, SocketAddr, TcpListener};
use std::sync::{Arc, Mutex, Wait};
use std::thread;
use std::thread::{Builder, JoinHandle};
use std::time::{Clock, Duration};

/// How many milliseconds are waited before a connection is taken again, if none could be: the system has no
/// descriptor, say.
const PAUSE_MS: u64 = 10;

/// How many connections are taken at a port and not served yet at most. More wait with the system.
const MOST_TAKEN: usize = 1_024;

/// How many threads that have ended are joined while connections wait: more than one end for each that starts, and so few
/// that the next connection doesn't wait for them.
const REAPED: usize = 16;

/// Listens at a port of this address.
pub fn listen_at<R: System>(rt: &R, address: IpAddr, number: u16) -> Result<TcpListener, Fault>
    ensures { IfErr result (λ fault. fault ≡ Fault.Listen address number) }
{
    match TcpListener::bind(rt, SocketAddr::new(address, number)) {
        Ok(listener) => {
            let_wait(&listener);
            Ok(listener)
        }
        Err(_) => Err(Fault::Listen(address, number)),
    }
}

/// A port at which connections are taken, until it is closed. They are served by one generation of threads after another.
#[derive(Drop)]
pub struct Port<S, L> {
    listener: L,
    /// Those that were taken and are not served yet.
    arrivals: Arc<Arrivals<Unserved<S>>>,
    /// Those for which there is no thread, no place or no memory.
    unserved: Arrivals<Unserved<S>>,
    /// How many are served at a time at most, beside these.
    most: usize,
}

impl<S: Drop, L: Listening<S> + Drop> Port<S, L> {
    /// A port that serves so many connections at a time, lets so many wait for its reserve, and so many be put back. Connections are
    /// taken once it is started.
    pub fn new(
        alloc: Global,
        listener: L,
        most: usize,
        reserve: usize,
        put_back: usize,
    ) -> Result<Self, Fault>
        ensures { IfErr result (λ fault. fault ≡ Fault.Memory) }
    {
        let arrivals = Arc::new(alloc, Arrivals::new(alloc, MOST_TAKEN, put_back)?)?;
        let unserved = Arrivals::new(alloc, reserve, 0)?;
        Ok(Port {
            listener,
            arrivals,
            unserved,
            most,
        })
    }

    /// Where connections are taken.
    pub fn listener(&self) -> &L {
        &self.listener
    }

    /// Lets no client come any more. The connections that are not served yet are closed.
    pub fn close<R: Wait>(&self, rt: &R) {
        self.arrivals.close(rt);
        self.unserved.close(rt);
        self.listener.close();
    }

    /// Lets the connections wait that come from now on, until `resume`. Most of them aren't even taken, so that the system has a
    /// descriptor for what is to be done meanwhile.
    pub fn pause<R: Wait>(&self, rt: &R) {
        self.arrivals.pause(rt);
    }

    /// Has no connection taken, though those that were are served, until `resume_taking`: so the system has a descriptor for what is to
    /// be done meanwhile.
    pub fn pause_taking<R: Wait>(&self, rt: &R) {
        self.arrivals.pause_taking(rt, true);
    }

    /// Has connections taken again.
    pub fn resume_taking<R: Wait>(&self, rt: &R) {
        self.arrivals.pause_taking(rt, false);
    }

    /// The number of a new generation of threads, which serves the port once it is handed over to it.
    pub fn new_generation<R: Wait>(&self, rt: &R) -> u64 {
        let _same = self.unserved.new_generation(rt);
        self.arrivals.new_generation(rt)
    }

    /// Has the threads of the newest generation serve the port. Those of earlier ones end once the connections that they serve have
    /// ended.
    pub fn hand_over<R: Wait>(&self, rt: &R) {
        self.arrivals.hand_over(rt);
        self.unserved.hand_over(rt);
    }

    /// The threads of generations end that are newer than the one that serves the port now, which goes on.
    pub fn withdraw<R: Wait>(&self, rt: &R) {
        self.arrivals.withdraw(rt);
        self.unserved.withdraw(rt);
    }

    /// Has the connections served that wait, and those that come.
    pub fn resume<R: Wait>(&self, rt: &R) {
        self.arrivals.resume(rt);
        self.unserved.resume(rt);
    }

    /// Waits for a connection, and takes it. Returns false once the port is closed.
    fn takes_one<R: Wait + Clock>(&self, rt: &R) -> bool {
        self.arrivals.wait_for_resume(rt);
        match self.listener.accept() {
            Ok((stream, peer)) => {
                let stream = Unserved::Alone(stream);
                self.arrivals.put(rt, Arrival { stream, peer })
            }
            Err(_) if self.arrivals.is_closed(rt) => false,
            Err(_) => {
                thread::sleep(rt, Duration::from_millis(PAUSE_MS));
                true
            }
        }
    }

    /// Takes connections, and does nothing else, from the begin of the service until the port is closed.
    fn take_all<R: Wait + Clock, O: Opening>(&self, rt: &R, service: &O) {
        service.wait_for_begin(rt);
        for _ in rt.forever() {
            if !self.takes_one(rt) {
                break;
            }
        }
    }
}

impl<S: Connection + Send + Sync + Drop + 'static, L: Listening<S>> Port<S, L> {
    /// Has the connections served that are taken, until the port is handed over to a later generation or closed. They go on to their
    /// ends then.
    fn serve_all<R: System, H: Handler<S> + Send + Drop + 'static>(
        &self,
        rt: R,
        alloc: Global,
        handler: &H,
        ended: Ended,
        idle: IdleWorkers<S>,
        generation: u64,
    ) {
        let mut workers = Workers::new(alloc, ended, idle, self.most, generation);
        for _ in rt.forever() {
            let Some(arrival) = self.arrivals.next(&rt, generation) else {
                break;
            };
            if handler.is_open() {
                if let Some(unserved) = workers.take(rt, alloc, arrival, handler, &self.arrivals) {
                    self.unserved.put_newest(&rt, unserved);
                }
            }
            let most = if self.arrivals.are_waiting(&rt) {
                REAPED
            } else {
                usize::MAX
            };
            workers.reap(&rt, most);
        }
        workers.end(&rt, self.arrivals.is_closed(&rt));
        self.turn_away_all(&rt, handler);
    }

    /// Closes the connections that were put back, if the port is closed.
    fn turn_away_all<R: Wait, H: Handler<S>>(&self, rt: &R, handler: &H) {
        for _ in rt.forever() {
            let Some(arrival) = self.arrivals.left(rt) else {
                break;
            };
            let stream = arrival.stream.stream();
            handler.turn_away(stream);
            stream.shut(Shutdown::Both);
        }
    }

    /// Serves the connections for which there is nothing else, one after another and briefly, until the port is handed over to a
    /// later generation or closed. The one that came last is served first, so that many silent ones don't keep it waiting.
    fn serve_unserved<R: Wait, H: Handler<S>>(&self, rt: &R, handler: &mut H, generation: u64) {
        for _ in rt.forever() {
            let Some(arrival) = self.unserved.newest(rt, generation) else {
                break;
            };
            let stream = arrival.stream.stream();
            handler.serve_briefly(stream, arrival.peer);
            stream.shut(Shutdown::Both);
        }
    }
}

/// Starts a thread of this generation for the connections of a port for which there is nothing else.
pub fn start_reserve<
    R: System,
    S: Connection + Send + Sync + Drop + 'static,
    L: Listening<S> + Send + Sync + Drop + 'static,
    H: Handler<S> + Send + Drop + 'static,
>(
    rt: R,
    port: &Arc<Port<S, L>>,
    handler: H,
    generation: u64,
    threads: &mut Vec<JoinHandle<()>>,
) -> Result<(), Fault> {
    threads.reserve(1)?;
    let port = Arc::try_clone(port)?;
    let mut handler = handler;
    let run = move || port.serve_unserved(&rt, &mut handler, generation);
    let Ok(thread) = Builder::new().stack_size(STACK).spawn(&rt, run) else {
        return Err(Fault::Memory);
    };
    threads.push_reserved(thread);
    Ok(())
}

/// Starts the thread of this generation that has the connections of a port served. It ends once the port is handed over to a later
/// generation or closed, and they have ended.
pub fn start_serving<
    R: System,
    S: Connection + Send + Sync + Drop + 'static,
    L: Listening<S> + Send + Sync + Drop + 'static,
    H: Handler<S> + Send + Drop + 'static,
>(
    rt: R,
    alloc: Global,
    port: &Arc<Port<S, L>>,
    handler: H,
    generation: u64,
    threads: &mut Vec<JoinHandle<()>>,
) -> Result<(), Fault> {
    threads.reserve(1)?;
    let ended = Arc::new(alloc, Mutex::new(Vec::new(alloc)))?;
    let idle = IdleWorkers::new(alloc)?;
    let port = Arc::try_clone(port)?;
    let run = move || port.serve_all(rt, alloc, &handler, ended, idle, generation);
    let Ok(thread) = thread::spawn(&rt, run) else {
        return Err(Fault::Memory);
    };
    threads.push_reserved(thread);
    Ok(())
}

/// Starts the thread that takes the connections of a port, once the service begins. It ends once the port is closed.
pub fn start_taking<
    R: System,
    S: Connection + Send + Sync + Drop + 'static,
    L: Listening<S> + Send + Sync + Drop + 'static,
    O: Opening + Send + Sync + Drop + 'static,
>(
    rt: R,
    port: &Arc<Port<S, L>>,
    service: &Arc<O>,
    threads: &mut Vec<JoinHandle<()>>,
) -> Result<(), Fault> {
    threads.reserve(1)?;
    let port = Arc::try_clone(port)?;
    let service = Arc::try_clone(service)?;
    let Ok(thread) = Builder::new()
        .stack_size(STACK)
        .spawn(&rt, move || port.take_all(&rt, &*service))
    else {
        return Err(Fault::Memory);
    };
    threads.push_reserved(thread);
    Ok(())
}
