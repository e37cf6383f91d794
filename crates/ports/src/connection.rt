//! Connections, and where they come from.

use libc::net::{SHUT_RDWR, listen, shutdown};
use std::io;
use std::net::{Shutdown, SocketAddr, TcpListener, TcpStream};
use std::os::fd::AsRawFd;

/// How many connections the system lets wait at a port until they are taken. It may let fewer wait.
const MOST_WAITING: i32 = 4_096;

/// A connection that a port takes.
pub trait Connection {
    /// Ends it for one way or both.
    fn shut(&self, how: Shutdown);
}

/// Where connections come from, streams of the type `S`.
pub trait Listening<S> {
    /// Waits for the next connection. Returns it with the address of its client. After `close` there is none.
    fn accept(&self) -> io::Result<(S, SocketAddr)>;

    /// Lets no client come any more, and wakes who waits for one.
    fn close(&self);
}

impl Connection for TcpStream {
    fn shut(&self, how: Shutdown) {
        let _is_closed = self.shutdown(how);
    }
}

impl Listening<TcpStream> for TcpListener {
    fn accept(&self) -> io::Result<(TcpStream, SocketAddr)> {
        TcpListener::accept(self)
    }

    fn close(&self) {
        close_listener(self);
    }
}

/// Lets more clients wait at a socket that listens already. If the system refuses, as many wait as before.
pub(crate) fn let_wait<L: AsRawFd>(listener: &L) {
    let _as_before = listen(listener.as_raw_fd(), MOST_WAITING);
}

/// Lets no client come to a socket any more, and wakes who waits for one.
pub(crate) fn close_listener<L: AsRawFd>(listener: &L) {
    let _is_closed = shutdown(listener.as_raw_fd(), SHUT_RDWR);
}
