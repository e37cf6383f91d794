//! The connections of operators.
ghost use Rattle.std.specs.Prelude.{IfErr};
ghost use Rattle.std.specs.Io.{ReadsAtMost, WritesAtMost};
ghost use Rattle.ports.specs.Faults.{IsCtlFault};

use crate::connection::{Connection, Listening, close_listener};
use crate::fault::Fault;
use crate::listener::listen_at;
use crate::operator_connection::OperatorConnection;
use crate::operator_socket::OperatorSocket;
use crate::system::System;
use libc::net::{POLLERR, POLLHUP, POLLRDHUP, poll};
use libc::types::pollfd;
use std::io;
use std::io::{ErrorKind, Read, Write};
use std::net::{IpAddr, Ipv4Addr, Shutdown, SocketAddr, TcpListener, TcpStream};
use std::os::fd::AsRawFd;
use std::os::unix::net::{UnixListener, UnixStream};
use std::rt::Files;
use std::time::Duration;

/// A connection of an operator.
#[derive(Drop)]
pub enum OperatorStream {
    /// To a port of this machine.
    Tcp(TcpStream),
    /// To a Unix socket.
    Unix(UnixStream),
}

/// What the system reports of a socket without waiting: that its peer sends no more, or has gone.
fn events_of<S: AsRawFd>(stream: &S) -> i16 {
    let mut asked = [pollfd {
        fd: stream.as_raw_fd(),
        events: POLLRDHUP,
        revents: 0,
    }];
    if poll(&mut asked, 0) < 0 {
        return 0;
    }
    asked[0].revents
}

impl OperatorStream {
    /// Sets how long a read waits. Of no time nothing is set.
    pub fn set_read_timeout(&self, time: Duration) {
        let _as_before = match self {
            OperatorStream::Tcp(stream) => stream.set_read_timeout(Some(time)),
            OperatorStream::Unix(stream) => stream.set_read_timeout(Some(time)),
        };
    }

    /// Sets how long a write waits. Of no time nothing is set.
    pub fn set_write_timeout(&self, time: Duration) {
        let _as_before = match self {
            OperatorStream::Tcp(stream) => stream.set_write_timeout(Some(time)),
            OperatorStream::Unix(stream) => stream.set_write_timeout(Some(time)),
        };
    }

    /// Has what is written go out at once.
    pub fn set_nodelay(&self) {
        match self {
            OperatorStream::Tcp(stream) => {
                let _slower = stream.set_nodelay(true);
            }
            OperatorStream::Unix(_) => {}
        }
    }

    /// Whether the peer has gone. One at a port counts as gone as soon as it sends no more, since the system reports
    /// nothing else of a peer that has closed its connection.
    pub fn has_gone(&self) -> bool {
        match self {
            OperatorStream::Tcp(stream) => {
                events_of(stream) & (POLLRDHUP | POLLHUP | POLLERR) != 0
            }
            OperatorStream::Unix(stream) => events_of(stream) & (POLLHUP | POLLERR) != 0,
        }
    }
}

/// Reads from a connection once. The read may be interrupted.
pub(crate) fn read_once(stream: &OperatorStream, buf: &mut [u8]) -> io::Result<usize>
    ensures { ReadsAtMost result buf.new }
{
    match stream {
        OperatorStream::Tcp(stream) => {
            let mut reader = stream;
            reader.read(buf)
        }
        OperatorStream::Unix(stream) => {
            let mut reader = stream;
            reader.read(buf)
        }
    }
}

/// Reads from a connection, and again if that was interrupted: Linux interrupts a read with a time limit in a process that was
/// stopped for a while.
fn read_from(stream: &OperatorStream, buf: &mut [u8]) -> io::Result<usize>
    ensures { ReadsAtMost result buf.new }
{
    for _ in 0..u64::MAX {
        match read_once(stream, buf) {
            Err(error) if error.kind() == ErrorKind::Interrupted => {}
            read => return read,
        }
    }
    Err(io::Error::from(ErrorKind::Interrupted))
}

/// Writes to a connection.
fn write_to(stream: &OperatorStream, buf: &[u8]) -> io::Result<usize>
    ensures { WritesAtMost result buf.now }
{
    match stream {
        OperatorStream::Tcp(stream) => {
            let mut writer = stream;
            writer.write(buf)
        }
        OperatorStream::Unix(stream) => {
            let mut writer = stream;
            writer.write(buf)
        }
    }
}

impl Read for &OperatorStream {
    fn read(&mut self, buf: &mut [u8]) -> io::Result<usize> {
        read_from(self, buf)
    }
}

impl Write for &OperatorStream {
    fn write(&mut self, buf: &[u8]) -> io::Result<usize> {
        write_to(self, buf)
    }

    fn flush(&mut self) -> io::Result<()> {
        Ok(())
    }
}

impl Connection for OperatorStream {
    fn shut(&self, how: Shutdown) {
        match self {
            OperatorStream::Tcp(stream) => stream.shut(how),
            OperatorStream::Unix(stream) => {
                let _is_closed = stream.shutdown(how);
            }
        }
    }
}

/// Where operators come from.
#[derive(Drop)]
pub enum OperatorListener {
    /// A port of this machine.
    Tcp(TcpListener),
    /// A Unix socket.
    Unix(OperatorSocket),
}

impl OperatorListener {
    /// Listens at this port of this machine, or at this socket if there is no port.
    pub fn listen<R: System + Files>(
        rt: &R,
        port: Option<u16>,
        socket: Option<&str>,
    ) -> Result<Self, Fault>
        ensures { IfErr result (λ fault. IsCtlFault port fault) }
    {
        match (port, socket) {
            (Some(number), _) => {
                let listener = listen_at(rt, IpAddr::V4(Ipv4Addr::LOCALHOST), number)?;
                Ok(OperatorListener::Tcp(listener))
            }
            (None, Some(path)) => Ok(OperatorListener::Unix(OperatorSocket::open(rt, path)?)),
            (None, None) => Err(Fault::ListenSocket),
        }
    }

    /// Removes the file of a socket from this path, unless another process has made its own there meanwhile. A port has none.
    pub fn remove_file<R: Files>(&self, rt: &R, path: &str) {
        match self {
            OperatorListener::Tcp(_) => {}
            OperatorListener::Unix(socket) => socket.remove_file(rt, path),
        }
    }
}

impl Listening<OperatorConnection> for OperatorListener {
    fn accept(&self) -> io::Result<(OperatorConnection, SocketAddr)> {
        match self {
            OperatorListener::Tcp(listener) => {
                let (stream, peer) = TcpListener::accept(listener)?;
                let stream = OperatorStream::Tcp(stream);
                Ok((OperatorConnection::new(stream), peer))
            }
            OperatorListener::Unix(socket) => {
                let (stream, _) = UnixListener::accept(socket.listener())?;
                let stream = OperatorStream::Unix(stream);
                // Whoever comes to a socket has no address.
                let peer = SocketAddr::from((Ipv4Addr::LOCALHOST, 0));
                Ok((OperatorConnection::new(stream), peer))
            }
        }
    }

    fn close(&self) {
        match self {
            OperatorListener::Tcp(listener) => close_listener(listener),
            OperatorListener::Unix(socket) => close_listener(socket.listener()),
        }
    }
}
