//! Where a service takes operators' requests.

use crate::fault::Fault;
use crate::operator_stream::OperatorStream;
use crate::system::local;
use std::net::{Net, TcpListener, TcpStream};
use std::os::unix::net::UnixStream;

/// Where a service takes operators' requests.
#[derive(Clone, Copy, Debug, PartialEq, Eq)]
pub enum OperatorPlace<'a> {
    /// At this port of this machine.
    Port(u16),
    /// At the Unix socket of this path.
    Socket(&'a str),
}

/// Connects to a service.
pub fn connect<R: Net<Listener = TcpListener, Stream = TcpStream>>(
    rt: &R,
    place: &OperatorPlace<'_>,
) -> Result<OperatorStream, Fault> {
    match place {
        OperatorPlace::Port(port) => match rt.connect(local(*port)) {
            Ok(stream) => Ok(OperatorStream::Tcp(stream)),
            Err(_) => Err(Fault::Reach(*port)),
        },
        OperatorPlace::Socket(path) => match UnixStream::connect(rt, *path) {
            Ok(stream) => Ok(OperatorStream::Unix(stream)),
            Err(_) => Err(Fault::ReachSocket),
        },
    }
}
