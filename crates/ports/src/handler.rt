//! What is done with the connections of a port.

use ballot::Memory;
use std::net::SocketAddr;
use std::sync::Arc;

/// What becomes of a connection after it was served.
#[derive(Clone, Copy, Debug, PartialEq, Eq)]
pub enum ServeEnd {
    /// It is closed.
    Closed,
    /// It waits for those to whom the port is handed over next.
    PutBack,
}

/// What is done with the connections of a port, streams of the type `S`.
pub trait Handler<S> {
    /// Serves the connection of a client at this address to its end, or as far as it is to be served here.
    fn serve(&mut self, stream: &Arc<S>, peer: SocketAddr) -> ServeEnd;

    /// A connection that was put back, or was to be, is served by nobody: it is closed after this.
    fn turn_away(&self, stream: &S);

    /// Serves a connection for which there is no thread, no place or no memory. Returns within a few seconds, and asks for
    /// no memory.
    fn serve_briefly(&mut self, stream: &S, peer: SocketAddr);

    /// The same for another connection.
    fn share(&self) -> Result<Self, Memory>
    where
        Self: Sized;

    /// Whether another connection is served. Else it is closed without a word.
    fn is_open(&self) -> bool;

    /// Whether a connection that is there when the port is closed is heard no longer. Else it goes on to its own end.
    fn is_cut_at_the_end(&self) -> bool;
}
