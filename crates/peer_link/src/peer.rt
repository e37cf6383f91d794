//! A node that is sent to.
ghost use Rattle.std.specs.Prelude.{◌≡◌};

use crate::connection::Connection;
use crate::ports::port_of;
use ballot::{Envelope, NodeId};
use maildrop::SharedCommand;
use std::alloc::Global;
use std::marker::Model;
use std::net::{Net, TcpListener, TcpStream};
use std::sync::{Mutex, Wait};
use std::time::Clock;

/// A node that is sent to, and the connection to it under its lock. Contracts see it as the node's number.
#[derive(Drop)]
pub(crate) struct Peer {
    node: NodeId,
    connection: Mutex<Connection>,
}

impl Model for Peer {
    ghost use Rattle.std.specs.Prelude.{ℕ};

    ghost Value = { ℕ };

    ghost view = { λ p. p.node };
}

impl Peer {
    /// No connection. Takes no memory.
    pub(crate) fn new(alloc: Global, node: NodeId) -> Self
        ensures { result ≡ node }
    {
        Peer {
            node,
            connection: Mutex::new(Connection::new(alloc)),
        }
    }

    /// Sends the frames of envelopes to the node. They are lost if it has no port.
    pub(crate) fn send<R: Net<Listener = TcpListener, Stream = TcpStream> + Wait + Clock>(
        &self,
        rt: &R,
        base_port: u16,
        envelopes: &[Envelope<SharedCommand>],
    ) {
        let Some(port) = port_of(base_port, self.node) else {
            return;
        };
        let mut guard = self.connection.lock(rt);
        let connection = &mut *guard;
        connection.send(rt, port, envelopes);
    }
}
