//! A link over TCP.
ghost use Rattle.std.specs.Prelude.{◌≡◌, [], true, false, IfOk};
ghost use Rattle.ballot.specs.declared.node_id.TheConstants.{LAST_NODE};
ghost use Rattle.cluster.specs.Starts.{all_nodes};

use crate::peer::Peer;
use ballot::{Envelope, LAST_NODE, Memory, NodeId};
use cluster::Link;
use maildrop::SharedCommand;
use std::alloc::Global;
use std::marker::Model;
use std::net::{Net, TcpListener, TcpStream};
use std::slice;
use std::sync::Wait;
use std::time::Clock;

/// Sends to each node over a connection of its own, to the node's port on this machine. It connects if there is something to
/// send and no connection.
///
/// What is sent is lost if there is no connection then, or if the write fails. After such a write the connection is closed.
/// An envelope that is too long for a frame is lost too, and so is one for which there is no memory. A connect or a write
/// that takes 100 ms is given up, and then nothing is sent to that node for a second.
///
/// Contracts see a link as its base port, and whether it carries what a node sends to itself. `port_of` defines a node's
/// port above the base.
#[derive(Drop)]
pub struct TcpLink<R: Net<Listener = TcpListener, Stream = TcpStream> + Wait + Clock> {
    rt: R,
    base_port: u16,
    carries_own: bool,
    /// One for each number of a node.
    peers: Vec<Peer>,
}

impl<R: Net<Listener = TcpListener, Stream = TcpStream> + Wait + Clock> Model for TcpLink<R> {
    ghost use Rattle.std.specs.Prelude.{◌≡◌};
    ghost use Rattle.ballot.specs.declared.node_id.TheConstants.{LAST_NODE};
    ghost use Rattle.cluster.specs.Starts.{all_nodes};
    ghost use Rattle.peer_link.specs.Links.{Link};

    ghost Value = { Link };

    ghost view = { λ l. record { base_port = l.base_port; carries_own = l.carries_own } };

    ghost invariant = { λ l. l.peers.items ≡ all_nodes LAST_NODE };
}

fn new_peers(alloc: Global) -> Result<Vec<Peer>, Memory>
    ensures { IfOk result (λ peers. peers.items ≡ all_nodes LAST_NODE) }
{
    let mut peers = Vec::new(alloc);
    for before in 0..LAST_NODE {
        let Some(node) = NodeId::new(before + 1) else {
            unreachable!()
        };
        peers.push(Peer::new(alloc, node))?;
    }
    Ok(peers)
}

impl<R: Net<Listener = TcpListener, Stream = TcpStream> + Wait + Clock + Copy> TcpLink<R> {
    fn unconnected(rt: R, alloc: Global, base_port: u16, carries_own: bool) -> Result<Self, Memory>
        ensures { IfOk result (λ link. link ≡ record { base_port = base_port; carries_own = carries_own }) }
    {
        let peers = new_peers(alloc)?;
        Ok(TcpLink {
            rt,
            base_port,
            carries_own,
            peers,
        })
    }

    /// No connections yet. The link also carries what a node sends to itself.
    pub fn new(rt: R, alloc: Global, base_port: u16) -> Result<Self, Memory>
        ensures { IfOk result (λ link. link ≡ record { base_port = base_port; carries_own = true }) }
    {
        Self::unconnected(rt, alloc, base_port, true)
    }

    /// No connections yet. A node hears at once what it sends to itself. Over a connection that would come back as a copy,
    /// and each promise with all that the node has accepted.
    pub fn to_others(rt: R, alloc: Global, base_port: u16) -> Result<Self, Memory>
        ensures { IfOk result (λ link. link ≡ record { base_port = base_port; carries_own = false }) }
    {
        Self::unconnected(rt, alloc, base_port, false)
    }
}

impl<R: Net<Listener = TcpListener, Stream = TcpStream> + Wait + Clock> TcpLink<R> {
    fn peer(&self, node: NodeId) -> &Peer
        ensures { result.now ≡ node }
    {
        &self.peers[usize::from(node.get()) - 1]
    }

    fn put(&self, to: NodeId, envelopes: &[Envelope<SharedCommand>]) {
        self.peer(to).send(&self.rt, self.base_port, envelopes);
    }
}

impl<R: Net<Listener = TcpListener, Stream = TcpStream> + Wait + Clock> Link for TcpLink<R> {
    fn send(&self, envelope: Envelope<SharedCommand>) {
        self.put(envelope.to, slice::from_ref(&envelope));
    }

    /// Sends all by one write. The list is empty afterwards.
    fn send_all(&self, to: NodeId, envelopes: &mut Vec<Envelope<SharedCommand>>)
        ensures { envelopes.new.items ≡ [] }
    {
        self.put(to, envelopes);
        envelopes.clear();
    }

    fn carries_own(&self) -> bool
        ensures { result ≡ self.now.carries_own }
    {
        self.carries_own
    }
}
