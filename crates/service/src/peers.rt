//! The connections by which other nodes send to a node.
ghost use Rattle.std.specs.Prelude.{◌≡◌};
ghost use Rattle.service.specs.Peers as spec;

use crate::served_node::ServedNode;
use crate::state::ServiceState;
use ballot::{Cluster, Envelope, Memory};
use maildrop::SharedCommand;
use peer_wire::{Inbox, receive};
use ports::{Handler, ServeEnd};
use std::alloc::Global;
use std::net::{SocketAddr, TcpStream};
use std::sync::{Arc, Wait};

/// The most bytes of a frame's content. What a node has accepted is one frame, so this is the format's own bound.
const LONGEST_CONTENT: usize = 1 << 30;

/// The most bytes of a file that is delivered. A line end is one byte there, and the length of a line takes four in a frame, and
/// in a record of a data folder. So a message of such a file has a frame, and a record.
const MOST_SENT: u64 = 240 << 20;

/// The same if there are neither frames nor records: as many as an operator may announce.
const MOST_ANNOUNCED: u64 = 1 << 30;

/// The most bytes of a file that is delivered, in a service whose nodes send to ports above this one, or have none, and which
/// keeps mail beyond the process, or doesn't.
pub(crate) fn most_file(peer_port: Option<u16>, is_kept: bool) -> u64
    ensures { result ≡ spec.most_file peer_port is_kept }
{
    match peer_port {
        None if !is_kept => MOST_ANNOUNCED,
        _ => MOST_SENT,
    }
}

/// Receives what other nodes send to a node. A connection ends at the first bytes that are no frame.
#[derive(Drop)]
pub(crate) struct PeerHandler<R, N: ServedNode> {
    /// The system: waits.
    pub rt: R,
    /// Where its memory comes from.
    pub alloc: Global,
    /// The node that hears it.
    pub node: N,
    /// The cluster. What others claim to send isn't heard.
    pub cluster: Cluster,
    /// Whether the node is alone in its process, so that it is noted which others are heard.
    pub is_alone: bool,
    /// What all threads of the epoch see.
    pub state: Arc<ServiceState>,
}

/// The inbox of its node, for what nodes of the cluster send.
impl<R: Wait, N: ServedNode> Inbox<Envelope<SharedCommand>> for PeerHandler<R, N> {
    ghost use Rattle.std.specs.Prelude.{◌≡◌};

    ghost hears = { λ before _ after. after ≡ before };

    fn arrive(&mut self, envelope: Envelope<SharedCommand>) -> bool {
        if !self.cluster.contains(envelope.from) {
            return false;
        }
        if self.is_alone && envelope.from != self.node.me() {
            self.state.heard_nodes().note(&self.rt, envelope.from);
        }
        self.node.arrive(envelope)
    }
}

impl<R: Wait + Copy, N: ServedNode + Drop> Handler<TcpStream> for PeerHandler<R, N> {
    fn serve(&mut self, stream: &Arc<TcpStream>, _peer: SocketAddr) -> ServeEnd {
        let mut reader: &TcpStream = stream;
        let alloc = self.alloc;
        let _ended = receive(alloc, LONGEST_CONTENT, &mut reader, self);
        ServeEnd::Closed
    }

    fn turn_away(&self, _stream: &TcpStream) {
        // None is put back.
    }

    fn serve_briefly(&mut self, _stream: &TcpStream, _peer: SocketAddr) {
        // It is closed without a word: its node connects anew.
    }

    fn share(&self) -> Result<Self, Memory> {
        let node = self.node.share()?;
        let state = Arc::try_clone(&self.state)?;
        Ok(PeerHandler {
            rt: self.rt,
            alloc: self.alloc,
            node,
            cluster: self.cluster,
            is_alone: self.is_alone,
            state,
        })
    }

    /// Sessions that go on to their ends need what other nodes send.
    fn is_open(&self) -> bool {
        !self.state.stages().has_ended(&self.rt)
    }

    fn is_cut_at_the_end(&self) -> bool {
        true
    }
}
