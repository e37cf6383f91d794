//! POP3 connections.

use crate::brand::Service;
use crate::login_gate::LoginGate;
use crate::served_node::ServedNode;
use crate::served_sessions::{ServedSessions, SessionEnd};
use crate::service_nodes::ServiceDesk;
use crate::state::ServiceState;
use apop::Stamp;
use ballot::{Memory, NodeId};
use cluster::Link;
use ports::{Handler, ServeEnd};
use session::End;
use session_log::{
    BoundedReader, OpenSession, ReplyWriter, SessionFacts, SharedFacts, WRITE_SECONDS, ending_of,
};
use std::alloc::Global;
use std::io::BufWriter;
use std::net::{SocketAddr, TcpStream};
use std::random::RandomSource;
use std::sync::{Arc, Mutex, Wait};
use std::time::{Clock, Duration, Instant};

/// How many bytes of replies a connection gathers at most. Their room stays with it while it is idle.
const GATHERED: usize = 4_096;

/// Serves POP3 sessions (RFC 1939) at a node.
#[derive(Drop)]
pub(crate) struct PopHandler<D: Service, R: Wait, L: Link> {
    /// The system: random bytes, waits and the clock.
    pub rt: R,
    /// Where its memory comes from.
    pub alloc: Global,
    /// The nodes of the service.
    pub nodes: Arc<Vec<ServiceDesk<D, R, L>>>,
    /// The node whose port this is, if the port is a node's.
    pub own: Option<NodeId>,
    /// What all threads of the epoch see.
    pub state: Arc<ServiceState>,
    /// What its sessions are served over, and leave.
    pub sessions: Arc<ServedSessions<D>>,
}

/// The node that a session asks: the one of this number if it is up, or else one that leads, or else any that is up.
pub(crate) fn node_for<N: ServedNode>(nodes: &[N], own: Option<u8>) -> Option<&N> {
    let mut chosen = None;
    for node in nodes {
        match node.status() {
            Some(status) if status.up => {
                if own == Some(node.me().get()) {
                    return Some(node);
                }
                if status.active || chosen.is_none() {
                    chosen = Some(node);
                }
            }
            _ => {}
        }
    }
    chosen
}

impl<D: Service, R: RandomSource + Wait + Clock + Copy, L: Link + Drop> PopHandler<D, R, L> {
    /// A desk of the node that a session asks, if a node is up.
    fn node(&self) -> Option<ServiceDesk<D, R, L>> {
        let own = match &self.own {
            Some(number) => Some(number.get()),
            None => None,
        };
        match node_for(&self.nodes, own) {
            Some(node) => node.share().ok(),
            None => None,
        }
    }

    /// Lists a session that begins. Returns what is known of it, unless there is no memory for it.
    fn admit(
        &self,
        number: u64,
        node: NodeId,
        stream: &Arc<TcpStream>,
        peer: SocketAddr,
    ) -> Result<SharedFacts, Memory> {
        let facts = Arc::new(self.alloc, Mutex::new(SessionFacts::new()))?;
        let session = OpenSession {
            node,
            peer,
            since: Instant::now(&self.rt).ok(),
            facts: Arc::try_clone(&facts)?,
            stream: Arc::try_clone(stream)?,
            moved: u64::MAX,
        };
        self.state.life().sessions().add(&self.rt, number, session)?;
        Ok(facts)
    }

    /// Serves a session at a node to its end. Returns how it ended, unless there is no memory to begin it.
    fn converse(
        &self,
        node: ServiceDesk<D, R, L>,
        stamp: Stamp,
        stream: &TcpStream,
        facts: &SharedFacts,
        gate: &mut LoginGate<'_, R>,
    ) -> Option<SessionEnd> {
        let shared = Arc::try_clone(facts).ok()?;
        let Ok(writer) = BufWriter::with_capacity(self.alloc, GATHERED, stream) else {
            return None;
        };
        let mut reader = BoundedReader::new(
            self.rt,
            stream,
            facts,
            self.state.life().idle_seconds(),
        );
        let mut writer = ReplyWriter::new(self.rt, writer, facts, self.state.life().refusal());
        let end = self.sessions.serve(self.rt, node, shared, &mut reader, &mut writer, stamp, gate);
        // Nothing is written after a write that failed.
        writer.discard();
        end
    }

    /// Serves a session at a node to its end, lists it as long as it is open, and reports its end.
    fn serve_at(
        &self,
        node: ServiceDesk<D, R, L>,
        number: u64,
        stamp: Stamp,
        stream: &Arc<TcpStream>,
        peer: SocketAddr,
    ) {
        let me = node.me();
        let Ok(facts) = self.admit(number, me, stream, peer) else {
            return;
        };
        let mut gate = LoginGate {
            rt: self.rt,
            state: &self.state,
            facts: &facts,
            node: me,
            peer,
        };
        let end = self.converse(node, stamp, stream, &facts, &mut gate);
        self.state.life().sessions().remove(&self.rt, number);
        if let Some(end) = end {
            self.report(me, peer, &facts, end);
        }
    }

    /// Counts and logs a session that has ended.
    fn report(&self, node: NodeId, peer: SocketAddr, facts: &Mutex<SessionFacts>, end: SessionEnd) {
        let facts = facts.lock(&self.rt);
        let life = self.state.life();
        life.counters().ended(&self.rt, &facts);
        if end.bytes > 0 {
            // Its lines are kept too.
            let bytes = end.bytes.saturating_add(facts.bytes_read);
            life.rolls().end_session(&self.rt, bytes);
        }
        let ending = ending_of(end.end, facts.cut);
        life.log().session(&self.rt, node, peer, &facts, ending);
    }
}

impl<D: Service, R: RandomSource + Wait + Clock + Copy, L: Link + Drop> Handler<TcpStream>
    for PopHandler<D, R, L> {
    fn serve(&mut self, stream: &Arc<TcpStream>, peer: SocketAddr) -> ServeEnd {
        // What is written goes out at once, and a client that takes nothing isn't waited for without an end.
        let _slower = stream.set_nodelay(true);
        let _unbounded = stream.set_write_timeout(Some(Duration::from_secs(WRITE_SECONDS)));
        if let Some(node) = self.node() {
            if let Some((number, stamp)) = self.state.life().new_stamp(&self.rt, self.alloc) {
                self.serve_at(node, number, stamp, stream, peer);
            }
        }
        ServeEnd::Closed
    }

    fn turn_away(&self, _stream: &TcpStream) {
        // None is put back.
    }

    fn serve_briefly(&mut self, _stream: &TcpStream, _peer: SocketAddr) {
        // It is closed without a word.
    }

    fn share(&self) -> Result<Self, Memory> {
        let nodes = Arc::try_clone(&self.nodes)?;
        let state = Arc::try_clone(&self.state)?;
        let sessions = Arc::try_clone(&self.sessions)?;
        Ok(PopHandler {
            rt: self.rt,
            alloc: self.alloc,
            nodes,
            own: self.own,
            state,
            sessions,
        })
    }

    fn is_open(&self) -> bool {
        !self.state.life().stages().is_stopping(&self.rt)
    }

    fn is_cut_at_the_end(&self) -> bool {
        false
    }
}
