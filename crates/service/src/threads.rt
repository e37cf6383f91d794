//! The ports of a service, and the threads of an epoch, from its start to its end.
ghost use Rattle.std.specs.Prelude.{◌≡◌, Some, IfErr};
ghost use Rattle.service.specs.Faults.{IsFaultAt, IsLocalFaultAt, IsPeerFault, IsPopFault, IsPortFault};

use crate::brand::Service;
use crate::life::ServiceLife;
use crate::operator::OperatorHandler;
use crate::peers::{PeerHandler, most_file};
use crate::pop::PopHandler;
use crate::served_node::ServedNode;
use crate::served_sessions::ServedSessions;
use crate::service_nodes::ServiceDesk;
use crate::state::ServiceState;
use crate::{draining, majority, ticker};
use ballot::NodeId;
use cluster::Link;
use ports::{
    Fault, Handler, OperatorConnection, OperatorListener, Port, System, listen_at, start_reserve,
    start_serving, start_taking,
};
use settings::Settings;
use std::alloc::Global;
use std::net::{IpAddr, Ipv4Addr, TcpListener, TcpStream};
use std::rt::Files;
use std::sync::{Arc, Wait};
use std::thread::JoinHandle;
use std::time::Duration;

/// The most POP3 connections at a port at a time.
const MOST_SESSIONS: usize = 4_096;

/// The most connections of operators at a time.
const MOST_OPERATORS: usize = 1_024;

/// The most connections of other nodes at a node's port at a time.
const MOST_PEERS: usize = 64;

/// How many operators for whom there is no thread, no place or no memory wait for the thread of the reserve.
const MOST_IN_RESERVE: usize = 16;

/// How many operators wait for the next epoch at most.
const MOST_PUT_BACK: usize = MOST_OPERATORS - MOST_IN_RESERVE;

/// A port of POP3 clients.
#[derive(Drop)]
struct PopPort {
    /// The node whose own it is.
    own: Option<NodeId>,
    port: Arc<Port<TcpStream, TcpListener>>,
}

/// A port at which other nodes send to a node.
#[derive(Drop)]
struct PeerPort {
    node: NodeId,
    port: Arc<Port<TcpStream, TcpListener>>,
}

/// The ports of a service: those of POP3 clients, those of its nodes, and the operator's.
#[derive(Drop)]
pub(crate) struct Ports {
    pop: Vec<PopPort>,
    peers: Vec<PeerPort>,
    ctl: Arc<Port<OperatorConnection, OperatorListener>>,
}

/// Listens at a port of POP3 clients.
fn open_pop_port<R: System>(
    rt: &R,
    alloc: Global,
    address: IpAddr,
    number: u16,
    own: Option<NodeId>,
    ports: &mut Vec<PopPort>,
) -> Result<(), Fault>
    ensures { IfErr result (λ fault. IsFaultAt address number fault) }
{
    let listener = listen_at(rt, address, number)?;
    let port = Port::new(alloc, listener, MOST_SESSIONS, 0, 0)?;
    let port = Arc::new(alloc, port)?;
    ports.push(PopPort { own, port })?;
    Ok(())
}

/// Listens at the port of each node.
fn open_node_ports<R: System>(
    rt: &R,
    alloc: Global,
    settings: &Settings,
    below: u16,
    ports: &mut Vec<PopPort>,
) -> Result<(), Fault>
    requires { settings.now.pop_port ≡ Some below }
    ensures { IfErr result (λ fault. IsPopFault settings.now fault) }
{
    for node in 1..=settings.cluster.get() {
        let Some(me) = NodeId::new(node) else {
            return Ok(());
        };
        if settings.runs(me) {
            let number = below.saturating_add(u16::from(node));
            open_pop_port(rt, alloc, settings.listen, number, Some(me), ports)?;
        }
    }
    Ok(())
}

/// Listens at the ports of POP3 clients.
fn open_pop_ports<R: System>(
    rt: &R,
    alloc: Global,
    settings: &Settings,
    ports: &mut Vec<PopPort>,
) -> Result<(), Fault>
    ensures { IfErr result (λ fault. IsPopFault settings.now fault) }
{
    if let Some(number) = settings.port {
        open_pop_port(rt, alloc, settings.listen, number, None, ports)?;
    }
    if let Some(below) = settings.pop_port {
        open_node_ports(rt, alloc, settings, below, ports)?;
    }
    Ok(())
}

/// Listens at the port of each node that runs here, to which other nodes send.
fn open_peer_ports<R: System>(
    rt: &R,
    alloc: Global,
    settings: &Settings,
    ports: &mut Vec<PeerPort>,
) -> Result<(), Fault>
    ensures { IfErr result (λ fault. IsPeerFault settings.now fault) }
{
    let Some(below) = settings.peer_port else {
        return Ok(());
    };
    for node in 1..=settings.cluster.get() {
        let Some(me) = NodeId::new(node) else {
            return Ok(());
        };
        if settings.runs(me) {
            let number = below.saturating_add(u16::from(node));
            open_peer_port(rt, alloc, number, me, ports)?;
        }
    }
    Ok(())
}

/// Listens at a port of this machine to which other nodes send.
fn open_peer_port<R: System>(
    rt: &R,
    alloc: Global,
    number: u16,
    node: NodeId,
    ports: &mut Vec<PeerPort>,
) -> Result<(), Fault>
    ensures { IfErr result (λ fault. IsLocalFaultAt number fault) }
{
    let listener = listen_at(rt, IpAddr::V4(Ipv4Addr::LOCALHOST), number)?;
    let port = Port::new(alloc, listener, MOST_PEERS, 0, 0)?;
    let port = Arc::new(alloc, port)?;
    ports.push(PeerPort { node, port })?;
    Ok(())
}

impl Ports {
    /// Listens at all ports of a service. If it has no port for its operator, it has this socket.
    pub(crate) fn open<R: System + Files>(
        rt: &R,
        alloc: Global,
        settings: &Settings,
        socket: Option<&str>,
    ) -> Result<Ports, Fault>
        ensures { IfErr result (λ fault. IsPortFault settings.now fault) }
    {
        let mut pop = Vec::new(alloc);
        open_pop_ports(rt, alloc, settings, &mut pop)?;
        let mut peers = Vec::new(alloc);
        open_peer_ports(rt, alloc, settings, &mut peers)?;
        let listener = OperatorListener::listen(rt, settings.ctl_port, socket)?;
        let ctl = Port::new(
            alloc,
            listener,
            MOST_OPERATORS,
            MOST_IN_RESERVE,
            MOST_PUT_BACK,
        )?;
        let ctl = Arc::new(alloc, ctl)?;
        Ok(Ports { pop, peers, ctl })
    }

    /// Starts the threads that take connections at all ports, once the service begins. They end once the ports are closed.
    pub(crate) fn start_taking<R: System>(
        &self,
        rt: R,
        life: &Arc<ServiceLife>,
        threads: &mut Vec<JoinHandle<()>>,
    ) -> Result<(), Fault> {
        for peer in &self.peers {
            start_taking(rt, &peer.port, life, threads)?;
        }
        for pop in &self.pop {
            start_taking(rt, &pop.port, life, threads)?;
        }
        start_taking(rt, &self.ctl, life, threads)
    }

    /// Lets POP3 clients wait who come from now on, until `resume_pop` or `resume`.
    pub(crate) fn pause_pop<R: Wait>(&self, rt: &R) {
        for port in &self.pop {
            port.port.pause(rt);
        }
    }

    /// Serves POP3 clients again.
    pub(crate) fn resume_pop<R: Wait>(&self, rt: &R) {
        for port in &self.pop {
            port.port.resume(rt);
        }
    }

    /// Lets POP3 clients wait who come from now on, until the next epoch serves them. Operators are heard until then by the threads that
    /// hear them now.
    pub(crate) fn end_pop<R: Wait>(&self, rt: &R) {
        for port in &self.pop {
            port.port.pause(rt);
            let _nobody = port.port.new_generation(rt);
            port.port.hand_over(rt);
        }
    }

    /// Has the threads that were started last serve clients, operators and nodes, with those who have waited.
    fn hand_over<R: Wait>(&self, rt: &R) {
        for peer in &self.peers {
            peer.port.hand_over(rt);
        }
        for pop in &self.pop {
            pop.port.hand_over(rt);
        }
        self.ctl.hand_over(rt);
        self.ctl.resume_taking(rt);
        self.resume_pop(rt);
    }

    /// Takes no operator for a moment, so that what the next epoch needs isn't taken by them.
    pub(crate) fn pause_ctl<R: Wait>(&self, rt: &R) {
        self.ctl.pause_taking(rt);
    }

    /// Takes operators again.
    pub(crate) fn resume_ctl<R: Wait>(&self, rt: &R) {
        self.ctl.resume_taking(rt);
    }

    /// The threads that were started last end: they serve nobody.
    fn withdraw<R: Wait>(&self, rt: &R) {
        for peer in &self.peers {
            peer.port.withdraw(rt);
        }
        for pop in &self.pop {
            pop.port.withdraw(rt);
        }
        self.ctl.withdraw(rt);
    }

    /// How many ports of POP3 clients and of nodes there are.
    pub(crate) fn count(&self) -> usize {
        self.pop.len().saturating_add(self.peers.len())
    }

    /// Lets no POP3 client come any more.
    pub(crate) fn close_pop<R: Wait>(&self, rt: &R) {
        for port in &self.pop {
            port.port.close(rt);
        }
    }

    /// Lets no node connect any more. Those that are connected aren't heard any more.
    pub(crate) fn close_peers<R: Wait>(&self, rt: &R) {
        for peer in &self.peers {
            peer.port.close(rt);
        }
    }

    /// Lets no operator come any more. Those who are there are heard no longer.
    pub(crate) fn close_ctl<R: Wait>(&self, rt: &R) {
        self.ctl.close(rt);
    }

    /// Removes the operator's socket from this path, unless another process has made its own there meanwhile.
    pub(crate) fn remove_socket<R: Files>(&self, rt: &R, path: &str) {
        self.ctl.listener().remove_file(rt, path);
    }

    /// Lets nobody come any more.
    pub(crate) fn close<R: Wait>(&self, rt: &R) {
        self.close_pop(rt);
        self.close_ctl(rt);
        self.close_peers(rt);
    }
}

/// The threads of an epoch.
#[derive(Drop)]
pub(crate) struct EpochThreads {
    /// Those that serve POP3 clients. They end once the ports are handed over or closed, and their sessions have ended.
    pub(crate) sessions: Vec<JoinHandle<()>>,
    /// Those that look after the nodes. They end once the sessions have ended.
    pub(crate) nodes: Vec<JoinHandle<()>>,
    /// Those of the nodes' ports. They end once these are closed.
    pub(crate) peers: Vec<JoinHandle<()>>,
    /// Those that serve operators. They end once the next epoch serves these or the port is closed, and its connections have ended.
    pub(crate) operators: Vec<JoinHandle<()>>,
}

/// Starts all threads of an epoch, and then has clients and operators served. If a thread can't be had, nobody is served, but operators are
/// by whom they were served before.
pub(crate) fn start<
    D: Service + Send + Sync + 'static,
    R: System,
    L: Link + Drop + Send + Sync + 'static,
>(
    rt: R,
    alloc: Global,
    nodes: &Arc<Vec<ServiceDesk<D, R, L>>>,
    ports: &Ports,
    state: &Arc<ServiceState>,
    sessions: &Arc<ServedSessions<D>>,
    settings: &Settings,
) -> (EpochThreads, Result<(), Fault>) {
    let mut threads = EpochThreads {
        sessions: Vec::new(alloc),
        nodes: Vec::new(alloc),
        peers: Vec::new(alloc),
        operators: Vec::new(alloc),
    };
    let started = threads.start_all(rt, alloc, nodes, ports, state, sessions, settings);
    if started.is_ok() {
        state.life().stages().begin(&rt);
        ports.hand_over(&rt);
    } else {
        ports.withdraw(&rt);
    }
    (threads, started)
}

impl EpochThreads {
    fn start_all<
        D: Service + Send + Sync + 'static,
        R: System,
        L: Link + Drop + Send + Sync + 'static,
    >(
        &mut self,
        rt: R,
        alloc: Global,
        nodes: &Arc<Vec<ServiceDesk<D, R, L>>>,
        ports: &Ports,
        state: &Arc<ServiceState>,
        sessions: &Arc<ServedSessions<D>>,
        settings: &Settings,
    ) -> Result<(), Fault> {
        start_nodes(rt, alloc, nodes, state, settings, &mut self.nodes)?;
        for peer in &ports.peers {
            start_peer(rt, alloc, nodes, peer, state, settings, &mut self.peers)?;
        }
        for pop in &ports.pop {
            start_pop(rt, alloc, nodes, pop, state, sessions, &mut self.sessions)?;
        }
        start_operators(
            rt,
            alloc,
            nodes,
            &ports.ctl,
            state,
            settings,
            &mut self.operators,
        )
    }
}

/// Starts what looks after the nodes.
fn start_nodes<R: System, N: ServedNode + Send + Sync + Drop + 'static>(
    rt: R,
    alloc: Global,
    nodes: &Arc<Vec<N>>,
    state: &Arc<ServiceState>,
    settings: &Settings,
    threads: &mut Vec<JoinHandle<()>>,
) -> Result<(), Fault> {
    let tick = Duration::from_millis(settings.tick_ms);
    let elsewhere = settings.node.map(|_| settings.cluster);
    draining::start(rt, nodes, state, threads)?;
    ticker::start(rt, alloc, nodes, state, tick, elsewhere, threads)?;
    if settings.no_majority_seconds > 0 {
        let limit_ms = settings.no_majority_seconds.saturating_mul(1_000);
        majority::start(rt, nodes, state, limit_ms, threads)?;
    }
    Ok(())
}

/// Starts what receives what others send to a node, if it runs here.
fn start_peer<R: System, N: ServedNode + Send + Sync + Drop + 'static>(
    rt: R,
    alloc: Global,
    nodes: &Arc<Vec<N>>,
    peer: &PeerPort,
    state: &Arc<ServiceState>,
    settings: &Settings,
    threads: &mut Vec<JoinHandle<()>>,
) -> Result<(), Fault> {
    for node in nodes.iter() {
        if node.me() == peer.node {
            let handler = PeerHandler {
                rt,
                alloc,
                node: node.share()?,
                cluster: settings.cluster,
                is_alone: settings.node.is_some(),
                state: Arc::try_clone(state)?,
            };
            let generation = peer.port.new_generation(&rt);
            return start_serving(rt, alloc, &peer.port, handler, generation, threads);
        }
    }
    Ok(())
}

/// Starts what serves the sessions of a port.
fn start_pop<D: Service + Send + Sync + 'static, R: System, L: Link + Drop + Send + Sync + 'static>(
    rt: R,
    alloc: Global,
    nodes: &Arc<Vec<ServiceDesk<D, R, L>>>,
    pop: &PopPort,
    state: &Arc<ServiceState>,
    sessions: &Arc<ServedSessions<D>>,
    threads: &mut Vec<JoinHandle<()>>,
) -> Result<(), Fault> {
    let handler = PopHandler {
        rt,
        alloc,
        nodes: Arc::try_clone(nodes)?,
        own: pop.own,
        state: Arc::try_clone(state)?,
        sessions: Arc::try_clone(sessions)?,
    };
    let generation = pop.port.new_generation(&rt);
    start_serving(rt, alloc, &pop.port, handler, generation, threads)
}

/// Starts what serves operators.
fn start_operators<R: System, N: ServedNode + Send + Sync + Drop + 'static>(
    rt: R,
    alloc: Global,
    nodes: &Arc<Vec<N>>,
    port: &Arc<Port<OperatorConnection, OperatorListener>>,
    state: &Arc<ServiceState>,
    settings: &Settings,
    threads: &mut Vec<JoinHandle<()>>,
) -> Result<(), Fault> {
    let handler = OperatorHandler::new(
        rt,
        alloc,
        Arc::try_clone(nodes)?,
        Arc::try_clone(state)?,
        settings.delivery_bytes,
        most_file(settings.peer_port, state.journal().is_kept()),
    )?;
    let generation = port.new_generation(&rt);
    start_reserve(rt, port, handler.share()?, generation, threads)?;
    start_serving(rt, alloc, port, handler, generation, threads)
}

/// Waits until these threads have ended.
pub(crate) fn join_all<R: System>(rt: &R, threads: Vec<JoinHandle<()>>) {
    for thread in threads {
        thread.join(rt);
    }
}
