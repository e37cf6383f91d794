//! The nodes of a service that run here.
ghost use Rattle.std.specs.Prelude.{◌≡◌, ◌<◌, true, IsTrue, IfOk, IfSome, OnOk, map};
ghost use Rattle.std.specs.List.{All};
ghost use Rattle.maildrop.specs.Name.{are_different};
ghost use Rattle.cluster.specs.Ends.{IsLeftBy};
ghost use Rattle.cluster.specs.Members.{IsLogOf};
ghost use Rattle.cluster.specs.Starts.{all_nodes, has_window};
ghost use Rattle.session.specs.Serve.{IsReadAndWritten};
ghost use Rattle.service.specs.Faults as faults;
ghost use Rattle.service.specs.Nodes.{nodes_here};

use crate::brand::Service;
use crate::epoch_journal::EpochJournal;
use crate::journaled_desk::JournaledDesk;
use crate::served_node::{OperatorOp, ServedNode};
use crate::transcripts::{Greeted, Served};
use apop::{Accounts, Stamp};
use ballot::{Cluster as Size, Envelope, Memory, NodeId};
use cluster::{Cluster, Ended, EndedLogs, InboxLink, Link, NodeDesk, Setup, StartError, Status};
use maildrop::{Kept, Name, Outcome, SharedCommand, Ticket, Usage};
use node::WIDEST_WINDOW;
use peer_link::TcpLink;
use ports::{Fault, System};
use session::{DeskStopped, Gate};
use session_log::{SessionDesk, SharedFacts};
use std::alloc::Global;
use std::io::{Read, Write};
use std::marker::Model;
use std::sync::Wait;
use std::sync::ledger::Share;
use std::time::{Clock, Duration};

/// Nodes of a service that run here. To start them takes a part of the service's ledger, which has one part. So only their
/// logs are those of the service, and only they have its desks. Contracts see the nodes' numbers.
#[derive(Drop)]
pub(crate) struct ServiceNodes<D: Service + Send + Sync + 'static, R: System, L: Link> {
    rt: R,
    cluster: Cluster<D, R, L>,
    part: Share<D>,
    journal: EpochJournal,
}

impl<D: Service + Send + Sync + 'static, R: System, L: Link> Model for ServiceNodes<D, R, L> {
    ghost use Rattle.std.specs.Prelude.{◌<◌, ℕ, List};

    ghost Value = { List ℕ };

    ghost view = { λ n. n.cluster };

    ghost invariant = { λ n. 0 < n.part.parts };
}

impl<D: Service + Send + Sync + 'static, R: System> ServiceNodes<D, R, InboxLink<R>> {
    /// Starts all nodes, which send to one another's inboxes. `Value` if they can't begin so.
    pub(crate) fn start(
        rt: R,
        alloc: Global,
        setup: &Setup,
        part: Share<D>,
        journal: EpochJournal,
    ) -> Result<Self, Fault>
        requires deployment { setup.now ≡ D.setup }
        requires different { IsTrue (are_different setup.now.names) }
        requires part { 0 < part.parts }
        ensures nodes { IfOk result (λ nodes. nodes ≡ all_nodes setup.now.cluster) }
        ensures window { OnOk result (has_window setup.now ≡ true) }
    {
        match Cluster::<D, R, InboxLink<R>>::start(rt, alloc, setup) {
            Ok(cluster) => Ok(ServiceNodes {
                rt,
                cluster,
                part,
                journal,
            }),
            Err(error) => Err(fault_of(error)),
        }
    }
}

/// Why nodes don't start.
fn fault_of(error: StartError) -> Fault
    ensures { result ≡ faults.start_fault error }
{
    match error {
        StartError::Setup => Fault::Value,
        StartError::Memory | StartError::Thread => Fault::Memory,
    }
}

impl<D: Service + Send + Sync + 'static, R: System> ServiceNodes<D, R, TcpLink<R>> {
    /// Starts the node of this number, or all nodes if there is no number. They send to ports above this one. `Value` if
    /// they can't begin so.
    pub(crate) fn start_over(
        rt: R,
        alloc: Global,
        setup: &Setup,
        part: Share<D>,
        base: u16,
        node: Option<NodeId>,
        journal: EpochJournal,
    ) -> Result<Self, Fault>
        requires deployment { setup.now ≡ D.setup }
        requires different { IsTrue (are_different setup.now.names) }
        requires part { 0 < part.parts }
        ensures nodes { IfOk result (λ nodes. nodes ≡ nodes_here setup.now.cluster node) }
        ensures window { OnOk result (has_window setup.now ≡ true) }
    {
        if setup.window < 1 || setup.window > WIDEST_WINDOW {
            return Err(Fault::Value);
        }
        let links = links_of(rt, alloc, setup.cluster, base, node)?;
        match Cluster::<D, R, TcpLink<R>>::start_over(rt, alloc, setup, links) {
            Ok(cluster) => Ok(ServiceNodes {
                rt,
                cluster,
                part,
                journal,
            }),
            Err(error) => Err(fault_of(error)),
        }
    }
}

/// A link of each node that runs here.
fn links_of<R: System>(
    rt: R,
    alloc: Global,
    size: Size,
    base: u16,
    node: Option<NodeId>,
) -> Result<Vec<(NodeId, TcpLink<R>)>, Memory>
    ensures { IfOk result (λ links. map (λ link. link.0) links.items ≡ nodes_here size node) }
{
    match node {
        None => all_links(rt, alloc, size, base),
        Some(node) => {
            let mut links = Vec::new(alloc);
            links.push((node, TcpLink::to_others(rt, alloc, base)?))?;
            Ok(links)
        }
    }
}

/// A link of each node.
fn all_links<R: System>(
    rt: R,
    alloc: Global,
    size: Size,
    base: u16,
) -> Result<Vec<(NodeId, TcpLink<R>)>, Memory>
    ensures { IfOk result (λ links. map (λ link. link.0) links.items ≡ all_nodes size) }
{
    let mut links = Vec::new(alloc);
    for before in 0..size.get() {
        let Some(node) = NodeId::new(before + 1) else {
            unreachable!()
        };
        links.push((node, TcpLink::to_others(rt, alloc, base)?))?;
    }
    Ok(links)
}

impl<
    D: Service + Send + Sync + 'static,
    R: System,
    L: Link + Drop + Send + Sync + 'static,
> ServiceNodes<D, R, L> {
    /// The desks of all nodes that run here.
    pub(crate) fn desks(
        &self,
        alloc: Global,
        size: Size,
    ) -> Result<Vec<ServiceDesk<D, R, L>>, Fault> {
        let mut desks = Vec::new(alloc);
        for number in 1..=size.get() {
            if let Some(node) = NodeId::new(number) {
                if let Some(desk) = self.cluster.desk(node)? {
                    let journal = self.journal.share()?;
                    desks.push(ServiceDesk {
                        rt: self.rt,
                        desk,
                        journal,
                    })?;
                }
            }
        }
        Ok(desks)
    }

    /// A node asks to lead, if it runs here.
    pub(crate) fn campaign(&self, node: NodeId) {
        self.cluster.campaign(node);
    }

    /// Stops all nodes of a service, and returns their logs, with the maildrops as one of them leaves them than which none has
    /// performed more. `None` if the state of a node isn't under its lock.
    pub(crate) fn stop(self) -> Option<StoppedNodes<D>>
        requires { self ≡ all_nodes D.setup.cluster }
        ensures { IfSome result (λ stopped. IfOk stopped.kept (λ kept. IsLeftBy D.setup stopped.logs kept)) }
    {
        let ServiceNodes {
            rt: _,
            cluster,
            part,
            journal: _,
        } = self;
        let Ended { logs, kept } = cluster.stop()?;
        Some(StoppedNodes {
            logs: ServiceLogs { logs, part },
            kept,
        })
    }

    /// Stops a node whose service isn't audited here.
    pub(crate) fn stop_unaudited(self) -> Unaudited<D> {
        let ServiceNodes {
            rt: _,
            cluster,
            part,
            journal: _,
        } = self;
        drop(cluster);
        Unaudited { part }
    }
}

/// What the nodes of a service leave. Finding the maildrops may have needed memory that was refused.
#[derive(Drop)]
pub(crate) struct StoppedNodes<D: Service> {
    pub logs: ServiceLogs<D>,
    pub kept: Result<Kept, Memory>,
}

/// A node of a service has stopped without an audit. Its part of the ledger can't be that of logs any more.
#[derive(Drop)]
pub(crate) struct Unaudited<D: Service> {
    part: Share<D>,
}

/// The logs of all nodes of a service, in the order of their numbers.
#[derive(Drop)]
pub(crate) struct ServiceLogs<D: Service> {
    logs: EndedLogs,
    part: Share<D>,
}

impl<D: Service> Model for ServiceLogs<D> {
    ghost use Rattle.std.specs.Prelude.{◌≡◌, ◌<◌, List, map};
    ghost use Rattle.std.specs.List.{All};
    ghost use Rattle.std.specs.declared.alloc.Global.{Global};
    ghost use Rattle.node.specs.declared.log.NodeLog.{NodeLog};
    ghost use Rattle.cluster.specs.Members.{IsLogOf};
    ghost use Rattle.cluster.specs.Starts.{all_nodes};

    ghost Value = { List (NodeLog Global) };

    ghost view = { λ l. l.logs };

    ghost invariant = { λ l. (map (λ log. log.opening.me) l.logs ≡ all_nodes D.setup.cluster)
        × All (λ log. IsLogOf D.setup log.opening.me log) l.logs × (0 < l.part.parts) };
}

impl<D: Service> ServiceLogs<D> {
    /// The logs, which are no longer known to be those of this service.
    pub(crate) fn into_ended(self) -> EndedLogs
        ensures value { result ≡ self }
        ensures nodes { map (λ log. log.opening.me) result ≡ all_nodes D.setup.cluster }
        ensures began { All (λ log. IsLogOf D.setup log.opening.me log) result }
    {
        let ServiceLogs { logs, part: _ } = self;
        logs
    }
}

/// The desk of a node of a service that runs here. Another service's node has none here. So what a desk serves goes to the
/// nodes whose logs are audited, if they are.
#[derive(Drop)]
pub(crate) struct ServiceDesk<D: Service, R: Wait, L: Link> {
    rt: R,
    desk: NodeDesk<D, R, L>,
    journal: EpochJournal,
}

impl<D: Service, R: Wait + Clock + Copy, L: Link + Drop> ServiceDesk<D, R, L> {
    /// Serves the session of a client that was greeted, at this node, to its end. Only this call asks the node for what a
    /// session asks for. So no session is served whose client wasn't greeted.
    pub(crate) fn serve<I: Read, O: Write, G: Gate>(
        self,
        rt: R,
        alloc: Global,
        greeted: Greeted<D>,
        accounts: &Accounts,
        stamp: Stamp,
        facts: SharedFacts,
        reader: &mut I,
        writer: &mut O,
        gate: &mut G,
    ) -> Served<D>
        requires { accounts.now ≡ D.accounts }
        ensures { IsReadAndWritten D.accounts stamp result
            (I.remaining reader.old) (I.remaining reader.new) (O.contents writer.old) (O.contents writer.new) }
    {
        let ServiceDesk {
            rt: _,
            desk,
            journal,
        } = self;
        let node = JournaledDesk {
            rt,
            node: desk,
            journal,
        };
        let mut desk = SessionDesk { rt, node, facts };
        greeted.serve(alloc, reader, writer, accounts, stamp, &mut desk, gate)
    }
}

impl<D: Service, R: Wait + Clock + Copy, L: Link> ServedNode for ServiceDesk<D, R, L> {
    fn me(&self) -> NodeId {
        self.desk.me()
    }

    fn share(&self) -> Result<Self, Memory> {
        let journal = self.journal.share()?;
        let desk = NodeDesk::share(&self.desk)?;
        Ok(ServiceDesk {
            rt: self.rt,
            desk,
            journal,
        })
    }

    fn crash(&self) -> bool {
        self.desk.crash()
    }

    fn tick(&self) {
        self.desk.tick();
    }

    fn campaign(&self) {
        self.desk.campaign();
    }

    fn arrive(&self, envelope: Envelope<SharedCommand>) -> bool {
        self.desk.arrive(envelope)
    }

    fn has_unheard(&self) -> bool {
        self.desk.has_unheard()
    }

    fn status(&self) -> Option<Status> {
        self.desk.status()
    }

    fn locks(&self) -> Result<Vec<(Name, Ticket)>, Memory> {
        self.desk.locks()
    }

    fn usage(&self) -> Result<Vec<(Name, Usage)>, Memory> {
        let usages = self.desk.usage()?;
        // Nobody is shown what could be gone after a restart.
        if self.journal.settle(&self.rt, &self.desk) {
            Ok(usages)
        } else {
            Err(Memory)
        }
    }

    fn submit(&self, user: Name, op: OperatorOp) -> Option<Ticket> {
        self.desk.submit(user, op.into_op())
    }

    fn outcome_within(
        &self,
        user: Name,
        ticket: Ticket,
        time: Duration,
    ) -> Result<Option<Outcome>, DeskStopped> {
        let answer = self.desk.outcome_within(user, ticket, time);
        if !matches!(&answer, Ok(Some(_))) || self.journal.settle(&self.rt, &self.desk) {
            return answer;
        }
        let _was_up = self.desk.crash();
        Err(DeskStopped {
            ticket: Some(ticket),
        })
    }

    fn outcomes_within(
        &self,
        user: Name,
        tickets: &[Ticket],
        time: Duration,
        room: Vec<Outcome>,
    ) -> Result<Vec<Outcome>, DeskStopped> {
        let (mut outcomes, mut time) = (room, time);
        for ticket in tickets {
            if outcomes.len() == outcomes.capacity() {
                break;
            }
            match self.desk.outcome_within(user, *ticket, time) {
                Ok(Some(outcome)) => outcomes.push_reserved(outcome),
                Ok(None) => break,
                Err(stopped) if outcomes.is_empty() => return Err(stopped),
                // Those before it were there. The next call reports that the node has stopped.
                Err(_) => break,
            }
            time = Duration::ZERO;
        }
        if outcomes.is_empty() || self.journal.settle(&self.rt, &self.desk) {
            return Ok(outcomes);
        }
        let _was_up = self.desk.crash();
        Err(DeskStopped {
            ticket: tickets.first().copied(),
        })
    }

    fn forget(&self, user: Name, ticket: Ticket) {
        self.desk.forget(user, ticket);
    }

    fn under_way(&self) -> usize {
        self.journal.under_way()
    }
}
