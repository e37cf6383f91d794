//! A cluster of nodes, each with a thread of its own.
ghost use Rattle.std.specs.Prelude.{◌≡◌, ◌≤◌, [], ◌∷◌, ◌++◌, false, None, Ok, Err, is_some, map, IsTrue, IfOk, OnOk, IfSome, length, vec_len, vec_capacity};
ghost use Rattle.std.specs.List.{All, AllZip};
ghost use Rattle.ballot.specs.Nodes.{is_among};
ghost use Rattle.maildrop.specs.Name.{are_different};
ghost use Rattle.node.specs.Nodes.{opened};
ghost use Rattle.cluster.specs.Ends.{IsLeftBy};
ghost use Rattle.cluster.specs.Members as members;
ghost use Rattle.cluster.specs.Members.{member_of, IsLogOf, IsStatusOf};
ghost use Rattle.cluster.specs.Starts as spec;
ghost use Rattle.cluster.specs.Starts.{all_nodes};
ghost use Rattle.cluster.specs.Users.{AreLocksOf, AreUsagesOf};

use crate::desk::NodeDesk;
use crate::ended::{Ended, end_all};
use crate::ended_node::EndedNode;
use crate::handle::NodeHandle;
use crate::hub::{Hub, Inbox};
use crate::link::{InboxLink, Link};
use crate::member::Member;
use crate::outbox::Outbox;
use crate::retired::Retired;
use crate::setup::{Deployment, Setup};
use crate::start_error::StartError;
use crate::start_links::{can_run, has_window};
use crate::status::Status;
use ballot::{Cluster as Size, Envelope, Items, Memory, NodeId};
use maildrop::{Kept, Name, Shared, SharedCommand, Ticket, Usage};
use node::{Input, Node, NodeLog, Opening};
use std::alloc::Global;
use std::marker::Model;
use std::sync::{Arc, Wait};
use std::thread;
use std::thread::{JoinHandle, Threads};

/// Nodes of a cluster that run here, each with a thread of its own, which hears what comes to the node's inbox. It stays
/// on the thread that started it. One that is let go ends its threads, as `stop` does. Contracts see it as the numbers of
/// its nodes, in the order in which they were started.
pub struct Cluster<D: Deployment, R: Threads + Wait, L: Link> {
    rt: R,
    alloc: Global,
    hub: Arc<Hub>,
    nodes: Vec<NodeHandle<D, L>>,
    threads: Vec<JoinHandle<()>>,
    /// What the maildrops opened with.
    kept: Shared<Kept>,
    /// Room for all nodes once they are taken away.
    retired: Vec<Retired<D>>,
    /// Room for all nodes once they have ended.
    ended: Vec<EndedNode>,
    /// Room for the logs of all nodes.
    logs: Vec<NodeLog>,
}

impl<D: Deployment, R: Threads + Wait, L: Link> Model for Cluster<D, R, L> {
    ghost use Rattle.std.specs.Prelude.{◌≡◌, ◌≤◌, ℕ, List, [], IsTrue, vec_len, vec_capacity};
    ghost use Rattle.maildrop.specs.Name.{are_different};

    ghost Value = { List ℕ };

    ghost view = { λ c. c.nodes.items };

    ghost invariant = { λ c. (c.retired.items ≡ []) × (vec_len c.nodes ≤ vec_capacity c.retired)
        × (c.ended.items ≡ []) × (vec_len c.nodes ≤ vec_capacity c.ended)
        × (c.logs.items ≡ []) × (vec_len c.nodes ≤ vec_capacity c.logs)
        × (c.kept ≡ D.setup.kept) × IsTrue (are_different D.setup.names) };
}

/// The thread of a node: hears what comes to the inbox, until the node has stopped or nobody can put anything in there.
fn run_node<D: Deployment, R: Wait, L: Link>(
    rt: &R,
    node: &NodeHandle<D, L>,
    inbox: &Inbox,
    mut sends: Outbox,
) {
    for _ in rt.forever() {
        let Ok(envelope) = inbox.recv(rt) else {
            return;
        };
        if !node.hear(rt, envelope, inbox, &mut sends) {
            return;
        }
    }
}

/// What the node of this number begins with.
fn opening_of(alloc: Global, setup: &Setup, me: NodeId) -> Result<Opening, Memory>
    ensures { IfOk result (λ opening. opening ≡ members.opening_of setup.now me) }
{
    Ok(Opening {
        me,
        cluster: setup.cluster,
        window: setup.window,
        names: Items::from_vec(Vec::from_slice(alloc, setup.names.get())?),
        limits: setup.limits,
        kept: setup.kept.copy()?,
        keys: setup.keys,
    })
}

/// The node of this number, as it begins, with its link.
fn new_node<D: Deployment, L: Link + Drop>(
    alloc: Global,
    setup: &Setup,
    me: NodeId,
    link: L,
) -> Result<NodeHandle<D, L>, StartError>
    requires deployment { setup.now ≡ D.setup }
    requires names { IsTrue (are_different setup.now.names) }
    ensures { IfOk result (λ node. node ≡ me) }
{
    let member = new_member(alloc, setup, me)?;
    Ok(NodeHandle::new(alloc, me, member, link)?)
}

/// The nodes of these links, as they begin, each with its link. They are opened side by side, each on a thread of its own if
/// the system has one: to open a node takes time in proportion to the messages and keys that are kept.
fn open_all<
    D: Deployment + Send + Sync + 'static,
    R: Threads + Sync,
    L: Link + Drop + Send + Sync + 'static,
>(
    rt: &R,
    alloc: Global,
    setup: &Setup,
    links: Vec<(NodeId, L)>,
) -> Result<Vec<Result<NodeHandle<D, L>, StartError>>, StartError>
    requires deployment { setup.now ≡ D.setup }
    requires names { IsTrue (are_different setup.now.names) }
    ensures { IfOk result (λ nodes. AllZip (λ link node. IfOk node (λ node. node ≡ link.0)) links.items nodes.items) }
{
    let open = |(me, link): (NodeId, L)| -> Result<NodeHandle<D, L>, StartError>
        requires { (setup.now ≡ D.setup) × IsTrue (are_different setup.now.names) }
        ensures { IfOk result (λ node. node ≡ me) }
    { new_node(alloc, setup, me, link) };
    Ok(thread::map_vec(rt, links, &open)?)
}

/// Opens an inbox for a node, and starts the thread that hears what comes there.
fn start_thread<
    D: Deployment + Send + Sync + 'static,
    R: Threads + Wait + Copy + Send + Sync + 'static,
    L: Link + Drop + Send + Sync + 'static,
>(rt: R, alloc: Global, hub: &Hub, node: &NodeHandle<D, L>) -> Result<JoinHandle<()>, StartError> {
    let theirs = node.share()?;
    let inbox = hub.open(&rt, alloc, node.me())?;
    let sends = node.new_outbox();
    match thread::spawn(&rt, move || run_node(&rt, &theirs, &inbox, sends)) {
        Ok(thread) => Ok(thread),
        Err(_) => Err(StartError::Thread),
    }
}

/// The node of this number, as it begins.
fn new_member<D: Deployment>(
    alloc: Global,
    setup: &Setup,
    me: NodeId,
) -> Result<Member<D>, StartError>
    requires deployment { setup.now ≡ D.setup }
    requires names { IsTrue (are_different setup.now.names) }
    ensures { IfOk result (λ member. member ≡ member_of (opened (members.opening_of setup.now me))) }
{
    let opening = opening_of(alloc, setup, me)?;
    match Node::open(alloc, opening)? {
        Some(node) => Ok(Member::new(alloc, node)),
        None => Err(StartError::Setup),
    }
}

/// A link for each node of the cluster, to the inboxes of them all.
fn inbox_links<R: Wait + Copy>(
    rt: R,
    alloc: Global,
    cluster: Size,
    hub: &Arc<Hub>,
) -> Result<Vec<(NodeId, InboxLink<R>)>, Memory>
    ensures { IfOk result (λ links. map (λ link. link.0) links.items ≡ all_nodes cluster) }
{
    let mut links = Vec::new(alloc);
    for before in 0..cluster.get() {
        let Some(node) = NodeId::new(before + 1) else {
            unreachable!()
        };
        let link = InboxLink::new(rt, Arc::try_clone(hub)?);
        links.push((node, link))?;
    }
    Ok(links)
}

impl<
    D: Deployment + Send + Sync + 'static,
    R: Threads + Wait + Copy + Send + Sync + 'static,
> Cluster<D, R, InboxLink<R>> {
    /// Starts all nodes of the cluster, which send to one another's inboxes. `Setup` if its window isn't 1 to
    /// `WIDEST_WINDOW`.
    pub fn start(rt: R, alloc: Global, setup: &Setup) -> Result<Self, StartError>
        requires deployment { setup.now ≡ D.setup }
        requires names { IsTrue (are_different setup.now.names) }
        ensures nodes { IfOk result (λ cluster. cluster ≡ all_nodes setup.now.cluster) }
        ensures setup { spec.has_window setup.now ≡ false → result ≡ Err StartError.Setup }
    {
        if !has_window(setup) {
            return Err(StartError::Setup);
        }
        let hub = Hub::new(alloc)?;
        let links = inbox_links(rt, alloc, setup.cluster, &hub)?;
        Cluster::start_on(rt, alloc, setup, hub, links)
    }
}

impl<
    D: Deployment + Send + Sync + 'static,
    R: Threads + Wait + Copy + Send + Sync + 'static,
    L: Link + Drop + Send + Sync + 'static,
> Cluster<D, R, L> {
    /// Starts these nodes of the cluster alone, each of which sends by its link. `Setup` if one of them can't begin,
    /// or is there twice.
    pub fn start_over(
        rt: R,
        alloc: Global,
        setup: &Setup,
        links: Vec<(NodeId, L)>,
    ) -> Result<Self, StartError>
        requires deployment { setup.now ≡ D.setup }
        requires names { IsTrue (are_different setup.now.names) }
        ensures nodes { IfOk result (λ cluster. cluster ≡ map (λ link. link.0) links.items) }
        ensures setup { spec.can_run setup.now (map (λ link. link.0) links.items) ≡ false → result ≡ Err StartError.Setup }
    {
        if !can_run(setup, &links) {
            return Err(StartError::Setup);
        }
        let hub = Hub::new(alloc)?;
        Cluster::start_on(rt, alloc, setup, hub, links)
    }

    fn start_on(
        rt: R,
        alloc: Global,
        setup: &Setup,
        hub: Arc<Hub>,
        links: Vec<(NodeId, L)>,
    ) -> Result<Self, StartError>
        requires deployment { setup.now ≡ D.setup }
        requires names { IsTrue (are_different setup.now.names) }
        ensures { IfOk result (λ cluster. cluster ≡ map (λ link. link.0) links.items) }
    {
        let kept = setup.kept.copy()?;
        let mut cluster = Cluster {
            rt,
            alloc,
            hub,
            nodes: Vec::new(alloc),
            threads: Vec::new(alloc),
            kept,
            retired: Vec::new(alloc),
            ended: Vec::new(alloc),
            logs: Vec::new(alloc),
        };
        for node in open_all(&rt, alloc, setup, links)? {
            cluster.start_node(node?)?;
        }
        Ok(cluster)
    }

    /// Starts a node, which isn't here yet. Nothing comes to its inbox before the cluster has started.
    fn start_node(&mut self, node: NodeHandle<D, L>) -> Result<(), StartError>
        ensures { OnOk result (self.new ≡ self.old ++ node ∷ []) }
    {
        let count = self.nodes.len() + 1;
        self.retired.reserve(count)?;
        self.ended.reserve(count)?;
        self.logs.reserve(count)?;
        self.threads.reserve(1)?;
        self.nodes.reserve(1)?;
        self.threads
            .push_reserved(start_thread(self.rt, self.alloc, &self.hub, &node)?);
        self.nodes.push_reserved(node);
        Ok(())
    }

    /// Puts an envelope into its addressee's inbox. Gives whether it is in there: not if that node doesn't run here, its
    /// thread has ended, or without memory. A node that has stopped hears none. Its thread ends at the next that comes, so
    /// one may still be put in there, and is lost.
    pub fn arrive(&self, envelope: Envelope<SharedCommand>) -> bool
        ensures { is_among envelope.to self.now ≡ false → result ≡ false }
    {
        self.find(envelope.to).is_some() && self.hub.deliver(&self.rt, envelope)
    }

    /// The desk of a node, if that node is here.
    pub fn desk(&self, node: NodeId) -> Result<Option<NodeDesk<D, R, L>>, Memory>
        ensures here { IfOk result (λ desk. is_some desk ≡ is_among node self.now) }
        ensures none { is_among node self.now ≡ false → result ≡ Ok None }
        ensures node { IfOk result (λ desk. IfSome desk (λ desk. desk ≡ node)) }
    {
        let Some(handle) = self.find(node) else {
            return Ok(None);
        };
        let hub = Arc::try_clone(&self.hub)?;
        let handle = handle.share()?;
        Ok(Some(NodeDesk::new(self.rt, handle, hub)))
    }

    /// The node stops, for good. Gives whether it was here and up until now.
    pub fn crash(&self, node: NodeId) -> bool
        ensures { is_among node self.now ≡ false → result ≡ false }
    {
        match self.find(node) {
            None => false,
            Some(handle) => handle.crash(&self.rt),
        }
    }

    /// Time has passed for a node. Nothing if it isn't here, or has stopped.
    pub fn tick(&self, node: NodeId) {
        self.step(node, Input::Tick);
    }

    /// A node asks to lead. Nothing if it isn't here, or has stopped.
    pub fn campaign(&self, node: NodeId) {
        self.step(node, Input::Campaign);
    }

    fn step(&self, node: NodeId, input: Input) {
        if let Some(handle) = self.find(node) {
            let _none = handle.step(&self.rt, input);
        }
    }

    /// How a node stands, if it is here.
    pub fn status(&self, node: NodeId) -> Option<Status>
        ensures here { is_among node self.now ≡ false → result ≡ None }
        ensures logged { IfSome result (λ status. IsStatusOf D.setup node status) }
    {
        self.find(node)?.status(&self.rt)
    }

    fn find(&self, node: NodeId) -> Option<&NodeHandle<D, L>>
        ensures here { is_some result ≡ is_among node self.now }
        ensures node { IfSome result (λ handle. handle.now ≡ node) }
    {
        find_node(&self.nodes, node)
    }

    /// The users whose maildrop is locked at a node, each with the ticket of the Take that holds the lock, in the order of
    /// the setup's names. Empty if the node isn't here, or has stopped without memory.
    pub fn locks(&self, node: NodeId) -> Result<Vec<(Name, Ticket)>, Memory>
        ensures here { is_among node self.now ≡ false → IfOk result (λ locks. locks.items ≡ []) }
        ensures logged { IfOk result (λ locks. AreLocksOf D.setup node locks.items) }
    {
        match self.find(node) {
            None => Ok(Vec::new(self.alloc)),
            Some(handle) => handle.locks(&self.rt),
        }
    }

    /// All users, each with what the maildrop has at a node, in the order of the setup's names. Empty if the node isn't here,
    /// or has stopped without memory.
    pub fn usage(&self, node: NodeId) -> Result<Vec<(Name, Usage)>, Memory>
        ensures here { is_among node self.now ≡ false → IfOk result (λ usages. usages.items ≡ []) }
        ensures logged { IfOk result (λ usages. AreUsagesOf D.setup node usages.items) }
    {
        match self.find(node) {
            None => Ok(Vec::new(self.alloc)),
            Some(handle) => handle.usages(&self.rt),
        }
    }

    pub(crate) fn runtime(&self) -> R {
        self.rt
    }

    pub(crate) fn allocator(&self) -> Global {
        self.alloc
    }

    /// Ends the threads, each once its node has heard what is in its inbox or has stopped, and returns the logs of the nodes,
    /// in the order in which these were started, with what is kept of the maildrops: as a log leaves them than which none has
    /// performed more, or without a node as the setup has them. From then on their desks answer that they have stopped. If a
    /// link's `send` doesn't return, neither does this. Takes no memory, but for a node that has stopped without memory or
    /// tickets, whose log is replayed, and for a cluster without a node: `kept` is `Memory` if there is none for that. `None`
    /// if the state of a node isn't under its lock: only this call and letting the cluster go take it away.
    pub fn stop(self) -> Option<Ended>
        ensures nodes { IfSome result (λ ended. map (λ log. log.opening.me) ended.logs ≡ self) }
        ensures logs { IfSome result (λ ended. All (λ log. IsLogOf D.setup log.opening.me log) ended.logs) }
        ensures kept { IfSome result (λ ended. IfOk ended.kept (λ kept. IsLeftBy D.setup ended.logs kept)) }
    {
        let Cluster {
            rt,
            alloc,
            hub,
            nodes,
            threads,
            kept,
            retired,
            ended,
            logs,
        } = self;
        end_threads(&rt, alloc, &hub, threads);
        let retired = retire_all(&rt, &nodes, retired)?;
        Some(end_all(alloc, kept.get(), retired, ended, logs))
    }
}

impl<D: Deployment, R: Threads + Wait + Drop, L: Link + Drop> Drop for Cluster<D, R, L> {
    fn drop(self) {
        let Cluster {
            rt,
            alloc,
            hub,
            nodes,
            threads,
            kept: _,
            retired,
            ended: _,
            logs: _,
        } = self;
        end_threads(&rt, alloc, &hub, threads);
        drop(retire_all(&rt, &nodes, retired));
    }
}

/// The node of this number among these.
fn find_node<D: Deployment, L: Link>(
    nodes: &[NodeHandle<D, L>],
    node: NodeId,
) -> Option<&NodeHandle<D, L>>
    ensures here { is_some result ≡ is_among node nodes.now }
    ensures node { IfSome result (λ handle. handle.now ≡ node) }
{
    let mut rest = nodes;
    while let Some((handle, others)) = rest.split_first() {
        if node == handle.me() {
            return Some(handle);
        }
        rest = others;
    }
    None
}

/// Closes the inboxes, so that each node's thread finds the end of its own, and joins the threads.
fn end_threads<R: Threads + Wait>(rt: &R, alloc: Global, hub: &Hub, threads: Vec<JoinHandle<()>>) {
    hub.close(rt, alloc);
    for thread in threads {
        thread.join(rt);
    }
}

/// Takes all nodes away, in their order. `None` if one isn't under its lock. Takes no memory.
fn retire_all<D: Deployment, R: Wait, L: Link>(
    rt: &R,
    nodes: &[NodeHandle<D, L>],
    mut retired: Vec<Retired<D>>,
) -> Option<Vec<Retired<D>>>
    requires none { retired.items ≡ [] }
    requires room { length nodes.now ≤ vec_capacity retired }
    ensures few { IfSome result (λ retired. vec_len retired ≤ length nodes.now) }
    ensures all { IfSome result (λ retired. map (λ log. log.opening.me) retired.items ≡ nodes.now) }
{
    let mut is_whole = true;
    for node in nodes {
        match node.retire(rt) {
            Some(node) => retired.push_reserved(node),
            None => is_whole = false,
        }
    }
    if is_whole { Some(retired) } else { None }
}
