//! A service that takes one event after another.
ghost use Rattle.std.specs.Prelude.{◌≡◌, ◌≤◌, ℕ, true, false, replicate, Some, None, Err, is_some, option_map, IfOk, IfErr, IfSome, OnOk, OnErr};
ghost use Rattle.std.specs.Option.{option_copied};
ghost use Rattle.ballot.specs.Nodes.{in_cluster};
ghost use Rattle.runs.specs.Clients.{Client, client_of};
ghost use Rattle.runs.specs.Decisions.{ChoosesOne, ChoosesSubmitted, IsDecidedFirst, KeepsDecided, TellsChosen, WereSubmitted};
ghost use Rattle.runs.specs.Interrupted.{IsInterrupted};
ghost use Rattle.world.specs.Kept.{new_host, new_hosts};
ghost use Rattle.runs.specs.Projection.{IsProjected};
ghost use Rattle.runs.specs.Refusals.{step_refusal};
ghost use Rattle.runs.specs.Services.{opening_of};
ghost use Rattle.runs.specs.Worlds as spec;
ghost use Rattle.runs.specs.declared.refused.Refused.{Refused};
ghost use Rattle.world.specs.Values.{crashed_after, is_known_at, known_ticket};

use crate::act::act;
use crate::host::Host;
use crate::hosts::Hosts;
use crate::operations::{Operations, take_outcome};
use crate::refusal::refusal_of;
use crate::sessions::Sessions;
use ballot::{Items, Memory, NodeId, Slot};
use indexmap::IndexMap;
use maildrop::{CommandId, Name, Outcome, SharedCommand, Ticket};
use node::{Node, Opening};
use runs::{Config, Event, Refused, Sent, SessionId};
use std::alloc::{Allocator, Global};
use std::marker::Model;

/// For how many slots a node proposes at most, from the next one on that it performs.
pub use node::WIDEST_WINDOW;

/// A service. It takes one event after another, and is always where some run leads.
#[derive(Drop)]
pub struct World<A: Allocator + Copy = Global> {
    config: Config<A>,
    pub(crate) hosts: Hosts<A>,
    pub(crate) connections: Sessions<A>,
    operations: Operations<A>,
    alloc: A,
}

impl<A: Allocator + Copy> Model for World<A> {
    ghost use Rattle.world.specs.Values.{WorldValue};

    ghost Value = { WorldValue A };

    ghost use Rattle.world.specs.Kept.{IsKept, value_of};

    ghost view = { λ w. value_of w.config w.hosts w.connections.entries w.operations.entries };

    ghost use Rattle.world.specs.Waiting.{IsUpToDate};

    ghost invariant = { λ w. IsKept w.config w.hosts w.connections.entries w.operations.entries × IsUpToDate w.hosts w.connections.entries w.connections.waiting };
}

impl<A: Allocator + Copy> World<A> {
    /// A service that begins so: its nodes have empty maildrops, nothing was sent, and nobody is connected.
    pub fn new(alloc: A, config: Config<A>) -> Result<Self, Memory>
        requires window { (1 ≤ config.window) × (config.window ≤ 1000) }
        ensures world { IfOk result (λ it. it.world ≡ spec.new_world config) }
        ensures crashed { IfOk result (λ it. it.crashed ≡ replicate config.cluster false) }
    {
        let hosts = begin(alloc, &config)?;
        let nodes = hosts.len();
        Ok(World {
            config,
            hosts: Hosts::new(alloc, hosts),
            connections: Sessions::new(alloc, nodes)?,
            operations: IndexMap::new(alloc),
            alloc,
        })
    }

    /// An event happens, if it can. One that can't is refused, the first of its reasons is told, and nothing has changed.
    /// After `Memory` the node or the session that found none is down; a client that connects is as if it hadn't. What is
    /// decided stays so.
    pub fn step(&mut self, event: Event<A>) -> Result<(), Refused>
        ensures refused { (reason : Refused) → step_refusal self.old.world.config self.old.world.service event ≡ Some reason → result ≡ Err reason }
        ensures unchanged { (reason : Refused) → step_refusal self.old.world.config self.old.world.service event ≡ Some reason → self.new ≡ self.old }
        ensures ok { OnOk result (self.new.world ≡ spec.stepped self.old.world event) }
        ensures crashed { OnOk result (self.new.crashed ≡ crashed_after event self.old.crashed) }
        ensures memory { step_refusal self.old.world.config self.old.world.service event ≡ None → IfErr result (λ error. error ≡ Refused.Memory) }
        ensures interrupted { step_refusal self.old.world.config self.old.world.service event ≡ None
            → OnErr result (IsInterrupted self.old.world.config event self.old.world.service self.new.world.service) }
        ensures uncrashed { OnErr result (self.new.crashed ≡ self.old.crashed) }
        ensures operations { OnErr result (self.new.world.operations ≡ self.old.world.operations) }
        ensures config { self.new.world.config ≡ self.old.world.config }
        ensures decided { KeepsDecided self.old.world.config self.old.world.service self.new.world.service }
    {
        if let Some(reason) = refusal_of(&self.config, &self.hosts, &self.connections, &event) {
            return Err(reason);
        }
        let session = event.session();
        let acted = act(
            self.alloc,
            &self.config,
            &mut self.hosts,
            &mut self.connections,
            &mut self.operations,
            event,
        );
        self.connections.catch_up(&self.hosts, session);
        acted?;
        Ok(())
    }

    /// The bytes of all replies that a session got, its greeting first; None if no such session has connected. They
    /// are a prefix of what a POP3 server says that has the session's user's maildrop alone: to the session's greeting and
    /// lines, if it performs the user's decided commands in order, each once.
    pub fn replies(&self, session: SessionId) -> Option<&[u8]>
        ensures value { option_copied result ≡ option_map (λ c. c.replies) (client_of session self.now.world.service.clients) }
        ensures projected { (c : Client A) → client_of session self.now.world.service.clients ≡ Some c → IsProjected self.now.world.config self.now.world.service c }
    {
        match self.connections.get(session) {
            Some(connection) => Some(connection.replies.get()),
            None => None,
        }
    }

    /// All messages that nodes have sent, in the order in which they were sent. By these at most one command is chosen in
    /// a slot, each Decision among them carries a command that is chosen in its slot, and each command that is chosen was
    /// submitted.
    pub fn sent(&self) -> &[Sent<A>]
        ensures value { result.now ≡ self.now.world.service.network.sent }
        ensures agreement { ChoosesOne self.now.world.config self.now.world.service }
        ensures learning { TellsChosen self.now.world.config self.now.world.service }
        ensures validity { ChoosesSubmitted self.now.world.config self.now.world.service }
    {
        self.hosts.sent()
    }

    /// The outcome of a Mail or a Break that this node was given for the user under this ticket, if it is there and the
    /// node is up. It is given once. Takes no memory.
    pub fn take_outcome(&mut self, node: NodeId, user: Name, ticket: Ticket) -> Option<Outcome<A>>
        ensures outcome { result ≡ spec.outcome_at self.old.world node (record { user = user; ticket = ticket }) }
        ensures world { self.new.world ≡ spec.without_outcome_at self.old.world node (record { user = user; ticket = ticket }) }
        ensures crashed { self.new.crashed ≡ self.old.crashed }
    {
        take_outcome(
            &mut self.hosts,
            &mut self.operations,
            node,
            CommandId::new(user, ticket),
        )
    }

    /// What a node has performed, also one that an event has crashed: each command once, with its slot. It is how the
    /// decided order begins, the same for all nodes, and each of its commands was submitted. None exactly if there is no such
    /// node, or it ran out of memory or tickets.
    pub fn performed(&self, node: NodeId) -> Option<&[(Slot, SharedCommand<A>)]>
        ensures value { IfSome result (λ performed. spec.performed_by self.now.world.service node ≡ Some performed.now) }
        ensures known { is_some result ≡ is_known_at self.now node }
        ensures decided { IfSome result (λ performed. IsDecidedFirst self.now.world.config self.now.world.service performed.now) }
        ensures submitted { IfSome result (λ performed. WereSubmitted self.now.world.service performed.now) }
    {
        self.hosts.performed(node)
    }

    /// The ticket that a node gave last to the user, if it has given one, also a node that an event has crashed. None if
    /// there is no such node, or it ran out of memory or tickets. Takes no memory.
    pub fn last_ticket(&self, node: NodeId, user: Name) -> Option<Ticket>
        ensures { result ≡ known_ticket self.now node user }
    {
        self.hosts.last_ticket(node, user)
    }
}

/// The nodes as they begin, in the order of their numbers.
fn begin<A: Allocator + Copy>(alloc: A, config: &Config<A>) -> Result<Vec<Host<A>, A>, Memory>
    requires window { (1 ≤ config.now.window) × (config.now.window ≤ 1000) }
    ensures { IfOk result (λ hosts. hosts.items ≡ new_hosts (opening_of config.now) 1 config.now.cluster) }
{
    let mut hosts = Vec::new(alloc);
    for place in 0..config.cluster.get() {
        let Some(me) = NodeId::new(place + 1) else {
            unreachable!();
        };
        hosts.push(begin_one(alloc, config, me)?)?;
    }
    Ok(hosts)
}

/// A node as it begins.
fn begin_one<A: Allocator + Copy>(
    alloc: A,
    config: &Config<A>,
    me: NodeId,
) -> Result<Host<A>, Memory>
    requires window { (1 ≤ config.now.window) × (config.now.window ≤ 1000) }
    requires its { in_cluster config.now.cluster me ≡ true }
    ensures { IfOk result (λ host. host ≡ new_host (opening_of config.now) me) }
{
    let names = Vec::from_slice(alloc, config.accounts.names())?;
    let opening = Opening {
        me,
        cluster: config.cluster,
        window: config.window,
        names: Items::from_vec(names),
        limits: config.limits,
        kept: config.kept.copy()?,
        keys: config.keys,
    };
    match Node::open(alloc, opening)? {
        Some(node) => Ok(Host::new(node)),
        None => unreachable!(),
    }
}
