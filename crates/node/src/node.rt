//! The node.
ghost use Rattle.std.specs.Prelude.{◌≡◌, ◌↔◌, ◌≤◌, ◌+◌, ℕ, [], true, false, Some, None, Ok, Err, is_some, IsTrue, IfOk, OnOk, IfErr, IfSome};
ghost use Rattle.std.specs.List.{list_any};
ghost use Rattle.std.specs.Ordering.{is_eq};
ghost use Rattle.ballot.specs.declared.slot.TheConstants.{LAST_SLOT};
ghost use Rattle.maildrop.specs.CommandId.{CommandId, compare_ids};
ghost use Rattle.maildrop.specs.Name.{are_different};
ghost use Rattle.maildrop.specs.Office.{kept_of};
ghost use Rattle.leader.specs.Leaders.{phase_is_active};
ghost use Rattle.replica.specs.Replicas.{is_waiting, is_behind};
ghost use Rattle.node.specs.Replay.{replayed, sends_of, ticket_of, is_crash};
ghost use Rattle.node.specs.Nodes.{IsKnown, opened, logged, stops_after, no_ticket_for, answer_of, answered, answer_after, EndsInCrash};
ghost use Rattle.node.specs.Tickets.{CanStop};
ghost use Rattle.node.specs.Nodes as spec;
ghost use Rattle.node.specs.Replay as replay;

use crate::closed_node::ClosedNode;
use crate::input::Input;
use crate::log::{NodeLog, Opening};
use crate::outputs::Outputs;
use crate::roles::Roles;
use crate::step::take;
use crate::stopped::Stopped;
use crate::tickets::{Given, last_ticket};
use ballot::{Cluster, Items, Memory, NodeId, Slot};
use indexmap::IndexMap;
use maildrop::{CommandId, Kept, Limits, Name, Office, Outcome, Shared, SharedCommand, Ticket};
use std::alloc::{Allocator, Global};
use std::marker::Model;

/// For how many slots a node proposes at most, from the next one on that it performs.
pub const WIDEST_WINDOW: u64 = 1_000;

/// A node of the service. One `step` takes one input, and what the node is follows from the inputs that it took: its log.
#[derive(Drop)]
pub struct Node<A: Allocator + Copy = Global> {
    log: NodeLog<A>,
    roles: Roles<A>,
    given: Given<A>,
    stopped: Option<Stopped>,
    alloc: A,
}

impl<A: Allocator + Copy> Model for Node<A> {
    ghost use Rattle.node.specs.Nodes.{NodeValue, awaited_in, IsKept};

    ghost Value = { NodeValue A };

    ghost view = { λ n. record { log = n.log; stopped = n.stopped; awaited = awaited_in n.stopped n.roles } };

    ghost invariant = { λ n. IsKept n.log n.roles n.given.entries n.stopped };
}

/// Whether a node can begin so.
fn can_begin(me: NodeId, cluster: Cluster, window: u64) -> bool
    ensures { result ≡ spec.can_begin me cluster window }
{
    cluster.contains(me) && 1 <= window && window <= WIDEST_WINDOW
}

impl<A: Allocator + Copy> Node<A> {
    /// Node `me` of the cluster, with an empty maildrop for each name, each with these limits. It proposes for `window`
    /// slots, from the next one on that it performs. None if `me` isn't a node of the cluster, or the window isn't 1 to
    /// `WIDEST_WINDOW`.
    pub fn new(
        alloc: A,
        me: NodeId,
        cluster: Cluster,
        window: u64,
        names: &[Name],
        limits: Limits,
    ) -> Result<Option<Self>, Memory>
        requires { IsTrue (are_different names.now) }
        ensures valid { IfOk result (λ node. is_some node ≡ spec.can_begin me cluster window) }
        ensures refused { spec.can_begin me cluster window ≡ false → result ≡ Ok None }
        ensures opening { IfOk result (λ node. IfSome node (λ n. n ≡ opened (record { me = me; cluster = cluster; window = window; names = names.now; limits = limits; kept = []; keys = 0 }))) }
    {
        if !can_begin(me, cluster, window) {
            return Ok(None);
        }
        let opening = Opening {
            me,
            cluster,
            window,
            names: Items::from_vec(Vec::from_slice(alloc, names)?),
            limits,
            kept: Shared::new(alloc, Kept::new(alloc))?,
            keys: 0,
        };
        Node::open(alloc, opening)
    }

    /// A node that begins so: with the maildrops that are kept, each with its limits and its last keys, and with all
    /// locks open. None if its number isn't that of a node of the cluster, or the window isn't 1 to `WIDEST_WINDOW`.
    pub fn open(alloc: A, opening: Opening<A>) -> Result<Option<Self>, Memory>
        requires { IsTrue (are_different opening.names) }
        ensures valid { IfOk result (λ node. is_some node ≡ spec.can_begin opening.me opening.cluster opening.window) }
        ensures refused { spec.can_begin opening.me opening.cluster opening.window ≡ false → result ≡ Ok None }
        ensures opening { IfOk result (λ node. IfSome node (λ n. n ≡ opened opening)) }
    {
        if !can_begin(opening.me, opening.cluster, opening.window) {
            return Ok(None);
        }
        let roles = Roles::new(alloc, &opening)?;
        Ok(Some(Node {
            log: NodeLog {
                opening,
                inputs: Items::new(alloc),
            },
            roles,
            given: IndexMap::new(alloc),
            stopped: None,
            alloc,
        }))
    }

    /// Takes an input, whatever it is: the log has it last. After an error the node has stopped for good, its log is as
    /// it was, and no answer is awaited of it any more.
    pub fn step(&mut self, input: Input<A>) -> Result<Outputs<A>, Stopped>
        ensures log { OnOk result (self.new.log ≡ logged self.old.log input) }
        ensures sends { IfOk result (λ outputs. outputs.sends ≡ sends_of self.old.log input) }
        ensures ticket { IfOk result (λ outputs. outputs.ticket ≡ ticket_of self.old.log input) }
        ensures stops { OnOk result (self.new.stopped ≡ stops_after input) }
        ensures answers { OnOk result (stops_after input ≡ None → (id : CommandId) → answer_of id self.new.awaited ≡ answer_after self.old.log input id (answer_of id self.old.awaited)) }
        ensures err { IfErr result (λ stop. self.new ≡ record { log = self.old.log; stopped = Some stop; awaited = [] }) }
        ensures cause { self.old.stopped ≡ None → IfErr result (λ stop. CanStop (no_ticket_for self.old.log input) stop) }
        ensures used { self.old.stopped ≡ None → no_ticket_for self.old.log input ≡ true → result ≡ Err Stopped.TicketsUsed }
        ensures again { IfSome self.old.stopped (λ stop. result ≡ Err stop) }
    {
        if let Some(stop) = self.stopped {
            return Err(stop);
        }
        let stops = input.stops();
        match take(
            self.alloc,
            &mut self.log,
            &mut self.roles,
            &mut self.given,
            input,
        ) {
            Ok(outputs) => {
                self.stopped = stops;
                Ok(outputs)
            }
            Err(stop) => {
                self.stopped = Some(stop);
                Err(stop)
            }
        }
    }

    /// Whether the answer to the user's command with this ticket is there. It is there once the node has performed the
    /// command, if the command was submitted here before, until it is taken or the node stops.
    pub fn has_answer(&self, user: Name, ticket: Ticket) -> bool
        ensures value { result ≡ is_some (answer_of (record { user = user; ticket = ticket }) self.now.awaited) }
        ensures stopped { IfSome self.now.stopped (λ _. result ≡ false) }
    {
        self.stopped.is_none() && self.roles.has_answer(CommandId::new(user, ticket))
    }

    /// The answer to the user's command with this ticket, if it is there. It is given once. Takes no memory.
    pub fn take_answer(&mut self, user: Name, ticket: Ticket) -> Option<Outcome<A>>
        ensures answer { result ≡ answer_of (record { user = user; ticket = ticket }) self.old.awaited }
        ensures given { IfSome result (λ outcome. answered self.old.log (record { user = user; ticket = ticket }) ≡ Some outcome) }
        ensures log { self.new.log ≡ self.old.log }
        ensures stopped { self.new.stopped ≡ self.old.stopped }
        ensures none { IfSome self.old.stopped (λ _. result ≡ None) }
        ensures gone { answer_of (record { user = user; ticket = ticket }) self.new.awaited ≡ None }
        ensures others { (id : CommandId) → is_eq (compare_ids (record { user = user; ticket = ticket }) id) ≡ false
            → answer_of id self.new.awaited ≡ answer_of id self.old.awaited }
    {
        if self.stopped.is_some() {
            return None;
        }
        self.roles.take_answer(CommandId::new(user, ticket))
    }

    /// What it began with, and the inputs that it took.
    pub fn log(&self) -> &NodeLog<A>
        ensures { result.now ≡ self.now.log }
    {
        &self.log
    }

    /// The ticket that the user's last operation got, of those that were submitted here, or none if none was. Takes no
    /// memory.
    pub fn last_ticket(&self, user: Name) -> Option<Ticket>
        ensures { result ≡ replay.last_ticket self.now.log.opening.me user self.now.log.inputs }
    {
        last_ticket(self.log.opening.me, &self.given, user)
    }

    /// The log, without the node.
    pub fn into_log(self) -> NodeLog<A>
        ensures { result ≡ self.log }
    {
        self.log
    }

    /// Returns what is left of the node, and what is kept of the maildrops: each as the node has it, without its limits and
    /// with an open lock. That is what the log leads to, unless the node has stopped without memory: then it is unknown. Takes
    /// no memory, and the same time however much was performed.
    pub fn close(self) -> (ClosedNode<A>, Kept<A>)
        ensures log { result.0 ≡ self.log }
        ensures kept { IsKnown self.stopped → result.1 ≡ kept_of (replayed self.log).replica.machine }
    {
        let Node {
            log,
            roles,
            given: _,
            stopped: _,
            alloc: _,
        } = self;
        let (office, roles) = roles.into_parts();
        (ClosedNode::new(log, roles), office.close())
    }

    /// Its number.
    pub fn me(&self) -> NodeId
        ensures { result ≡ self.now.log.opening.me }
    {
        self.log.opening.me
    }

    /// Why it takes no input any more, if it doesn't. It has crashed if its log has a crash, which is then the last
    /// input.
    pub fn stopped(&self) -> Option<Stopped>
        ensures value { result ≡ self.now.stopped }
        ensures ended { (result ≡ Some Stopped.Crashed) ↔ EndsInCrash self.now.log.inputs }
        ensures crashed { (result ≡ Some Stopped.Crashed) ↔ (list_any is_crash self.now.log.inputs ≡ true) }
        ensures awaits_none { IfSome result (λ _. self.now.awaited ≡ []) }
    {
        self.stopped
    }

    /// What its replica has performed: each command once, with its slot. Unknown once it has stopped without memory.
    pub fn performed(&self) -> &[(Slot, SharedCommand<A>)]
        ensures { IsKnown self.now.stopped → result.now ≡ (replayed self.now.log).replica.performed }
    {
        self.roles.performed()
    }

    /// The maildrops of all users after what its replica has performed, to read them. Unknown once it has stopped without
    /// memory. Takes no memory.
    pub fn office(&self) -> &Office<A>
        ensures { IsKnown self.now.stopped → result.now ≡ (replayed self.now.log).replica.machine }
    {
        self.roles.office()
    }

    /// The first slot that isn't decided here, 1 to 2^63. Unknown once it has stopped without memory.
    pub fn slot_out(&self) -> u64
        ensures value { IsKnown self.now.stopped → result ≡ (replayed self.now.log).replica.slot_out }
        ensures range { IsKnown self.now.stopped → (1 ≤ result) × (result ≤ LAST_SLOT + 1) }
    {
        self.roles.slot_out()
    }

    /// Whether a later slot than `slot_out` is decided here: it misses a decision. Unknown once it has stopped without
    /// memory. Takes no memory.
    pub fn is_behind(&self) -> bool
        ensures { IsKnown self.now.stopped → result ≡ is_behind (replayed self.now.log).replica }
    {
        self.roles.is_behind()
    }

    /// Whether its leader has its ballot. Unknown once it has stopped without memory.
    pub fn is_active(&self) -> bool
        ensures { IsKnown self.now.stopped → result ≡ phase_is_active (replayed self.now.log).leader.phase }
    {
        self.roles.is_active()
    }

    /// Whether a command that was submitted here isn't performed yet. Unknown once it has stopped without memory.
    pub fn waiting(&self) -> bool
        ensures { IsKnown self.now.stopped → result ≡ is_waiting (replayed self.now.log).replica.awaited }
    {
        self.roles.waiting()
    }
}
