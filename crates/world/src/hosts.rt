//! The nodes of a service, the messages between them, and which of these may arrive.
ghost use Rattle.std.specs.Prelude.{◌≡◌, ◌+◌, ◌^◌, ◌<◌, ◌≤◌, [], true, false, ℕ, length, Some, None, is_some, slice_get, drop, if◌then◌else◌, IfOk, OnOk, OnErr, IfSome};
ghost use Rattle.std.specs.List.{position};
ghost use Rattle.std.specs.Option.{option_map};
ghost use Rattle.std.specs.Ordering.{is_eq};
ghost use Rattle.maildrop.specs.CommandId.{CommandId, compare_ids};
ghost use Rattle.node.specs.declared.input.Input.TheVariants.{Crash, Submit};
ghost use Rattle.world.specs.Hosts.{network_of, HasAnswerAt, IsArrivalCut, ticket_at, crashes_of, crashes_after};
ghost use Rattle.world.specs.Values.{crash_of, is_known};
ghost use Rattle.runs.specs.Messages.{is_up, log_of, given_input, message_arrives};
ghost use Rattle.world.specs.Scheduling.{reach, can_arrive, IsQuiet};
ghost use Rattle.runs.specs.Worlds.{answer_at, last_position, last_ticket_in, performed_in};
ghost use Rattle.runs.specs.declared.sent.Sent.{Sent};

use crate::host::Host;
use crate::index::{Index, block_end, block_start, pass_over, refresh, take_in};
use crate::nodes::Nodes;
use ballot::{Memory, NodeId, Slot};
use maildrop::{CommandId, Name, Op, Outcome, Shared, SharedCommand, Ticket};
use node::Input;
use runs::Sent;
use std::alloc::{Allocator, Global};
use std::marker::Model;

/// The nodes, in the order of their numbers, and all messages that they sent, with an index of these.
#[derive(Drop)]
pub(crate) struct Hosts<A: Allocator + Copy = Global> {
    nodes: Nodes<A>,
    index: Index<A>,
}

impl<A: Allocator + Copy> Model for Hosts<A> {
    ghost use Rattle.world.specs.Hosts.{Hosts, network_of};
    ghost use Rattle.world.specs.Scheduling.{AreFewest};

    ghost Value = { Hosts A };

    ghost view = { λ h. h.nodes };

    ghost invariant = { λ h. AreFewest (network_of h.nodes) h.index.items };
}

impl<A: Allocator + Copy> Hosts<A> {
    /// These nodes, in the order of their numbers, with nothing sent. Takes no memory.
    pub(crate) fn new(alloc: A, hosts: Vec<Host<A>, A>) -> Self
        ensures { result ≡ record { hosts = hosts.items; sent = [] } }
    {
        Hosts {
            nodes: Nodes::new(alloc, hosts),
            index: Vec::new(alloc),
        }
    }

    /// All messages, in the order in which they were sent.
    pub(crate) fn sent(&self) -> &[Sent<A>]
        ensures { result.now ≡ self.now.sent }
    {
        self.nodes.sent()
    }

    /// Whether there is such a node, and it takes inputs.
    pub(crate) fn is_up(&self, node: NodeId) -> bool
        ensures { result ≡ is_up (log_of node (network_of self.now).logs) }
    {
        self.nodes.is_up(node)
    }

    /// A node takes an input, and what that brings is sent. Gives the ticket of a `Submit`. Where the node isn't there,
    /// or isn't up, nothing happens. After `Memory` it has crashed.
    pub(crate) fn take(&mut self, node: NodeId, input: Input<A>) -> Result<Option<Ticket>, Memory>
        ensures ok { OnOk result (network_of self.new ≡ given_input (network_of self.old) node input) }
        ensures ticket { IfOk result (λ ticket. ticket ≡ ticket_at (log_of node (network_of self.old).logs) input) }
        ensures err { OnErr result (network_of self.new ≡ given_input (network_of self.old) node Crash) }
        ensures answers { (n : ℕ) (id : CommandId) → HasAnswerAt n id self.old → HasAnswerAt n id self.new }
        ensures crashed { OnOk result (crashes_of self.new ≡ crashes_after input node self.old) }
        ensures uncrashed { OnErr result (crashes_of self.new ≡ crashes_of self.old) }
    {
        let was_up = self.nodes.is_up(node);
        let taken = self.nodes.take(node, input);
        take_in(&self.nodes, &mut self.index);
        if was_up && !self.nodes.is_up(node) {
            pass_over(&self.nodes, &mut self.index);
        }
        taken
    }

    /// A node takes an operation for a user, as by `take`. After `Memory`, also without memory for the operation, it has
    /// crashed.
    pub(crate) fn submit(
        &mut self,
        node: NodeId,
        user: Name,
        op: Op<A>,
    ) -> Result<Option<Ticket>, Memory>
        ensures ok { OnOk result (network_of self.new ≡ given_input (network_of self.old) node (Submit user op)) }
        ensures ticket { IfOk result (λ ticket. ticket ≡ ticket_at (log_of node (network_of self.old).logs) (Submit user op)) }
        ensures err { OnErr result (network_of self.new ≡ given_input (network_of self.old) node Crash) }
        ensures answers { (n : ℕ) (id : CommandId) → HasAnswerAt n id self.old → HasAnswerAt n id self.new }
        ensures crashed { crashes_of self.new ≡ crashes_of self.old }
    {
        match Shared::new(*self.index.allocator(), op) {
            Ok(op) => self.take(node, Input::Submit(user, op)),
            Err(error) => {
                self.cut(node);
                Err(error)
            }
        }
    }

    /// A node has stopped in place of an input for which there was no memory. Where it isn't there, or isn't up, nothing
    /// happens.
    pub(crate) fn cut(&mut self, node: NodeId)
        ensures network { network_of self.new ≡ given_input (network_of self.old) node Crash }
        ensures answers { (n : ℕ) (id : CommandId) → HasAnswerAt n id self.old → HasAnswerAt n id self.new }
        ensures crashed { crashes_of self.new ≡ crashes_of self.old }
    {
        let was_up = self.nodes.is_up(node);
        self.nodes.cut(node);
        if was_up {
            pass_over(&self.nodes, &mut self.index);
        }
    }

    /// The message that was sent as the number `which` reaches its addressee. Where no such was sent, or the addressee
    /// isn't up, nothing happens. After `Memory` the addressee has crashed.
    pub(crate) fn arrive(&mut self, which: usize) -> Result<(), Memory>
        ensures ok { OnOk result (network_of self.new ≡ message_arrives (network_of self.old) which (slice_get self.old.sent which)) }
        ensures err { OnErr result (IsArrivalCut (network_of self.old) (network_of self.new) (slice_get self.old.sent which)) }
        ensures answers { (n : ℕ) (id : CommandId) → HasAnswerAt n id self.old → HasAnswerAt n id self.new }
        ensures crashed { crashes_of self.new ≡ crashes_of self.old }
    {
        let arrived = self.nodes.arrive(which);
        refresh(&self.nodes, &mut self.index, which);
        take_in(&self.nodes, &mut self.index);
        if arrived.is_err() {
            pass_over(&self.nodes, &mut self.index);
        }
        arrived
    }

    /// Whether the message at this place has arrived fewer times than this, and its addressee is up.
    fn may_arrive(&self, place: usize, copies: u64) -> bool
        requires { place < length self.now.sent }
        ensures { (s : Sent A) → slice_get self.now.sent place ≡ Some s → result ≡ can_arrive (network_of self.now) copies s }
    {
        let message = &self.nodes.sent()[place];
        message.arrived < copies && self.nodes.is_up(message.envelope.to)
    }

    /// Whether the index says that no message of the block of this place can arrive.
    fn is_quiet(&self, place: usize, copies: u64) -> bool
        ensures place { result ≡ true → place < 2 ^ 63 }
        ensures quiet { result ≡ true → (from to : ℕ) → place ≤ from + reach place → to ≤ place + reach place + 1 → IsQuiet (network_of self.now) copies from to }
    {
        match self.index.get(place) {
            Some(fewest) => copies <= *fewest,
            None => false,
        }
    }

    /// The first place from this one on at which a message stands that has arrived fewer times than this, and whose
    /// addressee is up.
    pub(crate) fn first_to_arrive(&self, from: usize, copies: u64) -> Option<usize>
        ensures value { result ≡ option_map (λ k. from + k) (position (can_arrive (network_of self.now) copies) (drop from self.now.sent)) }
        ensures possible { IfSome result (λ which. (s : Sent A) × (slice_get self.now.sent which ≡ Some s) × (is_up (log_of s.envelope.to (network_of self.now).logs) ≡ true)) }
    {
        let mut place = from;
        while place < self.nodes.sent().len() {
            if self.is_quiet(place, copies) {
                place = block_end(place);
            } else if self.may_arrive(place, copies) {
                return Some(place);
            } else {
                place += 1;
            }
        }
        None
    }

    /// The last place from this one on at which a message stands that has arrived fewer times than this, and whose
    /// addressee is up.
    pub(crate) fn last_to_arrive(&self, from: usize, copies: u64) -> Option<usize>
        ensures value { result ≡ option_map (λ k. from + k) (last_position (can_arrive (network_of self.now) copies) (drop from self.now.sent)) }
        ensures possible { IfSome result (λ which. (s : Sent A) × (slice_get self.now.sent which ≡ Some s) × (is_up (log_of s.envelope.to (network_of self.now).logs) ≡ true)) }
    {
        let mut end = self.nodes.sent().len();
        while from < end {
            let place = end - 1;
            if self.is_quiet(place, copies) {
                end = block_start(place);
            } else if self.may_arrive(place, copies) {
                return Some(place);
            } else {
                end = place;
            }
        }
        None
    }

    /// Whether the answer to a command is there, at a node that is up.
    pub(crate) fn has_answer(&self, node: NodeId, id: CommandId) -> bool
        ensures { HasAnswerAt node id self.now → result ≡ is_some (answer_at (log_of node (network_of self.now).logs) id) }
    {
        self.nodes.has_answer(node, id)
    }

    /// The answer to a command, if it is there, at a node that is up. It is given once. Takes no memory.
    pub(crate) fn take_answer(&mut self, node: NodeId, id: CommandId) -> Option<Outcome<A>>
        ensures answer { HasAnswerAt node id self.old → result ≡ answer_at (log_of node (network_of self.old).logs) id }
        ensures network { network_of self.new ≡ network_of self.old }
        ensures others { (n : ℕ) (other : CommandId) → is_eq (compare_ids id other) ≡ false → HasAnswerAt n other self.old → HasAnswerAt n other self.new }
        ensures crashed { crashes_of self.new ≡ crashes_of self.old }
    {
        self.nodes.take_answer(node, id)
    }

    /// What a node has performed: each command once, with its slot. None exactly if there is no such node, or it ran out of
    /// memory or tickets.
    pub(crate) fn performed(&self, node: NodeId) -> Option<&[(Slot, SharedCommand<A>)]>
        ensures value { IfSome result (λ performed. performed_in (log_of node (network_of self.now).logs) ≡ Some performed.now) }
        ensures known { is_some result ≡ is_known (log_of node (network_of self.now).logs) (crash_of node (crashes_of self.now)) }
    {
        self.nodes.performed(node)
    }

    /// As `performed`, of the node at this place, counted from 0.
    pub(crate) fn performed_at(&self, place: usize) -> Option<&[(Slot, SharedCommand<A>)]>
        ensures value { IfSome result (λ performed. performed_in (slice_get (network_of self.now).logs place) ≡ Some performed.now) }
        ensures known { is_some result ≡ is_known (slice_get (network_of self.now).logs place) (slice_get (crashes_of self.now) place) }
    {
        self.nodes.performed_at(place)
    }

    /// The ticket that a node gave last to the user, if it has given one. None if there is no such node, or it ran out of
    /// memory or tickets.
    pub(crate) fn last_ticket(&self, node: NodeId, user: Name) -> Option<Ticket>
        ensures { result ≡ (if is_known (log_of node (network_of self.now).logs) (crash_of node (crashes_of self.now)) then last_ticket_in (log_of node (network_of self.now).logs) user else None) }
    {
        self.nodes.last_ticket(node, user)
    }
}
