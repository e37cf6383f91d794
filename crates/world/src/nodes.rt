//! The nodes of a service, and the messages between them.
ghost use Rattle.std.specs.Prelude.{◌≡◌, ◌+◌, ℕ, [], true, false, Some, None, is_some, slice_get, if◌then◌else◌, IfOk, OnOk, OnErr, IfSome};
ghost use Rattle.std.specs.Ordering.{is_eq};
ghost use Rattle.maildrop.specs.CommandId.{CommandId, compare_ids};
ghost use Rattle.node.specs.declared.input.Input.TheVariants.{Crash};
ghost use Rattle.world.specs.Hosts.{network_of, HasAnswerAt, IsArrivalCut, ticket_at, can_count, counted, crashes_of, crashes_after};
ghost use Rattle.world.specs.Values.{crash_of, is_known};
ghost use Rattle.runs.specs.Messages.{is_up, log_of, given_input, message_arrives};
ghost use Rattle.runs.specs.Worlds.{answer_at, last_ticket_in, performed_in};
ghost use Rattle.runs.specs.declared.sent.Sent.{Sent};

use crate::host::Host;
use crate::sent_messages::{SentMessages, arriving};
use ballot::{Memory, NodeId, Slot};
use maildrop::{CommandId, Name, Outcome, SharedCommand, Ticket};
use node::Input;
use runs::Sent;
use std::alloc::{Allocator, Global};
use std::marker::Model;

/// The nodes, in the order of their numbers, and all messages that they sent.
#[derive(Drop)]
pub(crate) struct Nodes<A: Allocator + Copy = Global> {
    hosts: Vec<Host<A>, A>,
    sent: SentMessages<A>,
}

impl<A: Allocator + Copy> Model for Nodes<A> {
    ghost use Rattle.world.specs.Hosts.{Hosts};

    ghost Value = { Hosts A };

    ghost view = { λ h. record { hosts = h.hosts.items; sent = h.sent } };
}

/// Where a node stands among the nodes.
pub(crate) fn place_of(node: NodeId) -> usize
    ensures { result + 1 ≡ node }
{
    usize::from(node.get()) - 1
}

impl<A: Allocator + Copy> Nodes<A> {
    /// These nodes, in the order of their numbers, with nothing sent. Takes no memory.
    pub(crate) fn new(alloc: A, hosts: Vec<Host<A>, A>) -> Self
        ensures { result ≡ record { hosts = hosts.items; sent = [] } }
    {
        Nodes {
            hosts,
            sent: SentMessages::new(alloc),
        }
    }

    /// All messages, in the order in which they were sent.
    pub(crate) fn sent(&self) -> &[Sent<A>]
        ensures { result.now ≡ self.now.sent }
    {
        self.sent.get()
    }

    /// Whether there is such a node, and it takes inputs.
    pub(crate) fn is_up(&self, node: NodeId) -> bool
        ensures { result ≡ is_up (log_of node (network_of self.now).logs) }
    {
        match self.hosts.get(place_of(node)) {
            Some(host) => host.is_up(),
            None => false,
        }
    }

    /// A node takes an input, and what that brings is sent. Gives the ticket of a `Submit`. Where the node isn't there,
    /// or isn't up, nothing happens. After `Memory` it has crashed.
    pub(crate) fn take(&mut self, node: NodeId, input: Input<A>) -> Result<Option<Ticket>, Memory>
        ensures ok { OnOk result (network_of self.new ≡ given_input (network_of self.old) node input) }
        ensures ticket { IfOk result (λ ticket. ticket ≡ ticket_at (log_of node (network_of self.old).logs) input) }
        ensures err { OnErr result (network_of self.new ≡ given_input (network_of self.old) node Crash) }
        ensures answers { (n : ℕ) (id : CommandId) → HasAnswerAt n id self.old → HasAnswerAt n id self.new }
        ensures crashed { OnOk result (crashes_of self.new ≡ crashes_after input node self.old) }
        ensures uncrashed { OnErr result (crashes_of self.new ≡ crashes_of self.old) }
    {
        let Some(host) = self.hosts.get_mut(place_of(node)) else {
            return Ok(None);
        };
        host.take_if_up(&mut self.sent, input)
    }

    /// A node has stopped in place of an input for which there was no memory. Where it isn't there, or isn't up, nothing
    /// happens.
    pub(crate) fn cut(&mut self, node: NodeId)
        ensures network { network_of self.new ≡ given_input (network_of self.old) node Crash }
        ensures answers { (n : ℕ) (id : CommandId) → HasAnswerAt n id self.old → HasAnswerAt n id self.new }
        ensures crashed { crashes_of self.new ≡ crashes_of self.old }
    {
        let Some(host) = self.hosts.get_mut(place_of(node)) else {
            return;
        };
        host.cut();
    }

    /// The message that was sent as the number `which` reaches its addressee. Where no such was sent, or the addressee
    /// isn't up, nothing happens. After `Memory` the addressee has crashed.
    pub(crate) fn arrive(&mut self, which: usize) -> Result<(), Memory>
        ensures ok { OnOk result (network_of self.new ≡ message_arrives (network_of self.old) which (slice_get self.old.sent which)) }
        ensures err { OnErr result (IsArrivalCut (network_of self.old) (network_of self.new) (slice_get self.old.sent which)) }
        ensures answers { (n : ℕ) (id : CommandId) → HasAnswerAt n id self.old → HasAnswerAt n id self.new }
        ensures crashed { crashes_of self.new ≡ crashes_of self.old }
    {
        let Some(message) = self.sent.message(which) else {
            return Ok(());
        };
        let to = message.envelope.to;
        if !self.is_up(to) {
            return Ok(());
        }
        match arriving(message) {
            Ok(envelope) => self.receive(which, to, Input::Arrive(envelope)),
            Err(error) => {
                self.cut(to);
                Err(error)
            }
        }
    }

    /// A message that arrives is an input of its addressee, and is counted. After `Memory` the addressee has crashed.
    fn receive(&mut self, which: usize, to: NodeId, input: Input<A>) -> Result<(), Memory>
        requires { (s : Sent A) × (slice_get self.old.sent which ≡ Some s) × (can_count s ≡ true) }
        ensures ok { OnOk result (network_of self.new ≡ given_input (counted which (network_of self.old)) to input) }
        ensures err { OnErr result (network_of self.new ≡ given_input (network_of self.old) to Crash) }
        ensures answers { (n : ℕ) (id : CommandId) → HasAnswerAt n id self.old → HasAnswerAt n id self.new }
        ensures crashed { OnOk result (crashes_of self.new ≡ crashes_after input to self.old) }
        ensures uncrashed { OnErr result (crashes_of self.new ≡ crashes_of self.old) }
    {
        let _ = self.take(to, input)?;
        self.sent.count_arrival(which);
        Ok(())
    }

    /// Whether the answer to a command is there, at a node that is up.
    pub(crate) fn has_answer(&self, node: NodeId, id: CommandId) -> bool
        ensures { HasAnswerAt node id self.now → result ≡ is_some (answer_at (log_of node (network_of self.now).logs) id) }
    {
        match self.hosts.get(place_of(node)) {
            Some(host) => host.has_answer(id),
            None => false,
        }
    }

    /// The answer to a command, if it is there, at a node that is up. It is given once. Takes no memory.
    pub(crate) fn take_answer(&mut self, node: NodeId, id: CommandId) -> Option<Outcome<A>>
        ensures answer { HasAnswerAt node id self.old → result ≡ answer_at (log_of node (network_of self.old).logs) id }
        ensures network { network_of self.new ≡ network_of self.old }
        ensures others { (n : ℕ) (other : CommandId) → is_eq (compare_ids id other) ≡ false → HasAnswerAt n other self.old → HasAnswerAt n other self.new }
        ensures crashed { crashes_of self.new ≡ crashes_of self.old }
    {
        let Some(host) = self.hosts.get_mut(place_of(node)) else {
            return None;
        };
        host.take_answer(id)
    }

    /// What a node has performed: each command once, with its slot. None exactly if there is no such node, or it ran out of
    /// memory or tickets.
    pub(crate) fn performed(&self, node: NodeId) -> Option<&[(Slot, SharedCommand<A>)]>
        ensures value { IfSome result (λ performed. performed_in (log_of node (network_of self.now).logs) ≡ Some performed.now) }
        ensures known { is_some result ≡ is_known (log_of node (network_of self.now).logs) (crash_of node (crashes_of self.now)) }
    {
        self.performed_at(place_of(node))
    }

    /// As `performed`, of the node at this place, counted from 0.
    pub(crate) fn performed_at(&self, place: usize) -> Option<&[(Slot, SharedCommand<A>)]>
        ensures value { IfSome result (λ performed. performed_in (slice_get (network_of self.now).logs place) ≡ Some performed.now) }
        ensures known { is_some result ≡ is_known (slice_get (network_of self.now).logs place) (slice_get (crashes_of self.now) place) }
    {
        match self.hosts.get(place) {
            Some(host) => host.performed(),
            None => None,
        }
    }

    /// The ticket that a node gave last to the user, if it has given one. None if there is no such node, or it ran out of
    /// memory or tickets.
    pub(crate) fn last_ticket(&self, node: NodeId, user: Name) -> Option<Ticket>
        ensures { result ≡ (if is_known (log_of node (network_of self.now).logs) (crash_of node (crashes_of self.now)) then last_ticket_in (log_of node (network_of self.now).logs) user else None) }
    {
        match self.hosts.get(place_of(node)) {
            Some(host) => host.last_ticket(user),
            None => None,
        }
    }
}
