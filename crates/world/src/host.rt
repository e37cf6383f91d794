//! A node of a service, with its log as a run knows it.
ghost use Rattle.std.specs.Prelude.{◌≡◌, ◌++◌, [], true, false, Some, None, is_some, if◌then◌else◌, IfOk, OnOk, OnErr, IfSome};
ghost use Rattle.std.specs.Ordering.{is_eq};
ghost use Rattle.maildrop.specs.CommandId.{CommandId, compare_ids};
ghost use Rattle.node.specs.Nodes.{logged};
ghost use Rattle.node.specs.Replay.{replayed, sends_of, ticket_of};
ghost use Rattle.node.specs.declared.input.Input.TheVariants.{Crash};
ghost use Rattle.world.specs.Hosts.{HasAnswer, crashed_by, log_after, sent_after, ticket_at};
ghost use Rattle.world.specs.Values.{is_known};
ghost use Rattle.runs.specs.Messages.{is_up, newly_sent, last_ticket_of};
ghost use Rattle.runs.specs.Worlds.{answer_at};

use crate::sent_messages::SentMessages;
use ballot::{Memory, Slot};
use maildrop::{CommandId, Name, Outcome, SharedCommand, Ticket};
use node::{Input, Node, Stopped};
use std::alloc::{Allocator, Global};
use std::marker::Model;

/// A node. Where it finds no memory its log has a crash in place of the input.
#[derive(Drop)]
pub(crate) struct Host<A: Allocator + Copy = Global> {
    node: Node<A>,
    /// Whether there was no memory for its last input, or for what that sent: then it has crashed in place of that.
    is_cut: bool,
}

impl<A: Allocator + Copy> Model for Host<A> {
    ghost use Rattle.world.specs.Hosts.{Host, host_of, IsLoggedSo};

    ghost Value = { Host A };

    ghost view = { λ h. host_of h.node h.is_cut };

    ghost invariant = { λ h. IsLoggedSo h.node.stopped h.node.log };
}

impl<A: Allocator + Copy> Host<A> {
    /// A node that has taken no input.
    pub(crate) fn new(node: Node<A>) -> Self
        requires running { node.stopped ≡ None }
        requires new { node.log.inputs ≡ [] }
        ensures { result ≡ record { log = node.log; awaited = node.awaited; crashed = false } }
    {
        Host {
            node,
            is_cut: false,
        }
    }

    /// Whether it takes inputs.
    pub(crate) fn is_up(&self) -> bool
        ensures { result ≡ is_up (Some self.now.log) }
    {
        !self.is_cut && self.node.stopped().is_none()
    }

    /// Takes an input, and sends what that brings. Gives the ticket of a `Submit`. After `Memory` it has crashed.
    fn take(
        &mut self,
        sent: &mut SentMessages<A>,
        input: Input<A>,
    ) -> Result<Option<Ticket>, Memory>
        requires { is_up (Some self.old.log) ≡ true }
        ensures log { OnOk result (self.new.log ≡ logged self.old.log input) }
        ensures sent { OnOk result (sent.new ≡ sent.old ++ newly_sent (sends_of self.old.log input)) }
        ensures ticket { IfOk result (λ ticket. ticket ≡ ticket_of self.old.log input) }
        ensures crashed { OnErr result (self.new.log ≡ logged self.old.log Crash) }
        ensures unsent { OnErr result (sent.new ≡ sent.old) }
        ensures answers { (id : CommandId) → HasAnswer id self.old → HasAnswer id self.new }
        ensures input { OnOk result (self.new.crashed ≡ crashed_by input self.old) }
        ensures cut { OnErr result (self.new.crashed ≡ self.old.crashed) }
    {
        match self.node.step(input) {
            Ok(outputs) => match sent.add_all(outputs.sends) {
                Ok(()) => Ok(outputs.ticket),
                Err(error) => {
                    self.is_cut = true;
                    Err(error)
                }
            },
            Err(_) => Err(Memory),
        }
    }

    /// Takes an input as `take` does, if it is up. Else nothing happens.
    pub(crate) fn take_if_up(
        &mut self,
        sent: &mut SentMessages<A>,
        input: Input<A>,
    ) -> Result<Option<Ticket>, Memory>
        ensures log { OnOk result (self.new.log ≡ log_after self.old.log input) }
        ensures sent { OnOk result (sent.new ≡ sent_after self.old.log input sent.old) }
        ensures ticket { IfOk result (λ ticket. ticket ≡ ticket_at (Some self.old.log) input) }
        ensures crashed { OnErr result (self.new.log ≡ log_after self.old.log Crash) }
        ensures unsent { OnErr result (sent.new ≡ sent.old) }
        ensures answers { (id : CommandId) → HasAnswer id self.old → HasAnswer id self.new }
        ensures input { OnOk result (self.new.crashed ≡ crashed_by input self.old) }
        ensures cut { OnErr result (self.new.crashed ≡ self.old.crashed) }
    {
        if self.is_up() {
            self.take(sent, input)
        } else {
            Ok(None)
        }
    }

    /// It has stopped in place of an input for which there was no memory. Where it isn't up, nothing happens.
    pub(crate) fn cut(&mut self)
        ensures log { self.new.log ≡ log_after self.old.log Crash }
        ensures answers { (id : CommandId) → HasAnswer id self.old → HasAnswer id self.new }
        ensures crashed { self.new.crashed ≡ self.old.crashed }
    {
        if self.is_up() {
            match self.node.step(Input::Crash) {
                Ok(_) => self.is_cut = true,
                Err(_) => {}
            }
        }
    }

    /// Whether the answer to the command is there.
    pub(crate) fn has_answer(&self, id: CommandId) -> bool
        ensures { HasAnswer id self.now → result ≡ is_some (answer_at (Some self.now.log) id) }
    {
        let (user, ticket) = id.get();
        self.is_up() && self.node.has_answer(user, ticket)
    }

    /// The answer to the command, if it is there. It is given once. Takes no memory.
    pub(crate) fn take_answer(&mut self, id: CommandId) -> Option<Outcome<A>>
        ensures answer { HasAnswer id self.old → result ≡ answer_at (Some self.old.log) id }
        ensures log { self.new.log ≡ self.old.log }
        ensures crashed { self.new.crashed ≡ self.old.crashed }
        ensures others { (other : CommandId) → is_eq (compare_ids id other) ≡ false → HasAnswer other self.old → HasAnswer other self.new }
    {
        if !self.is_up() {
            return None;
        }
        let (user, ticket) = id.get();
        self.node.take_answer(user, ticket)
    }

    /// What it has performed: each command once, with its slot. None exactly if it has run out of memory or
    /// tickets.
    pub(crate) fn performed(&self) -> Option<&[(Slot, SharedCommand<A>)]>
        ensures value { IfSome result (λ performed. performed.now ≡ (replayed self.now.log).replica.performed) }
        ensures known { is_some result ≡ is_known (Some self.now.log) (Some self.now.crashed) }
    {
        if self.is_cut {
            return None;
        }
        match self.node.stopped() {
            None => Some(self.node.performed()),
            Some(Stopped::Crashed) => Some(self.node.performed()),
            Some(_) => None,
        }
    }

    /// The ticket that it gave last to the user, if it has given one. None if it has run out of memory or tickets.
    pub(crate) fn last_ticket(&self, user: Name) -> Option<Ticket>
        ensures { result ≡ (if is_known (Some self.now.log) (Some self.now.crashed) then last_ticket_of self.now.log user else None) }
    {
        if self.is_cut {
            return None;
        }
        match self.node.stopped() {
            None => self.node.last_ticket(user),
            Some(Stopped::Crashed) => self.node.last_ticket(user),
            Some(_) => None,
        }
    }
}
