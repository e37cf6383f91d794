//! The roles of a node.
ghost use Rattle.std.specs.Prelude.{◌≡◌, ◌≤◌, ◌+◌, ◌==◌, ℕ, List, [], ◌∷◌, Option, Some, None, option_map, is_some, IfSome, IsTrue, OnOk, IfOk, if◌then◌else◌};
ghost use Rattle.ballot.specs.declared.slot.TheConstants.{LAST_SLOT};
ghost use Rattle.maildrop.specs.Name.{are_different};
ghost use Rattle.leader.specs.Leaders.{phase_is_active};
ghost use Rattle.replica.specs.Replicas.{is_waiting, is_behind};
ghost use Rattle.ballot.specs.Slots.{at_slot};
ghost use Rattle.node.specs.Replay.{NodeState, hears, new_node};
ghost use Rattle.node.specs.Roles.{submits, arrives, decision_to, ticks, campaigns};
ghost use Rattle.node.specs.Nodes.{answer_of, taken_of};

use crate::log::Opening;
use acceptor::Acceptor;
use ballot::{Envelope, Items, Memory, Message, NodeId, Outgoing, Sends, Slot};
use leader::Leader;
use maildrop::{CommandId, Office, Outcome, SharedCommand};
use replica::{Remainder, Replica};
use std::alloc::{Allocator, Global};
use std::marker::Model;

/// The acceptor, the leader and the replica of a node. After `Memory` they are of no use any more.
#[derive(Drop)]
pub(crate) struct Roles<A: Allocator + Copy = Global> {
    acceptor: Acceptor<SharedCommand<A>, A>,
    leader: Leader<SharedCommand<A>, A>,
    replica: Replica<Office<A>, A>,
    alloc: A,
}

/// What is left of the roles after the maildrops were taken out. It answers nothing.
#[derive(Drop)]
pub(crate) struct RolesLeft<A: Allocator + Copy = Global> {
    acceptor: Acceptor<SharedCommand<A>, A>,
    leader: Leader<SharedCommand<A>, A>,
    replica: Remainder<Office<A>, A>,
}

impl<A: Allocator + Copy> Model for Roles<A> {
    ghost use Rattle.std.specs.Prelude.{Option};
    ghost use Rattle.node.specs.Replay.{NodeState};
    ghost use Rattle.node.specs.Roles.{node_of};

    ghost Value = { Option (NodeState A) };

    ghost view = { λ r. node_of r.acceptor r.leader r.replica };
}

impl<A: Allocator + Copy> Roles<A> {
    /// The roles of a node that has taken no input.
    pub(crate) fn new(alloc: A, opening: &Opening<A>) -> Result<Self, Memory>
        requires { IsTrue (are_different opening.now.names) }
        ensures { IfOk result (λ roles. roles ≡ Some (new_node opening.now)) }
    {
        let office = Office::open(
            alloc,
            opening.names.get(),
            opening.kept.get(),
            opening.limits,
            opening.keys,
        )?;
        Ok(Roles {
            acceptor: Acceptor::new(alloc),
            leader: Leader::new(alloc, opening.me, opening.cluster),
            replica: Replica::new(alloc, opening.me, opening.cluster, opening.window, office),
            alloc,
        })
    }

    /// The replica is asked for a command.
    pub(crate) fn request(
        &mut self,
        command: SharedCommand<A>,
    ) -> Result<Sends<SharedCommand<A>, A>, Memory>
        ensures node { OnOk result (self.new ≡ option_map (λ n. (submits n command).after) self.old) }
        ensures sends { (n : NodeState A) → self.old ≡ Some n → IfOk result (λ sends. sends ≡ (submits n command).sends) }
    {
        self.replica.request(command)
    }

    /// A message comes. One to another node than `me` changes nothing.
    pub(crate) fn arrive(
        &mut self,
        me: NodeId,
        envelope: Envelope<SharedCommand<A>, A>,
    ) -> Result<Sends<SharedCommand<A>, A>, Memory>
        ensures node { (n : NodeState A) → self.old ≡ Some n → OnOk result (self.new ≡ Some ((arrives me n envelope).after)) }
        ensures sends { (n : NodeState A) → self.old ≡ Some n → IfOk result (λ sends. sends ≡ (arrives me n envelope).sends) }
    {
        if envelope.to == me {
            self.hear(envelope.from, envelope.message)
        } else {
            Ok(Items::new(self.alloc))
        }
    }

    /// A message comes from a node: the role that it is for hears it.
    fn hear(
        &mut self,
        from: NodeId,
        message: Message<SharedCommand<A>, A>,
    ) -> Result<Sends<SharedCommand<A>, A>, Memory>
        ensures node { OnOk result (self.new ≡ option_map (λ n. (hears n from message).after) self.old) }
        ensures sends { (n : NodeState A) → self.old ≡ Some n → IfOk result (λ sends. sends ≡ (hears n from message).sends) }
    {
        match message {
            Message::Propose(slot, command) => self.leader.propose(slot, command),
            Message::P1a(ballot) => {
                let promise = self.acceptor.p1a(ballot)?;
                self.answer(from, Message::P1b(promise))
            }
            Message::P1b(promise) => self.leader.hear1(from, promise),
            Message::P2a(pvalue) => {
                let vote = self.acceptor.p2a(pvalue)?;
                self.answer(from, Message::P2b(vote))
            }
            Message::P2b(vote) => self.leader.hear2(from, vote),
            Message::Decision(slot, command) => self.replica.decision(slot, command),
            Message::Ask(slot) => self.tell(from, slot),
        }
    }

    /// One message to one node.
    fn answer(
        &self,
        to: NodeId,
        message: Message<SharedCommand<A>, A>,
    ) -> Result<Sends<SharedCommand<A>, A>, Memory>
        ensures { IfOk result (λ sends. sends ≡ record { to = to; message = message } ∷ []) }
    {
        let mut sends = Items::new(self.alloc);
        sends.push(Outgoing { to, message })?;
        Ok(sends)
    }

    /// The decision of the slot goes to the node that asked for it, if it is known.
    fn tell(&self, to: NodeId, slot: Slot) -> Result<Sends<SharedCommand<A>, A>, Memory>
        ensures { (n : NodeState A) → self.now ≡ Some n → IfOk result (λ sends. sends ≡ decision_to to slot (at_slot slot n.replica.decisions)) }
    {
        match self.replica.ask(slot)? {
            Some(command) => self.answer(to, Message::Decision(slot, command)),
            None => Ok(Items::new(self.alloc)),
        }
    }

    /// Time has passed: the leader asks again, then the replica.
    pub(crate) fn tick(&mut self) -> Result<Sends<SharedCommand<A>, A>, Memory>
        ensures node { OnOk result (self.new ≡ self.old) }
        ensures sends { (n : NodeState A) → self.old ≡ Some n → IfOk result (λ sends. sends ≡ (ticks n).sends) }
    {
        let mut sends = self.leader.tick()?;
        sends.append(self.replica.tick()?)?;
        Ok(sends)
    }

    /// The leader asks for its ballot.
    pub(crate) fn campaign(&mut self) -> Result<Sends<SharedCommand<A>, A>, Memory>
        ensures node { OnOk result (self.new ≡ option_map (λ n. (campaigns n).after) self.old) }
        ensures sends { (n : NodeState A) → self.old ≡ Some n → IfOk result (λ sends. sends ≡ (campaigns n).sends) }
    {
        self.leader.campaign()
    }

    /// Whether the answer to a command is there.
    pub(crate) fn has_answer(&self, identity: CommandId) -> bool
        ensures { IfSome self.now (λ n. result ≡ is_some (answer_of identity n.replica.awaited)) }
    {
        self.replica.has_answer(identity)
    }

    /// Takes the answer to a command.
    pub(crate) fn take_answer(&mut self, identity: CommandId) -> Option<Outcome<A>>
        ensures answer { IfSome self.old (λ n. result ≡ answer_of identity n.replica.awaited) }
        ensures node { self.new ≡ option_map (taken_of identity) self.old }
    {
        self.replica.take_answer(identity)
    }

    /// What the replica has performed.
    pub(crate) fn performed(&self) -> &[(Slot, SharedCommand<A>)]
        ensures { IfSome self.now (λ n. result.now ≡ n.replica.performed) }
    {
        self.replica.performed()
    }

    /// The maildrops of all users.
    pub(crate) fn office(&self) -> &Office<A>
        ensures { IfSome self.now (λ n. result.now ≡ n.replica.machine) }
    {
        self.replica.machine()
    }

    /// The maildrops of all users, and what is left of the roles.
    pub(crate) fn into_parts(self) -> (Office<A>, RolesLeft<A>)
        ensures { IfSome self (λ n. result.0 ≡ n.replica.machine) }
    {
        let Roles {
            acceptor,
            leader,
            replica,
            alloc: _,
        } = self;
        let (office, replica) = replica.into_parts();
        let left = RolesLeft {
            acceptor,
            leader,
            replica,
        };
        (office, left)
    }

    /// The first slot that isn't decided.
    pub(crate) fn slot_out(&self) -> u64
        ensures value { IfSome self.now (λ n. result ≡ n.replica.slot_out) }
        ensures range { IfSome self.now (λ n. (1 ≤ result) × (result ≤ LAST_SLOT + 1)) }
    {
        self.replica.slot_out()
    }

    /// Whether a later slot than the next one to perform is decided here.
    pub(crate) fn is_behind(&self) -> bool
        ensures { IfSome self.now (λ n. result ≡ is_behind n.replica) }
    {
        self.replica.is_behind()
    }

    /// Whether the leader has its ballot.
    pub(crate) fn is_active(&self) -> bool
        ensures { IfSome self.now (λ n. result ≡ phase_is_active n.leader.phase) }
    {
        self.leader.is_active()
    }

    /// Whether an answer is awaited that isn't there.
    pub(crate) fn waiting(&self) -> bool
        ensures { IfSome self.now (λ n. result ≡ is_waiting n.replica.awaited) }
    {
        self.replica.is_waiting()
    }
}
