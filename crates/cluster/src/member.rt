//! A node of a cluster, as it lies under its lock.
ghost use Rattle.std.specs.Prelude.{◌≡◌, ◌++◌, ◌∷◌, ◌&&◌, ℕ, [], true, false, OnOk, IfOk, IfErr, IfSome, is_none, Some, None, Err};
ghost use Rattle.std.specs.Ordering.{is_eq};
ghost use Rattle.maildrop.specs.CommandId.{CommandId, compare_ids};
ghost use Rattle.node.specs.Replay.{sends_of, ticket_of, replayed};
ghost use Rattle.replica.specs.Replicas.{is_behind};
ghost use Rattle.node.specs.Nodes.{logged, stops_after, no_ticket_for, answer_of, answer_after, answered, IsKnown};
ghost use Rattle.node.specs.Tickets.{CanStop};
ghost use Rattle.cluster.specs.Performed.{ArePerformedAfter};
ghost use Rattle.cluster.specs.Users as spec;
ghost use Rattle.cluster.specs.Members.{member_of, HasCrashed, is_first, still_told, IsGone, IsLogOf, IsAnswered, IsStatusOf, status_of};

use crate::closed::is_known;
use crate::performed::{Performed, performed_after};
use crate::retired::Retired;
use crate::setup::Deployment;
use crate::status::Status;
use crate::users::{locks_in, usages_in};
use crate::waiters::Groups;
use ballot::{Memory, NodeId, Slot};
use maildrop::{CommandId, Name, Outcome, SharedCommand, Ticket, Usage};
use node::{Input, Node, Outputs, Stopped};
use std::alloc::Global;
use std::collections::VecDeque;
use std::marker::{Model, PhantomData};

/// A node of the deployment. Whoever gets its lock knows with what it began, and by its own type that what it is
/// follows from its log.
#[derive(Drop)]
pub(crate) struct Member<D: Deployment> {
    node: Node,
    /// The commands whose answers nobody awaits, and which may not be there yet. One for which there is no room is
    /// missing, and its answer stays.
    told: VecDeque<CommandId>,
    of: PhantomData<D>,
}

impl<D: Deployment> Model for Member<D> {
    ghost use Rattle.cluster.specs.Members.{MemberValue, IsLogOf};

    ghost Value = { MemberValue };

    ghost view = { λ m. record { log = m.node.log; stopped = m.node.stopped; awaited = m.node.awaited; told = m.told.items } };

    ghost invariant = { λ m. IsLogOf D.setup m.node.log.opening.me m.node.log };
}

impl<D: Deployment> Member<D> {
    pub(crate) fn new(alloc: Global, node: Node) -> Self
        requires { IsLogOf D.setup node.log.opening.me node.log }
        ensures { result ≡ member_of node }
    {
        Member {
            node,
            told: VecDeque::new(alloc),
            of: PhantomData,
        }
    }

    /// The node's number.
    pub(crate) fn me(&self) -> NodeId
        ensures { result ≡ self.now.log.opening.me }
    {
        self.node.me()
    }

    /// Whether the node takes inputs. Where it doesn't, no answer is awaited of it.
    pub(crate) fn is_up(&self) -> bool
        ensures up { result ≡ is_none self.now.stopped }
        ensures awaits_none { IfSome self.now.stopped (λ _. self.now.awaited ≡ []) }
    {
        self.node.stopped().is_none()
    }

    /// One input: an event of the node.
    pub(crate) fn step(&mut self, input: Input) -> Result<Outputs, Stopped>
        ensures log { OnOk result (self.new.log ≡ logged self.old.log input) }
        ensures sends { IfOk result (λ outputs. outputs.sends ≡ sends_of self.old.log input) }
        ensures ticket { IfOk result (λ outputs. outputs.ticket ≡ ticket_of self.old.log input) }
        ensures stops { OnOk result (self.new.stopped ≡ stops_after input) }
        ensures answers { OnOk result (stops_after input ≡ None → (id : CommandId) → answer_of id self.new.awaited ≡ answer_after self.old.log input id (answer_of id self.old.awaited)) }
        ensures err { IfErr result (λ stop. self.new ≡ record { log = self.old.log; stopped = Some stop; awaited = []; told = self.old.told }) }
        ensures cause { self.old.stopped ≡ None → IfErr result (λ stop. CanStop (no_ticket_for self.old.log input) stop) }
        ensures used { self.old.stopped ≡ None → no_ticket_for self.old.log input ≡ true → result ≡ Err Stopped.TicketsUsed }
        ensures again { IfSome self.old.stopped (λ stop. result ≡ Err stop) }
        ensures told { self.new.told ≡ self.old.told }
        ensures opening { self.new.log.opening ≡ self.old.log.opening }
    {
        self.node.step(input)
    }

    /// The node stops, for good, and no answer is awaited of it any more. Its log has the crash, unless there was no memory
    /// for that. One that was down stays as it was. Gives whether it was up until now.
    pub(crate) fn crash(&mut self) -> bool
        ensures up { result ≡ is_none self.old.stopped }
        ensures crashed { self.old.stopped ≡ None → HasCrashed self.old self.new }
        ensures again { IfSome self.old.stopped (λ _. self.new ≡ self.old) }
    {
        let was_up = self.is_up();
        let _crashed = self.step(Input::Crash);
        prove!(!self.is_up());
        was_up
    }

    /// Takes the answer to a user's command, once it is there. It is given once, and none once the node has stopped.
    pub(crate) fn take_answer(&mut self, user: Name, ticket: Ticket) -> Option<Outcome>
        ensures answer { result ≡ answer_of (record { user = user; ticket = ticket }) self.old.awaited }
        ensures given { IfSome result (λ outcome. answered self.old.log (record { user = user; ticket = ticket }) ≡ Some outcome) }
        ensures logged { IfSome result (λ outcome. IsAnswered D.setup self.old.log.opening.me user ticket outcome) }
        ensures none { IfSome self.old.stopped (λ _. result ≡ None) }
        ensures gone { answer_of (record { user = user; ticket = ticket }) self.new.awaited ≡ None }
        ensures others { (id : CommandId) → is_eq (compare_ids (record { user = user; ticket = ticket }) id) ≡ false
            → answer_of id self.new.awaited ≡ answer_of id self.old.awaited }
        ensures log { self.new.log ≡ self.old.log }
        ensures stopped { self.new.stopped ≡ self.old.stopped }
        ensures told { self.new.told ≡ self.old.told }
    {
        let _ = &self.of;
        self.node.take_answer(user, ticket)
    }

    /// Nobody awaits the answer to this command, so it is the last of those whose answers are let go. After `Memory` it isn't
    /// one of them, and its answer stays.
    pub(crate) fn tell(&mut self, user: Name, ticket: Ticket) -> Result<(), Memory>
        ensures told { OnOk result (self.new.told ≡ self.old.told ++ record { user = user; ticket = ticket } ∷ []) }
        ensures err { IfErr result (λ _. self.new.told ≡ self.old.told) }
        ensures node { self.new ≡ record { log = self.old.log; stopped = self.old.stopped; awaited = self.old.awaited; told = self.new.told } }
    {
        self.told.push_back(CommandId::new(user, ticket))?;
        Ok(())
    }

    /// Lets go the answer to the first of the commands whose answers nobody awaits, if it is there. That command is then
    /// none of them any more.
    pub(crate) fn forget_first(&mut self)
        ensures told { self.new.told ≡ still_told self.old.told self.old.awaited }
        ensures gone { IsGone self.old.told self.new.awaited }
        ensures others { (id : CommandId) → is_first id self.old.told ≡ false → answer_of id self.new.awaited ≡ answer_of id self.old.awaited }
        ensures log { self.new.log ≡ self.old.log }
        ensures stopped { self.new.stopped ≡ self.old.stopped }
    {
        let Some(first) = self.told.front() else {
            return;
        };
        let (name, ticket) = first.get();
        if self.node.take_answer(name, ticket).is_some() {
            self.told.pop_front();
        }
    }

    /// How many commands the node has performed.
    pub(crate) fn performed(&self) -> usize {
        self.node.performed().len()
    }

    /// Who waits here for the commands that it has performed, after as many others.
    pub(crate) fn answered(&self, behind: usize) -> Groups {
        let me = self.node.me();
        let mut groups = Groups::NONE;
        for (_, command) in self.node.performed().get(behind..).unwrap_or_default() {
            let command = command.get();
            if command.ticket.get().0 == me {
                groups = groups.with(&command.user);
            }
        }
        groups
    }

    /// The first slot that isn't decided, as long as the node is up.
    pub(crate) fn slot_out(&self) -> u64
        ensures { IsKnown self.now.stopped → result ≡ (replayed self.now.log).replica.slot_out }
    {
        self.node.slot_out()
    }

    /// Whether the node is up, and a later slot than `slot_out` is decided here.
    pub(crate) fn is_behind(&self) -> bool
        ensures { result ≡ (is_none self.now.stopped && is_behind (replayed self.now.log).replica) }
    {
        self.is_up() && self.node.is_behind()
    }

    /// How the node stands.
    #[tactic(auto, using(crate::proofs::Statuses::status_as_logged))]
    pub(crate) fn status(&self) -> Status
        ensures up { result.up ≡ is_none self.now.stopped }
        ensures known { IsKnown self.now.stopped → result ≡ status_of (is_none self.now.stopped) self.now.log }
        ensures logged { IsStatusOf D.setup self.now.log.opening.me result }
    {
        let _ = &self.of;
        Status {
            up: self.is_up(),
            active: self.node.is_active(),
            slot_out: self.node.slot_out(),
            waiting: self.node.waiting(),
        }
    }

    /// The users whose maildrop is locked, each with the ticket of the Take that holds the lock. None if the node has
    /// stopped without memory: they are unknown then.
    #[tactic(auto, using(crate::proofs::AsLogged::locks_as_logged))]
    pub(crate) fn locks(&self, alloc: Global) -> Result<Vec<(Name, Ticket)>, Memory>
        ensures known { IfOk result (λ locks. IsKnown self.now.stopped → locks.items ≡ spec.locks_in (spec.users_by self.now.log)) }
        ensures unknown { IfOk result (λ locks. self.now.stopped ≡ Some Stopped.Memory → locks.items ≡ []) }
        ensures logged { IfOk result (λ locks. spec.AreLocksOf D.setup self.now.log.opening.me locks.items) }
    {
        let _ = &self.of;
        if !is_known(self.node.stopped()) {
            return Ok(Vec::new(alloc));
        }
        let locks = locks_in(alloc, self.node.office())?;
        Ok(locks)
    }

    /// All users, each with what the maildrop has. None if the node has stopped without memory: it is unknown then.
    #[tactic(auto, using(crate::proofs::AsLogged::usages_as_logged))]
    pub(crate) fn usages(&self, alloc: Global) -> Result<Vec<(Name, Usage)>, Memory>
        ensures known { IfOk result (λ usages. IsKnown self.now.stopped → usages.items ≡ spec.usages_in (spec.users_by self.now.log)) }
        ensures unknown { IfOk result (λ usages. self.now.stopped ≡ Some Stopped.Memory → usages.items ≡ []) }
        ensures logged { IfOk result (λ usages. spec.AreUsagesOf D.setup self.now.log.opening.me usages.items) }
    {
        let _ = &self.of;
        if !is_known(self.node.stopped()) {
            return Ok(Vec::new(alloc));
        }
        let usages = usages_in(alloc, self.node.office())?;
        Ok(usages)
    }

    /// The commands that the node has performed after the first `taken`, each with its slot, in their order. `None` if it has
    /// stopped without memory: they are unknown then.
    pub(crate) fn performed_after(
        &self,
        alloc: Global,
        taken: u64,
    ) -> Result<Option<Performed>, Memory>
        ensures logged { IfOk result (λ commands. IfSome commands (λ commands. ArePerformedAfter taken D.setup self.now.log.opening.me commands.items)) }
    {
        let _ = &self.of;
        let Some(performed) = self.known_performed() else {
            return Ok(None);
        };
        let commands = performed_after(alloc, performed, taken)?;
        Ok(Some(commands))
    }

    /// What the node has performed, unless it has stopped without memory.
    fn known_performed(&self) -> Option<&[(Slot, SharedCommand)]>
        ensures { IfSome result (λ performed. performed.now ≡ (replayed self.now.log).replica.performed) }
    {
        if is_known(self.node.stopped()) {
            Some(self.node.performed())
        } else {
            None
        }
    }

    /// The node, taken away.
    pub(crate) fn retire(self) -> Retired<D>
        ensures log { result ≡ self.log }
        ensures opening { IsLogOf D.setup self.log.opening.me result }
    {
        Retired::new(self.node)
    }
}
