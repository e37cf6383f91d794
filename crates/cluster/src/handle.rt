//! What the threads that step one node share.
ghost use Rattle.std.specs.Prelude.{◌≡◌, IfOk, IfSome};
ghost use Rattle.cluster.specs.Members.{IsAnswered, IsLogOf, IsStatusOf, AreAll};
ghost use Rattle.cluster.specs.Performed.{ArePerformedAfter};
ghost use Rattle.cluster.specs.Users.{AreLocksOf, AreUsagesOf};

use crate::hub::Inbox;
use crate::link::Link;
use crate::member::Member;
use crate::outbox::Outbox;
use crate::performed::Performed;
use crate::retired::Retired;
use crate::setup::Deployment;
use crate::status::Status;
use crate::waiters::{Groups, Waiters};
use ballot::{Envelope, Memory, NodeId};
use maildrop::{Name, Op, Outcome, SharedCommand, Ticket, Usage};
use node::{Input, Outputs, SharedOp};
use session::DeskStopped;
use std::alloc::Global;
use std::marker::Model;
use std::sync::{Arc, Mutex, Wait};
use std::time::{Clock, Duration};

/// How many envelopes a node hears at most under one lock, so that others get it in between.
const BATCH: usize = 32;

/// A node under its lock, who waits for its answers, and the link that it sends by. Once the cluster has ended there is
/// no node any more.
#[derive(Drop)]
struct Shared<D: Deployment, L: Link> {
    member: Mutex<Option<Member<D>>>,
    waiters: Waiters,
    link: L,
    alloc: Global,
}

/// A node's number, with what its threads share. What a call does to the node it does under the lock: a step, or a batch of
/// them, each with those that bring the node what it sends to itself; or it takes an answer, lets one go that nobody awaits,
/// takes the node away at the end, or looks. What the steps send to others is sent once the lock is free. Contracts see it as
/// the number.
#[derive(Drop)]
pub(crate) struct NodeHandle<D: Deployment, L: Link> {
    me: NodeId,
    shared: Arc<Shared<D, L>>,
}

impl<D: Deployment, L: Link> Model for NodeHandle<D, L> {
    ghost use Rattle.std.specs.Prelude.{ℕ};

    ghost Value = { ℕ };

    ghost view = { λ h. h.me };
}

/// What steps under the lock gave.
#[derive(Drop)]
struct Stepped {
    /// The ticket of the command that the first one submits, if it does.
    ticket: Option<Ticket>,
    sends: Outbox,
    /// Those for whom they may have brought what they wait for: an answer, or the end of the node.
    wakes: Groups,
}

impl<D: Deployment, L: Link + Drop> NodeHandle<D, L> {
    pub(crate) fn new(alloc: Global, me: NodeId, member: Member<D>, link: L) -> Result<Self, Memory>
        ensures { IfOk result (λ handle. handle ≡ me) }
    {
        let shared = Shared {
            member: Mutex::new(Some(member)),
            waiters: Waiters::new(),
            link,
            alloc,
        };
        let shared = Arc::new(alloc, shared)?;
        Ok(NodeHandle { me, shared })
    }
}

impl<D: Deployment, L: Link> NodeHandle<D, L> {
    /// Another handle of the same node.
    pub(crate) fn share(&self) -> Result<Self, Memory>
        ensures { IfOk result (λ handle. handle ≡ self.now) }
    {
        let shared = Arc::try_clone(&self.shared)?;
        Ok(NodeHandle {
            me: self.me,
            shared,
        })
    }

    /// The node's number.
    pub(crate) fn me(&self) -> NodeId
        ensures { result ≡ self.now }
    {
        self.me
    }

    /// An operation for a user is submitted. Gives the ticket of its command, or nothing if the node has stopped: it
    /// stops too if there is no memory for the operation.
    pub(crate) fn submit<R: Wait>(&self, rt: &R, user: Name, op: Op) -> Option<Ticket>
        ensures { IfSome result (λ ticket. ticket.node ≡ self.now) }
    {
        let Ok(op) = SharedOp::new(self.shared.alloc, op) else {
            let _was_up = self.crash(rt);
            return None;
        };
        self.step(rt, Input::Submit(user, op))
    }

    /// One step of the node. Gives the ticket of the command that it submits, if it does.
    pub(crate) fn step<R: Wait>(&self, rt: &R, input: Input) -> Option<Ticket>
        ensures { IfSome result (λ ticket. ticket.node ≡ self.now) }
    {
        let Stepped {
            ticket,
            mut sends,
            wakes,
        } = self.step_locked(rt, input);
        self.shared.waiters.wake(wakes);
        sends.send(&self.shared.link);
        ticket
    }

    fn step_locked<R: Wait>(&self, rt: &R, input: Input) -> Stepped
        ensures { IfSome result.ticket (λ ticket. ticket.node ≡ self.now) }
    {
        let sends = self.new_outbox();
        match &mut *self.shared.member.lock(rt) {
            Some(member) if member.me() == self.me => step_all(member, input, sends),
            _ => Stepped {
                ticket: None,
                sends,
                wakes: Groups::NONE,
            },
        }
    }

    /// An outbox for what the node sends.
    pub(crate) fn new_outbox(&self) -> Outbox {
        Outbox::new(self.shared.alloc, self.shared.link.carries_own())
    }

    /// Hears an envelope, and those that are in the inbox after it, in one step each. Gives whether the node is still
    /// up. The outbox is empty, and is empty again afterwards.
    pub(crate) fn hear<R: Wait>(
        &self,
        rt: &R,
        first: Envelope<SharedCommand>,
        inbox: &Inbox,
        sends: &mut Outbox,
    ) -> bool {
        let (is_up, wakes) = self.hear_locked(rt, first, inbox, sends);
        self.shared.waiters.wake(wakes);
        sends.send(&self.shared.link);
        is_up
    }

    fn hear_locked<R: Wait>(
        &self,
        rt: &R,
        first: Envelope<SharedCommand>,
        inbox: &Inbox,
        sends: &mut Outbox,
    ) -> (bool, Groups) {
        let mut guard = self.shared.member.lock(rt);
        let Some(member) = &mut *guard else {
            return (false, Groups::NONE);
        };
        let wakes = hear_all(member, rt, first, inbox, sends);
        (member.is_up(), wakes)
    }

    /// Nobody awaits the answer to this command, which is let go once it is there.
    pub(crate) fn tell<R: Wait>(&self, rt: &R, user: Name, ticket: Ticket) {
        if let Some(member) = &mut *self.shared.member.lock(rt) {
            let _no_room = member.tell(user, ticket);
            member.forget_first();
        }
    }

    /// Waits until the answer to a command is there. Gives nothing if the node has stopped.
    pub(crate) fn wait_for<R: Wait>(&self, rt: &R, user: Name, ticket: Ticket) -> Option<Outcome>
        ensures { IfSome result (λ outcome. IsAnswered D.setup self.now user ticket outcome) }
    {
        let mut guard = self.shared.member.lock(rt);
        for _ in rt.forever() {
            let Some(member) = &mut *guard else {
                return None;
            };
            if member.me() != self.me || !member.is_up() {
                return None;
            }
            if let Some(outcome) = member.take_answer(user, ticket) {
                return Some(outcome);
            }
            guard = self.shared.waiters.wait(rt, &user, guard);
        }
        unreachable!()
    }

    /// Takes the answer to a command if it is there, or else waits for it once, at most this long. Returns nothing if it
    /// isn't there even then, and an error if the node has stopped.
    pub(crate) fn answer_within<R: Wait + Clock>(
        &self,
        rt: &R,
        user: Name,
        ticket: Ticket,
        time: Duration,
    ) -> Result<Option<Outcome>, DeskStopped>
        ensures { IfOk result (λ answer. IfSome answer (λ outcome. IsAnswered D.setup self.now user ticket outcome)) }
    {
        let mut guard = self.shared.member.lock(rt);
        match answer_in(&mut *guard, self.me, user, ticket) {
            Ok(None) => {}
            answer => return answer,
        }
        let mut guard = self.shared.waiters.wait_within(rt, &user, guard, time);
        answer_in(&mut *guard, self.me, user, ticket)
    }

    /// The node stops, for good. Gives whether it was up until now.
    pub(crate) fn crash<R: Wait>(&self, rt: &R) -> bool {
        let was_up = match &mut *self.shared.member.lock(rt) {
            Some(member) => member.crash(),
            None => false,
        };
        self.shared.waiters.wake(Groups::ALL);
        was_up
    }

    /// How the node stands, or nothing if it is no more.
    pub(crate) fn status<R: Wait>(&self, rt: &R) -> Option<Status>
        ensures { IfSome result (λ status. IsStatusOf D.setup self.now status) }
    {
        match &*self.shared.member.lock(rt) {
            Some(member) if member.me() == self.me => Some(member.status()),
            _ => None,
        }
    }

    /// The users whose maildrop is locked at the node, each with the ticket of the Take that holds the lock. None if it
    /// is no more, or if it has stopped without memory.
    pub(crate) fn locks<R: Wait>(&self, rt: &R) -> Result<Vec<(Name, Ticket)>, Memory>
        ensures { IfOk result (λ locks. AreLocksOf D.setup self.now locks.items) }
    {
        match &*self.shared.member.lock(rt) {
            Some(member) if member.me() == self.me => member.locks(self.shared.alloc),
            _ => Ok(Vec::new(self.shared.alloc)),
        }
    }

    /// All users, each with what the maildrop has at the node. None if it is no more, or if it has stopped without memory.
    pub(crate) fn usages<R: Wait>(&self, rt: &R) -> Result<Vec<(Name, Usage)>, Memory>
        ensures { IfOk result (λ usages. AreUsagesOf D.setup self.now usages.items) }
    {
        match &*self.shared.member.lock(rt) {
            Some(member) if member.me() == self.me => member.usages(self.shared.alloc),
            _ => Ok(Vec::new(self.shared.alloc)),
        }
    }

    /// The commands that the node has performed after the first `taken`, each with its slot, in their order. `None` if it is
    /// no more, or if it has stopped without memory.
    pub(crate) fn performed_after<R: Wait>(
        &self,
        rt: &R,
        taken: u64,
    ) -> Result<Option<Performed>, Memory>
        ensures { IfOk result (λ commands. IfSome commands (λ commands. ArePerformedAfter taken D.setup self.now commands.items)) }
    {
        match &*self.shared.member.lock(rt) {
            Some(member) if member.me() == self.me => {
                member.performed_after(self.shared.alloc, taken)
            }
            _ => Ok(None),
        }
    }

    /// Takes the node away. From then on there is none. Takes no memory.
    pub(crate) fn retire<R: Wait>(&self, rt: &R) -> Option<Retired<D>>
        ensures { IfSome result (λ retired. IsLogOf D.setup self.now retired) }
    {
        let member = self.shared.member.lock(rt).take();
        self.shared.waiters.wake(Groups::ALL);
        retired(member?, self.me)
    }
}

/// A node that was taken away, if its number is this one.
fn retired<D: Deployment>(member: Member<D>, me: NodeId) -> Option<Retired<D>>
    ensures { IfSome result (λ retired. IsLogOf D.setup me retired) }
{
    if member.me() == me {
        Some(member.retire())
    } else {
        None
    }
}

/// Takes the answer to a command of the node of this number, if it is there. An error if the node isn't this one, or has
/// stopped.
fn answer_in<D: Deployment>(
    member: &mut Option<Member<D>>,
    me: NodeId,
    user: Name,
    ticket: Ticket,
) -> Result<Option<Outcome>, DeskStopped>
    ensures { IfOk result (λ answer. IfSome answer (λ outcome. IsAnswered D.setup me user ticket outcome)) }
{
    match member {
        Some(member) if member.me() == me && member.is_up() => {
            Ok(member.take_answer(user, ticket))
        }
        _ => Err(DeskStopped {
            ticket: Some(ticket),
        }),
    }
}

/// All that one input brings under the lock. Where the node has stopped by then, all who wait for it are to be woken, also
/// if the step was refused.
fn step_all<D: Deployment>(member: &mut Member<D>, input: Input, sends: Outbox) -> Stepped
    ensures ticket { IfSome result.ticket (λ ticket. ticket.node ≡ member.old.log.opening.me) }
    ensures wakes { IfSome member.new.stopped (λ _. AreAll result.wakes) }
{
    let mut sends = sends;
    let performed = member.performed();
    let ticket = step_one(member, input, &mut sends);
    let wakes = woken_by(member, performed);
    Stepped {
        ticket,
        sends,
        wakes,
    }
}

/// All that an envelope and those in the inbox after it bring under the lock. Gives who is to be woken: if the node has
/// stopped by then, all who wait for it.
fn hear_all<D: Deployment, R: Wait>(
    member: &mut Member<D>,
    rt: &R,
    first: Envelope<SharedCommand>,
    inbox: &Inbox,
    sends: &mut Outbox,
) -> Groups
    ensures { IfSome member.new.stopped (λ _. AreAll result) }
{
    member.forget_first();
    let performed = member.performed();
    let slot_out = member.slot_out();
    hear_batch(member, rt, first, inbox, sends);
    if slot_out < member.slot_out() {
        ask_if_behind(member, sends);
    }
    woken_by(member, performed)
}

/// A node that has decisions of later slots asks for the next one. So a node that missed many catches up as fast as they come,
/// and not by one for each tick.
fn ask_if_behind<D: Deployment>(member: &mut Member<D>, sends: &mut Outbox) {
    if member.is_behind() {
        let _none = step_one(member, Input::Tick, sends);
    }
}

/// Hears an envelope, and those that are in the inbox after it, up to a batch of them.
fn hear_batch<D: Deployment, R: Wait>(
    member: &mut Member<D>,
    rt: &R,
    first: Envelope<SharedCommand>,
    inbox: &Inbox,
    sends: &mut Outbox,
) {
    let mut next = first;
    for _ in 1..BATCH {
        let _none = step_one(member, Input::Arrive(next), sends);
        match inbox.try_recv(rt) {
            Ok(envelope) => next = envelope,
            Err(_) => return,
        }
    }
    let _none = step_one(member, Input::Arrive(next), sends);
}

/// One step of a node, and then one for each envelope that it hears of its own. Gives the ticket of the command that the
/// first one submits, if it does.
#[tactic(auto, using(crate::proofs::Tickets::ticket_of_its_node))]
fn step_one<D: Deployment>(
    member: &mut Member<D>,
    input: Input,
    sends: &mut Outbox,
) -> Option<Ticket>
    ensures { IfSome result (λ ticket. ticket.node ≡ member.old.log.opening.me) }
{
    let Outputs {
        sends: sent,
        ticket,
    } = member.step(input).ok()?;
    sends.put(sent);
    hear_own(member, sends);
    ticket
}

/// Steps for the envelopes that a node hears of its own, as long as there are any.
fn hear_own<D: Deployment>(member: &mut Member<D>, sends: &mut Outbox) {
    for _ in 0..u64::MAX {
        let Some(envelope) = sends.next_own() else {
            return;
        };
        if let Ok(heard) = member.step(Input::Arrive(envelope)) {
            sends.put(heard.sends);
        }
    }
}

/// Those for whom a node's last steps may have brought what they wait for, after so many performed commands: an answer, or
/// the end of the node.
fn woken_by<D: Deployment>(member: &Member<D>, performed: usize) -> Groups
    ensures stopped { IfSome member.now.stopped (λ _. AreAll result) }
{
    if member.is_up() {
        member.answered(performed)
    } else {
        Groups::ALL
    }
}
