//! The connection of a client to its node.
ghost use Rattle.std.specs.Prelude.{◌≡◌, false, List, ℕ, Option, IfOk, OnOk, OnErr};
ghost use Rattle.maildrop.specs.Ticket.{Ticket};
ghost use Rattle.node.specs.declared.log.NodeLog.{NodeLog};
ghost use Rattle.session.specs.Session.{awaits_answer, lock_due, free_of};
ghost use Rattle.runs.specs.Clients.{Failed, new_client, standing_as, told};
ghost use Rattle.session.specs.declared.state.State.TheVariants.{Closed};
ghost use Rattle.world.specs.Connections.{client_in, standing_in, awaited_by, IsFit, IsThere};
ghost use Rattle.runs.specs.Messages.{is_up};
ghost use Rattle.runs.specs.Refusals as spec;

use apop::Stamp;
use ballot::{Items, Memory, NodeId};
use maildrop::{CommandId, Name, Op, Ticket};
use pop3_wire::Line;
use runs::Refused;
use session::{ReplyBytes, Session};
use std::alloc::{Allocator, Global};

/// A line that a client sent, with the ticket of the operation that it asked for, if it asked for one.
#[derive(Drop)]
pub(crate) struct Heard {
    /// What the client sent.
    pub line: Line,
    /// The ticket of the operation that the line asked for, if it asked for one.
    pub ticket: Option<Ticket>,
}

/// How a session stands.
#[derive(Drop)]
pub(crate) enum Standing {
    /// It takes lines.
    Hears,
    /// It awaits the answer to this command.
    Waits(CommandId),
    /// It was lost as memory ran out. A hangup gives this lock back.
    Failed(Option<(Name, Ticket)>),
    /// Its node has crashed before it was over.
    Disconnected,
    /// It is over.
    Over,
}

/// A client's session at its node, with what it heard and said.
#[derive(Drop)]
pub(crate) struct Connection<A: Allocator = Global> {
    /// The node to which the client is connected.
    pub node: NodeId,
    /// Its session there.
    pub session: Session<A>,
    /// The lines that the client sent, in order.
    pub heard: Vec<Heard, A>,
    /// The bytes that the client was told, the greeting first.
    pub replies: Items<u8, A>,
    /// How the session stands.
    pub standing: Standing,
}

/// The lock that this Free gives back.
fn lock_of<A: Allocator>(free: Option<(Name, Op<A>)>) -> Option<(Name, Ticket)>
    ensures { (lock : Option (List ℕ × Ticket)) → free ≡ free_of lock → result ≡ lock }
{
    match &free {
        Some((user, Op::Free { lock })) => Some((*user, *lock)),
        _ => None,
    }
}

impl<A: Allocator + Copy> Connection<A> {
    /// A client that has just connected, and was greeted.
    pub(crate) fn new(alloc: A, node: NodeId, stamp: Stamp) -> Result<Self, Memory>
        ensures client { IfOk result (λ connection. client_in connection ≡ new_client node stamp) }
        ensures fit { IfOk result IsFit }
    {
        let session = Session::new(alloc, stamp);
        match session.greeting() {
            Ok(replies) => Ok(Connection {
                node,
                session,
                heard: Vec::new(alloc),
                replies,
                standing: Standing::Hears,
            }),
            Err(_) => Err(Memory),
        }
    }

    /// Ends the session, which awaits no answer. Gives the lock that it holds.
    pub(crate) fn end(&mut self) -> Option<(Name, Ticket)>
        requires { awaits_answer self.old.session.state ≡ false }
        ensures lock { result ≡ lock_due self.old.session.state }
        ensures connection { self.new ≡ record self.old { session = record self.old.session { state = Closed } } }
    {
        match self.session.hangup() {
            Ok(free) => lock_of(free),
            Err(_) => None,
        }
    }

    /// Gives up the session as memory ran out. A lock that it holds is given back by a hangup.
    pub(crate) fn lose(&mut self)
        requires { awaits_answer self.old.session.state ≡ false }
        ensures client { client_in self.new ≡ standing_as (client_in self.old) (Failed (lock_due self.old.session.state)) }
        ensures heard { self.new.heard ≡ self.old.heard }
        ensures fit { IsFit self.new }
    {
        let lock = self.end();
        self.standing = Standing::Failed(lock);
    }

    /// The client is told something, and the session stands so from then on. After `Memory` the session is lost.
    pub(crate) fn tell(&mut self, bytes: &ReplyBytes<A>, standing: Standing) -> Result<(), Memory>
        requires { awaits_answer self.old.session.state ≡ false }
        ensures told { OnOk result (client_in self.new ≡ told (client_in self.old) bytes.now (standing_in standing self.old.session.state)) }
        ensures stands { OnOk result ((self.new.standing ≡ standing) × (self.new.session.state ≡ self.old.session.state)) }
        ensures heard { self.new.heard ≡ self.old.heard }
        ensures lost { OnErr result (client_in self.new ≡ standing_as (client_in self.old) (Failed (lock_due self.old.session.state))) }
        ensures fit { OnErr result (IsFit self.new) }
    {
        if bytes.append_to(&mut self.replies).is_err() {
            self.lose();
            return Err(Memory);
        }
        self.standing = standing;
        Ok(())
    }

    /// Why it takes no line, if it doesn't. `up` says whether its node is up.
    pub(crate) fn line_refusal(&self, up: bool) -> Option<Refused>
        ensures { (log : Option (NodeLog A)) → up ≡ is_up log → result ≡ spec.line_refusal log (standing_in self.now.standing self.now.session.state) }
    {
        match &self.standing {
            Standing::Failed(_) | Standing::Over => Some(Refused::NoSession),
            Standing::Disconnected => Some(Refused::Down),
            _ if !up => Some(Refused::Down),
            Standing::Waits(_) => Some(Refused::Busy),
            Standing::Hears => None,
        }
    }

    /// Why it takes no hangup, if it doesn't. `up` says whether its node is up.
    pub(crate) fn hangup_refusal(&self, up: bool) -> Option<Refused>
        ensures { (log : Option (NodeLog A)) → up ≡ is_up log → result ≡ spec.hangup_refusal log (standing_in self.now.standing self.now.session.state) }
    {
        match &self.standing {
            Standing::Over => Some(Refused::NoSession),
            Standing::Disconnected => Some(Refused::Down),
            _ if !up => Some(Refused::Down),
            Standing::Waits(_) => Some(Refused::Busy),
            Standing::Hears | Standing::Failed(_) => None,
        }
    }

    /// What it awaits the answer to, if it does.
    pub(crate) fn awaited(&self) -> Option<CommandId>
        ensures { result ≡ awaited_by self.now.standing }
    {
        match &self.standing {
            Standing::Waits(id) => Some(*id),
            _ => None,
        }
    }

    /// Why it takes no answer, if it doesn't. `up` says whether its node is up, and `there` whether the answer that it
    /// awaits is there.
    pub(crate) fn collect_refusal(&self, up: bool, there: bool) -> Option<Refused>
        ensures { (log : Option (NodeLog A)) → up ≡ is_up log → IsThere there log self.now.standing → result ≡ spec.collect_refusal log (standing_in self.now.standing self.now.session.state) }
    {
        match &self.standing {
            Standing::Failed(_) | Standing::Over => Some(Refused::NoSession),
            Standing::Disconnected => Some(Refused::Down),
            _ if !up => Some(Refused::Down),
            Standing::Waits(_) if there => None,
            Standing::Waits(_) | Standing::Hears => Some(Refused::Busy),
        }
    }
}
