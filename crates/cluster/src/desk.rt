//! A node's desk.
ghost use Rattle.std.specs.Prelude.{◌≡◌, true, IfOk, IfSome};
ghost use Rattle.session.specs.Desks.{given_by_ask, given_by_tell};
ghost use Rattle.cluster.specs.Members.{IsAnswered, IsGiven, IsStatusOf};
ghost use Rattle.cluster.specs.Performed.{ArePerformedAfter};
ghost use Rattle.cluster.specs.Users.{AreLocksOf, AreUsagesOf};

use crate::handle::NodeHandle;
use crate::hub::Hub;
use crate::link::Link;
use crate::op_kind::OpKind;
use crate::performed::Performed;
use crate::setup::Deployment;
use crate::status::Status;
use ballot::{Envelope, Memory, NodeId};
use maildrop::{Name, Op, Outcome, SharedCommand, Ticket, Usage};
use node::Input;
use session::{Desk, DeskStopped};
use std::marker::Model;
use std::sync::{Arc, Wait};
use std::time::{Clock, Duration};

/// The desk of one node: what it is asked is submitted there, and answered once it is decided and performed there. It may
/// move to another thread. Contracts see it as the node's number.
#[derive(Drop)]
pub struct NodeDesk<D: Deployment, R: Wait, L: Link> {
    rt: R,
    node: NodeHandle<D, L>,
    hub: Arc<Hub>,
}

impl<D: Deployment, R: Wait, L: Link> Model for NodeDesk<D, R, L> {
    ghost use Rattle.std.specs.Prelude.{ℕ};

    ghost Value = { ℕ };

    ghost view = { λ d. d.node };
}

impl<D: Deployment, R: Wait, L: Link> NodeDesk<D, R, L> {
    pub(crate) fn new(rt: R, node: NodeHandle<D, L>, hub: Arc<Hub>) -> Self
        ensures { result ≡ node }
    {
        NodeDesk { rt, node, hub }
    }

    /// The node's number.
    pub fn me(&self) -> NodeId
        ensures { result ≡ self.now }
    {
        self.node.me()
    }

    /// The node stops, for good. Gives whether it was up until now.
    pub fn crash(&self) -> bool {
        self.node.crash(&self.rt)
    }

    /// Time has passed for the node. Nothing if it has stopped.
    pub fn tick(&self) {
        let _none = self.node.step(&self.rt, Input::Tick);
    }

    /// The node asks to lead. Nothing if it has stopped.
    pub fn campaign(&self) {
        let _none = self.node.step(&self.rt, Input::Campaign);
    }

    /// How the node stands, or nothing once its cluster has ended.
    pub fn status(&self) -> Option<Status>
        ensures { IfSome result (λ status. IsStatusOf D.setup self.now status) }
    {
        self.node.status(&self.rt)
    }

    /// The users whose maildrop is locked at the node, each with the ticket of the Take that holds the lock, in the order of
    /// the setup's names. Empty once its cluster has ended, or if the node has stopped without memory.
    pub fn locks(&self) -> Result<Vec<(Name, Ticket)>, Memory>
        ensures { IfOk result (λ locks. AreLocksOf D.setup self.now locks.items) }
    {
        self.node.locks(&self.rt)
    }

    /// All users, each with what the maildrop has at the node, in the order of the setup's names. Empty once its cluster has
    /// ended, or if the node has stopped without memory.
    pub fn usage(&self) -> Result<Vec<(Name, Usage)>, Memory>
        ensures { IfOk result (λ usages. AreUsagesOf D.setup self.now usages.items) }
    {
        self.node.usages(&self.rt)
    }

    /// The commands that the node has performed after the first `taken`, each with its slot, in their order. What the node has
    /// answered is among all that it has performed. `None` once its cluster has ended, or if the node has stopped without memory.
    pub fn performed_after(&self, taken: u64) -> Result<Option<Performed>, Memory>
        ensures { IfOk result (λ commands. IfSome commands (λ commands. ArePerformedAfter taken D.setup self.now commands.items)) }
    {
        self.node.performed_after(&self.rt, taken)
    }

    /// Whether an envelope lies in the inbox of a node of this cluster that runs here, and was not heard yet. Others may
    /// come at any time.
    pub fn has_unheard(&self) -> bool {
        self.hub.has_unheard(&self.rt)
    }

    /// Puts an envelope into the node's inbox. Gives whether it is in there: not if the envelope is to another node, the
    /// node's thread has ended, or without memory. A node that has stopped hears none. Its thread ends at the next that
    /// comes, so one may still be put in there, and is lost.
    pub fn arrive(&self, envelope: Envelope<SharedCommand>) -> bool
        ensures { result ≡ true → envelope.to ≡ self.now }
    {
        envelope.to == self.node.me() && self.hub.deliver(&self.rt, envelope)
    }
}

impl<D: Deployment, R: Wait + Copy, L: Link> NodeDesk<D, R, L> {
    /// Another desk of the same node.
    pub fn share(&self) -> Result<Self, Memory>
        ensures { IfOk result (λ desk. desk ≡ self.now) }
    {
        let hub = Arc::try_clone(&self.hub)?;
        let node = self.node.share()?;
        Ok(NodeDesk::new(self.rt, node, hub))
    }
}

/// What a caller needs that may give up: it submits an operation, looks for its outcome again and again, and lets it go.
impl<D: Deployment, R: Wait + Clock, L: Link> NodeDesk<D, R, L> {
    /// Submits an operation. Returns its ticket, or nothing if the node has stopped. Its outcome stays here until it is
    /// taken by `outcome_within` or let go by `forget`.
    pub fn submit(&self, name: Name, op: Op) -> Option<Ticket>
        ensures { IfSome result (λ ticket. ticket.node ≡ self.now) }
    {
        self.node.submit(&self.rt, name, op)
    }

    /// The outcome of an operation that was submitted at this node, which may be awaited at most this long. Nothing if it
    /// isn't there yet, and an error if the node has stopped.
    pub fn outcome_within(
        &self,
        name: Name,
        ticket: Ticket,
        time: Duration,
    ) -> Result<Option<Outcome>, DeskStopped>
        ensures { IfOk result (λ answer. IfSome answer (λ outcome. IsAnswered D.setup self.now name ticket outcome)) }
    {
        self.node.answer_within(&self.rt, name, ticket, time)
    }

    /// Nobody awaits the outcome of an operation that was submitted at this node any more.
    pub fn forget(&self, name: Name, ticket: Ticket) {
        self.node.tell(&self.rt, name, ticket);
    }
}

impl<D: Deployment, R: Wait, L: Link> Desk<Op, Outcome> for NodeDesk<D, R, L> {
    ghost use Rattle.std.specs.Prelude.{◌≡◌};
    ghost use Rattle.cluster.specs.Members.{IsGiven};

    ghost gives = { λ before given after. (after ≡ before) × IsGiven D.setup before given };

    /// Submits the operation, and waits until its outcome is there or the node has stopped.
    fn ask(&mut self, name: Name, op: Op) -> Result<(Ticket, Outcome), DeskStopped> {
        let kind = OpKind::of(&op);
        let Some(ticket) = self.node.submit(&self.rt, name, op) else {
            return Err(DeskStopped { ticket: None });
        };
        match self.node.wait_for(&self.rt, name, ticket) {
            Some(outcome) if kind.fits(&outcome) => Ok((ticket, outcome)),
            _ => Err(DeskStopped {
                ticket: Some(ticket),
            }),
        }
    }

    /// Submits the operation, and lets its outcome go once it is there.
    fn tell(&mut self, name: Name, op: Op) -> Result<Ticket, DeskStopped> {
        let Some(ticket) = self.node.submit(&self.rt, name, op) else {
            return Err(DeskStopped { ticket: None });
        };
        self.node.tell(&self.rt, name, ticket);
        Ok(ticket)
    }
}
