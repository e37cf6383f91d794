//! What a node is given to do.
ghost use Rattle.std.specs.Prelude.{◌≡◌, IfOk};
ghost use Rattle.node.specs.Nodes.{stops_after, user_of};

use crate::stopped::Stopped;
use ballot::{Envelope, Memory};
use maildrop::{Name, Op, Shared, SharedCommand};
use std::alloc::{Allocator, Global};

/// An operation as a node takes it: in memory of its own, so that inputs of all kinds are small.
pub type SharedOp<A = Global> = Shared<Op<A>, A>;

/// One input of a node.
#[derive(Drop)]
pub enum Input<A: Allocator = Global> {
    /// An operation for a user is to be decided, as a command of this node.
    Submit(Name, SharedOp<A>),
    /// A message comes. One to another node changes nothing but the log.
    Arrive(Envelope<SharedCommand<A>, A>),
    /// Time has passed: what waits for an answer is sent again, and the decision of the next slot to perform is asked for.
    Tick,
    /// The node asks to lead.
    Campaign,
    /// The node stops, for good.
    Crash,
}

impl<A: Allocator + Copy> Input<A> {
    /// The same input again.
    pub fn copy(&self) -> Result<Self, Memory>
        ensures { IfOk result (λ input. input ≡ self.now) }
    {
        Ok(match self {
            Input::Submit(name, op) => Input::Submit(*name, op.copy()?),
            Input::Arrive(envelope) => Input::Arrive(envelope.copy()?),
            Input::Tick => Input::Tick,
            Input::Campaign => Input::Campaign,
            Input::Crash => Input::Crash,
        })
    }

    /// The user for whom it is an operation.
    pub(crate) fn user(&self) -> Option<Name>
        ensures { result ≡ user_of self.now }
    {
        match self {
            Input::Submit(user, _) => Some(*user),
            _ => None,
        }
    }

    /// Why a node stops after it.
    pub(crate) fn stops(&self) -> Option<Stopped>
        ensures { result ≡ stops_after self.now }
    {
        match self {
            Input::Crash => Some(Stopped::Crashed),
            _ => None,
        }
    }
}
