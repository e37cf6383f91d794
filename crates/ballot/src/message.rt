//! What nodes send to one another.
ghost use Rattle.std.specs.Prelude.{◌≡◌, false, IfOk, IsOk};
ghost use Rattle.ballot.specs.Sends.{message_owns_memory};

use crate::ballot::Ballot;
use crate::items::Items;
use crate::memory::Memory;
use crate::node_id::NodeId;
use crate::payload::Payload;
use crate::pvalue::PValue;
use crate::slot::Slot;
use std::alloc::{Allocator, Global};

/// An acceptor's answer to `Message::P1a`: it accepts nothing below `ballot` any more.
#[derive(Drop)]
pub struct Promise<C, A: Allocator = Global> {
    /// The ballot that was asked for.
    pub asked: Ballot,
    /// The acceptor's ballot, which is at least the asked one.
    pub ballot: Ballot,
    /// What the acceptor has accepted.
    pub accepted: Items<PValue<C>, A>,
}

impl<C: Payload, A: Allocator + Copy> Promise<C, A> {
    /// The same promise again.
    pub fn copy(&self) -> Result<Self, Memory>
        ensures { IfOk result (λ promise. promise ≡ self.now) }
    {
        let accepted = self.accepted.copy()?;
        Ok(Promise {
            asked: self.asked,
            ballot: self.ballot,
            accepted,
        })
    }
}

/// An acceptor's answer to `Message::P2a`. It is a vote for the asked ballot exactly if its own
/// ballot is that one.
#[derive(Clone, Copy, Debug, PartialEq, Eq)]
pub struct Vote {
    /// The ballot that was asked for.
    pub asked: Ballot,
    /// The slot of the pvalue that it was asked to accept.
    pub slot: Slot,
    /// The acceptor's ballot, which is at least the asked one.
    pub ballot: Ballot,
}

/// A message between two nodes.
#[derive(Drop)]
pub enum Message<C, A: Allocator = Global> {
    /// A replica asks the leaders to have this command decided in this slot.
    Propose(Slot, C),
    /// A leader asks the acceptors for this ballot.
    P1a(Ballot),
    P1b(Promise<C, A>),
    /// A leader asks the acceptors to accept this pvalue.
    P2a(PValue<C>),
    P2b(Vote),
    /// This command is decided in this slot.
    Decision(Slot, C),
    /// A replica asks for the decision of this slot.
    Ask(Slot),
}

impl<C: Payload, A: Allocator + Copy> Message<C, A> {
    /// The same message again. Takes no memory for one without a command or a list.
    pub fn copy(&self) -> Result<Self, Memory>
        ensures value { IfOk result (λ message. message ≡ self.now) }
        ensures sure { message_owns_memory self.now ≡ false → IsOk result }
    {
        match self {
            Message::Propose(slot, command) => Ok(Message::Propose(*slot, command.copy()?)),
            Message::P1a(ballot) => Ok(Message::P1a(*ballot)),
            Message::P1b(promise) => Ok(Message::P1b(promise.copy()?)),
            Message::P2a(pvalue) => Ok(Message::P2a(pvalue.copy()?)),
            Message::P2b(vote) => Ok(Message::P2b(*vote)),
            Message::Decision(slot, command) => Ok(Message::Decision(*slot, command.copy()?)),
            Message::Ask(slot) => Ok(Message::Ask(*slot)),
        }
    }
}

/// A message with its sender and its addressee.
#[derive(Drop)]
pub struct Envelope<C, A: Allocator = Global> {
    /// The sender.
    pub from: NodeId,
    /// The addressee.
    pub to: NodeId,
    /// What is sent.
    pub message: Message<C, A>,
}

impl<C: Payload, A: Allocator + Copy> Envelope<C, A> {
    /// The same envelope again. Takes no memory if its message has no command and no list.
    pub fn copy(&self) -> Result<Self, Memory>
        ensures value { IfOk result (λ envelope. envelope ≡ self.now) }
        ensures sure { message_owns_memory self.now.message ≡ false → IsOk result }
    {
        let message = self.message.copy()?;
        Ok(Envelope {
            from: self.from,
            to: self.to,
            message,
        })
    }
}
