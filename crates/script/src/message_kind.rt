//! The kinds of messages between nodes.
ghost use Rattle.std.specs.Prelude.{◌≡◌};
ghost use Rattle.script.specs.Kinds as spec;

use ballot::Message;
use std::alloc::Allocator;

/// The kind of a message between two nodes.
#[derive(Clone, Copy, Debug, PartialEq, Eq)]
pub enum MessageKind {
    Propose,
    P1a,
    P1b,
    P2a,
    P2b,
    Decision,
    Ask,
}

impl MessageKind {
    /// The kind of this name: `propose`, `p1a`, `p1b`, `p2a`, `p2b`, `decision` or `ask`.
    pub fn from_word(word: &[u8]) -> Option<MessageKind>
        ensures { result ≡ spec.kind_named word.now }
    {
        if word == b"propose".as_slice() {
            Some(MessageKind::Propose)
        } else if word == b"p1a".as_slice() {
            Some(MessageKind::P1a)
        } else if word == b"p1b".as_slice() {
            Some(MessageKind::P1b)
        } else if word == b"p2a".as_slice() {
            Some(MessageKind::P2a)
        } else if word == b"p2b".as_slice() {
            Some(MessageKind::P2b)
        } else if word == b"decision".as_slice() {
            Some(MessageKind::Decision)
        } else if word == b"ask".as_slice() {
            Some(MessageKind::Ask)
        } else {
            None
        }
    }

    /// The kind of a message.
    pub fn of<C, A: Allocator>(message: &Message<C, A>) -> MessageKind
        ensures { result ≡ spec.kind_of message.now }
    {
        match message {
            Message::Propose(_, _) => MessageKind::Propose,
            Message::P1a(_) => MessageKind::P1a,
            Message::P1b(_) => MessageKind::P1b,
            Message::P2a(_) => MessageKind::P2a,
            Message::P2b(_) => MessageKind::P2b,
            Message::Decision(_, _) => MessageKind::Decision,
            Message::Ask(_) => MessageKind::Ask,
        }
    }
}
