//! The messages of a maildrop.
ghost use Rattle.std.specs.Prelude.{◌≡◌, ◌↔◌, [], IsTrue, IsOk, IfOk};
ghost use Rattle.maildrop.specs.Same.{same_message, same_messages};

use crate::text::Text;
use ballot::Memory;
use std::alloc::{Allocator, Global};

/// A message in a maildrop, with the unique id that it keeps (RFC 1939 section 7, UIDL).
#[derive(Drop)]
pub struct Message<A: Allocator = Global> {
    /// The unique id: given once in a maildrop, and never again.
    pub uid: u64,
    /// Its lines.
    pub text: Text<A>,
}

impl<A: Allocator + Copy> Message<A> {
    /// The same message again. The text shares its lines.
    pub fn copy(&self) -> Result<Self, Memory>
        ensures { IfOk result (λ message. message ≡ self.now) }
    {
        Ok(Message {
            uid: self.uid,
            text: self.text.copy()?,
        })
    }

    /// Whether both have the same unique id and the same text.
    pub fn same(&self, other: &Self) -> bool
        ensures test { result ≡ same_message self.now other.now }
        ensures equal { IsTrue result ↔ (self.now ≡ other.now) }
    {
        self.uid == other.uid && self.text.same(&other.text)
    }
}

/// The same messages again. One request for memory: the texts share their lines.
pub(crate) fn copies_of<A: Allocator + Copy>(
    alloc: A,
    messages: &[Message<A>],
) -> Result<Vec<Message<A>, A>, Memory>
    ensures value { IfOk result (λ copies. copies.items ≡ messages.now) }
    ensures sure { messages.now ≡ [] → IsOk result }
{
    let mut copies = Vec::with_capacity(alloc, messages.len())?;
    for message in messages {
        let copy = message.copy()?;
        copies.push_reserved(copy);
    }
    Ok(copies)
}

/// Whether both lists have the same messages in the same order.
pub(crate) fn are_same<A: Allocator + Copy>(messages: &[Message<A>], others: &[Message<A>]) -> bool
    ensures { result ≡ same_messages messages.now others.now }
{
    if messages.len() != others.len() {
        return false;
    }
    for i in 0..messages.len() {
        if !messages[i].same(&others[i]) {
            return false;
        }
    }
    true
}
