//! What a session gets with the lock.
ghost use Rattle.std.specs.Prelude.{◌≡◌, ◌↔◌, [], List, IsTrue, IsOk, IfOk};
ghost use Rattle.maildrop.specs.Same.{same_messages};
ghost use Rattle.maildrop.specs.Taken.{AreTaken};

use crate::message::{Message, are_same, copies_of};
use ballot::Memory;
use std::alloc::{Allocator, Global};
use std::marker::Model;

/// The messages of a maildrop when its lock was taken. Only an operation of an office makes it, so the unique ids
/// ascend strictly, there are at most 999,999,999 messages, and together they have at most 2^40 octets.
#[derive(Drop)]
pub struct Taken<A: Allocator = Global> {
    messages: Vec<Message<A>, A>,
}

impl<A: Allocator> Model for Taken<A> {
    ghost use Rattle.std.specs.Prelude.{List};
    ghost use Rattle.maildrop.specs.Taken.{AreTaken};
    ghost use Rattle.maildrop.specs.declared.message.Message.{Message};

    ghost Value = { List (Message A) };

    ghost view = { λ t. t.messages.items };

    ghost invariant = { λ t. AreTaken t.messages.items };
}

impl<A: Allocator + Copy> Taken<A> {
    pub(crate) fn new(messages: Vec<Message<A>, A>) -> Self
        requires { AreTaken messages.items }
        ensures { result ≡ messages.items }
    {
        Taken { messages }
    }

    /// The same messages again, kept by the same allocator. Takes no memory if there is none.
    pub fn copy(&self) -> Result<Self, Memory>
        ensures value { IfOk result (λ taken. taken ≡ self.now) }
        ensures sure { self.now ≡ [] → IsOk result }
    {
        let alloc = *self.messages.allocator();
        Ok(Taken {
            messages: copies_of(alloc, &self.messages)?,
        })
    }

    /// The messages, in order of their unique ids.
    pub fn get(&self) -> &[Message<A>]
        ensures value { result.now ≡ self.now }
        ensures taken { AreTaken self.now }
    {
        self.messages.as_slice()
    }
    /// Whether both have the same messages.
    pub fn same(&self, other: &Self) -> bool
        ensures test { result ≡ same_messages self.now other.now }
        ensures equal { IsTrue result ↔ (self.now ≡ other.now) }
    {
        are_same(self.get(), other.get())
    }
}
