//! The bytes of a file that a reader has not passed.
ghost use Rattle.std.specs.Prelude.{◌≡◌, ◌++◌, ◌≤◌, [], length, drop, OnOk, OnErr};

use ballot::Memory;
use std::alloc::Allocator;
use std::marker::Model;

/// The bytes of a file that have come and that a reader has not passed. Contracts see only these.
#[derive(Drop)]
pub(crate) struct Unread<A: Allocator> {
    bytes: Vec<u8, A>,
    passed: usize,
}

impl<A: Allocator> Model for Unread<A> {
    ghost use Rattle.std.specs.Prelude.{ℕ, List, ◌≤◌, length, drop};

    ghost Value = { List ℕ };

    ghost view = { λ u. drop u.passed u.bytes.items };

    ghost invariant = { λ u. u.passed ≤ length u.bytes.items };
}

impl<A: Allocator + Copy> Unread<A> {
    /// None yet. Takes no memory.
    pub(crate) fn new(alloc: A) -> Self
        ensures { result ≡ [] }
    {
        Unread {
            bytes: Vec::new(alloc),
            passed: 0,
        }
    }

    /// The bytes.
    pub(crate) fn get(&self) -> &[u8]
        ensures { result.now ≡ self.now }
    {
        let (_, unread) = self.bytes.split_at(self.passed);
        unread
    }

    /// What memory is asked for.
    pub(crate) fn allocator(&self) -> A {
        *self.bytes.allocator()
    }

    /// Passes over so many bytes at the front.
    pub(crate) fn pass(&mut self, count: usize)
        requires { count ≤ length self.old }
        ensures { self.new ≡ drop count self.old }
    {
        self.passed += count;
    }

    /// Lets all bytes go.
    pub(crate) fn clear(&mut self)
        ensures { self.new ≡ [] }
    {
        self.bytes.clear();
        self.passed = 0;
    }

    /// Moves the bytes to the front, over what was passed. Takes time in proportion to what is kept.
    fn move_to_front(&mut self)
        ensures { self.new ≡ self.old }
    {
        let kept = self.bytes.len() - self.passed;
        self.bytes.copy_within(self.passed.., 0);
        self.bytes.truncate(kept);
        self.passed = 0;
    }

    /// Adds what comes next, in the room of what was passed too. After an error nothing has changed.
    pub(crate) fn add(&mut self, piece: &[u8]) -> Result<(), Memory>
        ensures value { OnOk result (self.new ≡ self.old ++ piece.now) }
        ensures kept { OnErr result (self.new ≡ self.old) }
    {
        if self.passed > 0 {
            self.move_to_front();
        }
        self.bytes.extend_from_slice(piece)?;
        Ok(())
    }
}
