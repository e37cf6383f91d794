//! Lists whose contracts speak of their items alone.
ghost use Rattle.std.specs.Prelude.{◌≡◌, ℕ, List, [], ◌∷◌, ◌++◌, length, take, IsTrue, IsOk, ◌↔◌, OnOk, OnErr, IfOk};

use crate::memory::Memory;
use std::alloc::{Allocator, Global};
use std::marker::Model;
use std::mem;

/// A list, the first item first. Two are equal if their items are, whatever room each has.
#[derive(Drop)]
pub struct Items<T, A: Allocator = Global> {
    items: Vec<T, A>,
}

impl<T, A: Allocator> Model for Items<T, A> {
    ghost Value = { List T };

    ghost view = { λ list. list.items.items };
}

impl<T, A: Allocator> Items<T, A> {
    /// The empty list. Takes no memory.
    pub fn new(alloc: A) -> Self
        ensures { result ≡ [] }
    {
        Items {
            items: Vec::new(alloc),
        }
    }

    /// The items of a vector. Takes no memory.
    pub fn from_vec(items: Vec<T, A>) -> Self
        ensures { result ≡ items.items }
    {
        Items { items }
    }

    /// The vector that the list is kept in. Takes no memory.
    pub fn into_vec(self) -> Vec<T, A>
        ensures { result.items ≡ self }
    {
        self.items
    }

    /// The items.
    pub fn get(&self) -> &[T]
        ensures { result.now ≡ self.now }
    {
        &self.items
    }

    /// How many items there are.
    pub fn len(&self) -> usize
        ensures { result ≡ length self.now }
    {
        self.items.len()
    }

    /// Whether there is none.
    pub fn is_empty(&self) -> bool
        ensures { IsTrue result ↔ (self.now ≡ []) }
    {
        self.items.is_empty()
    }
}

impl<T: Drop, A: Allocator> Items<T, A> {
    /// Adds an item at the end. After `Memory` the list is as it was.
    pub fn push(&mut self, item: T) -> Result<(), Memory>
        ensures ok { OnOk result (self.new ≡ self.old ++ item ∷ []) }
        ensures err { OnErr result (self.new ≡ self.old) }
    {
        self.items.push(item)?;
        Ok(())
    }

    /// Adds the items of another list at the end. After `Memory` the list is as it was.
    pub fn append(&mut self, other: Self) -> Result<(), Memory>
        ensures ok { OnOk result (self.new ≡ self.old ++ other) }
        ensures err { OnErr result (self.new ≡ self.old) }
        ensures nothing_to_add { other ≡ [] → IsOk result }
    {
        let mut items = other.into_vec();
        self.items.append(&mut items)?;
        Ok(())
    }

    /// Keeps the first items, as many as this, and drops the others.
    pub fn truncate(&mut self, len: usize)
        ensures { self.new ≡ take len self.old }
    {
        self.items.truncate(len);
    }
}

impl<T, A: Allocator + Copy> Items<T, A> {
    /// Takes the items out, and leaves the empty list. Takes no memory.
    pub fn take(&mut self) -> Self
        ensures value { result ≡ self.old }
        ensures empty { self.new ≡ [] }
    {
        let none = Items::new(self.allocator());
        mem::replace(self, none)
    }

    /// The allocator that keeps the items.
    pub(crate) fn allocator(&self) -> A {
        *self.items.allocator()
    }
}

impl<A: Allocator> Items<u8, A> {
    /// A list of these bytes, kept by the allocator.
    pub fn from_bytes(alloc: A, bytes: &[u8]) -> Result<Self, Memory>
        ensures { IfOk result (λ list. list ≡ bytes.now) }
    {
        Ok(Items {
            items: Vec::from_slice(alloc, bytes)?,
        })
    }
}

impl<A: Allocator + Copy> Items<u8, A> {
    /// The same bytes again, kept by the same allocator.
    pub fn copy(&self) -> Result<Self, Memory>
        ensures { IfOk result (λ list. list ≡ self.now) }
    {
        Items::from_bytes(*self.items.allocator(), &self.items)
    }
}
