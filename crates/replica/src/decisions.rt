//! What is decided.
ghost use Rattle.std.specs.Prelude.{◌≡◌, [], false, length, OnOk, OnErr, ◌⊎◌};
ghost use Rattle.std.specs.Option.{option_copied};
ghost use Rattle.replica.specs.Replicas.{is_decided};
ghost use Rattle.ballot.specs.Slots.{at_slot, with_slot};

use ballot::{Memory, Slot};
use std::alloc::Allocator;
use std::collections::BTreeMap;
use std::marker::Model;

/// Decisions by their slots, all of which are kept: those of the slots 1, 2, .. without a gap in a list, and those that
/// came ahead of it in a map. So a decision in order costs a push, whatever was decided before.
#[derive(Drop)]
pub struct Decisions<C, A: Allocator> {
    front: Vec<C, A>,
    ahead: BTreeMap<Slot, C, A>,
}

impl<C, A: Allocator> Model for Decisions<C, A> {
    ghost use Rattle.std.specs.Prelude.{ℕ, List, ◌++◌, length};
    ghost use Rattle.std.specs.List.{enumerate_from};
    ghost use Rattle.replica.specs.Replicas.{IsAhead};

    ghost Value = { List (ℕ × C) };

    ghost view = { λ d. enumerate_from 1 d.front.items ++ d.ahead.entries };

    ghost invariant = { λ d. IsAhead (length d.front.items) d.ahead.entries };
}

impl<C: Drop, A: Allocator + Copy> Decisions<C, A> {
    /// None. Takes no memory.
    pub fn new(alloc: A) -> Self
        ensures { result ≡ [] }
    {
        Decisions {
            front: Vec::new(alloc),
            ahead: BTreeMap::new(alloc),
        }
    }

    /// The decision of the slot.
    pub fn get(&self, slot: Slot) -> Option<&C>
        ensures { option_copied result ≡ at_slot slot self.now }
    {
        match self.front.get(slot.get() as usize - 1) {
            Some(command) => Some(command),
            None => self.ahead.get(&slot),
        }
    }

    /// Whether the slot has a decision.
    pub fn has(&self, slot: Slot) -> bool
        ensures { result ≡ is_decided slot self.now }
    {
        self.get(slot).is_some()
    }

    /// How many there are.
    pub fn count(&self) -> u128
        ensures { result ≡ length self.now }
    {
        self.front.len() as u128 + self.ahead.len() as u128
    }

    /// Keeps a decision for a slot that has none. After `Memory` it is kept, or they are as they were.
    pub fn insert(&mut self, slot: Slot, command: C) -> Result<(), Memory>
        requires { is_decided slot self.old ≡ false }
        ensures ok { OnOk result (self.new ≡ with_slot slot command self.old) }
        ensures err { OnErr result ((self.new ≡ with_slot slot command self.old) ⊎ (self.new ≡ self.old)) }
    {
        if slot.get() as usize - 1 != self.front.len() {
            let _ = self.ahead.insert(slot, command)?;
            return Ok(());
        }
        self.front.push(command)?;
        self.close_up()
    }

    /// Moves those ahead to the front that have no gap before them any more.
    fn close_up(&mut self) -> Result<(), Memory>
        ensures { self.new ≡ self.old }
    {
        for turn in 0..self.ahead.len() {
            if !self.move_first()? {
                return Ok(());
            }
        }
        Ok(())
    }

    /// Moves the first of those ahead to the front, if there is no gap before it, and tells whether it did.
    fn move_first(&mut self) -> Result<bool, Memory>
        ensures { self.new ≡ self.old }
    {
        let Some((slot, _)) = self.ahead.first_key_value() else {
            return Ok(false);
        };
        if slot.get() as usize - 1 != self.front.len() {
            return Ok(false);
        }
        self.front.reserve(1)?;
        let Some((_, command)) = self.ahead.pop_first() else {
            return Ok(false);
        };
        self.front.push_reserved(command);
        Ok(true)
    }
}
