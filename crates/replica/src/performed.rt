//! What a replica has performed.
ghost use Rattle.std.specs.Prelude.{◌≡◌, [], ◌∷◌, ◌++◌, not, IfOk, OnErr, if◌then◌else◌};
ghost use Rattle.std.specs.List.{list_any};
ghost use Rattle.std.specs.Ordering.{is_eq};

use ballot::{Memory, Payload, Slot};
use std::alloc::Allocator;
use std::collections::BTreeSet;
use std::marker::Model;

/// Commands in the order in which they were performed, each with its slot, and their identities.
#[derive(Drop)]
pub struct Performed<C: Payload, A: Allocator> {
    commands: Vec<(Slot, C), A>,
    identities: BTreeSet<C::Id, A>,
}

impl<C: Payload, A: Allocator> Model for Performed<C, A> {
    ghost use Rattle.std.specs.Prelude.{◌≡◌, ℕ, List};
    ghost use Rattle.std.specs.List.{list_any};
    ghost use Rattle.std.specs.BTreeSet.{contains};
    ghost use Rattle.std.specs.Ordering.{is_eq};

    ghost Value = { List (ℕ × C) };

    ghost view = { λ p. p.commands.items };

    ghost invariant = { λ p. (i : C.Id) → contains C.Id.cmp p.identities i ≡ list_any (λ e. is_eq (C.Id.cmp (C.identity e.1) i)) p.commands.items };
}

impl<C: Payload, A: Allocator + Copy> Performed<C, A> {
    /// Nothing. Takes no memory.
    pub fn new(alloc: A) -> Self
        ensures { result ≡ [] }
    {
        Performed {
            commands: Vec::new(alloc),
            identities: BTreeSet::new(alloc),
        }
    }

    /// The commands.
    pub fn get(&self) -> &[(Slot, C)]
        ensures { result.now ≡ self.now }
    {
        &self.commands
    }

    /// Whether a command of the identity is among them. Logarithmic in their number.
    pub fn has(&self, identity: C::Id) -> bool
        ensures { result ≡ list_any (λ e. is_eq (C.Id.cmp (C.identity e.1) identity)) self.now }
    {
        self.identities.contains(&identity)
    }

    /// Adds a command at the end, unless one of its identity is among them, and tells whether it did. Logarithmic in
    /// their number. After `Memory` they are as they were.
    pub fn push(&mut self, slot: Slot, command: C) -> Result<bool, Memory>
        ensures new { IfOk result (λ new. new ≡ not (list_any (λ e. is_eq (C.Id.cmp (C.identity e.1) (C.identity command))) self.old)) }
        ensures pushed { IfOk result (λ new. self.new ≡ (if new then self.old ++ (slot, command) ∷ [] else self.old)) }
        ensures err { OnErr result (self.new ≡ self.old) }
    {
        self.commands.reserve(1)?;
        if !self.identities.insert(command.id())? {
            return Ok(false);
        }
        self.commands.push_reserved((slot, command));
        Ok(true)
    }
}
