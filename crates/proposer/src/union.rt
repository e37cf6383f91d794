//! The union of what promises told.
ghost use Rattle.std.specs.Prelude.{◌≡◌, [], take, IsOk, OnOk, OnErr};
ghost use Rattle.ballot.specs.PValues.{has_pvalue, added, joined};

use ballot::{Ballot, Items, Memory, PValue, Payload, Slot};
use std::alloc::{Allocator, Global};
use std::collections::BTreeMap;
use std::marker::Model;

/// A union of pvalues, seen as the list of them in the order in which they were added, equal ones
/// once. To add one costs a look-up, since it has an index.
#[derive(Drop)]
pub struct Union<C, A: Allocator = Global> {
    pvalues: Items<PValue<C>, A>,
    /// The place of the last pvalue of a slot and ballot, or one where it would have stood.
    places: BTreeMap<(Slot, Ballot), usize, A>,
}

impl<C, A: Allocator> Model for Union<C, A> {
    ghost use Rattle.std.specs.Prelude.{List};
    ghost use Rattle.std.specs.BTreeMap.{get};
    ghost use Rattle.ballot.specs.declared.pvalue.PValue.{PValue};
    ghost use Rattle.proposer.specs.Unions.{HasPlaces};

    ghost Value = { List (PValue C) };

    ghost view = { λ u. u.pvalues };

    ghost invariant = { λ u. HasPlaces (get ⟦<(Slot, Ballot) as Ord>⟧.cmp u.places) u.pvalues };
}

impl<C: Payload, A: Allocator + Copy> Union<C, A> {
    /// The union of nothing. Takes no memory.
    pub fn new(alloc: A) -> Self
        ensures { result ≡ [] }
    {
        Union {
            pvalues: Items::new(alloc),
            places: BTreeMap::new(alloc),
        }
    }

    /// Whether an equal pvalue is there.
    fn has(&self, pvalue: &PValue<C>) -> bool
        ensures { result ≡ has_pvalue C.equal pvalue.now self.now }
    {
        let Some(place) = self.places.get(&(pvalue.slot, pvalue.ballot)) else {
            return false;
        };
        // With one ballot a leader asks for one command in a slot, so it is this one.
        match self.pvalues.get().get(*place) {
            Some(other) if pvalue.same(other) => true,
            _ => self.pvalues.get().iter().any(|other| pvalue.same(other)),
        }
    }

    /// Adds the pvalue at the end, unless an equal one is there. After `Memory` the union is as it
    /// was.
    fn add(&mut self, pvalue: PValue<C>) -> Result<(), Memory>
        ensures ok { OnOk result (self.new ≡ added C.equal self.old pvalue) }
        ensures err { OnErr result (self.new ≡ self.old) }
    {
        if self.has(&pvalue) {
            return Ok(());
        }
        let key = (pvalue.slot, pvalue.ballot);
        let _ = self.places.insert(key, self.pvalues.len())?;
        self.pvalues.push(pvalue)
    }

    /// Keeps the first pvalues, as many as this.
    fn truncate(&mut self, len: usize)
        ensures { self.new ≡ take len self.old }
    {
        self.pvalues.truncate(len);
    }

    /// Adds each of the others in turn. After `Memory` the union is as it was.
    pub fn join(&mut self, others: Items<PValue<C>, A>) -> Result<(), Memory>
        ensures nothing_told { others ≡ [] → IsOk result }
        ensures ok { OnOk result (self.new ≡ joined C.equal self.old others) }
        ensures err { OnErr result (self.new ≡ self.old) }
    {
        let before = self.pvalues.len();
        for pvalue in others.into_vec() {
            if self.add(pvalue).is_err() {
                self.truncate(before);
                return Err(Memory);
            }
        }
        Ok(())
    }

    /// Takes the pvalues out, and leaves the union of nothing. Takes no memory.
    pub fn take(&mut self) -> Items<PValue<C>, A>
        ensures value { result ≡ self.old }
        ensures empty { self.new ≡ [] }
    {
        self.pvalues.take()
    }
}
