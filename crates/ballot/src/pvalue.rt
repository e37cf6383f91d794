//! Pvalues: what an acceptor accepts.
ghost use Rattle.std.specs.Prelude.{◌≡◌, IfOk};
ghost use Rattle.ballot.specs.PValues.{same_pvalue};

use crate::ballot::Ballot;
use crate::items::Items;
use crate::memory::Memory;
use crate::payload::Payload;
use crate::slot::Slot;
use std::alloc::Allocator;

/// A command that the leader of a ballot proposed for a slot.
#[derive(Drop)]
pub struct PValue<C> {
    /// The ballot under which it is proposed.
    pub ballot: Ballot,
    /// The slot that it is proposed for.
    pub slot: Slot,
    /// The proposed command.
    pub command: C,
}

impl<C: Payload> PValue<C> {
    /// The same pvalue again.
    pub fn copy(&self) -> Result<Self, Memory>
        ensures { IfOk result (λ pvalue. pvalue ≡ self.now) }
    {
        let command = self.command.copy()?;
        Ok(PValue {
            ballot: self.ballot,
            slot: self.slot,
            command,
        })
    }

    /// Whether the pvalues are equal.
    pub fn same(&self, other: &Self) -> bool
        ensures { result ≡ same_pvalue C.equal self.now other.now }
    {
        self.ballot == other.ballot && self.slot == other.slot && self.command.same(&other.command)
    }
}

impl<C: Payload, A: Allocator + Copy> Items<PValue<C>, A> {
    /// The same pvalues again, kept by the same allocator.
    pub fn copy(&self) -> Result<Self, Memory>
        ensures { IfOk result (λ copies. copies ≡ self.now) }
    {
        let mut copies = Vec::with_capacity(self.allocator(), self.len())?;
        for pvalue in self.get() {
            copies.push(pvalue.copy()?)?;
        }
        Ok(Items::from_vec(copies))
    }
}
