//! The acceptor.
ghost use Rattle.std.specs.Prelude.{◌≡◌, ◌↔◌, [], Some, true, false, IsTrue, IsSome, IsOk, OnOk, OnErr, IfOk};
ghost use Rattle.ballot.specs.Ballots.{BallotNumber};
ghost use Rattle.acceptor.specs.Fields.{pvalues_of};
ghost use Rattle.acceptor.specs.Acceptors.{Reached, RiseBySlot, Holds, new_acceptor, raised, accepts, with_accepted, accepted_for, after_p1a, after_p2a, promise_for, vote_for};

use ballot::{Ballot, Items, Memory, PValue, Payload, Promise, Slot, Vote};
use std::alloc::{Allocator, Global};
use std::collections::BTreeMap;
use std::marker::Model;

/// What an acceptor keeps for a slot: the command that it accepted there with the highest ballot.
#[derive(Drop)]
pub struct Accepted<C> {
    /// The highest ballot that it accepted there.
    pub ballot: Ballot,
    /// The command of that ballot.
    pub command: C,
}

/// An acceptor: the highest ballot that it was asked for, and for each slot the accepted pvalue of
/// the highest ballot, the first of equal ones.
#[derive(Drop)]
pub struct Acceptor<C, A: Allocator = Global> {
    ballot: Option<Ballot>,
    accepted: BTreeMap<Slot, Accepted<C>, A>,
    alloc: A,
}

impl<C, A: Allocator> Model for Acceptor<C, A> {
    ghost use Rattle.acceptor.specs.Acceptors.{AcceptorState};
    ghost use Rattle.acceptor.specs.Fields.{pvalues_of};

    ghost Value = { AcceptorState C };

    ghost view = { λ a. record { ballot = a.ballot; accepted = pvalues_of a.accepted.entries } };
}

impl<C, A: Allocator + Copy> Acceptor<C, A> {
    /// An acceptor that was asked for nothing. Takes no memory.
    pub fn new(alloc: A) -> Self
        ensures { result ≡ new_acceptor }
    {
        Acceptor {
            ballot: None,
            accepted: BTreeMap::new(alloc),
            alloc,
        }
    }

    /// The highest ballot that it was asked for.
    pub fn ballot(&self) -> Option<Ballot>
        ensures { result ≡ self.now.ballot }
    {
        self.ballot
    }
}

impl<C: Payload, A: Allocator + Copy> Acceptor<C, A> {
    /// Hears `Message::P1a`: raises its ballot to this one, if this is higher, and tells what it
    /// keeps, in slot order. After `Memory` the acceptor is as it was. Takes no memory if nothing is
    /// kept. In proportion to what it keeps.
    pub fn p1a(&mut self, ballot: Ballot) -> Result<Promise<C, A>, Memory>
        ensures state { OnOk result (self.new ≡ after_p1a self.old ballot) }
        ensures answer { IfOk result (λ promise. promise ≡ promise_for self.old ballot) }
        ensures one_for_a_slot { IfOk result (λ promise. RiseBySlot promise.accepted) }
        ensures reaches { OnOk result (Reached self.new.ballot ballot) }
        ensures never_falls { (b : BallotNumber) → Reached self.old.ballot b → Reached self.new.ballot b }
        ensures nothing_kept { self.old.accepted ≡ [] → IsOk result }
        ensures err { OnErr result (self.new ≡ self.old) }
    {
        let accepted = copy_of(self.alloc, &self.accepted)?;
        let raised = higher(self.ballot, ballot);
        self.ballot = Some(raised);
        Ok(Promise {
            asked: ballot,
            ballot: raised,
            accepted,
        })
    }

    /// Hears `Message::P2a`: keeps the pvalue for its slot, unless its ballot is below the acceptor's
    /// own or is that of the one that is kept there. After `Memory` the acceptor is as it was. Takes
    /// memory only for a slot for which nothing is kept. Logarithmic in the number of slots.
    pub fn p2a(&mut self, pvalue: PValue<C>) -> Result<Vote, Memory>
        ensures state { OnOk result (self.new ≡ after_p2a self.old pvalue) }
        ensures answer { IfOk result (λ vote. vote ≡ vote_for self.old pvalue) }
        ensures votes { IfOk result (λ vote. (vote.ballot ≡ pvalue.ballot) ↔ IsTrue (accepts self.old.ballot pvalue.ballot)) }
        ensures accepts { OnOk result (accepts self.old.ballot pvalue.ballot ≡ true → Holds self.new.accepted pvalue.slot pvalue.ballot) }
        ensures raises { OnOk result (accepts self.old.ballot pvalue.ballot ≡ true → self.new.ballot ≡ Some pvalue.ballot) }
        ensures refuses { accepts self.old.ballot pvalue.ballot ≡ false → self.new ≡ self.old }
        ensures never_falls { (b : BallotNumber) → Reached self.old.ballot b → Reached self.new.ballot b }

        // Memory is wanted for a new slot alone.
        ensures below { accepts self.old.ballot pvalue.ballot ≡ false → IsOk result }
        ensures slot_is_there { IsSome (accepted_for pvalue.slot self.old.accepted) → IsOk result }
        ensures err { OnErr result (self.new ≡ self.old) }
    {
        let asked = pvalue.ballot;
        let slot = pvalue.slot;
        let ballot = higher(self.ballot, asked);
        if ballot == asked {
            keep(&mut self.accepted, pvalue)?;
            self.ballot = Some(ballot);
        }
        Ok(Vote {
            asked,
            slot,
            ballot,
        })
    }
}

/// The pvalues that are kept, in slot order.
fn copy_of<C: Payload, A: Allocator + Copy>(
    alloc: A,
    accepted: &BTreeMap<Slot, Accepted<C>, A>,
) -> Result<Items<PValue<C>, A>, Memory>
    ensures same { IfOk result (λ copies. copies ≡ pvalues_of accepted.now.entries) }
    ensures rising { IfOk result RiseBySlot }
    ensures nothing_kept { pvalues_of accepted.now.entries ≡ [] → IsOk result }
{
    if accepted.is_empty() {
        return Ok(Items::new(alloc));
    }
    let mut copies = Vec::with_capacity(alloc, accepted.len())?;
    for (slot, kept) in accepted {
        let pvalue = PValue {
            ballot: kept.ballot,
            slot: *slot,
            command: kept.command.copy()?,
        };
        copies.push(pvalue)?;
    }
    Ok(Items::from_vec(copies))
}

/// Keeps the pvalue for its slot, unless the one that is kept there has the same ballot.
fn keep<C: Payload, A: Allocator + Copy>(
    accepted: &mut BTreeMap<Slot, Accepted<C>, A>,
    pvalue: PValue<C>,
) -> Result<(), Memory>
    ensures ok { OnOk result (pvalues_of accepted.new.entries ≡ with_accepted (pvalues_of accepted.old.entries) pvalue) }
    ensures err { OnErr result (accepted.new.entries ≡ accepted.old.entries) }
    ensures slot_is_there { IsSome (accepted_for pvalue.slot (pvalues_of accepted.old.entries)) → IsOk result }
{
    let PValue {
        ballot,
        slot,
        command,
    } = pvalue;
    if let Some(there) = accepted.get(&slot) {
        if there.ballot == ballot {
            return Ok(());
        }
    }
    let _ = accepted.insert(slot, Accepted { ballot, command })?;
    Ok(())
}

/// The higher of both, if none is below all.
fn higher(own: Option<Ballot>, ballot: Ballot) -> Ballot
    ensures { result ≡ raised own ballot }
{
    match own {
        Some(own) if ballot < own => own,
        _ => ballot,
    }
}
