//! What a leader does when a majority promises its ballot.
ghost use Rattle.std.specs.Prelude.{◌≡◌, ◌&&◌, false, IsOk, OnOk, IfOk};
ghost use Rattle.ballot.specs.Ballots.{same_ballot};
ghost use Rattle.leader.specs.Leaders.{phase_is_scouting, keep_better, best_pvalues, replaced, leads, adopts, adopted, hears_promise};
ghost use Rattle.leader.specs.Parts.{counts_in};
ghost use Rattle.leader.specs.States.{state_of};

use crate::events::{preempt, start};
use crate::state::{Phase, State};
use ballot::{Ballot, Items, Memory, NodeId, PValue, Payload, Promise, Sends, Slot};
use proposer::Progress;
use std::alloc::Allocator;
use std::collections::BTreeMap;

/// For each slot of the pvalues the one of the highest ballot, the first at a tie.
fn best_of<C: Payload, A: Allocator + Copy>(
    alloc: A,
    pvalues: Items<PValue<C>, A>,
) -> Result<BTreeMap<Slot, PValue<C>, A>, Memory>
    ensures { IfOk result (λ best. best.entries ≡ best_pvalues pvalues) }
{
    let mut best = BTreeMap::new(alloc);
    for pvalue in pvalues.into_vec() {
        keep(&mut best, pvalue)?;
    }
    Ok(best)
}

/// Keeps the pvalue for its slot, unless one of at least its ballot is there.
fn keep<C: Payload, A: Allocator + Copy>(
    best: &mut BTreeMap<Slot, PValue<C>, A>,
    pvalue: PValue<C>,
) -> Result<(), Memory>
    ensures { OnOk result (best.new.entries ≡ keep_better best.old.entries pvalue) }
{
    if let Some(other) = best.get(&pvalue.slot) {
        if pvalue.ballot <= other.ballot {
            return Ok(());
        }
    }
    let _ = best.insert(pvalue.slot, pvalue)?;
    Ok(())
}

/// Puts the commands of these pvalues in place of the proposals of their slots.
fn replace<C: Payload, A: Allocator + Copy>(
    proposals: &mut BTreeMap<Slot, C, A>,
    best: BTreeMap<Slot, PValue<C>, A>,
) -> Result<(), Memory>
    ensures { OnOk result (proposals.new.entries ≡ replaced proposals.old.entries best.entries) }
{
    for (slot, pvalue) in best {
        let _ = proposals.insert(slot, pvalue.command)?;
    }
    Ok(())
}

/// Makes the leader active, with a commander for each proposal, and asks for all of them.
fn lead<C: Payload, A: Allocator + Copy>(state: &mut State<C, A>) -> Result<Sends<C, A>, Memory>
    ensures leader { OnOk result (state_of state.new ≡ (leads {A = A} (state_of state.old)).after) }
    ensures sends { IfOk result (λ sends. sends ≡ (leads (state_of state.old)).sends) }
{
    let mut sends = Items::new(state.alloc);
    let mut commanders = BTreeMap::new(state.alloc);
    for (slot, command) in &state.proposals {
        start(
            state.cluster,
            state.ballot,
            *slot,
            command,
            &mut commanders,
            &mut sends,
        )?;
    }
    state.phase = Phase::Active(commanders);
    Ok(sends)
}

/// Adopts the pvalues of a majority of acceptors, and leads.
fn adopt<C: Payload, A: Allocator + Copy>(
    state: &mut State<C, A>,
    pvalues: Items<PValue<C>, A>,
) -> Result<Sends<C, A>, Memory>
    ensures leader { OnOk result (state_of state.new ≡ (adopts {A = A} (state_of state.old) pvalues).after) }
    ensures sends { IfOk result (λ sends. sends ≡ (adopts (state_of state.old) pvalues).sends) }
{
    let best = best_of(state.alloc, pvalues)?;
    replace(&mut state.proposals, best)?;
    lead(state)
}

/// Adopts the pvalues, if a scout for this ballot runs.
pub fn adopt_for<C: Payload, A: Allocator + Copy>(
    state: &mut State<C, A>,
    ballot: Ballot,
    pvalues: Items<PValue<C>, A>,
) -> Result<Sends<C, A>, Memory>
    ensures leader { OnOk result (state_of state.new ≡ (adopted {A = A} (state_of state.old) ballot pvalues).after) }
    ensures sends { IfOk result (λ sends. sends ≡ (adopted (state_of state.old) ballot pvalues).sends) }
    ensures not_asked { (phase_is_scouting (state_of state.old).phase && same_ballot ballot state.old.ballot) ≡ false → IsOk result }
{
    if let Phase::Scouting(_) = &state.phase {
        if ballot == state.ballot {
            return adopt(state, pvalues);
        }
    }
    Ok(Items::new(state.alloc))
}

/// Hears a promise.
pub fn hear_promise<C: Payload, A: Allocator + Copy>(
    state: &mut State<C, A>,
    from: NodeId,
    promise: Promise<C, A>,
) -> Result<Sends<C, A>, Memory>
    ensures leader { OnOk result (state_of state.new ≡ (hears_promise {A = A} C.equal (state_of state.old) from promise).after) }
    ensures sends { IfOk result (λ sends. sends ≡ (hears_promise C.equal (state_of state.old) from promise).sends) }
    ensures uncounted { counts_in C.equal from promise (state_of state.old).phase ≡ false → IsOk result }
{
    let Phase::Scouting(scout) = &mut state.phase else {
        return Ok(Items::new(state.alloc));
    };
    match scout.hear(from, promise)? {
        Progress::Adopted(pvalues) => adopt(state, pvalues),
        Progress::Preempted(ballot) => {
            preempt(state, ballot);
            Ok(Items::new(state.alloc))
        }
        Progress::Waiting | Progress::Stale => Ok(Items::new(state.alloc)),
    }
}
