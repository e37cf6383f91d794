//! What a leader does at each event but an adoption.
ghost use Rattle.std.specs.Prelude.{◌≡◌, [], ◌++◌, Some, false, IsSome, IsOk, OnOk, IfOk};
ghost use Rattle.ballot.specs.declared.message.Message.TheVariants.{P2a};
ghost use Rattle.ballot.specs.Sends.{to_all};
ghost use Rattle.proposer.specs.Commanders.{new_commander};
ghost use Rattle.ballot.specs.Slots.{at_slot, with_slot};
ghost use Rattle.leader.specs.Leaders.{phase_is_passive, proposed, campaigned, yields, hears_vote, leader_ticks};
ghost use Rattle.leader.specs.Parts.{decides_in, has_to_ask, p2as_again, after_vote, verdict_on, decision};
ghost use Rattle.leader.specs.States.{state_of};

use crate::state::{Commanders, Phase, State};
use ballot::{Ballot, Cluster, Items, Memory, Message, NodeId, PValue, Payload, Sends, Slot, Vote};
use proposer::{Commander, Scout, Verdict};
use std::alloc::Allocator;

/// Asks the acceptors to accept the command in the slot.
pub fn ask<C: Payload, A: Allocator + Copy>(
    cluster: Cluster,
    ballot: Ballot,
    slot: Slot,
    command: &C,
    sends: &mut Sends<C, A>,
) -> Result<(), Memory>
    ensures { OnOk result (sends.new ≡ sends.old ++ to_all cluster (P2a (record { ballot = ballot; slot = slot; command = command.now }))) }
{
    let pvalue = PValue {
        ballot,
        slot,
        command: command.copy()?,
    };
    sends.broadcast(cluster, Message::P2a(pvalue))
}

/// Starts a commander for the command in the slot, and asks for it.
pub fn start<C: Payload, A: Allocator + Copy>(
    cluster: Cluster,
    ballot: Ballot,
    slot: Slot,
    command: &C,
    commanders: &mut Commanders<A>,
    sends: &mut Sends<C, A>,
) -> Result<(), Memory>
    ensures commanders { OnOk result (commanders.new.entries ≡ with_slot slot (record { size = cluster; state = Some (new_commander ballot slot) }) commanders.old.entries) }
    ensures sends { OnOk result (sends.new ≡ sends.old ++ to_all cluster (P2a (record { ballot = ballot; slot = slot; command = command.now }))) }
{
    let commander = Commander::start(cluster, ballot, slot);
    let _ = commanders.insert(slot, commander)?;
    ask(cluster, ballot, slot, command, sends)
}

/// Keeps the command as the slot's proposal, if it has none, and asks for it, if the leader is
/// active.
pub fn propose<C: Payload, A: Allocator + Copy>(
    state: &mut State<C, A>,
    slot: Slot,
    command: C,
) -> Result<Sends<C, A>, Memory>
    ensures leader { OnOk result (state_of state.new ≡ (proposed {A = A} (state_of state.old) slot command).after) }
    ensures sends { IfOk result (λ sends. sends ≡ (proposed (state_of state.old) slot command).sends) }
    ensures taken { IsSome (at_slot slot state.old.proposals.entries) → IsOk result }
{
    let mut sends = Items::new(state.alloc);
    if state.proposals.contains_key(&slot) {
        return Ok(sends);
    }
    if let Phase::Active(commanders) = &mut state.phase {
        let (cluster, ballot) = (state.cluster, state.ballot);
        start(cluster, ballot, slot, &command, commanders, &mut sends)?;
        let _ = state.proposals.insert(slot, command)?;
        return Ok(sends);
    }
    let _ = state.proposals.insert(slot, command)?;
    Ok(sends)
}

/// Starts a scout, if the leader is passive.
pub fn campaign<C: Payload, A: Allocator + Copy>(
    state: &mut State<C, A>,
) -> Result<Sends<C, A>, Memory>
    ensures leader { OnOk result (state_of state.new ≡ (campaigned {A = A} (state_of state.old)).after) }
    ensures sends { IfOk result (λ sends. sends ≡ (campaigned (state_of state.old)).sends) }
    ensures not_passive { phase_is_passive (state_of state.old).phase ≡ false → IsOk result }
{
    let mut sends = Items::new(state.alloc);
    if let Phase::Passive = &state.phase {
        state.phase = Phase::Scouting(Scout::start(state.alloc, state.cluster, state.ballot));
        sends.broadcast(state.cluster, Message::P1a(state.ballot))?;
    }
    Ok(sends)
}

/// Yields to a ballot, if it is higher: the leader is passive, and its next ballot is above it.
pub fn preempt<C: Payload, A: Allocator + Copy>(state: &mut State<C, A>, ballot: Ballot)
    ensures { state_of state.new ≡ yields (state_of state.old) ballot }
{
    if ballot <= state.ballot {
        return;
    }
    if let Phase::Over = &state.phase {
        return;
    }
    match Ballot::next(ballot, state.me) {
        Some(next) => {
            state.ballot = next;
            state.phase = Phase::Passive;
        }
        None => state.phase = Phase::Over,
    }
}

/// Hands a vote to the commander of its slot, if one waits there.
fn weigh<A: Allocator + Copy>(commanders: &mut Commanders<A>, from: NodeId, vote: Vote) -> Verdict
    ensures commanders { commanders.new.entries ≡ after_vote commanders.old.entries from vote (at_slot vote.slot commanders.old.entries) }
    ensures verdict { result ≡ verdict_on (at_slot vote.slot commanders.old.entries) from vote }
{
    match commanders.get_mut(&vote.slot) {
        Some(commander) => commander.hear(from, vote),
        None => Verdict::Stale,
    }
}

/// Hears a vote. A decision goes to all nodes.
pub fn hear_vote<C: Payload, A: Allocator + Copy>(
    state: &mut State<C, A>,
    from: NodeId,
    vote: Vote,
) -> Result<Sends<C, A>, Memory>
    ensures leader { OnOk result (state_of state.new ≡ (hears_vote {A = A} (state_of state.old) from vote).after) }
    ensures sends { IfOk result (λ sends. sends ≡ (hears_vote (state_of state.old) from vote).sends) }
    ensures undecided { decides_in from vote (state_of state.old).phase ≡ false → IsOk result }
{
    let Phase::Active(commanders) = &mut state.phase else {
        return Ok(Items::new(state.alloc));
    };
    let slot = vote.slot;
    match weigh(commanders, from, vote) {
        Verdict::Decided => {
            let _ = commanders.remove(&slot);
            tell(state, slot)
        }
        Verdict::Preempted(ballot) => {
            preempt(state, ballot);
            Ok(Items::new(state.alloc))
        }
        Verdict::Waiting | Verdict::Stale => Ok(Items::new(state.alloc)),
    }
}

/// Tells all nodes that the proposal of the slot is decided.
fn tell<C: Payload, A: Allocator + Copy>(
    state: &State<C, A>,
    slot: Slot,
) -> Result<Sends<C, A>, Memory>
    ensures { IfOk result (λ sends. sends ≡ decision (state_of state.now) slot (at_slot slot state.now.proposals.entries)) }
{
    let mut sends = Items::new(state.alloc);
    if let Some(command) = state.proposals.get(&slot) {
        sends.broadcast(state.cluster, Message::Decision(slot, command.copy()?))?;
    }
    Ok(sends)
}

/// Sends again what the scout or the commanders ask.
pub fn tick<C: Payload, A: Allocator + Copy>(state: &State<C, A>) -> Result<Sends<C, A>, Memory>
    ensures sends { IfOk result (λ sends. sends ≡ (leader_ticks (state_of state.now)).sends) }
    ensures nothing_to_ask { has_to_ask (state_of state.now).phase ≡ false → IsOk result }
{
    match &state.phase {
        Phase::Scouting(_) => {
            let mut sends = Items::new(state.alloc);
            sends.broadcast(state.cluster, Message::P1a(state.ballot))?;
            Ok(sends)
        }
        Phase::Active(commanders) => ask_again(state, commanders),
        Phase::Passive | Phase::Over => Ok(Items::new(state.alloc)),
    }
}

/// Asks again for the proposal of each commander's slot.
fn ask_again<C: Payload, A: Allocator + Copy>(
    state: &State<C, A>,
    commanders: &Commanders<A>,
) -> Result<Sends<C, A>, Memory>
    ensures sends { IfOk result (λ sends. sends ≡ p2as_again (state_of state.now) commanders.now.entries) }
    ensures none { commanders.now.entries ≡ [] → IsOk result }
{
    let mut sends = Items::new(state.alloc);
    for (slot, _commander) in commanders {
        if let Some(command) = state.proposals.get(slot) {
            ask(state.cluster, state.ballot, *slot, command, &mut sends)?;
        }
    }
    Ok(sends)
}
