//! The Mails and Breaks of a script, until their outcomes are written.
ghost use Rattle.std.specs.Prelude.{◌≡◌, ◌≤◌, ◌<◌, ℕ, List, [], ◌∷◌, ◌++◌, length, replicate, slice_get, Some, IfNone, IfOk, IfSome, OnOk, vec_len, vec_capacity};
ghost use Rattle.std.specs.declared.alloc.Global.{Global};
ghost use Rattle.maildrop.specs.CommandId.{CommandId};
ghost use Rattle.simulator.specs.Following.{IsCurrent, IsFollowed, IsHeard};
ghost use Rattle.simulator.specs.Outcomes.{outcome_told, outcomes_told};
ghost use Rattle.simulator.specs.Told.{IsWritten};
ghost use Rattle.world.specs.Waiting.{MayHave, NoneMay, WatchesBut, IsWatched, only_at};

use crate::report::Report;
use ballot::{LAST_NODE, Memory, NodeId};
use maildrop::CommandId;
use std::alloc::Global;
use world::{Waiting, World};

/// The Mails and Breaks that a service was given, in order, with an index of those whose outcomes may be there. An outcome is
/// there once its node has performed the command, so only what nodes have newly performed is looked at.
#[derive(Drop)]
pub(crate) struct Operations {
    /// The commands that the Mails and Breaks have become.
    pub ids: Vec<CommandId>,
    /// Each awaits its outcome at its place among them.
    pub waiting: Waiting,
}

impl Operations {
    /// None, of a service of so many nodes.
    pub(crate) fn new(alloc: Global, nodes: usize) -> Result<Self, Memory>
        ensures ids { IfOk result (λ operations. operations.ids.items ≡ []) }
        ensures heard { IfOk result (λ operations. operations.waiting.heard ≡ replicate nodes 0) }
    {
        Ok(Operations {
            ids: Vec::new(alloc),
            waiting: Waiting::new(alloc, nodes)?,
        })
    }

    /// One more, which its node hasn't performed yet. There is room for it.
    pub(crate) fn add(&mut self, id: CommandId)
        requires { vec_len self.old.ids < vec_capacity self.old.ids }
        ensures ids { self.new.ids.items ≡ self.old.ids.items ++ id ∷ [] }
        ensures own { IsWatched self.new.waiting (length self.old.ids.items) id }
        ensures others { WatchesBut (only_at (length self.old.ids.items)) self.old.waiting self.new.waiting }
    {
        self.waiting.watch(self.ids.len(), id);
        self.ids.push_reserved(id);
    }
}

/// Looks at what the node of this number has performed since that was looked at last.
fn hear_one(world: &World, waiting: &mut Waiting, number: u8)
    ensures followed { (ids : List CommandId) → IsFollowed world.now.world ids waiting.old → IsFollowed world.now.world ids waiting.new }
    ensures own { (ids : List CommandId) → IsFollowed world.now.world ids waiting.old → 1 ≤ number → number ≤ 9 → IsHeard world.now.world ids waiting.new number }
    ensures others { (place : ℕ) → MayHave waiting.old place → MayHave waiting.new place }
{
    let Some(node) = NodeId::new(number) else {
        return;
    };
    if let Some(performed) = world.performed(node) {
        waiting.hear(usize::from(number) - 1, performed);
    }
}

/// Looks at what nodes have performed since that was looked at last.
fn hear(world: &World, waiting: &mut Waiting)
    ensures followed { (ids : List CommandId) → IsFollowed world.now.world ids waiting.old → IsFollowed world.now.world ids waiting.new }
    ensures current { (ids : List CommandId) → IsFollowed world.now.world ids waiting.old → IsCurrent world.now.world ids waiting.new }
{
    for number in 1..=LAST_NODE {
        hear_one(world, waiting, number);
    }
}

/// The first place of one of these operations, from a place on, whose outcome may be there.
fn next(ids: &[CommandId], waiting: &Waiting, from: usize) -> Option<usize>
    ensures some { IfSome result (λ place. (from ≤ place) × (place < length ids.now) × NoneMay waiting.now from place) }
    ensures none { IfNone result (NoneMay waiting.now from (length ids.now)) }
{
    let place = waiting.next(from)?;
    if place < ids.len() { Some(place) } else { None }
}

/// Writes the outcome of the operation at this place, if it is there.
fn write_outcome(
    world: &mut World,
    waiting: &mut Waiting,
    place: usize,
    id: CommandId,
    report: &mut Report,
) -> Result<(), Memory>
    ensures written { OnOk result (IsWritten (outcome_told id world.old.world) world.new.world report.old report.new) }
    ensures service { world.new.world.service ≡ world.old.world.service }
    ensures crashed { world.new.crashed ≡ world.old.crashed }
    ensures followed { (ids : List CommandId) → slice_get ids place ≡ Some id → IsFollowed world.old.world ids waiting.old → IsFollowed world.new.world ids waiting.new }
    ensures current { (ids : List CommandId) → slice_get ids place ≡ Some id → IsFollowed world.old.world ids waiting.old → IsCurrent world.old.world ids waiting.old
        → IsCurrent world.new.world ids waiting.new }
{
    let (user, ticket) = id.get();
    let (node, _) = ticket.get();
    match world.take_outcome(node, user, ticket) {
        Some(outcome) => {
            waiting.remove(place);
            report.outcome(&user, ticket, &outcome)
        }
        None => Ok(()),
    }
}

/// Writes the outcomes that are there and weren't written, in the order in which the service was given the Mails and Breaks.
pub(crate) fn write_outcomes(
    world: &mut World,
    operations: &mut Operations,
    report: &mut Report,
) -> Result<(), Memory>
    requires { IsFollowed world.old.world operations.old.ids.items operations.old.waiting }
    ensures written { OnOk result (IsWritten (outcomes_told operations.old.ids.items world.old.world) world.new.world report.old report.new) }
    ensures service { world.new.world.service ≡ world.old.world.service }
    ensures crashed { world.new.crashed ≡ world.old.crashed }
    ensures followed { IsFollowed world.new.world operations.new.ids.items operations.new.waiting }
{
    hear(world, &mut operations.waiting);
    let mut place = 0;
    while let Some(at) = next(operations.ids.as_slice(), &operations.waiting, place) {
        let id = operations.ids[at];
        write_outcome(world, &mut operations.waiting, at, id, report)?;
        place = at + 1;
    }
    Ok(())
}
