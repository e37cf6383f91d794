//! Placing one input.
ghost use Rattle.std.specs.Prelude.{◌≡◌, ◌<◌, length, Some, true, OnOk, IfOk, [], slice_get};
ghost use Rattle.audit.specs.Answered.{is_answered_by, AreAnswered};
ghost use Rattle.audit.specs.Findings.{IsFound};
ghost use Rattle.audit.specs.Nodes.{Replayed};
ghost use Rattle.audit.specs.Placings.{AreBegun, IsPlaced, HasTaken, IsMoved};
ghost use Rattle.audit.specs.Replays as spec;

use crate::findings::Findings;
use crate::home::place_of;
use crate::placement::{Placement, Source};
use crate::replay::Replay;
use crate::sent::Sent;
use crate::sources::next_source;
use ballot::Memory;
use node::{Input, NodeLog};
use session::Transcript;
use std::alloc::{Allocator, Global};

/// Inputs that are placed one at a time, each when it can come.
#[derive(Drop)]
pub(crate) struct Placing<A: Allocator + Copy = Global> {
    /// In the order in which they were placed.
    pub(crate) placements: Vec<Placement, A>,
    /// One for each log, at its place.
    pub(crate) replays: Vec<Replay<A>, A>,
    /// What was sent meanwhile.
    pub(crate) sent: Sent<A>,
}

/// The replays of logs before any input. Only the first log of a node has one.
fn replays_of<A: Allocator + Copy>(
    alloc: A,
    logs: &[NodeLog<A>],
) -> Result<Vec<Replay<A>, A>, Memory>
    ensures { IfOk result (λ replays. AreBegun logs.now replays.items) }
{
    let mut replays = Vec::with_capacity(alloc, logs.len())?;
    for place in 0..logs.len() {
        let log = &logs[place];
        let first = place_of(logs, log.opening.me) == place;
        let replay = Replay::new(alloc, log, first)?;
        replays.push(replay)?;
    }
    Ok(replays)
}

/// Nothing is placed.
pub(crate) fn nothing_placed<A: Allocator + Copy>(
    alloc: A,
    logs: &[NodeLog<A>],
) -> Result<Placing<A>, Memory>
    ensures replays { IfOk result (λ placing. AreBegun logs.now placing.replays.items) }
    ensures sent { IfOk result (λ placing. placing.sent ≡ []) }
    ensures placements { IfOk result (λ placing. placing.placements.items ≡ []) }
{
    let replays = replays_of(alloc, logs)?;
    Ok(Placing {
        placements: Vec::new(alloc),
        replays,
        sent: Sent::new(alloc),
    })
}

/// A log's replay takes its next input. After `Memory` nothing is said of the placing.
fn place<A: Allocator + Copy>(
    alloc: A,
    placing: &mut Placing<A>,
    node: usize,
    input: &Input<A>,
    source: Source,
) -> Result<(), Memory>
    requires node { node < length placing.old.replays.items }
    requires runs { (r : Replayed A) → slice_get placing.old.replays.items node ≡ Some r → spec.runs r.state ≡ true }
    ensures { OnOk result (HasTaken placing.old placing.new node input.now source) }
{
    let sends = placing.replays[node].take(alloc, input)?;
    placing.sent.add(sends)?;
    placing.placements.push(Placement { node, source })?;
    Ok(())
}

/// Places the next input of a log, if it can come. Gives whether it did. After `Memory` nothing is said of the placing.
pub(crate) fn place_next<A: Allocator + Copy>(
    alloc: A,
    logs: &[NodeLog<A>],
    transcripts: &[Transcript<A>],
    findings: &Findings<A>,
    placing: &mut Placing<A>,
    answered: &mut Vec<usize, A>,
    node: usize,
) -> Result<bool, Memory>
    requires node { node < length logs.now }
    requires found { IsFound logs.now transcripts.now findings.now }
    requires placed { IsPlaced logs.now transcripts.now placing.old }
    requires answered { AreAnswered (is_answered_by logs.now placing.old.replays.items) transcripts.now answered.old.items }
    ensures placed { OnOk result (IsPlaced logs.now transcripts.now placing.new) }
    ensures answered { OnOk result (AreAnswered (is_answered_by logs.now placing.new.replays.items) transcripts.now answered.new.items) }
    ensures moved { IfOk result (IsMoved logs.now transcripts.now node placing.old placing.new) }
{
    let Some(source) = next_source(logs, transcripts, findings, placing, answered, node) else {
        return Ok(false);
    };
    let input = &logs[node].inputs.get()[placing.replays[node].placed()];
    place(alloc, placing, node, input, source)?;
    Ok(true)
}
