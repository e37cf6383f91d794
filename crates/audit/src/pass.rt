//! Placing inputs until none can be placed.
ghost use Rattle.std.specs.Prelude.{◌<◌, length, Bool, OnOk, IfOk};
ghost use Rattle.maildrop.specs.CommandId.{CommandId};
ghost use Rattle.audit.specs.Answered.{is_answered_by, AreAnswered};
ghost use Rattle.audit.specs.Findings.{IsFound};
ghost use Rattle.audit.specs.Placings.{IsPlaced, IsSettled, HasGone, HavePassed};

use crate::findings::Findings;
use crate::placing::{Placing, nothing_placed, place_next};
use ballot::Memory;
use node::NodeLog;
use session::Transcript;
use std::alloc::Allocator;

/// Places inputs of a log as far as it goes. Gives whether it placed any. After `Memory` nothing is said of the placing.
fn place_log<A: Allocator + Copy>(
    alloc: A,
    logs: &[NodeLog<A>],
    transcripts: &[Transcript<A>],
    findings: &Findings<A>,
    placing: &mut Placing<A>,
    answered: &mut Vec<usize, A>,
    node: usize,
) -> Result<bool, Memory>
    requires node { node < length logs.now }
    requires found { IsFound logs.now transcripts.now findings.now }
    requires placed { IsPlaced logs.now transcripts.now placing.old }
    requires answered { AreAnswered (is_answered_by logs.now placing.old.replays.items) transcripts.now answered.old.items }
    ensures placed { OnOk result (IsPlaced logs.now transcripts.now placing.new) }
    ensures answered { OnOk result (AreAnswered (is_answered_by logs.now placing.new.replays.items) transcripts.now answered.new.items) }
    ensures moved { IfOk result (HasGone logs.now transcripts.now node placing.old placing.new) }
{
    let mut moved = false;
    while place_next(alloc, logs, transcripts, findings, placing, answered, node)? {
        moved = true;
    }
    Ok(moved)
}

/// Places inputs of each log as far as it goes. Gives whether it placed any. After `Memory` nothing is said of the placing.
fn pass<A: Allocator + Copy>(
    alloc: A,
    logs: &[NodeLog<A>],
    transcripts: &[Transcript<A>],
    findings: &Findings<A>,
    placing: &mut Placing<A>,
    answered: &mut Vec<usize, A>,
) -> Result<bool, Memory>
    requires found { IsFound logs.now transcripts.now findings.now }
    requires placed { IsPlaced logs.now transcripts.now placing.old }
    requires answered { AreAnswered (is_answered_by logs.now placing.old.replays.items) transcripts.now answered.old.items }
    ensures placed { OnOk result (IsPlaced logs.now transcripts.now placing.new) }
    ensures answered { OnOk result (AreAnswered (is_answered_by logs.now placing.new.replays.items) transcripts.now answered.new.items) }
    ensures moved { IfOk result (HavePassed logs.now transcripts.now (length logs.now) placing.old placing.new) }
{
    let mut moved = false;
    for node in 0..logs.len() {
        moved |= place_log(alloc, logs, transcripts, findings, placing, answered, node)?;
    }
    Ok(moved)
}

/// Of each session no entry.
fn none_answered<A: Allocator + Copy>(
    alloc: A,
    transcripts: &[Transcript<A>],
) -> Result<Vec<usize, A>, Memory>
    ensures { IfOk result (λ answered. (test : CommandId → Bool) → AreAnswered test transcripts.now answered.items) }
{
    let mut answered = Vec::with_capacity(alloc, transcripts.len())?;
    for _ in 0..transcripts.len() {
        answered.push(0)?;
    }
    Ok(answered)
}

/// Places inputs one at a time until none can be placed. A pass over the logs tests one input more of each log than it
/// places. A test costs some look-ups. Only that of an arrival may compare it with each message that was sent so far, and
/// so again each time that it can't come yet: if the last message with its sender, addressee and topic is another one.
pub(crate) fn place_all<A: Allocator + Copy>(
    alloc: A,
    logs: &[NodeLog<A>],
    transcripts: &[Transcript<A>],
    findings: &Findings<A>,
) -> Result<Placing<A>, Memory>
    requires { IsFound logs.now transcripts.now findings.now }
    ensures { IfOk result (IsSettled logs.now transcripts.now) }
{
    let mut placing = nothing_placed(alloc, logs)?;
    let mut answered = none_answered(alloc, transcripts)?;
    while pass(
        alloc,
        logs,
        transcripts,
        findings,
        &mut placing,
        &mut answered,
    )? {}
    Ok(placing)
}
