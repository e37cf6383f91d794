//! What logs and transcripts tell by themselves, before any input is placed.
ghost use Rattle.std.specs.Prelude.{IfOk};
ghost use Rattle.audit.specs.Checks.{AreAllNumbered};
ghost use Rattle.audit.specs.Findings.{IsFound};

use crate::command_index::{CommandIndex, index_of};
use crate::numbers::{Numbers, numbers_of};
use ballot::Memory;
use node::NodeLog;
use session::Transcript;
use std::alloc::{Allocator, Global};

/// What logs and transcripts tell by themselves.
#[derive(Drop)]
pub(crate) struct Findings<A: Allocator + Copy = Global> {
    pub(crate) names: CommandIndex<A>,
    /// The tickets of each log.
    pub(crate) numbers: Vec<Numbers<A>, A>,
}

/// The tickets of all logs.
fn number_all<A: Allocator + Copy>(
    alloc: A,
    logs: &[NodeLog<A>],
) -> Result<Vec<Numbers<A>, A>, Memory>
    ensures { IfOk result (λ numbers. AreAllNumbered logs.now numbers.items) }
{
    let mut numbers = Vec::with_capacity(alloc, logs.len())?;
    for place in 0..logs.len() {
        let own = numbers_of(alloc, &logs[place])?;
        numbers.push(own)?;
    }
    Ok(numbers)
}

/// What these logs and transcripts tell.
pub(crate) fn findings_of<A: Allocator + Copy>(
    alloc: A,
    logs: &[NodeLog<A>],
    transcripts: &[Transcript<A>],
) -> Result<Findings<A>, Memory>
    ensures { IfOk result (IsFound logs.now transcripts.now) }
{
    let names = index_of(alloc, transcripts)?;
    let numbers = number_all(alloc, logs)?;
    Ok(Findings { names, numbers })
}
