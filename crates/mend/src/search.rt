//! Looks for whole records, and takes what they have.
ghost use Rattle.std.specs.Prelude.{◌≡◌, ◌+◌, ◌-◌, ◌<◌, ◌≤◌, length, drop, IfOk, OnOk};
ghost use Rattle.records.specs.Reading as reading;
ghost use Rattle.mend.specs.Taking.{AreTaken};
ghost use Rattle.mend.specs.Finding.{IsStep, found_from, missed_from, missed_in};

use crate::head::Head;
use crate::place::FRAME;
use crate::taking::take_record;
use crate::whole::record_at;
use ballot::Memory;
use maildrop::Kept;
use std::alloc::Global;

/// Bytes in which no whole record stands.
#[derive(Clone, Copy, Debug, PartialEq, Eq)]
pub struct Gap {
    /// The first of them.
    pub at: u64,
    /// How many they are.
    pub bytes: u64,
}

/// What a search for whole records has found.
#[derive(Drop)]
pub struct Findings {
    /// How many whole records there are. In a file of batches they are batches.
    pub records: u64,
    /// How many bytes there are in which no whole record stands, or one of which not all was taken.
    pub dropped: usize,
    /// The bytes in which no whole record stands.
    pub gaps: Vec<Gap>,
    /// How many records there are of which not all was taken, though they are whole.
    pub refused: u64,
}

/// Adds the byte at this place to the gaps.
fn add_gap(gaps: &mut Vec<Gap>, at: u64) -> Result<(), Memory> {
    match gaps.last_mut() {
        Some(gap) if gap.at.saturating_add(gap.bytes) == at => {
            gap.bytes = gap.bytes.saturating_add(1);
            Ok(())
        }
        _ => {
            gaps.push(Gap { at, bytes: 1 })?;
            Ok(())
        }
    }
}

/// Takes the record at the front of what is left of a file of this size, or passes over one byte. Returns what is left then.
fn step<'a>(
    alloc: Global,
    head: &Head,
    size: usize,
    rest: &'a [u8],
    kept: &mut Kept,
    findings: &mut Findings,
) -> Result<&'a [u8], Memory>
    requires within { length rest.now ≤ size }
    requires few { findings.old.dropped + length rest.now ≤ size }
    requires some { 0 < length rest.now }
    ensures step { IfOk result (λ others. IsStep head.now.is_batched (reading.record_at head.now.salt (size - length rest.now) rest.now) rest.now others.now kept.old kept.new) }
    ensures dropped { IfOk result (λ others. findings.old.dropped + missed_in (reading.record_at head.now.salt (size - length rest.now) rest.now) ≤ findings.new.dropped) }
    ensures few { IfOk result (λ others. findings.new.dropped + length others.now ≤ findings.old.dropped + length rest.now) }
{
    let place = size - rest.len();
    let Some((payload, others)) = record_at(head.salt, place as u64, rest) else {
        add_gap(&mut findings.gaps, place as u64)?;
        findings.dropped += 1;
        return Ok(rest.split_at(1).1);
    };
    findings.records = findings.records.saturating_add(1);
    if !take_record(alloc, head.is_batched, payload, kept)? {
        findings.refused = findings.refused.saturating_add(1);
        findings.dropped += FRAME + payload.len();
    }
    Ok(others)
}

/// Looks for whole records from this place of a file on, byte by byte where none stands, and takes what they have, one after
/// another, as far as it can come. What has come before is kept already.
pub fn salvage(
    alloc: Global,
    head: &Head,
    bytes: &[u8],
    from: usize,
    kept: &mut Kept,
) -> Result<Findings, Memory>
    requires { from ≤ length bytes.now }

    // All of them are taken, and nothing else.
    ensures taken { OnOk result (AreTaken head.now.is_batched (found_from head.now.salt from bytes.now) kept.old kept.new) }

    // No byte is left out in which none stands.
    ensures dropped { IfOk result (λ findings. missed_from head.now.salt from bytes.now ≤ findings.dropped) }
    ensures few { IfOk result (λ findings. findings.dropped ≤ length bytes.now - from) }
{
    let (_, mut rest) = bytes.split_at(from);
    let mut findings = Findings {
        records: 0,
        dropped: 0,
        gaps: Vec::new(alloc),
        refused: 0,
    };
    for _ in 0..bytes.len() {
        if rest.is_empty() {
            break;
        }
        rest = step(alloc, head, bytes.len(), rest, kept, &mut findings)?;
    }
    Ok(findings)
}
