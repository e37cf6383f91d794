//! What sessions do, turn by turn.
ghost use Rattle.std.specs.Prelude.{◌≡◌, ◌≤◌, ◌++◌, ◌∷◌, ℕ, List, suc, length, drop, IfOk, OnOk};
ghost use Rattle.pop3_wire.specs.declared.line.Line.{Line};
ghost use Rattle.audit.specs.Events.{kinds as kinds_in};
ghost use Rattle.audit.specs.Turns.{hangups, turns_from};
ghost use Rattle.audit.specs.Turns as spec;
ghost use Rattle.audit.specs.Speakers.{asked_kind};

use crate::kind::Kind;
use ballot::Memory;
use session::{Asked, Transcript};
use std::alloc::Allocator;

/// Whether the entry is of the line of this number.
fn is_of_line<A: Allocator + Copy>(entry: &Asked<A>, number: usize) -> bool
    ensures { result ≡ spec.is_of_line number entry.now.line }
{
    match entry.line {
        Some(line) => number as u64 == line,
        None => false,
    }
}

/// Adds a turn that asks, if the entry has a ticket. After `Memory` nothing has changed.
fn push_asking<A: Allocator + Copy>(
    kinds: &mut Vec<Kind, A>,
    kind: Kind,
    entry: &Asked<A>,
) -> Result<(), Memory>
    ensures { OnOk result (kinds.new.items ≡ kinds.old.items ++ asked_kind kind entry.now.ticket) }
{
    if entry.ticket.is_some() {
        kinds.push(kind)?;
    }
    Ok(())
}

/// Adds the turn of the line of this number, if it has one, and gives the number of the next entry.
fn push_line<A: Allocator + Copy>(
    kinds: &mut Vec<Kind, A>,
    number: usize,
    entries: &[Asked<A>],
    next: usize,
) -> Result<usize, Memory>
    requires { next ≤ length entries.now }
    ensures within { IfOk result (λ after. after ≤ length entries.now) }
    ensures turn { IfOk result (λ after. (line : Line) (lines : List Line) → kinds.old.items ++ kinds_in (turns_from number (line ∷ lines) (drop next entries.now)) ≡ kinds.new.items ++ kinds_in (turns_from (suc number) lines (drop after entries.now))) }
{
    if next < entries.len() {
        let entry = &entries[next];
        if is_of_line(entry, number) {
            push_asking(kinds, Kind::AskingLine, entry)?;
            return Ok(next + 1);
        }
    }
    kinds.push(Kind::PlainLine)?;
    Ok(next)
}

/// Adds the turns of all lines, and gives the number of the next entry.
fn push_lines<A: Allocator + Copy>(
    kinds: &mut Vec<Kind, A>,
    transcript: &Transcript<A>,
) -> Result<usize, Memory>
    ensures within { IfOk result (λ after. after ≤ length transcript.now.asked) }
    ensures turns { IfOk result (λ after. kinds.old.items ++ kinds_in (turns_from 0 transcript.now.lines transcript.now.asked) ≡ kinds.new.items ++ kinds_in (hangups (drop after transcript.now.asked))) }
{
    let mut next = 0;
    for number in 0..transcript.lines.len() {
        next = push_line(kinds, number, transcript.asked.get(), next)?;
    }
    Ok(next)
}

/// Adds the turns of entries that no line is left for, from this number on.
fn push_hangups<A: Allocator + Copy>(
    kinds: &mut Vec<Kind, A>,
    entries: &[Asked<A>],
    next: usize,
) -> Result<(), Memory>
    requires { next ≤ length entries.now }
    ensures { OnOk result (kinds.new.items ≡ kinds.old.items ++ kinds_in (hangups (drop next entries.now))) }
{
    for number in next..entries.len() {
        push_asking(kinds, Kind::Hangup, &entries[number])?;
    }
    Ok(())
}

/// What a session does in its turns, the first first.
pub(crate) fn kinds_of<A: Allocator + Copy>(
    alloc: A,
    transcript: &Transcript<A>,
) -> Result<Vec<Kind, A>, Memory>
    ensures { IfOk result (λ kinds. kinds.items ≡ kinds_in (turns_from 0 transcript.now.lines transcript.now.asked)) }
{
    let mut kinds = Vec::new(alloc);
    let next = push_lines(&mut kinds, transcript)?;
    push_hangups(&mut kinds, transcript.asked.get(), next)?;
    Ok(kinds)
}
