//! Plays a case by `lone_run`, over a plain writer or one that gathers, or by `sim_run`: with a client that awaits each
//! reply, with one that doesn't, in pieces, and with faults of its reader and writer; a script also with reads that are
//! interrupted, and one with a line at fault with a full writer.

use crate::case::Case;
use crate::client::{Hasty, Interrupted, Patient};
use crate::run::{AT_ONCE, BYTE_BY_BYTE, Run, Taking, Wanted, run_case};
use std::alloc::{AllocError, Global};
use std::cell::RefCell;
use std::io::Read;

/// Up to so many bytes, a case is cut and broken at each place.
const SHORT: usize = 2_500;

/// Up to so many bytes, a case is played byte by byte.
const LONG: usize = 250_000;

/// How many bytes a case holds.
fn size_of(case: &Case) -> usize {
    let mbox = match &case.settings.mbox {
        None => 0,
        Some(mbox) => mbox.len(),
    };
    let dialogue = case.sent.len().saturating_add(case.wanted.len());
    dialogue.saturating_add(mbox)
}

fn wanted_of(case: &Case) -> Wanted<'_> {
    Wanted {
        status: case.status,
        told: case.told.as_slice(),
        replies: case.wanted.as_slice(),
        is_front: false,
        only: match &case.only {
            None => None,
            Some(only) => Some(only.as_slice()),
        },
    }
}

/// A client that sends all at once, or so many bytes a call.
fn hasty(case: &Case, most: usize) -> Hasty<'_> {
    Hasty {
        rest: case.sent.as_slice(),
        most,
        fails: false,
    }
}

/// How a run is not as wanted, with the way in which it was played.
fn played<R: Read>(
    alloc: Global,
    how: &str,
    case: &Case,
    reader: &mut R,
    taking: Taking,
    wanted: &Wanted<'_>,
) -> Result<Option<String>, AllocError> {
    let taken = RefCell::new(Vec::new(alloc));
    let run: Run<'_> = run_case(alloc, case, reader, &taken, taking);
    match run.difference(alloc, wanted)? {
        None => Ok(None),
        Some(difference) => Ok(Some(format!(in alloc; "{how}: {difference}")?)),
    }
}

/// What a run first does that is not wanted, of a client that awaits the replies to each line, but sends so many bytes of
/// the next one with it.
fn patiently(
    alloc: Global,
    case: &Case,
    at_once: Taking,
    ahead: usize,
) -> Result<Option<String>, AllocError> {
    let taken = RefCell::new(Vec::new(alloc));
    let mut reader = Patient {
        case,
        sent: 0,
        ahead,
        turns: case.turns.as_slice(),
        taken: &taken,
        desk: None,
    };
    let run = run_case(alloc, case, &mut reader, &taken, at_once);
    match run.difference(alloc, &wanted_of(case))? {
        None => Ok(None),
        Some(difference) => Ok(Some(format!(in alloc;
            "with a client that awaits each reply, {ahead} bytes ahead: {difference}"
        )?)),
    }
}

/// The first difference of the runs that cut or break what is sent at a place.
fn cut(alloc: Global, case: &Case, gathers: bool, at: usize) -> Result<Option<String>, AllocError> {
    let Some((front, back)) = case.sent.as_slice().split_at_checked(at) else {
        return Ok(None);
    };
    let whole = wanted_of(case);
    let found = played(
        alloc,
        "in two pieces",
        case,
        &mut front.chain(back),
        Taking { gathers, ..AT_ONCE },
        &whole,
    )?;
    if found.is_some() {
        return Ok(found);
    }
    // Only what was sent before the fault counts, and all of that.
    let before = case.turns.iter().filter(|turn| turn.sent <= at).last();
    let replies = before.map_or(0, |turn| turn.wanted);
    let mut reader = Hasty {
        rest: front,
        most: 1,
        fails: true,
    };
    let broken = Wanted {
        status: 1,
        told: b"maildropd: read failed\n",
        replies: case.wanted.as_slice(),
        is_front: true,
        only: None,
    };
    let taken = RefCell::new(Vec::new(alloc));
    let taking = Taking {
        gathers,
        ..BYTE_BY_BYTE
    };
    let run = run_case(alloc, case, &mut reader, &taken, taking);
    // A session that has closed reads no further.
    let is_closed = run.status == 0;
    let found = run.difference(alloc, if is_closed { &whole } else { &broken })?;
    match found {
        Some(difference) => Ok(Some(format!(in alloc; "with a read that fails: {difference}")?)),
        None if run.taken.try_borrow().map_or(0, |taken| taken.len()) < replies => {
            Ok(Some("a reply before a read that fails is missing".to_string(alloc)?))
        }
        None => Ok(None),
    }
}

/// The first difference of the runs whose writer takes less than all.
fn cramped(
    alloc: Global,
    case: &Case,
    gathers: bool,
    room: usize,
) -> Result<Option<String>, AllocError> {
    let Some(front) = case.wanted.get(..room) else {
        return Ok(None);
    };
    let wanted = Wanted {
        status: 1,
        told: b"maildropd: write failed\n",
        replies: front,
        is_front: false,
        only: None,
    };
    for fails in [false, true] {
        let taking = Taking {
            most: usize::MAX,
            room,
            fails,
            gathers,
        };
        let reader = &mut hasty(case, usize::MAX);
        let found = played(alloc, "with a full writer", case, reader, taking, &wanted)?;
        if found.is_some() {
            return Ok(found);
        }
    }
    Ok(None)
}

/// The first difference of the runs whose writer is full at each place.
fn cramped_anywhere(
    alloc: Global,
    case: &Case,
    gathers: bool,
) -> Result<Option<String>, AllocError> {
    for room in 0..case.wanted.len() {
        if let Some(found) = cramped(alloc, case, gathers, room)? {
            return Ok(Some(found));
        }
    }
    Ok(None)
}

/// The first difference of the runs that cut, break or cramp the session at each place.
fn torn(alloc: Global, case: &Case, gathers: bool) -> Result<Option<String>, AllocError> {
    for at in 0..case.sent.len() {
        if let Some(found) = cut(alloc, case, gathers, at)? {
            return Ok(Some(found));
        }
    }
    cramped_anywhere(alloc, case, gathers)
}

/// What the runs of a case first do that is not wanted, whether the replies are gathered or not.
fn difference_of(alloc: Global, case: &Case, gathers: bool) -> Result<Option<String>, AllocError> {
    let wanted = wanted_of(case);
    let at_once = Taking { gathers, ..AT_ONCE };
    let whole = &mut hasty(case, usize::MAX);
    if let Some(found) = played(alloc, "whole", case, whole, at_once, &wanted)? {
        return Ok(Some(found));
    }
    if case.status != 0 || case.only.is_some() {
        return Ok(None);
    }
    for ahead in 0..=1 {
        if let Some(found) = patiently(alloc, case, at_once, ahead)? {
            return Ok(Some(found));
        }
    }
    if size_of(case) > LONG {
        return Ok(None);
    }
    let bytes = &mut hasty(case, 1);
    let taking = Taking {
        gathers,
        ..BYTE_BY_BYTE
    };
    if let Some(found) = played(alloc, "byte by byte", case, bytes, taking, &wanted)? {
        return Ok(Some(found));
    }
    if size_of(case) > SHORT {
        return Ok(None);
    }
    torn(alloc, case, gathers)
}

/// What a run of a script does that is not wanted if each read is first interrupted.
fn interrupted(alloc: Global, case: &Case) -> Result<Option<String>, AllocError> {
    let mut reader = Interrupted {
        reader: hasty(case, 1),
        interrupts_next: true,
    };
    let wanted = wanted_of(case);
    played(
        alloc,
        "with interrupted reads",
        case,
        &mut reader,
        AT_ONCE,
        &wanted,
    )
}

/// What the runs that are for scripts alone first do that is not wanted: a write that fails comes before a line at fault.
fn script_difference(alloc: Global, case: &Case) -> Result<Option<String>, AllocError> {
    let found = interrupted(alloc, case)?;
    if found.is_some() || case.status == 0 || case.only.is_some() || size_of(case) > SHORT {
        return Ok(found);
    }
    cramped_anywhere(alloc, case, false)
}

/// What the runs of a case first do that is not wanted. A session is played once more with its replies gathered, and a
/// script in the ways that are for scripts alone.
pub fn difference(alloc: Global, case: &Case) -> Result<Option<String>, AllocError> {
    let found = difference_of(alloc, case, false)?;
    if found.is_some() {
        return Ok(found);
    }
    if case.is_script {
        return script_difference(alloc, case);
    }
    match difference_of(alloc, case, true)? {
        None => Ok(None),
        Some(found) => Ok(Some(format!(in alloc; "with its replies gathered, {found}")?)),
    }
}
