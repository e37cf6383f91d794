//! Plays a case by `serve`, with others who come to the session's maildrop meanwhile.

use crate::case::Case;
use crate::client::Patient;
use crate::desk::SharedDesk;
use crate::output::Output;
use crate::run::difference_of_bytes;
use apop::{Accounts, Method, stamp};
use maildrop::{Limits, Name, Op, Outcome};
use server::LoneDesk;
use session::{OpenGate, Transcript, serve};
use std::alloc::Global;
use std::cell::RefCell;
use std::test::Fail;

/// Serves the session to a client that awaits each reply.
fn serve_case(
    alloc: Global,
    case: &Case,
    user: Name,
    desk: &RefCell<LoneDesk>,
    taken: &RefCell<Vec<u8>>,
) -> Result<Transcript, Fail> {
    let settings = &case.settings;
    let accounts = Accounts::single(alloc, user, Method::Pass, settings.secret.as_slice())?.ok_or(
        "no account",
    )?;
    let stamp = stamp(settings.nonce.as_slice(), settings.host.as_slice()).ok_or("no stamp")?;
    let mut reader = Patient {
        case,
        sent: 0,
        ahead: 0,
        turns: case.turns.as_slice(),
        taken,
        desk: Some((desk, user)),
    };
    let mut writer = Output {
        taken,
        most: usize::MAX,
        room: usize::MAX,
        fails: false,
    };
    let mut desk = SharedDesk { desk };
    Ok(serve(
        alloc,
        &mut reader,
        &mut writer,
        &accounts,
        stamp,
        &mut desk,
        &mut OpenGate,
    ))
}

/// The unique ids that a session gets that comes afterwards, or that the lock is held.
fn left_by(alloc: Global, desk: LoneDesk, user: Name) -> Result<String, Fail> {
    let mut desk = desk;
    let (_, outcome) = desk.perform(user, Op::Take).ok_or("no ticket")?;
    let Outcome::Taken(taken) = &outcome else {
        return Ok("locked".to_string(alloc)?);
    };
    let mut left = String::new(alloc);
    for message in taken.get() {
        let uid = message.uid;
        if !left.is_empty() {
            left.push(' ')?;
        }
        left.push_str(format!(in alloc; "{uid}")?.as_str())?;
    }
    Ok(left)
}

/// What the run of a case does that is not wanted.
pub fn difference(alloc: Global, case: &Case) -> Result<Option<String>, Fail> {
    if case.wants_a_run() {
        Err("a case with others has no status, no fault and no mailbox file")?;
    }
    let user = Name::new(case.settings.user.as_slice()).ok_or("no name")?;
    let limits = Limits::new(9, 1_000, 9).ok_or("no limits")?;
    let desk = RefCell::new(LoneDesk::new(alloc, user, limits)?);
    let taken = RefCell::new(Vec::new(alloc));
    drop(serve_case(alloc, case, user, &desk, &taken)?);
    let written = taken.into_inner();
    let found = difference_of_bytes(
        alloc,
        "the output",
        written.as_slice(),
        case.wanted.as_slice(),
    )?;
    if found.is_some() {
        return Ok(found);
    }
    let left = left_by(alloc, desk.into_inner(), user)?;
    let Some(wanted) = &case.left else {
        return Ok(None);
    };
    Ok(difference_of_bytes(alloc, "what is left", left.as_bytes(), wanted.as_bytes())?)
}
