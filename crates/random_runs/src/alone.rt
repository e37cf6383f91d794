//! What a server says that has a user's maildrop alone.

use crate::config::{ACCOUNTS, accounts, limits};
use crate::desk::serve_again;
use crate::happening::session_at;
use crate::play::{Play, Talk};
use ballot::Slot;
use maildrop::{Office, SharedCommand, are_different};
use session::Asked;
use std::alloc::Global;
use std::test::Fail;

/// Performs the decided commands in order. What came of those that the talk's session asked for.
fn answers(
    alloc: Global,
    office: &mut Office,
    decided: &[(Slot, SharedCommand)],
    talk: &Talk,
) -> Result<Vec<Asked>, Fail> {
    let mut entries = Vec::new(alloc);
    for (_, command) in decided {
        let command = command.get();
        let outcome = office.apply(command)?;
        if command.user == talk.name && talk.tickets.get(entries.len()) == Some(&command.ticket) {
            entries.push(Asked {
                line: None,
                name: command.user,
                op: command.op.copy()?,
                ticket: Some(command.ticket),
                outcome: Some(outcome),
            })?;
        }
    }
    Ok(entries)
}

/// What a server says to the client that performs the decided commands in order.
fn replies(alloc: Global, decided: &[(Slot, SharedCommand)], talk: &Talk) -> Result<Vec<u8>, Fail> {
    let limits = limits()?;
    let accounts = accounts(alloc, ACCOUNTS)?;
    let names = accounts.names();
    if !are_different(names) {
        Err("a name stands twice")?;
    }
    let mut office = Office::new(alloc, names, limits)?;
    let entries = answers(alloc, &mut office, decided, talk)?;
    Ok(serve_again(alloc, talk.user, talk.said.as_slice(), entries.as_slice())?.told)
}

/// What is wrong with what the clients were told, if something is.
pub fn wrong_replies(alloc: Global, play: &Play) -> Result<Option<&'static str>, Fail> {
    for (place, talk) in play.talks.iter().enumerate() {
        let Some(told) = play.service.world.replies(session_at(place)) else {
            if talk.node.is_some() {
                return Ok(Some("a session is gone"));
            }
            continue;
        };
        let said = replies(alloc, play.service.longest(), talk)?;
        if !said.as_slice().starts_with(told) {
            return Ok(Some("a session is told something else"));
        }
    }
    Ok(None)
}
