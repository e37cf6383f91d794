//! A session that is served over a desk that gives what is known beforehand.

use crate::config::{ACCOUNTS, accounts, greeting_stamp, words_of};
use maildrop::{Name, Op, Outcome, Ticket};
use session::{Asked, Desk, DeskStopped, OpenGate, Transcript, serve};
use std::alloc::Global;
use std::test::Fail;

/// Gives what these entries say, one after another, whatever it is asked. After the last it has stopped.
#[derive(Drop)]
struct Known<'e> {
    entries: &'e [Asked],
}

impl Desk<Op, Outcome> for Known<'_> {
    ghost gives = { λ _ _ _. Unit {0} };

    fn ask(&mut self, name: Name, op: Op) -> Result<(Ticket, Outcome), DeskStopped> {
        let outcome = match self.entries.first() {
            Some(
                Asked {
                    outcome: Some(outcome),
                    ..
                },
            ) => outcome.copy().ok(),
            _ => None,
        };
        let ticket = self.tell(name, op)?;
        match outcome {
            Some(outcome) => Ok((ticket, outcome)),
            None => Err(DeskStopped {
                ticket: Some(ticket),
            }),
        }
    }

    fn tell(&mut self, _name: Name, _op: Op) -> Result<Ticket, DeskStopped> {
        let Some((entry, rest)) = self.entries.split_first() else {
            return Err(DeskStopped { ticket: None });
        };
        self.entries = rest;
        entry.ticket.ok_or(DeskStopped { ticket: None })
    }
}

/// A transcript, and what the client was told.
#[derive(Drop)]
pub struct Served {
    pub transcript: Transcript,
    pub told: Vec<u8>,
}

/// What a client says with these words.
fn said_by(alloc: Global, user: usize, said: &[usize]) -> Result<Vec<u8>, Fail> {
    let mut bytes = Vec::new(alloc);
    for number in said {
        bytes.extend_from_slice(words_of(user, *number).as_bytes())?;
        bytes.extend_from_slice(b"\r\n")?;
    }
    Ok(bytes)
}

/// The session of a client that says these words, as it is served over a desk that gives what these entries say.
pub fn serve_again(
    alloc: Global,
    user: usize,
    said: &[usize],
    entries: &[Asked],
) -> Result<Served, Fail> {
    let stamp = greeting_stamp()?;
    let accounts = accounts(alloc, ACCOUNTS)?;
    let said = said_by(alloc, user, said)?;
    let mut told = Vec::new(alloc);
    let transcript = serve(
        alloc,
        &mut said.as_slice(),
        &mut told,
        &accounts,
        stamp,
        &mut Known { entries },
        &mut OpenGate,
    );
    Ok(Served { transcript, told })
}
