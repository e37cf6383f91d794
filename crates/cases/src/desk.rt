//! A desk that a session shares with others.

use maildrop::{Name, Op, Outcome, Ticket};
use server::LoneDesk;
use session::{Desk, DeskStopped};
use std::cell::RefCell;

/// The desk of a maildrop to which others come too.
#[derive(Drop)]
pub struct SharedDesk<'a> {
    pub desk: &'a RefCell<LoneDesk>,
}

impl SharedDesk<'_> {
    fn perform(&self, name: Name, op: Op) -> Result<(Ticket, Outcome), DeskStopped> {
        let stopped = DeskStopped { ticket: None };
        let Ok(mut desk) = self.desk.try_borrow_mut() else {
            return Err(stopped);
        };
        desk.perform(name, op).ok_or(stopped)
    }
}

impl Desk<Op, Outcome> for SharedDesk<'_> {
    ghost gives = { λ _ _ _. Unit {0} };

    fn ask(&mut self, name: Name, op: Op) -> Result<(Ticket, Outcome), DeskStopped> {
        self.perform(name, op)
    }

    fn tell(&mut self, name: Name, op: Op) -> Result<Ticket, DeskStopped> {
        let (ticket, outcome) = self.perform(name, op)?;
        drop(outcome);
        Ok(ticket)
    }
}
