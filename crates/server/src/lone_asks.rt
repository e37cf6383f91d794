//! How a session asks the desk of a lone session.
ghost use Rattle.session.specs.Desks.{given_by_ask, given_by_tell};
ghost use Rattle.server.specs.LoneDesks.{Gives};

use crate::lone_desk::LoneDesk;
use maildrop::{Name, Op, Outcome, Ticket};
use session::{Desk, DeskStopped};
use std::alloc::Allocator;

impl<A: Allocator + Copy> Desk<Op<A>, Outcome<A>> for LoneDesk<A> {
    ghost gives = { Gives };

    fn ask(&mut self, name: Name, op: Op<A>) -> Result<(Ticket, Outcome<A>), DeskStopped>
        ensures { Gives self.old (given_by_ask name op result) self.new }
    {
        match self.perform(name, op) {
            Some(answer) => Ok(answer),
            None => Err(DeskStopped { ticket: None }),
        }
    }

    fn tell(&mut self, name: Name, op: Op<A>) -> Result<Ticket, DeskStopped>
        ensures { Gives self.old (given_by_tell name op result) self.new }
    {
        match self.perform(name, op) {
            Some((ticket, outcome)) => {
                drop(outcome);
                Ok(ticket)
            }
            None => Err(DeskStopped { ticket: None }),
        }
    }
}
