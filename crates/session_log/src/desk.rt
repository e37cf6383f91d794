//! A node's desk, as one session asks it.

use crate::facts::{SharedFacts, asked_kind};
use maildrop::{Name, Op, Outcome, Ticket};
use session::{Desk, DeskStopped};
use std::sync::Wait;

/// A node's desk, as one session asks it: it notes who logs in, and how many messages are removed.
#[derive(Drop)]
pub struct SessionDesk<R, N> {
    /// The system: waits.
    pub rt: R,
    /// The node's desk.
    pub node: N,
    /// What is known of the session.
    pub facts: SharedFacts,
}

impl<R: Wait, N: Desk<Op, Outcome>> Desk<Op, Outcome> for SessionDesk<R, N> {
    ghost gives = { λ before given after. N.gives before.node given after.node };

    fn ask(&mut self, name: Name, op: Op) -> Result<(Ticket, Outcome), DeskStopped> {
        let asked = asked_kind(&op);
        let answer = self.node.ask(name, op);
        if let Ok((_, outcome)) = &answer {
            self.facts.lock(&self.rt).answer(name, asked, outcome);
        }
        answer
    }

    fn tell(&mut self, name: Name, op: Op) -> Result<Ticket, DeskStopped> {
        self.node.tell(name, op)
    }
}
