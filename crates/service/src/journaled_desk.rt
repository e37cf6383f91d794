//! A node's desk whose outcomes wait for the journal.

use crate::brand::Service;
use crate::epoch_journal::EpochJournal;
use cluster::{Link, NodeDesk};
use maildrop::{Name, Op, Outcome, Ticket};
use session::{Desk, DeskStopped};
use std::sync::Wait;

/// A node's desk that hands out an outcome only once all is written that the node had performed by then. So no client sees
/// what could be gone after a restart: neither a removal, nor a message that another one delivers. If a write fails the node
/// stops, and the session gets no outcome.
#[derive(Drop)]
pub(crate) struct JournaledDesk<D: Service, R: Wait, L: Link> {
    pub rt: R,
    pub node: NodeDesk<D, R, L>,
    pub journal: EpochJournal,
}

impl<D: Service, R: Wait, L: Link> Desk<Op, Outcome> for JournaledDesk<D, R, L> {
    ghost use Rattle.std.specs.Prelude.{◌≡◌};
    ghost use Rattle.cluster.specs.Members.{IsGiven};

    ghost gives = { λ before given after. (after.node ≡ before.node) × IsGiven D.setup before.node given };

    fn ask(&mut self, name: Name, op: Op) -> Result<(Ticket, Outcome), DeskStopped> {
        let answer = self.node.ask(name, op);
        let Ok((ticket, _)) = &answer else {
            return answer;
        };
        let ticket = *ticket;
        if self.journal.settle(&self.rt, &self.node) {
            return answer;
        }
        let _was_up = self.node.crash();
        Err(DeskStopped {
            ticket: Some(ticket),
        })
    }

    fn tell(&mut self, name: Name, op: Op) -> Result<Ticket, DeskStopped> {
        self.node.tell(name, op)
    }
}
