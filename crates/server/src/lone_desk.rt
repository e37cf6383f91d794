//! The desk of a lone session: the office, and the tickets of what is asked.
ghost use Rattle.std.specs.Prelude.{◌≡◌, ◌+◌, ◌<◌, ◌^◌, false, [], ◌∷◌, Some, IsSome, IfOk, IfSome, OnSome, IfNone};
ghost use Rattle.maildrop.specs.Maildrop.{empty_maildrop};
ghost use Rattle.maildrop.specs.Office.{new_user, outcome_in, users_after, maildrop_of, maildrop_after, takes_memory_in};
ghost use Rattle.server.specs.Tickets.{ticket_of};

use ballot::{Memory, NodeId};
use maildrop::{Command, Limits, Name, Office, Op, Outcome, Ticket};
use std::alloc::{Allocator, Global};

/// An office that one session asks, and the number of the next ticket.
#[derive(Drop)]
pub struct LoneDesk<A: Allocator = Global> {
    /// The maildrops.
    pub office: Office<A>,
    /// The number of the next ticket.
    pub next: u64,
}

impl<A: Allocator + Copy> LoneDesk<A> {
    /// The desk of one user, whose maildrop is empty.
    pub fn new(alloc: A, user: Name, limits: Limits) -> Result<Self, Memory>
        ensures office { IfOk result (λ desk. desk.office ≡ new_user limits user ∷ []) }
        ensures maildrop { IfOk result (λ desk. maildrop_of user desk.office ≡ Some (empty_maildrop limits)) }
        ensures next { IfOk result (λ desk. desk.next ≡ 1) }
    {
        let office = Office::new(alloc, [user].as_slice(), limits)?;
        Ok(LoneDesk { office, next: 1 })
    }

    /// Performs an operation under the next ticket of node 1. Returns the ticket and the outcome, or nothing if
    /// there is no memory or no ticket left; then nothing has changed.
    pub fn perform(&mut self, user: Name, op: Op<A>) -> Option<(Ticket, Outcome<A>)>
        ensures ticket { IfSome result (λ answer. answer.0 ≡ ticket_of self.old.next) }
        ensures outcome { IfSome result (λ answer. answer.1
            ≡ outcome_in self.old.office (record { user = user; ticket = ticket_of self.old.next; op = op })) }
        ensures office { OnSome result (self.new.office
            ≡ users_after self.old.office (record { user = user; ticket = ticket_of self.old.next; op = op })) }
        ensures own { OnSome result (maildrop_of user self.new.office
            ≡ maildrop_after (maildrop_of user self.old.office) (record { user = user; ticket = ticket_of self.old.next; op = op })) }
        ensures next { OnSome result (self.new.next ≡ self.old.next + 1) }
        ensures unchanged { IfNone result (self.new ≡ self.old) }
        ensures sure { takes_memory_in self.old.office (record { user = user; ticket = ticket_of self.old.next; op = op }) ≡ false
            → 0 < self.old.next → self.old.next + 1 < 2 ^ 64 → IsSome result }
    {
        let node = NodeId::new(1).unwrap();
        let (Some(ticket), Some(next)) = (Ticket::new(node, self.next), self.next.checked_add(1))
        else {
            return None;
        };
        match self.office.apply(&Command { user, ticket, op }) {
            Ok(outcome) => {
                self.next = next;
                Some((ticket, outcome))
            }
            Err(Memory) => None,
        }
    }
}
