//! The nodes and the sessions of a service once more: what they keep is what an audit is given.

use crate::config::{ACCOUNTS, WINDOW, accounts, greeting_stamp, limits};
use crate::happening::Happening;
use crate::play::SESSIONS;
use crate::service::Service;
use apop::Accounts;
use ballot::{Cluster, NodeId};
use maildrop::{Name, Op, Shared, Ticket, are_different};
use node::{Input, Node};
use pop3_wire::Line;
use session::{Asked, Session, Step};
use std::alloc::Global;
use std::test::Fail;
use world::Sent;

/// A session at its node.
#[derive(Drop)]
pub struct Seat {
    /// The node to which its client is connected, if it is.
    pub node: Option<NodeId>,
    /// How many lines it has heard.
    pub heard: u64,
    /// What it has asked. If it still awaits an answer, the last has no outcome.
    pub asked: Vec<Asked>,
    session: Session,
}

/// The nodes and the sessions of a service once more.
#[derive(Drop)]
pub struct Replayed {
    pub nodes: Vec<Node>,
    pub seats: Vec<Seat>,
    accounts: Accounts,
    alloc: Global,
}

impl Seat {
    fn new(alloc: Global) -> Result<Seat, Fail> {
        let stamp = greeting_stamp()?;
        Ok(Seat {
            node: None,
            heard: 0,
            asked: Vec::new(alloc),
            session: Session::new(alloc, stamp),
        })
    }

    /// Hears a line, and keeps what it asks for.
    fn hear(&mut self, accounts: &Accounts, line: &Line) -> Result<(), Fail> {
        let step = self.session.line(accounts, line)?;
        let number = self.heard;
        self.heard = number.saturating_add(1);
        match &step {
            Step::Ask(name, op) => self.keep(Some(number), *name, op),
            _ => Ok(()),
        }
    }

    /// Its client is gone. Keeps the Free of the lock that it holds.
    fn leave(&mut self) -> Result<(), Fail> {
        match &self.session.hangup()? {
            Some((name, op)) => self.keep(None, *name, op),
            None => Ok(()),
        }
    }

    fn keep(&mut self, line: Option<u64>, name: Name, op: &Op) -> Result<(), Fail> {
        self.asked.push(Asked {
            line,
            name,
            op: op.copy()?,
            ticket: None,
            outcome: None,
        })?;
        Ok(())
    }
}

/// A node of a service.
fn new_node(alloc: Global, names: &[Name], number: u8, cluster: Cluster) -> Result<Node, Fail> {
    if !are_different(names) {
        Err("a name stands twice")?;
    }
    let limits = limits()?;
    let me = NodeId::new(number).ok_or("no node")?;
    let made = Node::new(alloc, me, cluster, WINDOW, names, limits)?;
    Ok(made.ok_or("no node")?)
}

/// The place of the node among all.
pub fn place_of(node: NodeId) -> usize {
    usize::from(node.get()).saturating_sub(1)
}

impl Replayed {
    /// The nodes and the sessions of a service of which nothing has happened.
    pub fn new(alloc: Global, cluster: Cluster) -> Result<Replayed, Fail> {
        let mut replayed = Replayed {
            nodes: Vec::new(alloc),
            seats: Vec::new(alloc),
            accounts: accounts(alloc, ACCOUNTS)?,
            alloc,
        };
        replayed.begin(cluster)?;
        Ok(replayed)
    }

    fn begin(&mut self, cluster: Cluster) -> Result<(), Fail> {
        for number in 1..=cluster.get() {
            let node = new_node(self.alloc, self.accounts.names(), number, cluster)?;
            self.nodes.push(node)?;
        }
        for _ in 0..SESSIONS {
            self.seats.push(Seat::new(self.alloc)?)?;
        }
        Ok(())
    }

    /// All that happened in the service happens here.
    pub fn follow(&mut self, service: &Service) -> Result<(), Fail> {
        for happening in service.happened.iter() {
            self.take(service.world.sent(), happening)?;
        }
        Ok(())
    }

    fn take(&mut self, sent: &[Sent], happening: &Happening) -> Result<(), Fail> {
        match happening {
            Happening::Connect(place, node) => {
                let seat = self.seats.get_mut(*place).ok_or("no session")?;
                seat.node = Some(*node);
                Ok(())
            }
            Happening::Line(place, line) => {
                let seat = self.seats.get_mut(*place).ok_or("no session")?;
                seat.hear(&self.accounts, line)?;
                self.submit(*place)
            }
            Happening::Hangup(place) => {
                self.seats.get_mut(*place).ok_or("no session")?.leave()?;
                self.submit(*place)
            }
            Happening::Collect(place) => self.collect(*place),
            Happening::Given(node, input) => self.step(*node, input.copy()?),
            Happening::Arrive(which) => {
                let envelope = sent.get(*which).ok_or("not sent")?.envelope.copy()?;
                self.step(envelope.to, Input::Arrive(envelope))
            }
        }
    }

    /// A node takes an input.
    fn step(&mut self, node: NodeId, input: Input) -> Result<(), Fail> {
        let node = self.nodes.get_mut(place_of(node)).ok_or("no node")?;
        drop(node.step(input)?);
        Ok(())
    }

    /// The node of the session takes what that has asked for, if it has asked for something new.
    fn submit(&mut self, place: usize) -> Result<(), Fail> {
        let seat = self.seats.get_mut(place).ok_or("no session")?;
        let node = seat.node.ok_or("not connected")?;
        let node = self.nodes.get_mut(place_of(node)).ok_or("no node")?;
        match seat.asked.last_mut() {
            Some(entry) if entry.ticket.is_none() => {
                let op = Shared::new(self.alloc, entry.op.copy()?)?;
                entry.ticket = node.step(Input::Submit(entry.name, op))?.ticket;
                Ok(())
            }
            _ => Ok(()),
        }
    }

    /// The session takes the answer that it awaits.
    fn collect(&mut self, place: usize) -> Result<(), Fail> {
        let seat = self.seats.get_mut(place).ok_or("no session")?;
        let node = seat.node.ok_or("not connected")?;
        let node = self.nodes.get_mut(place_of(node)).ok_or("no node")?;
        let entry = seat.asked.last_mut().ok_or("nothing asked")?;
        let ticket = entry.ticket.ok_or("no ticket")?;
        let outcome = node.take_answer(entry.name, ticket).ok_or("no answer")?;
        drop(seat.session.answer(ticket, &outcome)?);
        entry.outcome = Some(outcome);
        Ok(())
    }
}
