//! A service under random events.

use crate::chance::Chance;
use crate::config::{USERS, WORDS, line, words_of};
use crate::happening::Happening;
use crate::service::Service;
use ballot::NodeId;
use maildrop::{Name, Op, Shared, Ticket};
use node::Input;
use samples::{cluster, mail, name, node};
use std::alloc::Global;
use std::test::Fail;

/// How many times chance decides what happens.
const TURNS: u32 = 220;

/// How many events there may be before these, until the first client has logged in.
const FIRST: usize = 200;

/// How many events it may take to come to rest.
const REST: usize = 2_000;

/// The largest cluster.
const MOST_NODES: usize = 5;

/// How many sessions a service may have.
pub const SESSIONS: usize = 6;

/// How many messages lie after one that arrives late, at most.
const LATEST: usize = 60;

/// What was asked of a node.
#[derive(Clone, Copy, PartialEq, Eq)]
pub enum Kind {
    Mail,
    Break,
    /// Take, Commit or Free.
    Lock,
}

/// An operation that a node took.
#[derive(Clone, Copy)]
pub struct Submitted {
    pub user: Name,
    pub ticket: Ticket,
    pub kind: Kind,
}

/// What came of an event at a node.
#[derive(Clone, Copy)]
enum Taken {
    Refused,
    /// It asked for nothing.
    Heard,
    Asked(Ticket),
}

/// What a session's client says, and what came of it.
#[derive(Drop)]
pub struct Talk {
    /// The place of its user among all.
    pub user: usize,
    pub name: Name,
    /// The node to which it is connected, if it is.
    pub node: Option<NodeId>,
    /// The numbers of the words that its session heard.
    pub said: Vec<usize>,
    /// The tickets that its node gave to what they asked for.
    pub tickets: Vec<Ticket>,
}

/// A service, and what it was given.
#[derive(Drop)]
pub struct Play {
    pub service: Service,
    pub talks: Vec<Talk>,
    pub submitted: Vec<Submitted>,
    /// How many users have clients and get mail.
    users: usize,
    alloc: Global,
}

/// The clients of all sessions, each of one of so many users, which have said nothing yet.
fn new_talks(alloc: Global, chance: &mut Chance, users: usize) -> Result<Vec<Talk>, Fail> {
    let mut talks = Vec::new(alloc);
    for _ in 0..SESSIONS {
        let user = chance.below(users);
        talks.push(Talk {
            user,
            name: name(USERS.get(user).ok_or("no user")?)?,
            node: None,
            said: Vec::new(alloc),
            tickets: Vec::new(alloc),
        })?;
    }
    Ok(talks)
}

/// A service of one to five nodes, of which nothing has happened.
fn new_play(alloc: Global, chance: &mut Chance) -> Result<Play, Fail> {
    let nodes = chance.below(MOST_NODES).saturating_add(1);
    let cluster = cluster(u8::try_from(nodes)?)?;
    let users = chance.below(USERS.len()).saturating_add(1);
    let talks = new_talks(alloc, chance, users)?;
    Ok(Play {
        service: Service::new(alloc, cluster)?,
        talks,
        submitted: Vec::new(alloc),
        users,
        alloc,
    })
}

impl Play {
    /// How many sessions asked for a lock.
    pub fn logins(&self) -> usize {
        self.talks
            .iter()
            .filter(|talk| !talk.tickets.is_empty())
            .count()
    }

    fn some_node(&self, chance: &mut Chance) -> Result<NodeId, Fail> {
        let nodes = usize::from(self.service.cluster.get());
        let number = chance.below(nodes).saturating_add(1);
        node(u8::try_from(number)?)
    }

    /// Something happens that may have the node take an operation for the user. Keeps that.
    fn ask(
        &mut self,
        happening: Happening,
        node: NodeId,
        user: Name,
        kind: Kind,
    ) -> Result<Taken, Fail> {
        let before = self.service.world.last_ticket(node, user);
        if !self.service.take(happening)? {
            return Ok(Taken::Refused);
        }
        let Some(ticket) = self.service.world.last_ticket(node, user) else {
            return Ok(Taken::Heard);
        };
        if before == Some(ticket) {
            return Ok(Taken::Heard);
        }
        self.submitted.push(Submitted { user, ticket, kind })?;
        Ok(Taken::Asked(ticket))
    }

    /// The client says the words of this number, if it is connected and its session hears them.
    fn say(&mut self, place: usize, number: usize) -> Result<(), Fail> {
        let talk = self.talks.get(place).ok_or("no client")?;
        let Some(node) = talk.node else {
            return Ok(());
        };
        let user = talk.name;
        let words = line(words_of(talk.user, number).as_bytes())?;
        let taken = self.ask(Happening::Line(place, words), node, user, Kind::Lock)?;
        let talk = self.talks.get_mut(place).ok_or("no client")?;
        match taken {
            Taken::Refused => {}
            Taken::Heard => talk.said.push(number)?,
            Taken::Asked(ticket) => {
                talk.said.push(number)?;
                talk.tickets.push(ticket)?;
            }
        }
        Ok(())
    }

    /// A client says something: most often what comes next.
    fn speak(&mut self, place: usize, chance: &mut Chance) -> Result<(), Fail> {
        let talk = self.talks.get(place).ok_or("no client")?;
        let number = if chance.below(6) == 0 {
            chance.below(WORDS.len())
        } else {
            talk.said.len()
        };
        self.say(place, number)
    }

    /// A client connects, if it hasn't yet.
    fn connect(&mut self, place: usize, node: NodeId) -> Result<(), Fail> {
        if self.service.take(Happening::Connect(place, node))? {
            let talk = self.talks.get_mut(place).ok_or("no client")?;
            talk.node = Some(node);
        }
        Ok(())
    }

    /// A client is gone.
    fn hang_up(&mut self, place: usize) -> Result<(), Fail> {
        let talk = self.talks.get(place).ok_or("no client")?;
        let Some(node) = talk.node else {
            return Ok(());
        };
        let user = talk.name;
        let _ = self.ask(Happening::Hangup(place), node, user, Kind::Lock)?;
        Ok(())
    }

    /// A message for a user comes in, or the user's lock is taken away.
    fn operate(&mut self, chance: &mut Chance) -> Result<(), Fail> {
        let node = self.some_node(chance)?;
        let user = name(USERS.get(chance.below(self.users)).ok_or("no user")?)?;
        let (op, kind) = match chance.below(6) {
            0 | 1 => (Op::Break, Kind::Break),
            2 => (mail(self.alloc, &[".dots"])?, Kind::Mail),
            _ => (mail(self.alloc, &["hello"])?, Kind::Mail),
        };
        let input = Input::Submit(user, Shared::new(self.alloc, op)?);
        let _ = self.ask(Happening::Given(node, input), node, user, kind)?;
        Ok(())
    }

    /// Time passes at a node, it asks to lead, or it crashes.
    fn at_node(&mut self, chance: &mut Chance) -> Result<(), Fail> {
        let node = self.some_node(chance)?;
        let input = match chance.below(12) {
            0 => Input::Crash,
            1..4 => Input::Campaign,
            _ => Input::Tick,
        };
        let _ = self.service.take(Happening::Given(node, input))?;
        Ok(())
    }

    /// A message arrives that was sent not long ago, whether it came before or not.
    fn arrive(&mut self, chance: &mut Chance) -> Result<(), Fail> {
        let back = chance.below(LATEST).saturating_add(1);
        let which = self.service.world.sent().len().saturating_sub(back);
        let _ = self.service.take(Happening::Arrive(which))?;
        Ok(())
    }

    /// What comes next by itself happens, up to so many times, the oldest first or the newest.
    fn go_on(&mut self, times: usize, newest: bool) -> Result<(), Fail> {
        for _ in 0..times {
            let Some(happening) = self.service.next(newest) else {
                return Ok(());
            };
            let _ = self.service.take(happening)?;
        }
        Ok(())
    }

    /// Chance decides what happens.
    fn turn(&mut self, chance: &mut Chance) -> Result<(), Fail> {
        let place = chance.below(SESSIONS);
        match chance.below(32) {
            0..8 => self.speak(place, chance),
            8..16 => {
                let times = chance.below(6);
                self.go_on(times, chance.below(4) == 0)
            }
            16..21 => self.arrive(chance),
            21..24 => {
                let node = self.some_node(chance)?;
                self.connect(place, node)
            }
            24 => self.hang_up(place),
            25 => {
                let _ = self.service.take(Happening::Collect(place))?;
                Ok(())
            }
            26..30 => self.operate(chance),
            _ => self.at_node(chance),
        }
    }

    /// The first client logs in at node 1, and the service comes to rest.
    fn log_in(&mut self) -> Result<(), Fail> {
        self.connect(0, node(1)?)?;
        self.say(0, 0)?;
        self.say(0, 1)?;
        self.go_on(FIRST, false)
    }

    /// Node 1 asks to lead, and the first client logs in, if it is to. Then chance decides what happens. Three of four
    /// services then come to rest.
    fn run(&mut self, chance: &mut Chance, logs_in: bool) -> Result<(), Fail> {
        let _ = self
            .service
            .take(Happening::Given(node(1)?, Input::Campaign))?;
        if logs_in {
            self.log_in()?;
        }
        for _ in 0..TURNS {
            self.turn(chance)?;
        }
        if chance.below(4) == 0 {
            return Ok(());
        }
        self.go_on(REST, false)
    }
}

/// A service under random events. Its first client has logged in before, if it is to.
pub fn random_play(alloc: Global, chance: &mut Chance, logs_in: bool) -> Result<Play, Fail> {
    let mut play = new_play(alloc, chance)?;
    play.run(chance, logs_in)?;
    Ok(play)
}
