//! The sessions that are open.
ghost use Rattle.std.specs.Prelude.{◌≡◌, OnOk};
ghost use Rattle.session_log.specs.Written as spec;

use crate::bounded_reader::millis_since;
use crate::counters::seconds_since;
use crate::facts::SharedFacts;
use crate::writing::{put, put_labelled, put_number_line, put_user};
use ballot::{Memory, NodeId};
use indexmap::IndexMap;
use maildrop::Name;
use std::alloc::Global;
use std::net::{Shutdown, SocketAddr, TcpStream};
use std::sync::{Arc, Mutex, Wait};
use std::time::{Clock, Instant};

/// A session that is open.
#[derive(Drop)]
pub struct OpenSession {
    /// The node that it asks.
    pub node: NodeId,
    /// The address of its client.
    pub peer: SocketAddr,
    /// When it began, unless the clock couldn't be read.
    pub since: Option<Instant>,
    /// What is known of it.
    pub facts: SharedFacts,
    /// Its connection.
    pub stream: Arc<TcpStream>,
    /// How many bytes had been sent both ways when `end_idle` looked last: the highest number before.
    pub moved: u64,
}

impl OpenSession {
    /// Whether this user is logged in.
    fn is_of<R: Wait>(&self, rt: &R, user: &Name) -> bool {
        match &self.facts.lock(rt).user {
            Some(name) => *name == *user,
            None => false,
        }
    }

    /// Cuts the connection, so that the session ends and gives its lock back.
    fn cut(&self) {
        let _closed = self.stream.shutdown(Shutdown::Both);
    }

    /// Hears the client no longer. The session ends as if the client had hung up, once it has written what it replies now.
    fn end(&self) {
        let _closed = self.stream.shutdown(Shutdown::Read);
    }

    /// Whether the client awaits no reply, and has been silent: for so many milliseconds, or since the last look. Takes this
    /// look for the next one.
    fn is_idle<R: Wait + Clock>(&mut self, rt: &R, millis: u64) -> bool {
        let facts = self.facts.lock(rt);
        let moved = facts.bytes_read.saturating_add(facts.bytes_written);
        let is_asked = facts.begins_reply;
        let awaits_line_since = facts.awaits_line_since;
        drop(facts);
        let is_silent = match &awaits_line_since {
            Some(since) => millis_since(rt, since) >= millis,
            None => false,
        };
        let is_still = moved == self.moved;
        self.moved = moved;
        (is_silent || is_still) && !is_asked
    }
}

/// A session, for operators.
#[derive(Drop)]
struct SessionRow {
    number: u64,
    node: u8,
    peer: SocketAddr,
    user: Option<Name>,
    seconds: u64,
    bytes: u64,
}

/// The sessions that are open, each under its number.
#[derive(Drop)]
pub struct OpenSessions {
    open: Mutex<IndexMap<u64, OpenSession>>,
}

impl OpenSessions {
    /// No sessions. Takes no memory.
    pub fn new(alloc: Global) -> Self {
        OpenSessions {
            open: Mutex::new(IndexMap::new(alloc)),
        }
    }

    /// A session begins. Without memory for it nothing has changed.
    pub fn add<R: Wait>(&self, rt: &R, number: u64, session: OpenSession) -> Result<(), Memory> {
        self.open.lock(rt).insert(number, session)?;
        Ok(())
    }

    /// A session has ended.
    pub fn remove<R: Wait>(&self, rt: &R, number: u64) {
        let ended = self.open.lock(rt).swap_remove(&number);
        drop(ended);
    }

    /// How many sessions are open.
    pub fn count<R: Wait>(&self, rt: &R) -> u64 {
        self.open.lock(rt).len() as u64
    }

    /// Cuts the connections of this user's sessions, and returns how many these are. Each session ends, gives its lock
    /// back and removes nothing, unless it was asking for that.
    pub fn kick<R: Wait>(&self, rt: &R, user: &Name) -> usize {
        let open = self.open.lock(rt);
        let mut count: usize = 0;
        for session in open.values() {
            if session.is_of(rt, user) {
                session.cut();
                count = count.saturating_add(1);
            }
        }
        count
    }

    /// Cuts the connections of all sessions.
    pub fn cut_all<R: Wait>(&self, rt: &R) {
        for session in self.open.lock(rt).values() {
            session.cut();
        }
    }

    /// Ends the sessions whose clients await no reply, and have sent nothing for so many milliseconds or have neither sent
    /// nor read anything since the last such look. Each ends as if its client had hung up: it gives its lock back, and
    /// removes nothing.
    pub fn end_idle<R: Wait + Clock>(&self, rt: &R, millis: u64) {
        for session in self.open.lock(rt).values_mut() {
            if session.is_idle(rt, millis) {
                session.end();
            }
        }
    }

    /// Ends all sessions, each as if its client had hung up, once it has written what it replies now.
    pub fn end_all<R: Wait>(&self, rt: &R) {
        for session in self.open.lock(rt).values() {
            session.end();
        }
    }

    /// The answer to an operator who asks which sessions are open: a line for each, in the order of their numbers, and
    /// `end`.
    pub fn lines<R: Wait + Clock>(&self, rt: &R, alloc: Global) -> Result<Vec<u8>, Memory> {
        let mut rows = self.rows(rt, alloc)?;
        rows.sort_unstable_by_key(|row| row.number);
        let mut text = Vec::new(alloc);
        for row in rows {
            let peer = peer_text(alloc, row.peer)?;
            put_row(&mut text, &row, peer.as_bytes())?;
        }
        put(&mut text, b"end\n")?;
        Ok(text)
    }

    /// The open sessions, in any order. The lock is held for no longer than it takes to copy this.
    fn rows<R: Wait + Clock>(&self, rt: &R, alloc: Global) -> Result<Vec<SessionRow>, Memory> {
        let mut rows = Vec::new(alloc);
        let open = self.open.lock(rt);
        rows.reserve(open.len())?;
        for (number, session) in open.iter() {
            rows.push(row_of(rt, *number, session))?;
        }
        Ok(rows)
    }
}

/// The row of a session.
fn row_of<R: Wait + Clock>(rt: &R, number: u64, session: &OpenSession) -> SessionRow {
    let facts = session.facts.lock(rt);
    SessionRow {
        number,
        node: session.node.get(),
        peer: session.peer,
        user: facts.user,
        seconds: seconds_since(rt, &session.since),
        bytes: facts.bytes_written,
    }
}

/// The text of an address.
pub(crate) fn peer_text(alloc: Global, peer: SocketAddr) -> Result<String, Memory> {
    Ok(format!(in alloc; "{peer}")?)
}

/// Adds the line of a session.
fn put_row(text: &mut Vec<u8>, row: &SessionRow, peer: &[u8]) -> Result<(), Memory>
    ensures { OnOk result (text.new.items ≡ spec.with_session text.old.items row.now.number row.now.node peer.now row.now.user row.now.seconds row.now.bytes) }
{
    put_labelled(text, b"session ", row.number)?;
    put_labelled(text, b" node ", row.node as u64)?;
    put(text, b" peer ")?;
    put(text, peer)?;
    put(text, b" user ")?;
    put_user(text, &row.user)?;
    put_labelled(text, b" seconds ", row.seconds)?;
    put_number_line(text, b" bytes ", row.bytes)
}
