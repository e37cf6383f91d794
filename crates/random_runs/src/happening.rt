//! What happens in a service.

use crate::config::{greeting_stamp, line};
use ballot::NodeId;
use maildrop::Op;
use node::Input;
use pop3_wire::Line;
use std::test::Fail;
use world::{Event, SessionId};

/// What happens in a service, with all that comes. A session has its place as its number.
#[derive(Drop)]
pub enum Happening {
    /// The session connects to the node.
    Connect(usize, NodeId),
    /// Its client sends a line.
    Line(usize, Line),
    /// Its client is gone.
    Hangup(usize),
    /// It takes the answer that it awaits.
    Collect(usize),
    /// The node is given this, which neither a session nor a message brings.
    Given(NodeId, Input),
    /// The message that was sent as this number arrives.
    Arrive(usize),
}

/// The session at this place.
pub fn session_at(place: usize) -> SessionId {
    SessionId::new(place as u64)
}

/// The event of a service.
pub fn event_of(happening: &Happening) -> Result<Event, Fail> {
    Ok(match happening {
        Happening::Connect(place, node) => Event::Connect {
            session: session_at(*place),
            node: *node,
            stamp: greeting_stamp()?,
        },
        Happening::Line(place, Line::Whole(bytes)) => Event::Line {
            session: session_at(*place),
            line: line(bytes.get())?,
        },
        Happening::Line(place, Line::TooLong) => Event::Line {
            session: session_at(*place),
            line: Line::TooLong,
        },
        Happening::Hangup(place) => Event::Hangup {
            session: session_at(*place),
        },
        Happening::Collect(place) => Event::Collect {
            session: session_at(*place),
        },
        Happening::Given(node, input) => given_event(*node, input)?,
        Happening::Arrive(which) => Event::Arrive(*which),
    })
}

/// The event that gives a node this input.
fn given_event(node: NodeId, input: &Input) -> Result<Event, Fail> {
    match input {
        Input::Submit(user, op) => match op.get() {
            Op::Mail { text, key } => Ok(Event::Mail {
                node,
                user: *user,
                text: text.copy()?,
                key: *key,
            }),
            Op::Break => Ok(Event::Break { node, user: *user }),
            Op::Take | Op::Commit { .. } | Op::Free { .. } => Err("a lock isn't given")?,
        },
        Input::Tick => Ok(Event::Tick(node)),
        Input::Campaign => Ok(Event::Campaign(node)),
        Input::Crash => Ok(Event::Crash(node)),
        Input::Arrive(_) => Err("a message isn't given")?,
    }
}
