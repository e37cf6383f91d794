//! The events of an order, as what happens.

use crate::happening::Happening;
use crate::records::Records;
use crate::replayed::place_of;
use crate::service::Service;
use audit::Event;
use ballot::NodeId;
use maildrop::Op;
use node::Input;
use session::LineCursor;
use std::alloc::Global;
use std::test::Fail;

/// What events take: the lines of each session and the inputs of each node that are still to come.
#[derive(Drop)]
struct Sources<'r> {
    lines: Vec<LineCursor<'r>>,
    inputs: Vec<&'r [Input]>,
}

/// Whether neither a session nor a message brings it.
fn is_given(input: &Input) -> bool {
    match input {
        Input::Submit(_, op) => matches!(op.get(), Op::Mail { .. } | Op::Break),
        Input::Arrive(_) => false,
        Input::Tick | Input::Campaign | Input::Crash => true,
    }
}

impl<'r> Sources<'r> {
    fn new(alloc: Global, records: &'r Records) -> Result<Sources<'r>, Fail> {
        let mut lines = Vec::new(alloc);
        for transcript in &records.transcripts {
            lines.push(transcript.lines.cursor())?;
        }
        let mut inputs = Vec::new(alloc);
        for log in &records.logs {
            inputs.push(log.inputs.get())?;
        }
        Ok(Sources { lines, inputs })
    }

    /// What the node is given next, if there is something.
    fn given(&mut self, node: NodeId) -> Result<Option<Happening>, Fail> {
        let Some(inputs) = self.inputs.get_mut(place_of(node)) else {
            return Ok(None);
        };
        for _ in 0..inputs.len() {
            let Some((input, rest)) = inputs.split_first() else {
                break;
            };
            *inputs = rest;
            if is_given(input) {
                return Ok(Some(Happening::Given(node, input.copy()?)));
            }
        }
        Ok(None)
    }

    /// The session's next line, if there is one.
    fn line(&mut self, session: usize) -> Option<Happening> {
        let line = self.lines.get_mut(session)?.next()?;
        Some(Happening::Line(session, line))
    }

    /// What happens at an event, if there is something left that can.
    fn happening(&mut self, event: Event) -> Result<Option<Happening>, Fail> {
        match event {
            Event::Connect { session, node } => Ok(Some(Happening::Connect(session, node))),
            Event::Line(session) => Ok(self.line(session)),
            Event::Hangup(session) => Ok(Some(Happening::Hangup(session))),
            Event::Collect(session) => Ok(Some(Happening::Collect(session))),
            Event::Given(node) => self.given(node),
            Event::Arrive(which) => Ok(Some(Happening::Arrive(which))),
        }
    }
}

/// Whether a service takes these events, one after another, until it refuses one.
pub fn takes_all(
    alloc: Global,
    service: &mut Service,
    records: &Records,
    events: &[Event],
) -> Result<bool, Fail> {
    let mut sources = Sources::new(alloc, records)?;
    for event in events {
        let Some(happening) = sources.happening(*event)? else {
            return Ok(false);
        };
        if !service.take(happening)? {
            return Ok(false);
        }
    }
    Ok(true)
}
