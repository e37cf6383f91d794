//! What a node sends in the steps under one lock.

use crate::link::Link;
use ballot::{Envelope, NodeId};
use maildrop::SharedCommand;
use node::Envelopes;
use std::alloc::Global;
use std::collections::VecDeque;

/// What is sent to one node, in the order of the steps that send it.
#[derive(Drop)]
struct Lane {
    to: NodeId,
    sends: Vec<Envelope<SharedCommand>>,
}

/// What a node sends in the steps under one lock. One for which there is no room is lost.
#[derive(Drop)]
pub(crate) struct Outbox {
    /// What the node hears of its own, before the lock is free.
    own: VecDeque<Envelope<SharedCommand>>,
    /// What the link carries once the lock is free. All that goes to one node stands together, so that its thread, which the first
    /// of it wakes, finds the rest in its inbox.
    lanes: Vec<Lane>,
    alloc: Global,
    /// Whether the link carries also what the node sends to itself.
    carries_own: bool,
}

impl Outbox {
    /// Nothing. Takes no memory.
    pub(crate) fn new(alloc: Global, carries_own: bool) -> Self {
        Outbox {
            own: VecDeque::new(alloc),
            lanes: Vec::new(alloc),
            alloc,
            carries_own,
        }
    }

    /// Takes what a step sends.
    pub(crate) fn put(&mut self, envelopes: Envelopes) {
        for envelope in envelopes.into_vec() {
            if self.carries_own || envelope.from != envelope.to {
                self.put_in_lane(envelope);
            } else {
                let _lost = self.own.push_back(envelope);
            }
        }
    }

    fn put_in_lane(&mut self, envelope: Envelope<SharedCommand>) {
        if let Some(lane) = self.lanes.iter_mut().find(|lane| lane.to == envelope.to) {
            let _lost = lane.sends.push(envelope);
            return;
        }
        let mut sends = Vec::new(self.alloc);
        let to = envelope.to;
        if sends.push(envelope).is_ok() {
            let _lost = self.lanes.push(Lane { to, sends });
        }
    }

    /// The next envelope that the node hears of its own.
    pub(crate) fn next_own(&mut self) -> Option<Envelope<SharedCommand>> {
        self.own.pop_front()
    }

    /// Hands all else to the link. Nothing is left of it.
    pub(crate) fn send<L: Link>(&mut self, link: &L) {
        for lane in self.lanes.iter_mut() {
            if !lane.sends.is_empty() {
                link.send_all(lane.to, &mut lane.sends);
            }
        }
    }
}
