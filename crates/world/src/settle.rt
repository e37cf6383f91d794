//! A service that goes on by itself: what comes next happens, and next again.
ghost use Rattle.std.specs.Prelude.{◌≡◌, None, OnErr, IfOk, IfErr, IfSome};
ghost use Rattle.runs.specs.Refusals.{step_refusal};
ghost use Rattle.runs.specs.Settling.{IsSettleCut};
ghost use Rattle.runs.specs.Worlds as spec;
ghost use Rattle.runs.specs.declared.refused.Refused.TheVariants as refused;

use crate::next::{next_newest, next_oldest};
use crate::world::World;
use runs::{Event, Refused};
use std::alloc::Allocator;

impl<A: Allocator + Copy> World<A> {
    /// What comes next: the first session, in the order in which they connected, whose answer is there and whose node is up
    /// takes it; or else the first message, from this place on, that never arrived and whose addressee is up. Takes no
    /// memory.
    pub fn next_oldest(&self, from: usize) -> Option<Event<A>>
        ensures value { result ≡ spec.next_oldest self.now.world.service from }
        ensures possible { IfSome result (λ event. step_refusal self.now.world.config self.now.world.service event ≡ None) }
    {
        next_oldest(&self.hosts, &self.connections, from)
    }

    /// As `next_oldest`, with the last message, from this place on, that arrived fewer times than `copies`. Takes no
    /// memory.
    pub fn next_newest(&self, from: usize, copies: u64) -> Option<Event<A>>
        ensures value { result ≡ spec.next_newest self.now.world.service from copies }
        ensures possible { IfSome result (λ event. step_refusal self.now.world.config self.now.world.service event ≡ None) }
    {
        next_newest(&self.hosts, &self.connections, from, copies)
    }

    /// What comes next, oldest first, happens, and next again, until nothing is left or this many events have happened.
    /// Gives how many happened. After `Memory`, the only error, they happened up to one at which a node or a session found
    /// no memory; that one is down.
    pub fn settle(&mut self, limit: u64) -> Result<u64, Refused>
        ensures settled { IfOk result (λ events. spec.settled limit self.old.world ≡ record { events = events; world = self.new.world }) }
        ensures error { IfErr result (λ error. error ≡ refused.Memory) }
        ensures cut { OnErr result (IsSettleCut limit self.old.world self.new.world) }
        ensures crashed { self.new.crashed ≡ self.old.crashed }
    {
        for events in 0..limit {
            let Some(event) = self.next_oldest(0) else {
                return Ok(events);
            };
            if let Err(error) = self.step(event) {
                return Err(error);
            }
        }
        Ok(limit)
    }
}
