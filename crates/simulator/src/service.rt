//! The service that a script drives.
ghost use Rattle.std.specs.Prelude.{◌≡◌, ◌≤◌, ◌⊎◌, false, replicate, position, OnOk, IfOk, IfErr, IfSome, None, Some};
ghost use Rattle.runs.specs.Refusals.{step_refusal};
ghost use Rattle.runs.specs.Worlds as spec;
ghost use Rattle.runs.specs.declared.refused.Refused.{Refused};
ghost use Rattle.simulator.specs.Events.{operation_in};
ghost use Rattle.simulator.specs.Outcomes.{all_outcomes};
ghost use Rattle.simulator.specs.Told.{IsWritten};
ghost use Rattle.simulator.specs.Undelivered.{is_next};
ghost use Rattle.world.specs.Values.{crashed_after};

use crate::deliveries::{Mark, keep, place_of};
use crate::operations::{Operations, write_outcomes};
use crate::report::Report;
use crate::undelivered::Route;
use ballot::{Memory, NodeId};
use maildrop::{CommandId, Name};
use std::alloc::Global;
use std::marker::Model;
use world::{Config, Event, Refused, World};

/// A service with its Mails and Breaks, and how far the messages have arrived that were looked for, so that a search for one
/// of a route goes on from where the last one ended.
#[derive(Drop)]
pub(crate) struct Service {
    world: World,
    marks: Vec<Mark>,
    operations: Operations,
}

impl Model for Service {
    ghost use Rattle.std.specs.declared.alloc.Global.{Global};
    ghost use Rattle.world.specs.Values.{WorldValue};
    ghost use Rattle.simulator.specs.Following.{IsFollowed};
    ghost use Rattle.simulator.specs.Undelivered.{AreMarks};

    ghost Value = { WorldValue Global };

    ghost view = { λ s. s.world };

    ghost invariant = { λ s. AreMarks s.world.world.service.network.sent s.marks.items × IsFollowed s.world.world s.operations.ids.items s.operations.waiting };
}

/// The node and the user of a Mail or a Break.
fn operation_in(event: &Event) -> Option<(NodeId, Name)>
    ensures { result ≡ operation_in event.now }
{
    match event {
        Event::Mail { node, user, .. } | Event::Break { node, user } => Some((*node, *user)),
        _ => None,
    }
}

impl Service {
    /// The service that begins so.
    pub(crate) fn new(alloc: Global, config: Config) -> Result<Self, Memory>
        requires window { (1 ≤ config.window) × (config.window ≤ 1000) }
        ensures world { IfOk result (λ service. service.world ≡ spec.new_world config) }
        ensures crashed { IfOk result (λ service. service.crashed ≡ replicate config.cluster false) }
    {
        let nodes = usize::from(config.cluster.get());
        Ok(Service {
            world: World::new(alloc, config)?,
            marks: Vec::new(alloc),
            operations: Operations::new(alloc, nodes)?,
        })
    }

    /// The service itself.
    pub(crate) fn world(&self) -> &World
        ensures { result.now ≡ self.now }
    {
        &self.world
    }

    /// An event happens, if it can, as by `World::step`. After `Memory` it may have happened.
    pub(crate) fn step(&mut self, event: Event) -> Result<(), Refused>
        ensures possible { OnOk result (step_refusal self.old.world.config self.old.world.service event ≡ None) }
        ensures ok { OnOk result (self.new.world ≡ spec.stepped self.old.world event) }
        ensures crashed { OnOk result (self.new.crashed ≡ crashed_after event self.old.crashed) }
        ensures refused { IfErr result (λ error. (error ≡ Refused.Memory) ⊎ ((step_refusal self.old.world.config self.old.world.service event ≡ Some error) × (self.new ≡ self.old))) }
    {
        match operation_in(&event) {
            Some((node, user)) => self.submit(event, node, user),
            None => self.world.step(event),
        }
    }

    /// The event, which is a Mail or a Break for the user at the node, happens, if it can.
    fn submit(&mut self, event: Event, node: NodeId, user: Name) -> Result<(), Refused>
        requires { operation_in event ≡ Some (node, user) }
        ensures possible { OnOk result (step_refusal self.old.world.config self.old.world.service event ≡ None) }
        ensures ok { OnOk result (self.new.world ≡ spec.stepped self.old.world event) }
        ensures crashed { OnOk result (self.new.crashed ≡ crashed_after event self.old.crashed) }
        ensures refused { IfErr result (λ error. (error ≡ Refused.Memory) ⊎ ((step_refusal self.old.world.config self.old.world.service event ≡ Some error) × (self.new ≡ self.old))) }
    {
        if self.operations.ids.reserve(1).is_err() {
            return Err(Refused::Memory);
        }
        self.world.step(event)?;
        let Some(ticket) = self.world.last_ticket(node, user) else {
            unreachable!();
        };
        self.operations.add(CommandId::new(user, ticket));
        Ok(())
    }

    /// Writes the outcomes that are there and weren't written, in the order in which the service was given the Mails and
    /// Breaks.
    pub(crate) fn write_outcomes(&mut self, report: &mut Report) -> Result<(), Memory>
        ensures written { OnOk result (IsWritten (all_outcomes self.old.world) self.new.world report.old report.new) }
        ensures crashed { self.new.crashed ≡ self.old.crashed }
    {
        write_outcomes(&mut self.world, &mut self.operations, report)
    }

    /// The place of the first message of the route that never arrived.
    pub(crate) fn first_undelivered(&mut self, route: Route) -> Option<usize>
        ensures value { result ≡ position (is_next route) self.old.world.service.network.sent }
        ensures world { self.new ≡ self.old }
    {
        let from = place_of(&self.marks, &route);
        match route.first_undelivered(self.world.sent(), from) {
            Some(place) => {
                keep(&mut self.marks, route, place);
                Some(place)
            }
            None => {
                keep(&mut self.marks, route, self.world.sent().len());
                None
            }
        }
    }
}
