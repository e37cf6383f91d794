//! Whole runs of a service.
ghost use Rattle.std.specs.Prelude.{◌≡◌, ◌≤◌, ◌⊎◌, ℕ, length, Some, None, map, IfOk, IfErr, OnOk};
ghost use Rattle.runs.specs.Clients.{Client, client_of};
ghost use Rattle.runs.specs.Decisions.{AreDecidedFirst, WereSubmitted};
ghost use Rattle.runs.specs.Projection.{IsProjected, decided};
ghost use Rattle.runs.specs.Settling.{ran, first_refusal, all_replies, all_performed};
ghost use Rattle.runs.specs.Worlds.{new_world};
ghost use Rattle.runs.specs.declared.refused.Refused.TheVariants as refused;

use crate::world::World;
use ballot::{Memory, NodeId, Payload, Slot};
use maildrop::SharedCommand;
use runs::{Config, Event, Refused, SessionId};
use std::alloc::{Allocator, Global};

/// What a run has brought.
#[derive(Drop)]
pub struct Runs<A: Allocator = Global> {
    /// The bytes of each session's replies, in the order in which the sessions connected.
    pub replies: Vec<(SessionId, Vec<u8, A>), A>,
    /// What each node has performed, each command with its slot, in the order of the nodes' numbers.
    pub performed: Vec<Vec<(Slot, SharedCommand<A>), A>, A>,
}

/// A service that begins so takes these events, one after another. The first that is refused is the answer, else what the
/// run has brought. What each session was told is a prefix of what a POP3 server says that has the session's user's maildrop
/// alone. What each node has performed is how the one decided order begins, and each command of that order was submitted.
/// `Memory` is the answer too if there is none for a node, a session or the result.
pub fn run<A: Allocator + Copy>(
    alloc: A,
    config: Config<A>,
    events: Vec<Event<A>, A>,
) -> Result<Runs<A>, Refused>
    requires window { (1 ≤ config.window) × (config.window ≤ 1000) }
    ensures possible { OnOk result (first_refusal (new_world config) events.items ≡ None) }
    ensures refused { IfErr result (λ error. (error ≡ refused.Memory) ⊎ (first_refusal (new_world config) events.items ≡ Some error)) }
    ensures replies { IfOk result (λ runs. map (λ r. (r.0, r.1.items)) runs.replies.items ≡ all_replies (ran (new_world config) events.items).service) }
    ensures performed { IfOk result (λ runs. map (λ p. p.items) runs.performed.items ≡ all_performed (ran (new_world config) events.items).service) }
    ensures projected { OnOk result ((session : ℕ) (c : Client A) → client_of session (ran (new_world config) events.items).service.clients ≡ Some c
        → IsProjected config (ran (new_world config) events.items).service c) }
    ensures decided { IfOk result (λ runs. AreDecidedFirst config (ran (new_world config) events.items).service (map (λ p. p.items) runs.performed.items)) }
    ensures submitted { OnOk result (WereSubmitted (ran (new_world config) events.items).service (decided config (ran (new_world config) events.items).service)) }
{
    let nodes = config.cluster.get();
    let mut world = World::new(alloc, config)?;
    run_in(&mut world, alloc, nodes, events)
}

/// What this service, which has so many nodes, has brought after these events.
fn run_in<A: Allocator + Copy>(
    world: &mut World<A>,
    alloc: A,
    nodes: u8,
    events: Vec<Event<A>, A>,
) -> Result<Runs<A>, Refused>
    requires { nodes ≡ length (ran world.old.world events.items).service.network.logs }
    ensures possible { OnOk result (first_refusal world.old.world events.items ≡ None) }
    ensures refused { IfErr result (λ error. (error ≡ refused.Memory) ⊎ (first_refusal world.old.world events.items ≡ Some error)) }
    ensures replies { IfOk result (λ runs. map (λ r. (r.0, r.1.items)) runs.replies.items ≡ all_replies (ran world.old.world events.items).service) }
    ensures performed { IfOk result (λ runs. map (λ p. p.items) runs.performed.items ≡ all_performed (ran world.old.world events.items).service) }
{
    step_all(world, events)?;
    match world.brought(alloc, nodes) {
        Ok(runs) => Ok(runs),
        Err(_) => Err(Refused::Memory),
    }
}

/// These events, one after another. The first that is refused is the answer.
fn step_all<A: Allocator + Copy>(
    world: &mut World<A>,
    events: Vec<Event<A>, A>,
) -> Result<(), Refused>
    ensures world { OnOk result (world.new.world ≡ ran world.old.world events.items) }
    ensures possible { OnOk result (first_refusal world.old.world events.items ≡ None) }
    ensures refused { IfErr result (λ error. (error ≡ refused.Memory) ⊎ (first_refusal world.old.world events.items ≡ Some error)) }
{
    for event in events {
        if let Err(error) = world.step(event) {
            return Err(error);
        }
    }
    Ok(())
}

impl<A: Allocator + Copy> World<A> {
    /// What a run with this many nodes has brought.
    fn brought(&self, alloc: A, nodes: u8) -> Result<Runs<A>, Memory>
        requires { nodes ≡ length self.now.world.service.network.logs }
        ensures replies { IfOk result (λ runs. map (λ r. (r.0, r.1.items)) runs.replies.items ≡ all_replies self.now.world.service) }
        ensures performed { IfOk result (λ runs. map (λ p. p.items) runs.performed.items ≡ all_performed self.now.world.service) }
    {
        Ok(Runs {
            replies: self.all_replies(alloc)?,
            performed: self.all_performed(alloc, nodes)?,
        })
    }

    /// The bytes of each session's replies, in the order in which the sessions connected.
    fn all_replies(&self, alloc: A) -> Result<Vec<(SessionId, Vec<u8, A>), A>, Memory>
        ensures { IfOk result (λ replies. map (λ r. (r.0, r.1.items)) replies.items ≡ all_replies self.now.world.service) }
    {
        let mut replies = Vec::new(alloc);
        for place in 0..self.connections.len() {
            let Some((session, connection)) = self.connections.get_index(place) else {
                unreachable!();
            };
            let bytes = Vec::from_slice(alloc, connection.replies.get())?;
            replies.push((*session, bytes))?;
        }
        Ok(replies)
    }

    /// What each node has performed, in the order of the nodes' numbers. `Memory` too if a node has stopped for want of it.
    fn all_performed(
        &self,
        alloc: A,
        nodes: u8,
    ) -> Result<Vec<Vec<(Slot, SharedCommand<A>), A>, A>, Memory>
        requires { nodes ≡ length self.now.world.service.network.logs }
        ensures { IfOk result (λ performed. map (λ p. p.items) performed.items ≡ all_performed self.now.world.service) }
    {
        let mut all = Vec::new(alloc);
        for place in 0..nodes {
            let Some(node) = NodeId::new(place + 1) else {
                return Err(Memory);
            };
            let Some(performed) = self.performed(node) else {
                return Err(Memory);
            };
            all.push(copy_of(alloc, performed)?)?;
        }
        Ok(all)
    }
}

/// A copy of what a node has performed.
fn copy_of<A: Allocator + Copy>(
    alloc: A,
    performed: &[(Slot, SharedCommand<A>)],
) -> Result<Vec<(Slot, SharedCommand<A>), A>, Memory>
    ensures { IfOk result (λ copy. copy.items ≡ performed.now) }
{
    let mut copy = Vec::new(alloc);
    for entry in performed {
        let (slot, command) = entry;
        copy.push((*slot, command.copy()?))?;
    }
    Ok(copy)
}
