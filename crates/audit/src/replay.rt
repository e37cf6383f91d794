//! The node of a log, as the inputs of the log come to it.
ghost use Rattle.std.specs.Prelude.{◌≡◌, suc, true, false, is_some, IfOk, OnOk, OnErr};
ghost use Rattle.audit.specs.Nodes.{answers_left, begun, state_shown, Runs, RunsUnlessStopped, is_plain};
ghost use Rattle.node.specs.Nodes.{logged};
ghost use Rattle.node.specs.Replay.{sends_of};
ghost use Rattle.audit.specs.Replays as spec;
ghost use Rattle.maildrop.specs.CommandId.{CommandId};

use crate::different_names::are_all_different;
use crate::outcomes::Outcomes;
use ballot::{Items, Memory};
use maildrop::CommandId;
use node::{Envelopes, Input, Node, NodeLog};
use std::alloc::{Allocator, Global};
use std::marker::Model;

/// The node of a log, as far as its inputs have come. There is none if no node begins as the log says. A crash comes to
/// the node as a mark alone: what it had answered before can be asked for ever after.
#[derive(Drop)]
pub(crate) struct Replay<A: Allocator + Copy = Global> {
    node: Option<Node<A>>,
    crashed: bool,
    placed: usize,
}

impl<A: Allocator + Copy> Model for Replay<A> {
    ghost use Rattle.audit.specs.Nodes.{Replayed, state_shown, RunsUnlessStopped};

    ghost Value = { Replayed A };

    ghost view = { λ r. record { state = state_shown r.node r.crashed; placed = r.placed } };

    ghost invariant = { λ r. RunsUnlessStopped r.node };
}

/// The node that begins so, if one can.
fn begin<A: Allocator + Copy>(alloc: A, log: &NodeLog<A>) -> Result<Option<Node<A>>, Memory>
    ensures state { IfOk result (λ node. state_shown node false ≡ begun true log.now.opening) }
    ensures runs { IfOk result RunsUnlessStopped }
{
    if !are_all_different(alloc, log.opening.names.get())? {
        return Ok(None);
    }
    Node::open(alloc, log.opening.copy_for(alloc, log.opening.me)?)
}

/// One more than a count, if it can be counted.
fn one_more(count: usize) -> Result<usize, Memory>
    ensures { IfOk result (λ more. more ≡ suc count) }
{
    if count == usize::MAX {
        return Err(Memory);
    }
    Ok(count + 1)
}

/// A node that runs takes an input that isn't a crash, and runs on.
fn step<A: Allocator + Copy>(node: &mut Node<A>, input: Input<A>) -> Result<Envelopes<A>, Memory>
    requires runs { Runs node.old }
    requires plain { is_plain input ≡ true }
    ensures log { OnOk result (node.new.log ≡ logged node.old.log input) }
    ensures sends { IfOk result (λ sends. sends ≡ sends_of node.old.log input) }
    ensures runs { OnOk result (Runs node.new) }
    ensures stopped { OnErr result (is_some node.new.stopped ≡ true) }
{
    match node.step(input) {
        Ok(outputs) => Ok(outputs.sends),
        Err(_) => Err(Memory),
    }
}

impl<A: Allocator + Copy> Replay<A> {
    /// The node of a log before its first input. There is none after the first log of a node.
    pub(crate) fn new(alloc: A, log: &NodeLog<A>, first: bool) -> Result<Self, Memory>
        ensures { IfOk result (λ replay. replay ≡ record { state = begun first log.now.opening; placed = 0 }) }
    {
        if !first {
            return Ok(Replay {
                node: None,
                crashed: false,
                placed: 0,
            });
        }
        let node = begin(alloc, log)?;
        Ok(Replay {
            node,
            crashed: false,
            placed: 0,
        })
    }

    /// How many inputs have come.
    pub(crate) fn placed(&self) -> usize
        ensures { result ≡ self.now.placed }
    {
        self.placed
    }

    /// Whether there is a node that takes inputs.
    pub(crate) fn runs(&self) -> bool
        ensures { result ≡ spec.runs self.now.state }
    {
        match &self.node {
            Some(node) => !self.crashed && node.stopped().is_none(),
            None => false,
        }
    }

    /// Whether the node has given the answer to the command.
    pub(crate) fn has_answer(&self, id: CommandId) -> bool
        ensures { result ≡ is_some (spec.answer self.now.state id) }
    {
        let (user, ticket) = id.get();
        match &self.node {
            Some(node) => node.has_answer(user, ticket),
            None => false,
        }
    }

    /// The next input of the log comes. After `Memory` nothing is said of the node.
    pub(crate) fn take(&mut self, alloc: A, input: &Input<A>) -> Result<Envelopes<A>, Memory>
        requires { spec.runs self.old.state ≡ true }
        ensures value { OnOk result (self.new ≡ record { state = spec.after self.old.state input.now; placed = suc self.old.placed }) }
        ensures sends { IfOk result (λ sends. sends ≡ spec.sends self.old.state input.now) }
    {
        let placed = one_more(self.placed)?;
        if let Input::Crash = input {
            self.crashed = true;
            self.placed = placed;
            return Ok(Items::new(alloc));
        }
        let copy = input.copy()?;
        let Some(node) = &mut self.node else {
            return Err(Memory);
        };
        let sends = step(node, copy)?;
        self.placed = placed;
        Ok(sends)
    }

    /// Whether there is a node, and it hasn't run out of memory.
    fn has_node(&self) -> bool
        ensures { result ≡ is_some self.now.state }
    {
        match &self.node {
            Some(node) => node.stopped().is_none(),
            None => false,
        }
    }

    /// The answers of the node, which can then be taken.
    pub(crate) fn into_outcomes(self) -> Outcomes<A>
        ensures begun { is_some result ≡ is_some self.state }
        ensures left { (id : CommandId) → answers_left result id ≡ spec.answer self.state id }
    {
        if self.has_node() {
            return Outcomes { node: self.node };
        }
        Outcomes { node: None }
    }
}
