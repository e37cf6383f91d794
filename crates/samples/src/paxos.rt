//! Commands that own memory, and the values of Multi-Paxos that many scenarios need.
ghost use Rattle.std.specs.Prelude.{◌==◌, ℕ};
ghost use Rattle.std.proofs.Common.{rules};

use ballot::{Ballot, Cluster, Items, Memory, NodeId, PValue, Payload, Promise, Slot};
use std::alloc::{Allocator, Global};
use std::marker::Model;
use std::test::Fail;

/// A command that is a number, kept so that each copy of it needs memory.
#[derive(Drop)]
pub struct Number<A: Allocator = Global> {
    value: Box<u64, A>,
}

impl<A: Allocator> Model for Number<A> {
    ghost Value = { ℕ };

    ghost view = { λ number. number.value.value };
}

impl<A: Allocator + Copy> Payload for Number<A> {
    type Id = u64;

    ghost identity = { λ number. number };

    ghost equal = { λ x y. x == y };

    ghost equality = { Prim.search rules };

    fn copy(&self) -> Result<Self, Memory> {
        let value = Box::new(*Box::allocator(&self.value), *self.value)?;
        Ok(Number { value })
    }

    fn same(&self, other: &Self) -> bool {
        *self.value == *other.value
    }

    fn id(&self) -> u64 {
        *self.value
    }
}

pub fn new_number<A: Allocator + Copy>(alloc: A, value: u64) -> Result<Number<A>, Memory> {
    let value = Box::new(alloc, value)?;
    Ok(Number { value })
}

pub fn node(number: u8) -> Result<NodeId, Fail> {
    Ok(NodeId::new(number).ok_or("no node")?)
}

pub fn cluster(nodes: u8) -> Result<Cluster, Fail> {
    Ok(Cluster::new(nodes).ok_or("no cluster")?)
}

pub fn three() -> Result<Cluster, Fail> {
    cluster(3)
}

pub fn slot(number: u64) -> Result<Slot, Fail> {
    Ok(Slot::new(number).ok_or("no slot")?)
}

/// The ballot of a round and a node.
pub fn ballot((round, leader): (u64, u8)) -> Result<Ballot, Fail> {
    let leader = node(leader)?;
    Ok(Ballot { round, leader })
}

/// A pvalue in short: its ballot, its slot and its command.
pub type Accepted = ((u64, u8), u64, u64);

pub fn pvalue<A: Allocator + Copy>(
    alloc: A,
    (own, place, value): Accepted,
) -> Result<PValue<Number<A>>, Fail> {
    Ok(PValue {
        ballot: ballot(own)?,
        slot: slot(place)?,
        command: new_number(alloc, value)?,
    })
}

/// An acceptor's answer to this ballot: the ballot that it has, and what it accepted.
pub fn promise<A: Allocator + Copy>(
    alloc: A,
    asked: (u64, u8),
    own: (u64, u8),
    told: &[Accepted],
) -> Result<Promise<Number<A>, A>, Fail> {
    let mut accepted = Items::new(alloc);
    for one in told {
        accepted.push(pvalue(alloc, *one)?)?;
    }
    Ok(Promise {
        asked: ballot(asked)?,
        ballot: ballot(own)?,
        accepted,
    })
}

/// Whether the pvalues are these, in this order.
pub fn are<A: Allocator + Copy>(pvalues: &[PValue<Number<A>>], expected: &[Accepted]) -> bool {
    for (one, other) in pvalues.iter().zip(expected) {
        let own = (one.ballot.round, one.ballot.leader.get());
        if (own, one.slot.get(), one.command.id()) != *other {
            return false;
        }
    }
    pvalues.len() == expected.len()
}
