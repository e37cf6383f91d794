//! An index of messages by how often they have arrived: what arrives next is found in a few steps, however many messages there are.
//!
//! The places of all messages are the nodes of a binary tree, in order: the block of a place is its subtree. The index has
//! the fewest arrivals of each block, so that a search passes over a block that can't have what it looks for. Arrivals only
//! become more, and a node that is down stays down: an entry that wasn't brought up to date is too small, and never wrong.
ghost use Rattle.std.specs.Prelude.{◌≡◌, ◌+◌, ◌^◌, ◌<◌, ◌≤◌, slice_get};
ghost use Rattle.world.specs.Hosts.{network_of};
ghost use Rattle.runs.specs.Messages.{Network};
ghost use Rattle.world.specs.Scheduling.{reach, HasArrived, HaveArrived, IsFewest, AreFewest};

use crate::nodes::Nodes;
use std::alloc::Allocator;

/// For each message the fewest arrivals in its block. Where there was no memory for an entry it ends before its place.
pub(crate) type Index<A> = Vec<u64, A>;

/// How far the block of a place goes, on either side of it.
#[tactic(auto, using(std::proofs::lemmas::Nat::and_le_l), unfolding(crate::specs::Scheduling::reach))]
fn reach(place: usize) -> usize
    requires { place < 2 ^ 63 }
    ensures value { result ≡ reach place }
    ensures within { result ≤ place }
{
    place & !(place + 1)
}

/// The first place after the block of this one.
pub(crate) fn block_end(place: usize) -> usize
    requires { place < 2 ^ 63 }
    ensures { result ≡ place + reach place + 1 }
{
    place + reach(place) + 1
}

/// The first place of the block of this one.
pub(crate) fn block_start(place: usize) -> usize
    requires { place < 2 ^ 63 }
    ensures { result + reach place ≡ place }
{
    place - reach(place)
}

/// How often all messages from one place up to another have arrived at least, as their blocks say.
fn fewest_between<A: Allocator>(index: &Index<A>, from: usize, to: usize) -> u64
    ensures { (w : Network A) → AreFewest w index.now.items → HaveArrived w result from to }
{
    let mut fewest = u64::MAX;
    let mut place = from;
    while place < to {
        let Some(block) = index.get(place) else {
            return 0;
        };
        fewest = fewest.min(*block);
        place = block_end(place);
    }
    fewest
}

/// How often a message has arrived; as often as can be counted, if its addressee is down.
fn arrivals<A: Allocator + Copy>(nodes: &Nodes<A>, place: usize) -> u64
    ensures { HasArrived (network_of nodes.now).logs result (slice_get nodes.now.sent place) }
{
    match nodes.sent().get(place) {
        Some(message) => {
            if nodes.is_up(message.envelope.to) {
                message.arrived
            } else {
                u64::MAX
            }
        }
        None => 0,
    }
}

/// How often all messages of a block have arrived at least.
fn fewest_in_block<A: Allocator + Copy>(nodes: &Nodes<A>, index: &Index<A>, place: usize) -> u64
    requires place { place < 2 ^ 63 }
    requires index { AreFewest (network_of nodes.now) index.now.items }
    ensures { IsFewest (network_of nodes.now) place result }
{
    let before = fewest_between(index, block_start(place), place);
    let behind = fewest_between(index, place + 1, block_end(place));
    arrivals(nodes, place).min(before).min(behind)
}

/// Brings the entry of a block up to date. Gives whether it was another.
fn update<A: Allocator + Copy>(nodes: &Nodes<A>, index: &mut Index<A>, place: usize) -> bool
    requires place { place < 2 ^ 63 }
    requires index { AreFewest (network_of nodes.now) index.old.items }
    ensures { AreFewest (network_of nodes.now) index.new.items }
{
    let fewest = fewest_in_block(nodes, index, place);
    match index.get_mut(place) {
        Some(entry) if *entry != fewest => {
            *entry = fewest;
            true
        }
        _ => false,
    }
}

/// Brings the blocks that have a message up to date, the smallest first, as far as it changes them.
pub(crate) fn refresh<A: Allocator + Copy>(nodes: &Nodes<A>, index: &mut Index<A>, place: usize)
    requires { AreFewest (network_of nodes.now) index.old.items }
    ensures { AreFewest (network_of nodes.now) index.new.items }
{
    for level in place.trailing_ones()..usize::BITS {
        let size = 1 << level;
        let block = (place | (size - 1)) & !size;
        if size > index.len() {
            return;
        }
        if block < index.len() && !update(nodes, index, block) {
            return;
        }
    }
}

/// Takes in the messages that were sent since. Where there is no memory the index ends before them.
pub(crate) fn take_in<A: Allocator + Copy>(nodes: &Nodes<A>, index: &mut Index<A>)
    requires { AreFewest (network_of nodes.now) index.old.items }
    ensures { AreFewest (network_of nodes.now) index.new.items }
{
    for place in index.len()..nodes.sent().len() {
        if index.push(0).is_err() {
            return;
        }
        refresh(nodes, index, place);
    }
}

/// Passes over the messages to nodes that are down. It looks at all messages: a node stops at most once.
pub(crate) fn pass_over<A: Allocator + Copy>(nodes: &Nodes<A>, index: &mut Index<A>)
    requires { AreFewest (network_of nodes.now) index.old.items }
    ensures { AreFewest (network_of nodes.now) index.new.items }
{
    for (place, message) in nodes.sent().iter().enumerate() {
        if !nodes.is_up(message.envelope.to) {
            refresh(nodes, index, place);
        }
    }
}
