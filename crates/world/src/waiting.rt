//! An index of who awaits the answer to a command: those whose answer may be there are found without looking at the others.
ghost use Rattle.std.specs.Prelude.{◌≡◌, ◌+◌, ◌<◌, ◌≤◌, [], ℕ, Some, true, false, length, replicate, drop, set, slice_get, IfSome, IfNone, IfOk};
ghost use Rattle.std.specs.BTreeSet.{contains};
ghost use Rattle.std.specs.Ordering.{nat_cmp};
ghost use Rattle.maildrop.specs.CommandId.{CommandId, compare_ids};
ghost use Rattle.node.specs.Replay.{mail_rules};
ghost use Rattle.replica.specs.Replicas.{has_identity};
ghost use Rattle.world.specs.Waiting.{MayHave, IsWatched, WatchesBut, nowhere, only_at, NoneMay, NoneMayFrom};

use crate::nodes::place_of;
use ballot::{Memory, Slot};
use maildrop::{CommandId, SharedCommand};
use std::alloc::{Allocator, Global};
use std::collections::{BTreeMap, BTreeSet};
use std::marker::Model;

/// Who awaits an answer, by places that the caller counts from 0, and to which commands. `World` has its sessions so, in the
/// order in which they connected.
#[derive(Drop)]
pub struct Waiting<A: Allocator = Global> {
    /// The commands that weren't performed by their nodes when these were looked at last, each with the place that awaits it.
    commands: BTreeMap<CommandId, usize, A>,
    /// The places whose answers may be there.
    places: BTreeSet<usize, A>,
    /// Whether no place is missing. Since there was no memory for one, the answer of any place may be there.
    is_whole: bool,
    /// How many commands each node had performed when it was looked at last.
    heard: Vec<usize, A>,
}

impl<A: Allocator> Model for Waiting<A> {
    ghost use Rattle.world.specs.Waiting.{Waiting};

    ghost Value = { Waiting };

    ghost view = { λ w. record { commands = w.commands.entries; places = w.places; is_whole = w.is_whole; heard = w.heard.items } };
}

/// The first of these places from one on. Logarithmic in their number.
fn first_from<A: Allocator>(places: &BTreeSet<usize, A>, from: usize) -> Option<usize>
    ensures some { IfSome result (λ place. (from ≤ place) × ((other : ℕ) → from ≤ other → other < place → contains nat_cmp places.now other ≡ false)) }
    ensures none { IfNone result ((other : ℕ) → from ≤ other → contains nat_cmp places.now other ≡ false) }
{
    match places.range(from..).next() {
        Some(place) => Some(*place),
        None => None,
    }
}

/// What was performed after so many commands.
fn behind<A: Allocator>(
    performed: &[(Slot, SharedCommand<A>)],
    count: usize,
) -> &[(Slot, SharedCommand<A>)]
    ensures { result.now ≡ drop count performed.now }
{
    performed.get(count..).unwrap_or_default()
}

impl<A: Allocator + Copy> Waiting<A> {
    /// Nobody awaits an answer, and so many nodes have performed nothing.
    pub fn new(alloc: A, nodes: usize) -> Result<Self, Memory>
        ensures { IfOk result (λ waiting. waiting.heard ≡ replicate nodes 0) }
    {
        let mut heard = Vec::new(alloc);
        heard.resize(nodes, 0)?;
        Ok(Waiting {
            commands: BTreeMap::new(alloc),
            places: BTreeSet::new(alloc),
            is_whole: true,
            heard,
        })
    }

    /// How many nodes there are.
    pub fn nodes(&self) -> usize
        ensures { result ≡ length self.now.heard }
    {
        self.heard.len()
    }

    /// The answer that is awaited at this place may be there. Without memory for the place, the answer of any place may from
    /// then on.
    pub(crate) fn add(&mut self, place: usize)
        ensures own { MayHave self.new place }
        ensures others { (other : ℕ) → MayHave self.old other → MayHave self.new other }
        ensures commands { self.new.commands ≡ self.old.commands }
        ensures heard { self.new.heard ≡ self.old.heard }
    {
        let is_added = self.places.insert(place).is_ok();
        self.is_whole = self.is_whole && is_added;
    }

    /// At this place the answer to a command is awaited that its node hasn't performed, as far as it was looked at. Without
    /// memory for it, the answer of any place may be there from then on.
    pub fn watch(&mut self, place: usize, id: CommandId)
        ensures own { IsWatched self.new place id }
        ensures others { WatchesBut (only_at place) self.old self.new }
    {
        match self.commands.insert(id, place) {
            Ok(Some(other)) => self.add(other),
            Ok(None) => {}
            Err(_) => self.add(place),
        }
    }

    /// At this place no answer is awaited that may be there.
    pub fn remove(&mut self, place: usize)
        ensures others { (other : ℕ) → (other ≡ place → ⊥) → MayHave self.old other → MayHave self.new other }
        ensures commands { self.new.commands ≡ self.old.commands }
        ensures heard { self.new.heard ≡ self.old.heard }
    {
        let _ = self.places.remove(&place);
    }

    /// A node, counted from 0, has performed this command: if it is the node of the command's ticket, its answer may be
    /// there.
    fn hear_one(&mut self, node: usize, id: CommandId)
        ensures own { id.ticket.node ≡ node + 1 → (place : ℕ) → IsWatched self.old place id → MayHave self.new place }
        ensures others { WatchesBut nowhere self.old self.new }
    {
        let (_, ticket) = id.get();
        let (at, _) = ticket.get();
        if place_of(at) == node {
            if let Some(place) = self.commands.remove(&id) {
                self.add(place);
            }
        }
    }

    /// A node, counted from 0, has performed these commands, in order.
    fn hear_all(&mut self, node: usize, news: &[(Slot, SharedCommand<A>)])
        ensures own { (id : CommandId) → id.ticket.node ≡ node + 1 → has_identity mail_rules id news.now ≡ true → (place : ℕ) → IsWatched self.old place id → MayHave self.new place }
        ensures others { WatchesBut nowhere self.old self.new }
    {
        for (_, command) in news {
            self.hear_one(node, command.get().id());
        }
    }

    /// A node, counted from 0, has performed these commands since it began, in order. Only those that it hadn't when it
    /// was looked at last are looked at.
    pub fn hear(&mut self, node: usize, performed: &[(Slot, SharedCommand<A>)])
        ensures heard { self.new.heard ≡ set self.old.heard node (length performed.now) }
        ensures own { (id : CommandId) (count : ℕ) → id.ticket.node ≡ node + 1 → slice_get self.old.heard node ≡ Some count
            → has_identity mail_rules id (drop count performed.now) ≡ true → (place : ℕ) → IsWatched self.old place id → MayHave self.new place }
        ensures watched { (place : ℕ) (id : CommandId) → IsWatched self.old place id → IsWatched self.new place id }
        ensures may { (place : ℕ) → MayHave self.old place → MayHave self.new place }
    {
        let Some(heard) = self.heard.get(node) else {
            return;
        };
        let news = behind(performed, *heard);
        self.hear_all(node, news);
        self.count(node, performed.len());
    }

    /// So many commands of a node, counted from 0, were looked at.
    fn count(&mut self, node: usize, performed: usize)
        ensures { self.new ≡ record { commands = self.old.commands; places = self.old.places; is_whole = self.old.is_whole; heard = set self.old.heard node performed } }
    {
        if let Some(heard) = self.heard.get_mut(node) {
            *heard = performed;
        }
    }

    /// The first place from this one on whose answer may be there, which may be one that nobody has. Logarithmic in the
    /// number of places, but every place since there was no memory for one.
    pub fn next(&self, from: usize) -> Option<usize>
        ensures some { IfSome result (λ place. (from ≤ place) × NoneMay self.now from place) }
        ensures none { IfNone result (NoneMayFrom self.now from) }
    {
        if self.is_whole {
            first_from(&self.places, from)
        } else {
            Some(from)
        }
    }
}
