//! One user's maildrop.
ghost use Rattle.std.specs.Prelude.{◌≡◌, ◌≢◌, ◌==◌, ◌+◌, ◌-◌, ◌<◌, ◌≤◌, ℕ, List, take, drop, true, false, None, Some, Ok, IfOk, IsOk, OnOk, OnErr, slice_get, option_map, length};
ghost use Rattle.std.specs.List.{list_any};
ghost use Rattle.std.specs.Str.{bytes_eq};
ghost use Rattle.indexmap.specs.IndexMap.{IsUnique, index_map_len};
ghost use Rattle.std.specs.List.Sorted.{IsStrictlyIncreasing};
ghost use Rattle.maildrop.specs.Limits.{most_octets};
ghost use Rattle.maildrop.specs.Taken.{message_octets};
ghost use Rattle.maildrop.specs.Key.{uid_of as uid_in, with_key};
ghost use Rattle.maildrop.specs.Maildrop as spec;
ghost use Rattle.maildrop.specs.Changes.{can_change, changed, changed_if_fit, change_of, with_kept};
ghost use Rattle.maildrop.specs.declared.change.Change.TheVariants as change;
ghost use Rattle.maildrop.specs.declared.op.Op.TheVariants as op;

use crate::change::Change;
use crate::key::Key;
use crate::limits::{HIGHEST_ID, Limits, MOST_MESSAGES, MOST_OCTETS};
use crate::message::{Message, copies_of};
use crate::op::Op;
use crate::outcome::Outcome;
use crate::taken::Taken;
use crate::text::Text;
use crate::ticket::Ticket;
use crate::uids::Uids;
use crate::usage::Usage;
use ballot::Memory;
use indexmap::IndexMap;
use std::alloc::{Allocator, Global};
use std::hash::{BuildHasherDefault, FoldHasher};
use std::marker::Model;

/// The keys of deliveries with the unique ids of their messages, in the order in which they came.
type Keys<A> = IndexMap<Key, u64, BuildHasherDefault<FoldHasher>, A>;

/// A user's maildrop: its messages, the keys under which messages came, and the ticket of the Take that holds its
/// lock. The octets of all messages are kept, and a key is found by its hash, so that a message comes in at the same
/// cost however many messages and keys there are.
#[derive(Drop)]
pub struct Maildrop<A: Allocator = Global> {
    messages: Vec<Message<A>, A>,
    octets: u64,
    next_uid: u64,
    holder: Option<Ticket>,
    limits: Limits,
    keys: Keys<A>,
}

impl<A: Allocator> Model for Maildrop<A> {
    ghost use Rattle.std.specs.Prelude.{◌≡◌};
    ghost use Rattle.maildrop.specs.Taken.{message_octets};
    ghost use Rattle.maildrop.specs.Kept.{IsConsistent};
    ghost use Rattle.maildrop.specs.Maildrop.{Maildrop};

    ghost Value = { Maildrop A };

    ghost view = { λ m. record { messages = m.messages.items; next_uid = m.next_uid; holder = m.holder; limits = m.limits; keys = m.keys.entries } };

    ghost invariant = { λ m. (m.octets ≡ message_octets m.messages.items)
        × IsConsistent (record { messages = m.messages.items; next_uid = m.next_uid; keys = m.keys.entries }) };
}

impl<A: Allocator + Copy> Maildrop<A> {
    /// A maildrop without messages, whose lock nobody holds. Takes no memory.
    pub(crate) fn new(alloc: A, limits: Limits) -> Self
        ensures { result ≡ spec.empty_maildrop limits }
    {
        Maildrop {
            messages: Vec::new(alloc),
            octets: 0,
            next_uid: 1,
            holder: None,
            limits,
            keys: IndexMap::new(alloc),
        }
    }

    /// The same maildrop again. The texts share their lines.
    pub(crate) fn copy(&self, alloc: A) -> Result<Self, Memory>
        ensures { IfOk result (λ maildrop. maildrop ≡ self.now) }
    {
        Ok(Maildrop {
            messages: copies_of(alloc, &self.messages)?,
            octets: self.octets,
            next_uid: self.next_uid,
            holder: self.holder,
            limits: self.limits,
            keys: copy_from(alloc, &self.keys, 0)?,
        })
    }

    /// The same maildrop with these limits, the last `keys` of its keys, and nobody who holds its lock. What it has
    /// beyond the limits stays. The texts share their lines.
    pub(crate) fn reopen(&self, alloc: A, limits: Limits, keys: usize) -> Result<Self, Memory>
        ensures { IfOk result (λ maildrop. maildrop ≡ spec.opened limits keys (spec.closed self.now)) }
    {
        let dropped = self.keys.len().saturating_sub(keys);
        Ok(Maildrop {
            messages: copies_of(alloc, &self.messages)?,
            octets: self.octets,
            next_uid: self.next_uid,
            holder: None,
            limits,
            keys: copy_from(alloc, &self.keys, dropped)?,
        })
    }

    /// The ticket of the Take that holds the lock.
    pub(crate) fn holder(&self) -> Option<Ticket>
        ensures { result ≡ self.now.holder }
    {
        self.holder
    }

    /// How much it has. Costs the same however many messages there are.
    pub(crate) fn usage(&self) -> Usage
        ensures { result ≡ spec.usage_of self.now }
    {
        Usage {
            messages: self.messages.len() as u64,
            octets: self.octets,
            next_uid: self.next_uid,
        }
    }

    /// Performs one operation. After `Memory` the maildrop is as it was.
    pub(crate) fn perform(&mut self, ticket: Ticket, op: &Op<A>) -> Result<Outcome<A>, Memory>
        ensures outcome { IfOk result (λ outcome. outcome ≡ (spec.effect_of self.old ticket op.now).outcome) }
        ensures after { OnOk result (self.new ≡ (spec.effect_of self.old ticket op.now).after) }
        ensures err { OnErr result (self.new ≡ self.old) }
        ensures sure { spec.takes_memory self.old op.now ≡ false → IsOk result }
    {
        match op {
            Op::Mail { text, key } => self.mail(text, key),
            Op::Take => self.take(ticket),
            Op::Commit { lock, uids } => Ok(self.commit(*lock, uids)),
            Op::Free { lock } => Ok(self.free(*lock)),
            Op::Break => {
                self.holder = None;
                Ok(Outcome::Done)
            }
        }
    }

    /// Performs one operation without its outcome, and returns what it changes of what is kept. After `Memory` the maildrop
    /// is as it was. Costs the same however many messages there are, but for a Commit.
    pub(crate) fn follow(&mut self, ticket: Ticket, op: &Op<A>) -> Result<Option<Change<A>>, Memory>
        ensures change { IfOk result (λ change. change ≡ change_of self.old op.now) }
        ensures after { OnOk result (self.new ≡ (spec.effect_of self.old ticket op.now).after) }
        ensures err { OnErr result (self.new ≡ self.old) }
    {
        match op {
            Op::Mail { text, key } => self.follow_mail(text, key),
            Op::Take => {
                self.hold(ticket);
                Ok(None)
            }
            Op::Commit { lock, uids } => self.follow_commit(*lock, uids),
            Op::Free { lock } => {
                let _outcome = self.free(*lock);
                Ok(None)
            }
            Op::Break => {
                self.holder = None;
                Ok(None)
            }
        }
    }

    fn follow_mail(
        &mut self,
        text: &Text<A>,
        key: &Option<Key>,
    ) -> Result<Option<Change<A>>, Memory>
        ensures change { IfOk result (λ change. change ≡ change_of self.old (op.Mail text.now key.now)) }
        ensures after { OnOk result (self.new ≡ (spec.delivered self.old text.now key.now (uid_in key.now self.old.keys) (spec.refusal_of self.old text.now)).after) }
        ensures err { OnErr result (self.new ≡ self.old) }
    {
        if uid_of(&self.keys, key).is_some() || self.refusal(text).is_some() {
            return Ok(None);
        }
        let next = self.next_uid;
        let stored = text.copy()?;
        let _outcome = self.store(text, key)?;
        Ok(Some(Change::Stored {
            uid: next,
            text: stored,
            key: *key,
        }))
    }

    /// Takes the lock, unless somebody holds it.
    fn hold(&mut self, ticket: Ticket)
        ensures { self.new ≡ (spec.effect_of_take self.old ticket self.old.holder).after }
    {
        if self.holder.is_none() {
            let holder = Some(ticket);
            self.holder = holder;
        }
    }

    fn follow_commit(&mut self, lock: Ticket, uids: &Uids<A>) -> Result<Option<Change<A>>, Memory>
        ensures change { IfOk result (λ change. change ≡ change_of self.old (op.Commit lock uids.now)) }
        ensures after { OnOk result (self.new ≡ (spec.unlocked self.old lock (spec.without uids.now self.old.messages)).after) }
        ensures err { OnErr result (self.new ≡ self.old) }
    {
        if !is_held_by(&self.holder, lock) {
            return Ok(None);
        }
        let removed = uids.copy()?;
        let _outcome = self.commit(lock, uids);
        Ok(Some(Change::Removed(removed)))
    }

    /// Changes so, and returns whether it can. If it can't, nothing changes, nor after `Memory`.
    pub(crate) fn change(&mut self, change: &Change<A>) -> Result<bool, Memory>
        ensures can { IfOk result (λ can. can ≡ can_change (spec.closed self.old) change.now) }
        ensures after { OnOk result (self.new ≡ with_kept self.old (changed_if_fit (spec.closed self.old) change.now)) }
        ensures err { OnErr result (self.new ≡ self.old) }
    {
        match change {
            Change::Stored { uid, text, key } => self.put_message(*uid, text, key),
            Change::Removed(uids) => {
                self.remove(uids);
                Ok(true)
            }
            Change::Keyed { key, uid } => self.put_key(key, *uid),
            Change::Next(uid) => Ok(self.put_next(*uid)),
        }
    }

    fn put_message(&mut self, uid: u64, text: &Text<A>, key: &Option<Key>) -> Result<bool, Memory>
        ensures can { IfOk result (λ can. can ≡ can_change (spec.closed self.old) (change.Stored uid text.now key.now)) }
        ensures after { OnOk result (self.new ≡ with_kept self.old (changed_if_fit (spec.closed self.old) (change.Stored uid text.now key.now))) }
        ensures err { OnErr result (self.new ≡ self.old) }
    {
        if !self.can_store(uid, text, key) {
            return Ok(false);
        }
        self.add(uid, text, key)?;
        Ok(true)
    }

    fn can_store(&self, uid: u64, text: &Text<A>, key: &Option<Key>) -> bool
        ensures { result ≡ can_change (spec.closed self.now) (change.Stored uid text.now key.now) }
    {
        let size = text.octets();
        if self.messages.len() as u64 >= MOST_MESSAGES || size > MOST_OCTETS as u128 {
            return false;
        }
        if self.octets + size as u64 > MOST_OCTETS || uid < self.next_uid || uid > HIGHEST_ID {
            return false;
        }
        uid_of(&self.keys, key).is_none()
    }

    /// Adds a message that it can have.
    fn add(&mut self, uid: u64, text: &Text<A>, key: &Option<Key>) -> Result<(), Memory>
        requires { can_change (spec.closed self.old) (change.Stored uid text.now key.now) ≡ true }
        ensures ok { OnOk result (self.new ≡ with_kept self.old (changed (spec.closed self.old) (change.Stored uid text.now key.now))) }
        ensures err { OnErr result (self.new ≡ self.old) }
    {
        let octets = text.octets() as u64;
        let text = text.copy()?;
        self.messages.reserve(1)?;
        keep(&mut self.keys, key, uid)?;
        self.messages.push_reserved(Message { uid, text });
        self.octets += octets;
        self.next_uid = uid + 1;
        Ok(())
    }

    /// Removes messages. Takes no memory.
    fn remove(&mut self, uids: &Uids<A>)
        ensures { self.new ≡ with_kept self.old (changed (spec.closed self.old) (change.Removed uids.now)) }
    {
        let listed = uids;
        remove_listed(&mut self.messages, listed);
        let octets = octets_of(&self.messages);
        self.octets = octets;
    }

    fn put_key(&mut self, key: &Key, uid: u64) -> Result<bool, Memory>
        ensures can { IfOk result (λ can. can ≡ can_change (spec.closed self.old) (change.Keyed key.now uid)) }
        ensures after { OnOk result (self.new ≡ with_kept self.old (changed_if_fit (spec.closed self.old) (change.Keyed key.now uid))) }
        ensures err { OnErr result (self.new ≡ self.old) }
    {
        let key = Some(*key);
        if self.keys.len() as u64 + 1 >= self.next_uid || uid_of(&self.keys, &key).is_some() {
            return Ok(false);
        }
        keep(&mut self.keys, &key, uid)?;
        Ok(true)
    }

    /// Sets the next unique id, and returns whether it can be this one.
    fn put_next(&mut self, uid: u64) -> bool
        ensures can { result ≡ can_change (spec.closed self.old) (change.Next uid) }
        ensures after { self.new ≡ with_kept self.old (changed_if_fit (spec.closed self.old) (change.Next uid)) }
    {
        if uid < self.next_uid || uid > HIGHEST_ID + 1 {
            return false;
        }
        self.next_uid = uid;
        true
    }

    /// The messages, in order of their unique ids.
    pub(crate) fn messages(&self) -> &[Message<A>]
        ensures { result.now ≡ self.now.messages }
    {
        &self.messages
    }

    /// How many keys it has.
    pub(crate) fn key_count(&self) -> usize
        ensures { result ≡ length self.now.keys }
    {
        self.keys.len()
    }

    /// The key at this place, in the order in which they came, with the unique id of its message. The first place is 0.
    pub(crate) fn key_at(&self, place: usize) -> Option<(Key, u64)>
        ensures { result ≡ slice_get self.now.keys place }
    {
        match self.keys.get_index(place) {
            None => None,
            Some((key, uid)) => Some((*key, *uid)),
        }
    }

    fn mail(&mut self, text: &Text<A>, key: &Option<Key>) -> Result<Outcome<A>, Memory>
        ensures outcome { IfOk result (λ outcome. outcome ≡ (spec.delivered self.old text.now key.now (uid_in key.now self.old.keys) (spec.refusal_of self.old text.now)).outcome) }
        ensures after { OnOk result (self.new ≡ (spec.delivered self.old text.now key.now (uid_in key.now self.old.keys) (spec.refusal_of self.old text.now)).after) }
        ensures err { OnErr result (self.new ≡ self.old) }
        ensures known { uid_in key.now self.old.keys ≢ None → IsOk result }
        ensures refused { spec.refusal_of self.old text.now ≢ None → IsOk result }
    {
        if let Some(uid) = uid_of(&self.keys, key) {
            return Ok(Outcome::Stored(uid));
        }
        if let Some(refusal) = self.refusal(text) {
            return Ok(refusal);
        }
        self.store(text, key)
    }

    fn refusal(&self, text: &Text<A>) -> Option<Outcome<A>>
        ensures { result ≡ spec.refusal_of self.now text.now }
    {
        let (messages, octets, ids) = self.limits.get();
        let size = text.octets();
        if size > octets as u128 {
            return Some(Outcome::TooLarge);
        }
        if self.messages.len() as u64 >= messages || self.octets + size as u64 > octets {
            return Some(Outcome::Full);
        }
        if self.next_uid > ids {
            return Some(Outcome::IdsUsed);
        }
        None
    }

    fn store(&mut self, text: &Text<A>, key: &Option<Key>) -> Result<Outcome<A>, Memory>
        requires fits { spec.refusal_of self.old text.now ≡ None }
        requires new { uid_in key.now self.old.keys ≡ None }
        ensures outcome { IfOk result (λ outcome. outcome ≡ Outcome.Stored self.old.next_uid) }
        ensures after { OnOk result (self.new ≡ spec.with_message self.old text.now key.now) }
        ensures err { OnErr result (self.new ≡ self.old) }
    {
        let uid = self.next_uid;
        let octets = text.octets() as u64;
        let text = text.copy()?;
        self.messages.reserve(1)?;
        keep(&mut self.keys, key, uid)?;
        self.messages.push_reserved(Message { uid, text });
        self.octets += octets;
        self.next_uid += 1;
        Ok(Outcome::Stored(uid))
    }

    fn take(&mut self, ticket: Ticket) -> Result<Outcome<A>, Memory>
        ensures outcome { IfOk result (λ outcome. outcome ≡ (spec.effect_of_take self.old ticket self.old.holder).outcome) }
        ensures after { OnOk result (self.new ≡ (spec.effect_of_take self.old ticket self.old.holder).after) }
        ensures err { OnErr result (self.new ≡ self.old) }
        ensures in_use { self.old.holder ≢ None → IsOk result }
    {
        if self.holder.is_some() {
            return Ok(Outcome::InUse);
        }
        let messages = copies_of(*self.messages.allocator(), &self.messages)?;
        self.holder = Some(ticket);
        Ok(Outcome::Taken(Taken::new(messages)))
    }

    fn commit(&mut self, lock: Ticket, uids: &Uids<A>) -> Outcome<A>
        ensures outcome { result ≡ (spec.unlocked self.old lock (spec.without uids.now self.old.messages)).outcome }
        ensures after { self.new ≡ (spec.unlocked self.old lock (spec.without uids.now self.old.messages)).after }
    {
        if !is_held_by(&self.holder, lock) {
            return Outcome::NotHolder;
        }
        remove_listed(&mut self.messages, uids);
        self.octets = octets_of(&self.messages);
        self.holder = None;
        Outcome::Done
    }

    fn free(&mut self, lock: Ticket) -> Outcome<A>
        ensures outcome { result ≡ (spec.unlocked self.old lock self.old.messages).outcome }
        ensures after { self.new ≡ (spec.unlocked self.old lock self.old.messages).after }
    {
        if !is_held_by(&self.holder, lock) {
            return Outcome::NotHolder;
        }
        self.holder = None;
        Outcome::Done
    }
}

fn uid_of<A: Allocator + Copy>(keys: &Keys<A>, key: &Option<Key>) -> Option<u64>
    ensures { result ≡ uid_in key.now keys.now.entries }
{
    match key {
        None => None,
        Some(key) => keys.get(key).copied(),
    }
}

fn keep<A: Allocator + Copy>(keys: &mut Keys<A>, key: &Option<Key>, uid: u64) -> Result<(), Memory>
    requires { uid_in key.now keys.old.entries ≡ None }
    ensures ok { OnOk result (keys.new.entries ≡ with_key key.now uid keys.old.entries) }
    ensures err { OnErr result (keys.new.entries ≡ keys.old.entries) }
{
    if let Some(key) = key {
        keys.insert(*key, uid)?;
    }
    Ok(())
}

fn is_held_by(holder: &Option<Ticket>, lock: Ticket) -> bool
    ensures { result ≡ spec.is_held_by holder.now lock }
{
    match holder {
        None => false,
        Some(holder) => *holder == lock,
    }
}

fn is_listed(uid: u64, uids: &[u64]) -> bool
    requires { IsStrictlyIncreasing uids.now }
    ensures { result ≡ list_any (λ listed. listed == uid) uids.now }
{
    uids.binary_search(&uid).is_ok()
}

fn remove_listed<A: Allocator + Copy>(messages: &mut Vec<Message<A>, A>, uids: &Uids<A>)
    ensures { messages.new.items ≡ spec.without uids.now messages.old.items }
{
    let uids = uids.get();
    messages.retain(|message| !is_listed(message.uid, uids));
}

fn octets_of<A: Allocator + Copy>(messages: &[Message<A>]) -> u64
    requires { message_octets messages.now ≤ most_octets }
    ensures { result ≡ message_octets messages.now }
{
    let mut octets = 0;
    for message in messages {
        octets += message.text.octets() as u64;
    }
    octets
}

/// The keys without the first ones.
fn copy_from<A: Allocator + Copy>(alloc: A, keys: &Keys<A>, first: usize) -> Result<Keys<A>, Memory>
    requires { first ≤ index_map_len keys.now }
    ensures { IfOk result (λ copy. copy.entries ≡ drop first keys.now.entries) }
{
    let mut copy = IndexMap::with_capacity(alloc, keys.len() - first)?;
    for i in first..keys.len() {
        copy_next(&mut copy, keys, first, i)?;
    }
    Ok(copy)
}

/// Adds the key that comes after those that were copied.
fn copy_next<A: Allocator + Copy>(
    copy: &mut Keys<A>,
    keys: &Keys<A>,
    first: usize,
    i: usize,
) -> Result<(), Memory>
    requires unique { IsUnique bytes_eq keys.now }
    requires inside { (first ≤ i) × (i < index_map_len keys.now) }
    requires before { copy.old.entries ≡ take (i - first) (drop first keys.now.entries) }
    ensures { OnOk result (copy.new.entries ≡ take (i + 1 - first) (drop first keys.now.entries)) }
{
    let Some((key, uid)) = keys.get_index(i) else {
        unreachable!()
    };
    copy.insert(*key, *uid)?;
    Ok(())
}
