//! The maildrops of users while no office has them open.
ghost use Rattle.std.specs.Prelude.{◌≡◌, ℕ, List, [], ◌∷◌, true, false, None, length, slice_get, take, map, option_map, unwrap_or, IfOk, OnOk, OnErr};
ghost use Rattle.std.specs.Map.{lookup};
ghost use Rattle.std.specs.Str.{bytes_eq};
ghost use Rattle.maildrop.specs.Changes.{can_change, changed_if_fit};
ghost use Rattle.maildrop.specs.Kept.{kept_for, nothing_kept, has_name, with_others_of};
ghost use Rattle.maildrop.specs.Maildrop.{closed, opened};
ghost use Rattle.maildrop.specs.Changes.{kept_in};
ghost use Rattle.maildrop.specs.Office.{users_of, kept_of};

use crate::change::Change;
use crate::key::Key;
use crate::limits::Limits;
use crate::maildrop::Maildrop;
use crate::message::Message;
use crate::name::Name;
use ballot::Memory;
use indexmap::IndexMap;
use std::alloc::{Allocator, Global};
use std::hash::{BuildHasherDefault, FoldHasher};
use std::marker::Model;

/// Maildrops by the names of their users, in the order in which the names were added.
pub(crate) type Maildrops<A> = IndexMap<Name, Maildrop<A>, BuildHasherDefault<FoldHasher>, A>;

/// The maildrops that an office had when it was closed, by the names of their users: messages, next unique ids and keys.
/// Holders of locks and limits are forgotten. Another office can open with them.
#[derive(Drop)]
pub struct Kept<A: Allocator = Global> {
    maildrops: Maildrops<A>,
}

impl<A: Allocator> Model for Kept<A> {
    ghost use Rattle.maildrop.specs.Kept.{KeptTable};
    ghost use Rattle.maildrop.specs.Office.{users_of, kept_of};

    ghost Value = { KeptTable A };

    ghost view = { λ k. kept_of (users_of k.maildrops.entries) };
}

impl<A: Allocator + Copy> Kept<A> {
    /// Nothing is kept. Takes no memory.
    pub fn new(alloc: A) -> Self
        ensures { result ≡ [] }
    {
        Kept {
            maildrops: IndexMap::new(alloc),
        }
    }

    /// These maildrops. Takes no memory.
    pub(crate) fn of(maildrops: Maildrops<A>) -> Self
        ensures { result ≡ kept_of (users_of maildrops.entries) }
    {
        Kept { maildrops }
    }

    /// Adds what another one keeps of users that this one keeps nothing of, so that nothing is lost of a user who has no
    /// maildrop for a time. After `Memory` nothing has changed. The texts share their lines.
    pub fn add_others_of(&mut self, other: &Kept<A>) -> Result<(), Memory>
        ensures all { OnOk result (self.new ≡ with_others_of self.old other.now) }
        ensures own { (name : List ℕ) → has_name name self.old ≡ true → kept_for name self.new ≡ kept_for name self.old }
        ensures others { OnOk result ((name : List ℕ) → has_name name self.old ≡ false → kept_for name self.new ≡ kept_for name other.now) }
        ensures err { OnErr result (self.new ≡ self.old) }
    {
        let own = self.maildrops.len();
        if let Err(error) = add_others(&mut self.maildrops, &other.maildrops) {
            self.maildrops.truncate(own);
            return Err(error);
        }
        Ok(())
    }

    /// Changes what is kept of a user, and returns whether it can change so. If it can't, nothing changes, nor after `Memory`.
    /// Nothing changes of other users.
    pub fn change(&mut self, name: Name, change: &Change<A>) -> Result<bool, Memory>
        ensures can { IfOk result (λ can. can ≡ can_change (kept_for name self.old) change.now) }
        ensures after { OnOk result (kept_for name self.new ≡ changed_if_fit (kept_for name self.old) change.now) }
        ensures others { (other : List ℕ) → bytes_eq other name ≡ false → kept_for other self.new ≡ kept_for other self.old }
        ensures err { OnErr result (self.new ≡ self.old) }
    {
        change_in(&mut self.maildrops, name, change)
    }

    /// How many users it keeps something of.
    pub fn users(&self) -> usize
        ensures { result ≡ length self.now }
    {
        self.maildrops.len()
    }

    /// The name of the user at this place. The first place is 0.
    pub fn name_at(&self, place: usize) -> Option<Name>
        ensures { result ≡ slice_get (map (λ e. e.0) self.now) place }
    {
        name_at(&self.maildrops, place)
    }

    /// The messages that are kept of a user, in order of their unique ids.
    pub fn messages(&self, name: &Name) -> &[Message<A>]
        ensures { result.now ≡ (kept_for name.now self.now).messages }
    {
        messages_in(&self.maildrops, name)
    }

    /// The next unique id that is kept of a user.
    pub fn next_uid(&self, name: &Name) -> u64
        ensures { result ≡ (kept_for name.now self.now).next_uid }
    {
        next_uid_in(&self.maildrops, name)
    }

    /// How many keys are kept of a user.
    pub fn key_count(&self, name: &Name) -> usize
        ensures { result ≡ length (kept_for name.now self.now).keys }
    {
        key_count_in(&self.maildrops, name)
    }

    /// The key of a user at this place, in the order in which they came, with the unique id of its message. The first place is
    /// 0.
    pub fn key_at(&self, name: &Name, place: usize) -> Option<(Key, u64)>
        ensures { result ≡ slice_get (kept_for name.now self.now).keys place }
    {
        key_in(&self.maildrops, name, place)
    }

    /// The user's maildrop with these limits and the last `keys` of its keys: an empty one if nothing is kept of the
    /// user. The texts share their lines.
    pub(crate) fn open(
        &self,
        alloc: A,
        name: Name,
        limits: Limits,
        keys: usize,
    ) -> Result<Maildrop<A>, Memory>
        ensures { IfOk result (λ maildrop. maildrop ≡ opened limits keys (kept_for name self.now)) }
    {
        open_in(&self.maildrops, alloc, name, limits, keys)
    }
}

fn open_in<A: Allocator + Copy>(
    maildrops: &Maildrops<A>,
    alloc: A,
    name: Name,
    limits: Limits,
    keys: usize,
) -> Result<Maildrop<A>, Memory>
    ensures { IfOk result (λ maildrop. maildrop ≡ opened limits keys (unwrap_or (option_map closed (lookup (bytes_eq name) maildrops.now.entries)) nothing_kept)) }
{
    match maildrops.get(&name) {
        None => Ok(Maildrop::new(alloc, limits)),
        Some(maildrop) => maildrop.reopen(alloc, limits, keys),
    }
}

fn change_in<A: Allocator + Copy>(
    maildrops: &mut Maildrops<A>,
    name: Name,
    change: &Change<A>,
) -> Result<bool, Memory>
    ensures can { IfOk result (λ can. can ≡ can_change (kept_in name maildrops.old.entries) change.now) }
    ensures after { OnOk result (kept_in name maildrops.new.entries ≡ changed_if_fit (kept_in name maildrops.old.entries) change.now) }
    ensures others { (other : List ℕ) → bytes_eq other name ≡ false → kept_in other maildrops.new.entries ≡ kept_in other maildrops.old.entries }
    ensures err { OnErr result (maildrops.new.entries ≡ maildrops.old.entries) }
{
    match maildrops.get_mut(&name) {
        Some(maildrop) => maildrop.change(change),
        None => change_new(maildrops, name, change),
    }
}

/// Adds a user of whom nothing is kept, and changes that.
fn change_new<A: Allocator + Copy>(
    maildrops: &mut Maildrops<A>,
    name: Name,
    change: &Change<A>,
) -> Result<bool, Memory>
    requires { lookup (bytes_eq name) maildrops.old.entries ≡ None }
    ensures can { IfOk result (λ can. can ≡ can_change nothing_kept change.now) }
    ensures after { OnOk result (kept_in name maildrops.new.entries ≡ changed_if_fit nothing_kept change.now) }
    ensures others { (other : List ℕ) → bytes_eq other name ≡ false → kept_in other maildrops.new.entries ≡ kept_in other maildrops.old.entries }
    ensures err { OnErr result (maildrops.new.entries ≡ maildrops.old.entries) }
{
    let mut maildrop = Maildrop::new(*maildrops.allocator(), Limits::NONE);
    let can = maildrop.change(change)?;
    maildrops.insert(name, maildrop)?;
    Ok(can)
}

fn name_at<A: Allocator + Copy>(maildrops: &Maildrops<A>, place: usize) -> Option<Name>
    ensures { result ≡ option_map (λ e. e.0) (slice_get maildrops.now.entries place) }
{
    match maildrops.get_index(place) {
        None => None,
        Some((name, _)) => Some(*name),
    }
}

fn messages_in<'a, A: Allocator + Copy>(
    maildrops: &'a Maildrops<A>,
    name: &Name,
) -> &'a [Message<A>]
    ensures { result.now ≡ (kept_in name.now maildrops.now.entries).messages }
{
    match maildrops.get(name) {
        None => &[],
        Some(maildrop) => maildrop.messages(),
    }
}

fn next_uid_in<A: Allocator + Copy>(maildrops: &Maildrops<A>, name: &Name) -> u64
    ensures { result ≡ (kept_in name.now maildrops.now.entries).next_uid }
{
    match maildrops.get(name) {
        None => 1,
        Some(maildrop) => maildrop.usage().next_uid,
    }
}

fn key_count_in<A: Allocator + Copy>(maildrops: &Maildrops<A>, name: &Name) -> usize
    ensures { result ≡ length (kept_in name.now maildrops.now.entries).keys }
{
    match maildrops.get(name) {
        None => 0,
        Some(maildrop) => maildrop.key_count(),
    }
}

fn key_in<A: Allocator + Copy>(
    maildrops: &Maildrops<A>,
    name: &Name,
    place: usize,
) -> Option<(Key, u64)>
    ensures { result ≡ slice_get (kept_in name.now maildrops.now.entries).keys place }
{
    match maildrops.get(name) {
        None => None,
        Some(maildrop) => maildrop.key_at(place),
    }
}

/// Adds copies of the maildrops of other users, in their order. After `Memory` some may be there, after the first ones.
fn add_others<A: Allocator + Copy>(
    maildrops: &mut Maildrops<A>,
    others: &Maildrops<A>,
) -> Result<(), Memory>
    ensures all { OnOk result (maildrops.new.entries ≡ with_others_of maildrops.old.entries others.now.entries) }
    ensures err { OnErr result (take (length maildrops.old.entries) maildrops.new.entries ≡ maildrops.old.entries) }
{
    for i in 0..others.len() {
        let Some((name, maildrop)) = others.get_index(i) else {
            unreachable!()
        };
        add_other(maildrops, name, maildrop)?;
    }
    Ok(())
}

/// Adds a copy of a maildrop, unless there is one of this name.
fn add_other<A: Allocator + Copy>(
    maildrops: &mut Maildrops<A>,
    name: &Name,
    maildrop: &Maildrop<A>,
) -> Result<(), Memory>
    ensures all { OnOk result (maildrops.new.entries ≡ with_others_of maildrops.old.entries ((name.now, maildrop.now) ∷ [])) }
    ensures err { OnErr result (maildrops.new.entries ≡ maildrops.old.entries) }
{
    if maildrops.contains_key(name) {
        return Ok(());
    }
    let copy = maildrop.copy(*maildrops.allocator())?;
    maildrops.insert(*name, copy)?;
    Ok(())
}
