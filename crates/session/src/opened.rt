//! The maildrop that a session has opened.
ghost use Rattle.std.specs.Prelude.{◌≡◌, true, false, ℕ, ◌-◌, ◌≤◌, List, Some, None, length, map, slice_set, IsTrue, is_some, IfOk, OnOk, MatchOption};
ghost use Rattle.std.specs.List.{list_any};
ghost use Rattle.std.specs.Option.{option_map_or};
ghost use Rattle.maildrop.specs.Limits.{most_messages, most_octets};
ghost use Rattle.maildrop.specs.Taken.{message_octets};
ghost use Rattle.session.specs.OpenMessages as spec;

use crate::open_message::OpenMessage;
use ballot::Memory;
use maildrop::{Message, Taken, Uids};
use pop3_wire::{Identified, Listed};
use std::alloc::{Allocator, Global};
use std::marker::Model;

/// The messages of an open maildrop, numbered from 1, and which of them are marked as deleted. How many are unmarked,
/// and their octets, are kept, so that no message is counted twice.
#[derive(Drop)]
pub struct Opened<A: Allocator = Global> {
    entries: Vec<OpenMessage<A>, A>,
    messages: u64,
    octets: u64,
}

impl<A: Allocator> Model for Opened<A> {
    ghost use Rattle.std.specs.Prelude.{List};
    ghost use Rattle.session.specs.declared.open_message.OpenMessage.{OpenMessage};
    ghost use Rattle.session.specs.OpenMessages.{AreCounted};

    ghost Value = { List (OpenMessage A) };

    ghost view = { λ o. o.entries.items };

    ghost invariant = { λ o. AreCounted o.entries.items o.messages o.octets };
}

impl<A: Allocator + Copy> Opened<A> {
    /// A maildrop whose lock was taken, with these messages.
    pub fn new(alloc: A, taken: &Taken<A>) -> Result<Self, Memory>
        ensures { IfOk result (λ opened. opened ≡ map spec.open_message_of taken.now) }
    {
        let entries = entries_of(alloc, taken.get())?;
        let messages = entries.len() as u64;
        let octets = octets_in(&entries);
        Ok(Opened {
            entries,
            messages,
            octets,
        })
    }

    /// How many messages are unmarked.
    pub fn messages(&self) -> u64
        ensures { result ≡ length (spec.unmarked self.now) }
    {
        self.messages
    }

    /// The octets of the unmarked messages together.
    pub fn octets(&self) -> u64
        ensures { result ≡ spec.octets_in (spec.unmarked self.now) }
    {
        self.octets
    }

    /// The message of a number, unless it is absent or marked.
    pub fn get(&self, number: u32) -> Option<&OpenMessage<A>>
        ensures { MatchOption result (spec.message_at self.now number ≡ None) (λ entry. spec.message_at self.now number ≡ Some entry.now) }
    {
        let place = number.checked_sub(1)?;
        let entry = self.entries.get(place as usize)?;
        if entry.marked { None } else { Some(entry) }
    }

    /// Marks the message of a number, unless it is absent or marked already. Answers whether it did.
    pub fn mark(&mut self, number: u32) -> bool
        ensures found { result ≡ is_some (spec.message_at self.old number) }
        ensures marked { self.new ≡ option_map_or (λ entry. slice_set self.old (number - 1) (record entry { marked = true })) (spec.message_at self.old number) self.old }
    {
        if self.get(number).is_none() {
            return false;
        }
        let entry = &mut self.entries[number as usize - 1];
        entry.marked = true;
        self.messages -= 1;
        self.octets -= entry.octets;
        true
    }

    /// Takes all marks away.
    pub fn reset(&mut self)
        ensures { self.new ≡ map (λ (entry : OpenMessage A). record entry { marked = false }) self.old }
    {
        remove_marks(&mut self.entries);
        self.messages = self.entries.len() as u64;
        self.octets = octets_in(&self.entries);
    }

    /// Whether a message is marked.
    pub fn has_marks(&self) -> bool
        ensures { result ≡ list_any (λ entry. entry.marked) self.now }
    {
        self.entries.iter().any(|entry| entry.marked)
    }

    /// The unmarked messages, as LIST shows them.
    pub fn listed(&self, alloc: A) -> Result<Vec<Listed, A>, Memory>
        ensures { IfOk result (λ listed. listed.items ≡ map (λ (number, entry). record { number = number; octets = entry.octets }) (spec.numbered_unmarked self.now)) }
    {
        listed_of(alloc, &self.entries)
    }

    /// The unmarked messages, as UIDL shows them.
    pub fn identified(&self, alloc: A) -> Result<Vec<Identified, A>, Memory>
        ensures { IfOk result (λ identified. identified.items ≡ map (λ (number, entry). record { number = number; uid = entry.message.uid }) (spec.numbered_unmarked self.now)) }
    {
        identified_of(alloc, &self.entries)
    }

    /// The unique ids of the marked messages.
    pub fn marked_uids(&self, alloc: A) -> Result<Uids<A>, Memory>
        ensures { IfOk result (λ uids. uids ≡ spec.marked_uids self.now) }
    {
        let uids = marked_uids_of(alloc, &self.entries)?;
        Ok(Uids::new(uids).unwrap())
    }
}

fn listed_of<A: Allocator + Copy>(
    alloc: A,
    entries: &[OpenMessage<A>],
) -> Result<Vec<Listed, A>, Memory>
    requires { length entries.now ≤ most_messages }
    ensures { IfOk result (λ listed. listed.items ≡ map (λ (number, entry). record { number = number; octets = entry.octets }) (spec.numbered_unmarked entries.now)) }
{
    let mut listed = Vec::with_capacity(alloc, entries.len())?;
    let mut number = 1u64;
    for entry in entries {
        if !entry.marked {
            listed.push(Listed {
                number,
                octets: entry.octets,
            })?;
        }
        number += 1;
    }
    Ok(listed)
}

fn identified_of<A: Allocator + Copy>(
    alloc: A,
    entries: &[OpenMessage<A>],
) -> Result<Vec<Identified, A>, Memory>
    requires { length entries.now ≤ most_messages }
    ensures { IfOk result (λ identified. identified.items ≡ map (λ (number, entry). record { number = number; uid = entry.message.uid }) (spec.numbered_unmarked entries.now)) }
{
    let mut identified = Vec::with_capacity(alloc, entries.len())?;
    let mut number = 1u64;
    for entry in entries {
        if !entry.marked {
            identified.push(Identified {
                number,
                uid: entry.message.uid,
            })?;
        }
        number += 1;
    }
    Ok(identified)
}

fn marked_uids_of<A: Allocator + Copy>(
    alloc: A,
    entries: &[OpenMessage<A>],
) -> Result<Vec<u64, A>, Memory>
    ensures { IfOk result (λ uids. uids.items ≡ spec.marked_uids entries.now) }
{
    let uids = entries
        .iter()
        .filter(|entry| entry.marked)
        .map(|entry| entry.message.uid)
        .collect(alloc)?;
    Ok(uids)
}

fn remove_marks<A: Allocator + Copy>(entries: &mut Vec<OpenMessage<A>, A>)
    ensures { entries.new.items ≡ map (λ (entry : OpenMessage A). record entry { marked = false }) entries.old.items }
{
    for entry in entries.iter_mut() {
        entry.marked = false;
    }
}

fn octets_in<A: Allocator + Copy>(entries: &[OpenMessage<A>]) -> u64
    requires { spec.octets_in entries.now ≤ most_octets }
    ensures { result ≡ spec.octets_in entries.now }
{
    let mut octets = 0;
    for entry in entries {
        octets += entry.octets;
    }
    octets
}

fn entries_of<A: Allocator + Copy>(
    alloc: A,
    messages: &[Message<A>],
) -> Result<Vec<OpenMessage<A>, A>, Memory>
    requires { message_octets messages.now ≤ most_octets }
    ensures { IfOk result (λ entries. entries.items ≡ map spec.open_message_of messages.now) }
{
    let mut entries = Vec::with_capacity(alloc, messages.len())?;
    for message in messages {
        let octets = message.text.octets() as u64;
        let message = message.copy()?;
        entries.push_reserved(OpenMessage {
            message,
            octets,
            marked: false,
        });
    }
    Ok(entries)
}
