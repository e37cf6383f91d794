//! What nodes have sent so far.
ghost use Rattle.std.specs.Prelude.{◌≡◌, ℕ, ◌∷◌, ◌++◌, [], false, Some, None, IsSome, slice_get, OnOk, IfSome};
ghost use Rattle.indexmap.specs.IndexMap.{get};
ghost use Rattle.std.specs.List.{list_any};
ghost use Rattle.audit.specs.Same.{same_envelope as same};
ghost use Rattle.audit.specs.Sends as spec;
ghost use Rattle.audit.specs.declared.sent.Topic.{Topic as topic};

use crate::envelope::same_envelope;
use ballot::{Ballot, Envelope, Items, Memory, Message, NodeId, Slot};
use indexmap::IndexMap;
use maildrop::SharedCommand;
use node::Envelopes;
use std::alloc::{Allocator, Global};
use std::hash::{BuildHasherDefault, FoldHasher};
use std::marker::Model;

/// What a message is about. Of one sender and one addressee, messages that are about the same differ in a command, or in
/// what an acceptor had accepted, and hardly ever do.
#[derive(Clone, Copy, Debug, PartialEq, Eq, Hash)]
pub(crate) enum Topic {
    Propose(Slot),
    P1a(Ballot),
    P1b(Ballot, Ballot),
    P2a(Slot, Ballot),
    P2b(Slot, Ballot, Ballot),
    Decision(Slot),
    Ask(Slot),
}

/// Places in a list of messages, by sender, addressee and topic.
type Places<A> = IndexMap<(NodeId, NodeId, Topic), usize, BuildHasherDefault<FoldHasher>, A>;

/// Messages in the order in which they were sent. To find one costs a look-up if it is the last with its sender,
/// addressee and topic, or there is none with these; else it may be compared with each.
#[derive(Drop)]
pub(crate) struct Sent<A: Allocator + Copy = Global> {
    envelopes: Envelopes<A>,
    /// The place of the last message with a sender, an addressee and a topic, or one where it would have stood.
    places: Places<A>,
}

impl<A: Allocator + Copy> Model for Sent<A> {
    ghost use Rattle.std.specs.Prelude.{List};
    ghost use Rattle.indexmap.specs.IndexMap.{get};
    ghost use Rattle.ballot.specs.declared.message.Envelope.{Envelope};
    ghost use Rattle.maildrop.specs.declared.command.Command.{Command};
    ghost use Rattle.audit.specs.Sends.{HasPlaces};

    ghost Value = { List (Envelope (Command A) A) };

    ghost view = { λ s. s.envelopes };

    ghost invariant = { λ s. HasPlaces (get ⟦<(NodeId, NodeId, Topic) as PartialEq>⟧.eq s.places) s.envelopes };
}

fn topic_of<A: Allocator + Copy>(message: &Message<SharedCommand<A>, A>) -> Topic
    ensures { result ≡ spec.topic_of message.now }
{
    match message {
        Message::Propose(slot, _) => Topic::Propose(*slot),
        Message::P1a(ballot) => Topic::P1a(*ballot),
        Message::P1b(promise) => Topic::P1b(promise.asked, promise.ballot),
        Message::P2a(pvalue) => Topic::P2a(pvalue.slot, pvalue.ballot),
        Message::P2b(vote) => Topic::P2b(vote.slot, vote.asked, vote.ballot),
        Message::Decision(slot, _) => Topic::Decision(*slot),
        Message::Ask(slot) => Topic::Ask(*slot),
    }
}

fn label_of<A: Allocator + Copy>(
    envelope: &Envelope<SharedCommand<A>, A>,
) -> (NodeId, NodeId, Topic)
    ensures { result ≡ spec.label_of envelope.now }
{
    (envelope.from, envelope.to, topic_of(&envelope.message))
}

/// Notes a place for a label. What has a place keeps one, whatever is answered.
fn note<A: Allocator + Copy>(
    places: &mut Places<A>,
    label: (NodeId, NodeId, Topic),
    place: usize,
) -> Result<(), Memory>
    ensures kept { (other : ℕ × ℕ × topic) → IsSome (get ⟦<(NodeId, NodeId, Topic) as PartialEq>⟧.eq places.old other) → IsSome (get ⟦<(NodeId, NodeId, Topic) as PartialEq>⟧.eq places.new other) }
    ensures own { OnOk result (IsSome (get ⟦<(NodeId, NodeId, Topic) as PartialEq>⟧.eq places.new label)) }
{
    let _ = places.insert(label, place)?;
    Ok(())
}

/// The place of the first equal message.
fn position_of<A: Allocator + Copy>(
    envelope: &Envelope<SharedCommand<A>, A>,
    envelopes: &[Envelope<SharedCommand<A>, A>],
) -> Option<usize>
    ensures found { IfSome result (λ which. slice_get envelopes.now which ≡ Some envelope.now) }
    ensures none { result ≡ None → list_any (λ other. same other envelope.now) envelopes.now ≡ false }
{
    for (place, other) in envelopes.iter().enumerate() {
        if same_envelope(other, envelope) {
            return Some(place);
        }
    }
    None
}

impl<A: Allocator + Copy> Sent<A> {
    /// No messages. Takes no memory.
    pub(crate) fn new(alloc: A) -> Self
        ensures { result ≡ [] }
    {
        Sent {
            envelopes: Items::new(alloc),
            places: IndexMap::new(alloc),
        }
    }

    /// As which number an equal message was sent, if one was.
    pub(crate) fn find(&self, envelope: &Envelope<SharedCommand<A>, A>) -> Option<usize>
        ensures found { IfSome result (λ which. slice_get self.now which ≡ Some envelope.now) }
        ensures none { result ≡ None → list_any (λ other. same other envelope.now) self.now ≡ false }
    {
        let envelopes = self.envelopes.get();
        let place = self.places.get(&label_of(envelope))?;
        if let Some(other) = envelopes.get(*place) {
            if same_envelope(other, envelope) {
                return Some(*place);
            }
        }
        position_of(envelope, envelopes)
    }

    /// One message more is sent. After `Memory` the messages are as they were.
    fn push(&mut self, envelope: Envelope<SharedCommand<A>, A>) -> Result<(), Memory>
        ensures { OnOk result (self.new ≡ self.old ++ envelope ∷ []) }
    {
        note(&mut self.places, label_of(&envelope), self.envelopes.len())?;
        self.envelopes.push(envelope)
    }

    /// These are sent, after the others. After `Memory` some of them may stand there.
    pub(crate) fn add(&mut self, envelopes: Envelopes<A>) -> Result<(), Memory>
        ensures { OnOk result (self.new ≡ self.old ++ envelopes) }
    {
        for envelope in envelopes.into_vec() {
            self.push(envelope)?;
        }
        Ok(())
    }
}
