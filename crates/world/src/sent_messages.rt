//! The messages of a service, in the order in which they were sent.
ghost use Rattle.std.specs.Prelude.{◌≡◌, ◌++◌, [], true, Some, List, slice_get, option_copied, OnOk, OnErr, IfOk};
ghost use Rattle.runs.specs.Messages.{newly_sent, with_arrival};
ghost use Rattle.world.specs.Hosts.{can_count};
ghost use Rattle.runs.specs.declared.sent.Sent.{Sent};

use ballot::{Envelope, Memory};
use maildrop::SharedCommand;
use node::Envelopes;
use runs::Sent;
use std::alloc::{Allocator, Global};
use std::marker::Model;

/// All messages that were sent, each with how often it has arrived.
#[derive(Drop)]
pub(crate) struct SentMessages<A: Allocator = Global> {
    sent: Vec<Sent<A>, A>,
}

impl<A: Allocator> Model for SentMessages<A> {
    ghost use Rattle.std.specs.Prelude.{List};
    ghost use Rattle.runs.specs.declared.sent.Sent.{Sent};

    ghost Value = { List (Sent A) };

    ghost view = { λ m. m.sent.items };
}

/// Adds messages that haven't arrived. After `Memory` some of them may stand after the others.
fn add<A: Allocator + Copy>(
    sent: &mut Vec<Sent<A>, A>,
    envelopes: Envelopes<A>,
) -> Result<(), Memory>
    ensures ok { OnOk result (sent.new.items ≡ sent.old.items ++ newly_sent envelopes) }
    ensures front { (added : List (Sent A)) × (sent.new.items ≡ sent.old.items ++ added) }
{
    for envelope in envelopes.into_vec() {
        sent.push(Sent {
            envelope,
            arrived: 0,
        })?;
    }
    Ok(())
}

/// What arrives if the message does once more. `Memory` too if it has arrived as often as can be counted.
pub(crate) fn arriving<A: Allocator + Copy>(
    message: &Sent<A>,
) -> Result<Envelope<SharedCommand<A>, A>, Memory>
    ensures value { IfOk result (λ envelope. envelope ≡ message.now.envelope) }
    ensures counted { OnOk result (can_count message.now ≡ true) }
{
    if message.arrived == u64::MAX {
        return Err(Memory);
    }
    message.envelope.copy()
}

impl<A: Allocator + Copy> SentMessages<A> {
    /// No messages. Takes no memory.
    pub(crate) fn new(alloc: A) -> Self
        ensures { result ≡ [] }
    {
        SentMessages {
            sent: Vec::new(alloc),
        }
    }

    /// The messages.
    pub(crate) fn get(&self) -> &[Sent<A>]
        ensures { result.now ≡ self.now }
    {
        &self.sent
    }

    /// These are sent, after the others. After `Memory` nothing has changed.
    pub(crate) fn add_all(&mut self, envelopes: Envelopes<A>) -> Result<(), Memory>
        ensures ok { OnOk result (self.new ≡ self.old ++ newly_sent envelopes) }
        ensures err { OnErr result (self.new ≡ self.old) }
    {
        let before = self.sent.len();
        match add(&mut self.sent, envelopes) {
            Ok(()) => Ok(()),
            Err(error) => {
                self.sent.truncate(before);
                Err(error)
            }
        }
    }

    /// The message that was sent as this number, counted from 0, if one was.
    pub(crate) fn message(&self, which: usize) -> Option<&Sent<A>>
        ensures { option_copied result ≡ slice_get self.now which }
    {
        self.sent.get(which)
    }

    /// The message that was sent as this number has arrived once more.
    pub(crate) fn count_arrival(&mut self, which: usize)
        requires { (s : Sent A) → slice_get self.old which ≡ Some s → can_count s ≡ true }
        ensures { self.new ≡ with_arrival which self.old }
    {
        if let Some(sent) = self.sent.get_mut(which) {
            sent.arrived += 1;
        }
    }
}
