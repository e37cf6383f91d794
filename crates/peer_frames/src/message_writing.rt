//! Writes messages and their envelopes.
ghost use Rattle.std.specs.Prelude.{◌≡◌, ◌++◌, ◌<◌, length, IsErrOf, OnOk};
ghost use Rattle.std.specs.List.{flat_map};
ghost use Rattle.peer_frames.specs.declared.version.Version.TheVariants.{Second};
ghost use Rattle.peer_frames.specs.Numbers.{longest};
ghost use Rattle.peer_frames.specs.Fitting.{FitsPValue, FitsPromise, FitsVote, FitsMessage, FitsEnvelope, FitAll};
ghost use Rattle.peer_frames.specs.Frames.{pvalue_bytes, promise_bytes, vote_bytes, message_bytes, content};

use crate::content::{Content, Front};
use crate::encode_error::EncodeError;
use crate::kind::number_of;
use ballot::{Envelope, Message, PValue, Promise, Vote};
use maildrop::SharedCommand;
use std::alloc::Allocator;

/// The number of the version that is written.
const WRITTEN_VERSION: u8 = 2;

impl<B: Allocator, F: Front> Content<B, F> {
    fn put_pvalue<A: Allocator + Copy>(
        &mut self,
        pvalue: &PValue<SharedCommand<A>>,
    ) -> Result<(), EncodeError>
        ensures ok { OnOk result (self.new ≡ self.old ++ pvalue_bytes Second pvalue.now) }
        ensures fits { OnOk result (FitsPValue Second pvalue.now) }
        ensures long { IsErrOf result EncodeError.TooLong → longest < length (pvalue_bytes Second pvalue.now) }
    {
        self.put_ballot(pvalue.ballot)?;
        self.put_slot(pvalue.slot)?;
        self.put_command(pvalue.command.get())
    }

    /// Adds pvalues, one after another.
    fn put_pvalues<A: Allocator + Copy>(
        &mut self,
        pvalues: &[PValue<SharedCommand<A>>],
    ) -> Result<(), EncodeError>
        ensures ok { OnOk result (self.new ≡ self.old ++ flat_map (pvalue_bytes Second) pvalues.now) }
        ensures fits { OnOk result (FitAll (FitsPValue Second) pvalues.now) }
        ensures long { IsErrOf result EncodeError.TooLong → longest < length (flat_map (pvalue_bytes Second) pvalues.now) }
    {
        let mut rest = pvalues;
        while let Some((pvalue, others)) = rest.split_first() {
            self.put_pvalue(pvalue)?;
            rest = others;
        }
        Ok(())
    }

    #[tactic(auto, using(crate::proofs::Sizes::many_promised))]
    fn put_promise<A: Allocator + Copy>(
        &mut self,
        promise: &Promise<SharedCommand<A>, A>,
    ) -> Result<(), EncodeError>
        ensures ok { OnOk result (self.new ≡ self.old ++ promise_bytes Second promise.now) }
        ensures fits { OnOk result (FitsPromise Second promise.now) }
        ensures long { IsErrOf result EncodeError.TooLong → longest < length (promise_bytes Second promise.now) }
    {
        self.put_ballot(promise.asked)?;
        self.put_ballot(promise.ballot)?;
        let pvalues = promise.accepted.get();
        self.put_count(pvalues.len())?;
        self.put_pvalues(pvalues)
    }

    fn put_vote(&mut self, vote: &Vote) -> Result<(), EncodeError>
        ensures ok { OnOk result (self.new ≡ self.old ++ vote_bytes vote.now) }
        ensures fits { OnOk result (FitsVote vote.now) }
        ensures long { IsErrOf result EncodeError.TooLong → longest < length (vote_bytes vote.now) }
    {
        self.put_ballot(vote.asked)?;
        self.put_slot(vote.slot)?;
        self.put_ballot(vote.ballot)?;
        Ok(())
    }

    fn put_message<A: Allocator + Copy>(
        &mut self,
        message: &Message<SharedCommand<A>, A>,
    ) -> Result<(), EncodeError>
        ensures ok { OnOk result (self.new ≡ self.old ++ message_bytes Second message.now) }
        ensures fits { OnOk result (FitsMessage Second message.now) }
        ensures long { IsErrOf result EncodeError.TooLong → longest < length (message_bytes Second message.now) }
    {
        match message {
            Message::Propose(slot, command) | Message::Decision(slot, command) => {
                self.put_slot(*slot)?;
                self.put_command(command.get())
            }
            Message::P1a(ballot) => Ok(self.put_ballot(*ballot)?),
            Message::P1b(promise) => self.put_promise(promise),
            Message::P2a(pvalue) => self.put_pvalue(pvalue),
            Message::P2b(vote) => self.put_vote(vote),
            Message::Ask(slot) => Ok(self.put_slot(*slot)?),
        }
    }

    pub(crate) fn put_envelope<A: Allocator + Copy>(
        &mut self,
        envelope: &Envelope<SharedCommand<A>, A>,
    ) -> Result<(), EncodeError>
        ensures ok { OnOk result (self.new ≡ self.old ++ content Second envelope.now) }
        ensures fits { OnOk result (FitsEnvelope Second envelope.now) }
        ensures long { IsErrOf result EncodeError.TooLong → longest < length (content Second envelope.now) }
    {
        self.put_byte(WRITTEN_VERSION)?;
        self.put_byte(number_of(&envelope.message))?;
        self.put_node(envelope.from)?;
        self.put_node(envelope.to)?;
        self.put_message(&envelope.message)
    }
}
