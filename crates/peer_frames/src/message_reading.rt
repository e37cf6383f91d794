//! Reads messages.
ghost use Rattle.std.specs.Prelude.{◌≡◌, true, IsErrOf};
ghost use Rattle.std.specs.Int.{w32};
ghost use Rattle.peer_frames.specs.Numbers.{has_commands};
ghost use Rattle.peer_frames.specs.Reading.{GivesFront, GivesFrontAs, Reads, many_at, pvalue_at, pvalues_at, promise_at, vote_at, message_at};

use crate::cursor::Cursor;
use crate::fault::FrameFault;
use crate::kind::Kind;
use crate::malformed::Malformed;
use crate::version::Version;
use ballot::{Items, Message, PValue, Promise, Vote};
use maildrop::SharedCommand;
use std::alloc::Allocator;

/// The fewest bytes that a pvalue has: a ballot of 9, a slot of 8, and a command with a name of 1, without arguments.
const SHORTEST_PVALUE: usize = 29;

impl<'a> Cursor<'a> {
    #[tactic(auto, unfolding(crate::specs::Reading::pvalue_at))]
    fn read_pvalue<A: Allocator + Copy>(
        &mut self,
        alloc: A,
        version: Version,
    ) -> Result<PValue<SharedCommand<A>>, FrameFault>
        ensures { GivesFront result self.new (pvalue_at version self.old) }
    {
        let ballot = self.read_ballot()?;
        let slot = self.read_slot()?;
        let command = self.read_command(alloc, version)?;
        Ok(PValue {
            ballot,
            slot,
            command,
        })
    }

    /// Reads so many pvalues. The count alone takes no memory: there is room at once for as many as the bytes can have.
    fn read_pvalue_list<A: Allocator + Copy>(
        &mut self,
        alloc: A,
        version: Version,
        count: u32,
    ) -> Result<Vec<PValue<SharedCommand<A>>, A>, FrameFault>
        ensures { GivesFrontAs (λ pvalues. pvalues.items) result self.new (many_at (pvalue_at version) count self.old) }
    {
        let room = (count as usize).min(self.rest().len() / SHORTEST_PVALUE);
        let mut pvalues = Vec::with_capacity(alloc, room)?;
        for _ in 0..count {
            let pvalue = self.read_pvalue(alloc, version)?;
            pvalues.push(pvalue)?;
        }
        Ok(pvalues)
    }

    #[tactic(auto, unfolding(crate::specs::Reading::pvalues_at))]
    fn read_pvalues<A: Allocator + Copy>(
        &mut self,
        alloc: A,
        version: Version,
    ) -> Result<Items<PValue<SharedCommand<A>>, A>, FrameFault>
        ensures { GivesFront result self.new (pvalues_at version self.old) }
    {
        let count = self.read_u32()?;
        let pvalues = self.read_pvalue_list(alloc, version, count)?;
        Ok(Items::from_vec(pvalues))
    }

    #[tactic(auto, unfolding(crate::specs::Reading::promise_at))]
    fn read_promise<A: Allocator + Copy>(
        &mut self,
        alloc: A,
        version: Version,
    ) -> Result<Message<SharedCommand<A>, A>, FrameFault>
        ensures { GivesFront result self.new (promise_at version self.old) }
    {
        let asked = self.read_ballot()?;
        let ballot = self.read_ballot()?;
        let accepted = self.read_pvalues(alloc, version)?;
        Ok(Message::P1b(Promise {
            asked,
            ballot,
            accepted,
        }))
    }

    #[tactic(auto, unfolding(crate::specs::Reading::vote_at))]
    fn read_vote<A: Allocator>(&mut self) -> Result<Message<SharedCommand<A>, A>, Malformed>
        ensures { Reads result self.new (vote_at self.old) }
    {
        let asked = self.read_ballot()?;
        let slot = self.read_slot()?;
        let ballot = self.read_ballot()?;
        Ok(Message::P2b(Vote {
            asked,
            slot,
            ballot,
        }))
    }

    #[tactic(auto, unfolding(crate::specs::Reading::message_at))]
    pub(crate) fn read_message<A: Allocator + Copy>(
        &mut self,
        alloc: A,
        version: Version,
        kind: Kind,
    ) -> Result<Message<SharedCommand<A>, A>, FrameFault>
        ensures value { GivesFront result self.new (message_at version kind self.old) }
        ensures memory { IsErrOf result FrameFault.Memory → has_commands kind ≡ true }
    {
        match kind {
            Kind::Propose => {
                let slot = self.read_slot()?;
                Ok(Message::Propose(slot, self.read_command(alloc, version)?))
            }
            Kind::P1a => Ok(Message::P1a(self.read_ballot()?)),
            Kind::P1b => self.read_promise(alloc, version),
            Kind::P2a => Ok(Message::P2a(self.read_pvalue(alloc, version)?)),
            Kind::P2b => Ok(self.read_vote()?),
            Kind::Decision => {
                let slot = self.read_slot()?;
                Ok(Message::Decision(slot, self.read_command(alloc, version)?))
            }
            Kind::Ask => Ok(Message::Ask(self.read_slot()?)),
        }
    }
}
