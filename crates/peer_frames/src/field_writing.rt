//! Writes numbers of nodes and slots, ballots, tickets, names, keys and lines.
ghost use Rattle.std.specs.Prelude.{◌≡◌, ◌++◌, ◌∷◌, [], ◌<◌, ◌^◌, length, true, Some, IsErrOf, OnOk};
ghost use Rattle.maildrop.specs.Name.{is_name};
ghost use Rattle.peer_frames.specs.declared.version.Version.TheVariants.{Second};
ghost use Rattle.peer_frames.specs.Numbers.{longest, is_node, is_slot};
ghost use Rattle.peer_frames.specs.Fitting.{FitsBallot, FitsTicket, FitsKey};
ghost use Rattle.peer_frames.specs.Frames.{u64_bytes, short_string, long_string, ballot_bytes, ticket_bytes, key_bytes};

use crate::content::{Content, Front};
use crate::encode_error::EncodeError;
use ballot::{Ballot, Memory, NodeId, Slot};
use maildrop::{Key, Name, Ticket};
use std::alloc::Allocator;

impl<A: Allocator, F: Front> Content<A, F> {
    pub(crate) fn put_node(&mut self, node: NodeId) -> Result<(), Memory>
        ensures ok { OnOk result (self.new ≡ self.old ++ node ∷ []) }
        ensures fits { is_node node ≡ true }
    {
        self.put_byte(node.get())
    }

    pub(crate) fn put_slot(&mut self, slot: Slot) -> Result<(), Memory>
        ensures ok { OnOk result (self.new ≡ self.old ++ u64_bytes slot) }
        ensures fits { is_slot slot ≡ true }
    {
        self.put_u64(slot.get())
    }

    pub(crate) fn put_ballot(&mut self, ballot: Ballot) -> Result<(), Memory>
        ensures ok { OnOk result (self.new ≡ self.old ++ ballot_bytes ballot) }
        ensures fits { OnOk result (FitsBallot ballot) }
    {
        self.put_u64(ballot.round)?;
        self.put_node(ballot.leader)
    }

    pub(crate) fn put_ticket(&mut self, ticket: Ticket) -> Result<(), Memory>
        ensures ok { OnOk result (self.new ≡ self.old ++ ticket_bytes ticket) }
        ensures fits { OnOk result (FitsTicket ticket) }
    {
        let (node, seq) = ticket.get();
        self.put_node(node)?;
        self.put_u64(seq)
    }

    pub(crate) fn put_name(&mut self, name: &Name) -> Result<(), Memory>
        ensures ok { OnOk result (self.new ≡ self.old ++ short_string name.now) }
        ensures fits { is_name name.now ≡ true }
    {
        let bytes = name.get();
        self.put_byte(bytes.len() as u8)?;
        self.put_bytes(bytes)
    }

    fn put_some_key(&mut self, key: &Key) -> Result<(), Memory>
        ensures ok { OnOk result (self.new ≡ self.old ++ key_bytes Second (Some key.now)) }
        ensures fits { FitsKey Second (Some key.now) }
    {
        let bytes = key.get();
        self.put_byte(bytes.len() as u8)?;
        self.put_bytes(bytes)
    }

    pub(crate) fn put_key(&mut self, key: &Option<Key>) -> Result<(), Memory>
        ensures ok { OnOk result (self.new ≡ self.old ++ key_bytes Second key.now) }
        ensures fits { FitsKey Second key.now }
    {
        match key {
            None => self.put_byte(0),
            Some(key) => self.put_some_key(key),
        }
    }

    #[tactic(auto, using(crate::proofs::Formats::length_u32_bytes))]
    pub(crate) fn put_line(&mut self, line: &[u8]) -> Result<(), EncodeError>
        ensures ok { OnOk result (self.new ≡ self.old ++ long_string line.now) }
        ensures fits { OnOk result (length line.now < 2 ^ 32) }
        ensures long { IsErrOf result EncodeError.TooLong → longest < length (long_string line.now) }
    {
        self.put_count(line.len())?;
        self.put_bytes(line)?;
        Ok(())
    }
}
