//! Reads numbers of nodes and slots, ballots, tickets, names and keys.
ghost use Rattle.peer_frames.specs.Reading.{Reads, node_at, slot_at, ballot_at, ticket_at, name_at, key_at, some_key_at};

use crate::cursor::Cursor;
use crate::malformed::Malformed;
use crate::version::Version;
use ballot::{Ballot, NodeId, Slot};
use maildrop::{Key, Name, Ticket};

/// The most bytes that a name has.
const LONGEST_NAME: u8 = 40;

/// The most bytes that a key has.
const LONGEST_KEY: u8 = 64;

impl<'a> Cursor<'a> {
    #[tactic(auto, unfolding(crate::specs::Reading::node_at))]
    pub(crate) fn read_node(&mut self) -> Result<NodeId, Malformed>
        ensures { Reads result self.new (node_at self.old) }
    {
        let number = self.read_byte()?;
        NodeId::new(number).ok_or(Malformed::Field)
    }

    #[tactic(auto, unfolding(crate::specs::Reading::slot_at))]
    pub(crate) fn read_slot(&mut self) -> Result<Slot, Malformed>
        ensures { Reads result self.new (slot_at self.old) }
    {
        let number = self.read_u64()?;
        Slot::new(number).ok_or(Malformed::Field)
    }

    #[tactic(auto, unfolding(crate::specs::Reading::ballot_at))]
    pub(crate) fn read_ballot(&mut self) -> Result<Ballot, Malformed>
        ensures { Reads result self.new (ballot_at self.old) }
    {
        let round = self.read_u64()?;
        let leader = self.read_node()?;
        Ok(Ballot { round, leader })
    }

    #[tactic(auto, unfolding(crate::specs::Reading::ticket_at))]
    pub(crate) fn read_ticket(&mut self) -> Result<Ticket, Malformed>
        ensures { Reads result self.new (ticket_at self.old) }
    {
        let node = self.read_node()?;
        let seq = self.read_u64()?;
        Ticket::new(node, seq).ok_or(Malformed::Field)
    }

    #[tactic(auto, unfolding(crate::specs::Reading::name_at))]
    pub(crate) fn read_name(&mut self) -> Result<Name, Malformed>
        ensures { Reads result self.new (name_at self.old) }
    {
        let len = self.read_byte()?;
        if len < 1 || len > LONGEST_NAME {
            return Err(Malformed::Field);
        }
        let name = self.read_bytes(len as usize)?;
        Name::new(name).ok_or(Malformed::Field)
    }

    #[tactic(auto, unfolding(crate::specs::Reading::some_key_at))]
    fn read_some_key(&mut self, len: u8) -> Result<Option<Key>, Malformed>
        ensures { Reads result self.new (some_key_at len self.old) }
    {
        let key = self.read_bytes(len as usize)?;
        match Key::new(key) {
            Some(key) => Ok(Some(key)),
            None => Err(Malformed::Field),
        }
    }

    #[tactic(auto, unfolding(crate::specs::Reading::key_at))]
    pub(crate) fn read_key(&mut self, version: Version) -> Result<Option<Key>, Malformed>
        ensures { Reads result self.new (key_at version self.old) }
    {
        if version == Version::First {
            return Ok(None);
        }
        let len = self.read_byte()?;
        if len > LONGEST_KEY {
            return Err(Malformed::Field);
        }
        if len == 0 {
            return Ok(None);
        }
        self.read_some_key(len)
    }
}
