//! Reads kinds, names and keys.
ghost use Rattle.ledger.specs.Reading.{Reads, kind_at, name_at, key_at, some_key_at, optional_key_at};

use crate::cursor::Cursor;
use crate::kind::Kind;
use crate::malformed::Malformed;
use maildrop::{Key, Name};

/// The most bytes that a name has.
const LONGEST_NAME: u8 = 40;

/// The most bytes that a key has.
const LONGEST_KEY: u8 = 64;

impl<'a> Cursor<'a> {
    #[tactic(auto, unfolding(crate::specs::Reading::kind_at))]
    pub(crate) fn read_kind(&mut self) -> Result<Kind, Malformed>
        ensures { Reads result self.new (kind_at self.old) }
    {
        let number = self.read_byte()?;
        Kind::of(number).ok_or(Malformed::Kind)
    }

    #[tactic(auto, unfolding(crate::specs::Reading::name_at))]
    pub(crate) fn read_name(&mut self) -> Result<Name, Malformed>
        ensures { Reads result self.new (name_at self.old) }
    {
        let len = self.read_byte()?;
        if len < 1 || len > LONGEST_NAME {
            return Err(Malformed::Field);
        }
        let name = self.read_bytes(len as usize)?;
        Name::new(name).ok_or(Malformed::Field)
    }

    #[tactic(auto, unfolding(crate::specs::Reading::key_at))]
    pub(crate) fn read_key(&mut self) -> Result<Key, Malformed>
        ensures { Reads result self.new (key_at self.old) }
    {
        let len = self.read_byte()?;
        if len > LONGEST_KEY {
            return Err(Malformed::Field);
        }
        let key = self.read_bytes(len as usize)?;
        Key::new(key).ok_or(Malformed::Field)
    }

    #[tactic(auto, unfolding(crate::specs::Reading::some_key_at))]
    fn read_some_key(&mut self, len: u8) -> Result<Option<Key>, Malformed>
        ensures { Reads result self.new (some_key_at len self.old) }
    {
        let key = self.read_bytes(len as usize)?;
        match Key::new(key) {
            Some(key) => Ok(Some(key)),
            None => Err(Malformed::Field),
        }
    }

    /// A key, or none if it has no bytes.
    #[tactic(auto, unfolding(crate::specs::Reading::optional_key_at))]
    pub(crate) fn read_optional_key(&mut self) -> Result<Option<Key>, Malformed>
        ensures { Reads result self.new (optional_key_at self.old) }
    {
        let len = self.read_byte()?;
        if len > LONGEST_KEY {
            return Err(Malformed::Field);
        }
        if len == 0 {
            return Ok(None);
        }
        self.read_some_key(len)
    }
}
