//! Reads payloads of changes.
ghost use Rattle.std.specs.Prelude.{◌≡◌, true, IsErrOf};
ghost use Rattle.ledger.specs.Reading.{Gives, GivesFront, Reads, kind_at, stored_at, keyed_at, change_at, entry_at, entry_in, has_list, kind_has_list};

use crate::cursor::Cursor;
use crate::entry::Entry;
use crate::fault::PayloadFault;
use crate::kind::Kind;
use crate::malformed::Malformed;
use maildrop::Change;
use std::alloc::Allocator;

impl<'a> Cursor<'a> {
    #[tactic(auto, unfolding(crate::specs::Reading::stored_at))]
    fn read_stored<A: Allocator + Copy>(&mut self, alloc: A) -> Result<Change<A>, PayloadFault>
        ensures { GivesFront result self.new (stored_at self.old) }
    {
        let uid = self.read_u64()?;
        let text = self.read_text(alloc)?;
        let key = self.read_optional_key()?;
        Ok(Change::Stored { uid, text, key })
    }

    #[tactic(auto, unfolding(crate::specs::Reading::keyed_at))]
    fn read_keyed<A: Allocator>(&mut self) -> Result<Change<A>, Malformed>
        ensures { Reads result self.new (keyed_at self.old) }
    {
        let key = self.read_key()?;
        let uid = self.read_u64()?;
        Ok(Change::Keyed { key, uid })
    }

    #[tactic(auto, unfolding(crate::specs::Reading::change_at))]
    fn read_fields<A: Allocator + Copy>(
        &mut self,
        alloc: A,
        kind: Kind,
    ) -> Result<Change<A>, PayloadFault>
        ensures value { GivesFront result self.new (change_at kind self.old) }
        ensures memory { IsErrOf result PayloadFault.Memory → has_list kind ≡ true }
    {
        match kind {
            Kind::Stored => self.read_stored(alloc),
            Kind::Removed => Ok(Change::Removed(self.read_uids(alloc)?)),
            Kind::Keyed => Ok(self.read_keyed()?),
            Kind::Next => Ok(Change::Next(self.read_u64()?)),
        }
    }

    #[tactic(auto, unfolding(crate::specs::Reading::entry_at))]
    fn read_entry<A: Allocator + Copy>(&mut self, alloc: A) -> Result<Entry<A>, PayloadFault>
        ensures value { GivesFront result self.new (entry_at self.old) }
        ensures memory { IsErrOf result PayloadFault.Memory → kind_has_list (kind_at self.old) ≡ true }
    {
        let kind = self.read_kind()?;
        let slot = self.read_u64()?;
        let name = self.read_name()?;
        let change = self.read_fields(alloc, kind)?;
        Ok(Entry { slot, name, change })
    }
}

#[tactic(auto, unfolding(crate::specs::Reading::entry_in))]
pub(crate) fn entry_of<A: Allocator + Copy>(
    alloc: A,
    bytes: &[u8],
) -> Result<Entry<A>, PayloadFault>
    ensures value { Gives result (entry_in bytes.now) }
    ensures memory { IsErrOf result PayloadFault.Memory → kind_has_list (kind_at bytes.now) ≡ true }
{
    let mut cursor = Cursor::new(bytes);
    let entry = cursor.read_entry(alloc)?;
    if !cursor.is_empty() {
        return Err(PayloadFault::Length);
    }
    Ok(entry)
}
