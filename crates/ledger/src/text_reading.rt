//! Reads texts and lists of unique ids.
ghost use Rattle.std.specs.Prelude.{◌≡◌, ◌↔◌, IsTrue, IfOk, None};
ghost use Rattle.std.specs.Int.{w32};
ghost use Rattle.maildrop.specs.Text.{IsLine};
ghost use Rattle.ledger.specs.Reading as spec;
ghost use Rattle.ledger.specs.Reading.{Reads, ReadsAs, GivesFront, GivesFrontAs, line_at, many_at, text_at, uid_at, uids_from, uids_at};

use crate::cursor::Cursor;
use crate::fault::PayloadFault;
use crate::malformed::Malformed;
use maildrop::{Text, TextBuilder, Uids};
use memchr::memchr;
use std::alloc::Allocator;

fn has_no_line_feed(bytes: &[u8]) -> bool
    ensures { IsTrue result ↔ IsLine bytes.now }
{
    memchr(b'\n', bytes).is_none()
}

fn is_line(bytes: &[u8]) -> bool
    ensures test { result ≡ spec.is_line bytes.now }
    ensures line { IsTrue result ↔ IsLine bytes.now }
{
    has_no_line_feed(bytes)
}

/// The most octets that so many lines have in these bytes: each has a length of four bytes here, and CR and LF there.
fn most_octets(bytes: &[u8], count: u32) -> usize {
    bytes
        .len()
        .saturating_sub((count as usize).saturating_mul(2))
}

impl<'a> Cursor<'a> {
    #[tactic(auto, unfolding(crate::specs::Reading::line_at))]
    fn read_line(&mut self) -> Result<&'a [u8], Malformed>
        ensures value { ReadsAs (λ line. line.now) result self.new (line_at self.old) }
        ensures line { IfOk result (λ line. IsLine line.now) }
    {
        let len = self.read_u32()?;
        let line = self.read_bytes(len as usize)?;
        if !is_line(line) {
            return Err(Malformed::Field);
        }
        Ok(line)
    }

    /// Reads so many lines. The count alone takes no memory: there is room at once for as much as the bytes can have.
    fn read_lines<A: Allocator>(
        &mut self,
        alloc: A,
        count: u32,
    ) -> Result<TextBuilder<A>, PayloadFault>
        ensures { GivesFrontAs (λ text. text.lines) result self.new (many_at line_at count self.old) }
    {
        let mut text = TextBuilder::new(alloc);
        text.reserve(most_octets(self.rest(), count))?;
        for _ in 0..count {
            let line = self.read_line()?;
            text.push_line(line)?;
        }
        Ok(text)
    }

    #[tactic(auto, unfolding(crate::specs::Reading::text_at))]
    pub(crate) fn read_text<A: Allocator + Copy>(
        &mut self,
        alloc: A,
    ) -> Result<Text<A>, PayloadFault>
        ensures { GivesFront result self.new (text_at self.old) }
    {
        let count = self.read_u32()?;
        let text = self.read_lines(alloc, count)?;
        Ok(text.finish()?)
    }

    #[tactic(auto, unfolding(crate::specs::Reading::uid_at))]
    fn read_uid(&mut self, last: Option<u64>) -> Result<u64, Malformed>
        ensures { Reads result self.new (uid_at last self.old) }
    {
        let uid = self.read_u64()?;
        match last {
            Some(last) if uid <= last => Err(Malformed::Field),
            _ => Ok(uid),
        }
    }

    /// Reads so many unique ids. The count alone takes no memory: there is room at once for as many as the bytes can have.
    fn read_ascending<A: Allocator>(
        &mut self,
        alloc: A,
        count: u32,
    ) -> Result<Vec<u64, A>, PayloadFault>
        ensures { GivesFrontAs (λ uids. uids.items) result self.new (uids_from None count self.old) }
    {
        let room = (count as usize).min(self.rest().len() / 8);
        let mut uids = Vec::with_capacity(alloc, room)?;
        let mut last = None;
        for _ in 0..count {
            let uid = self.read_uid(last)?;
            uids.push(uid)?;
            last = Some(uid);
        }
        Ok(uids)
    }

    #[tactic(auto, unfolding(crate::specs::Reading::uids_at))]
    pub(crate) fn read_uids<A: Allocator + Copy>(
        &mut self,
        alloc: A,
    ) -> Result<Uids<A>, PayloadFault>
        ensures { GivesFront result self.new (uids_at self.old) }
    {
        let count = self.read_u32()?;
        let uids = self.read_ascending(alloc, count)?;
        match Uids::new(uids) {
            Some(uids) => Ok(uids),
            None => unreachable!(),
        }
    }
}
