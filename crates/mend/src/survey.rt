//! What can be had of a segment that a start refuses.
ghost use Rattle.std.specs.Prelude.{◌≡◌, ◌==◌, ◌+◌, ◌≤◌, ℕ, List, length, take, true, IfOk, IfSome, OnOk};
ghost use Rattle.maildrop.specs.Kept.{kept_for};
ghost use Rattle.mend.specs.Raising as spec;
ghost use Rattle.mend.specs.Raising.{IsRaised};
ghost use Rattle.mend.specs.Surveys.{HasFound};
ghost use Rattle.mend.specs.declared.survey.Way.TheVariants.{Cut, Salvage};
ghost use Rattle.store.specs.Loading.{IsSegment};
ghost use Rattle.store.specs.declared.loading.Loaded.{Loaded};

use crate::head::{Head, head_of};
use crate::names::{bytes_of, know_all, know_guessed, know_named};
use crate::note::Noted;
use crate::place::HEAD;
use crate::raising::{Raise, most_messages, raise_all};
use crate::search::{Findings, Gap, salvage};
use ballot::Memory;
use maildrop::{Kept, Message, Name};
use records::Ending;
use std::alloc::Global;
use store::{StoreFault, load};

/// What is kept before anything is salvaged.
#[derive(Clone, Copy, Debug, PartialEq, Eq)]
pub enum Base {
    /// What the segment has before the damage.
    Own,
    /// What the newest whole segment before has, with this number: the opening of the newest one is damaged.
    Before(u64),
    /// Nothing: the opening is damaged, and there is no whole segment before.
    Nothing,
}

/// How a folder is mended.
#[derive(Clone, Copy, Debug, PartialEq, Eq)]
pub enum Way {
    /// All is dropped from the damage on.
    Cut,
    /// Whole records after the damage are taken, as far as they can come.
    Salvage,
}

/// What is kept, and how many bytes are dropped for it.
#[derive(Drop)]
pub struct Rescue {
    pub kept: Kept,
    pub dropped: u64,
}

/// The newest segment as it is, and what was noted of it.
#[derive(Drop)]
pub(crate) struct Segment<'a> {
    pub number: u64,
    pub bytes: &'a [u8],
    pub noted: Option<Noted>,
}

/// What was found in a segment that a start refuses.
#[derive(Drop)]
pub struct Survey {
    /// The number of the segment.
    pub number: u64,
    /// Where a cut drops all that follows.
    pub at: u64,
    pub base: Base,
    /// What a cut leaves.
    pub cut: Rescue,
    /// What a salvage leaves.
    pub salvaged: Rescue,
    /// What was found after the damage.
    pub behind: Findings,
    /// Whether the names of all accounts are kept.
    pub has_accounts: bool,
}

/// The same as is kept. The texts share their lines.
fn copy_of(alloc: Global, kept: &Kept) -> Result<Kept, Memory>
    ensures { IfOk result (λ copy. (name : List ℕ) → kept_for name copy ≡ kept_for name kept.now) }
{
    let mut copy = Kept::new(alloc);
    copy.add_others_of(kept)?;
    Ok(copy)
}

/// A place of a file as an index into its bytes, or their end.
fn index_of(at: u64, bytes: &[u8]) -> usize
    ensures { result ≤ length bytes.now }
{
    usize::try_from(at).unwrap_or(usize::MAX).min(bytes.len())
}

/// What a start would have of a segment that ends at this place. `None` if its snapshot isn't whole then.
pub(crate) fn front_of(
    alloc: Global,
    number: u64,
    bytes: &[u8],
    at: usize,
) -> Result<Option<Kept>, StoreFault>
    requires { at ≤ length bytes.now }
    ensures { IfOk result (λ front. IfSome front (λ kept. (loaded : Loaded) × IsSegment number (take at bytes.now) loaded × (kept ≡ loaded.kept))) }
{
    let (mut front, _) = bytes.split_at(at);
    match load(alloc, number, &mut front) {
        Ok(loaded) => Ok(Some(loaded.kept)),
        Err(StoreFault::Damaged { .. }) => Ok(None),
        Err(fault) => Err(fault),
    }
}

/// Where the last record ends that a start takes, and whether nothing follows it.
pub(crate) fn end_of(alloc: Global, number: u64, bytes: &[u8]) -> Result<(u64, bool), StoreFault> {
    let mut source = bytes;
    match load(alloc, number, &mut source) {
        Ok(loaded) => match loaded.ending {
            Ending::Clean(at) => Ok((at, true)),
            Ending::Cut(at) | Ending::Torn(at) | Ending::Damaged(at) => Ok((at, false)),
            Ending::NotASegment => Ok((0, false)),
        },
        Err(StoreFault::Damaged { at, .. }) => Ok((at, false)),
        Err(fault) => Err(fault),
    }
}

/// Nothing is found in bytes that don't begin with a head.
fn nothing_in(alloc: Global, bytes: &[u8]) -> Result<Findings, Memory> {
    let mut gaps = Vec::new(alloc);
    if !bytes.is_empty() {
        gaps.push(Gap {
            at: 0,
            bytes: bytes.len() as u64,
        })?;
    }
    Ok(Findings {
        records: 0,
        dropped: bytes.len(),
        gaps,
        refused: 0,
    })
}

/// Takes all whole records from this place of a file on, which begins with this head, if with any.
fn find(
    alloc: Global,
    head: Option<Head>,
    bytes: &[u8],
    from: usize,
    kept: &mut Kept,
) -> Result<Findings, Memory>
    requires { from ≤ length bytes.now }
    ensures { OnOk result (HasFound head from bytes.now kept.old kept.new) }
{
    match head {
        Some(head) => salvage(alloc, &head, bytes, from, kept),
        None => nothing_in(alloc, bytes),
    }
}

impl Segment<'_> {
    /// How many bytes the file has, or had when it was noted.
    fn size(&self) -> u64
        ensures now { length self.now.bytes.now ≤ result }
        ensures noted { IfSome self.now.noted (λ noted. noted.size ≤ result) }
    {
        let size = self.bytes.len() as u64;
        match self.noted {
            Some(noted) => size.max(noted.size),
            None => size,
        }
    }

    /// Whether it has the size that was noted, if any was.
    pub(crate) fn is_as_noted(&self) -> bool
        ensures { IfSome self.now.noted (λ noted. result ≡ true → length self.now.bytes.now ≡ noted.size) }
    {
        match self.noted {
            Some(noted) => self.bytes.len() as u64 == noted.size,
            None => true,
        }
    }

    /// Where a cut drops all that follows: where its last record ends that a start takes, or where the file ended when it was noted.
    pub(crate) fn cut_at(&self, end: u64) -> usize
        ensures { result ≤ length self.now.bytes.now }
    {
        let at = match self.noted {
            Some(noted) => end.min(noted.size),
            None => end,
        };
        index_of(at, self.bytes)
    }

    /// What can be had of it. This is kept of its records up to the damage at this place, or else of the segment before.
    pub(crate) fn survey(
        &self,
        alloc: Global,
        base: Base,
        mut kept: Kept,
        at: usize,
    ) -> Result<Survey, Memory>
        requires { at ≤ length self.now.bytes.now }

        // A cut keeps what stands before the damage, and nothing else.
        ensures cut { IfOk result (λ survey. (name : List ℕ) → kept_for name survey.cut.kept ≡ kept_for name kept) }

        // No byte that is dropped is left out where next unique ids are raised.
        ensures dropped { IfOk result (λ survey. length self.now.bytes.now ≤ survey.cut.dropped + survey.at) }
        ensures behind { IfOk result (λ survey. survey.behind.dropped ≤ survey.salvaged.dropped) }
        ensures noted { IfSome self.now.noted (λ noted. IfOk result (λ survey. noted.size ≤ survey.cut.dropped + survey.at)) }
        ensures number { IfOk result (λ survey. survey.number ≡ self.now.number) }
    {
        let mut all = copy_of(alloc, &kept)?;
        let from = match base {
            Base::Own => at,
            Base::Before(_) | Base::Nothing => HEAD.min(self.bytes.len()),
        };
        let behind = find(alloc, head_of(self.bytes), self.bytes, from, &mut all)?;
        for gap in &behind.gaps {
            know_guessed(&mut all, bytes_of(self.bytes, gap))?;
        }
        know_all(&mut kept, &all)?;
        let at = match base {
            Base::Own => at as u64,
            Base::Before(_) | Base::Nothing => 0,
        };
        let size = self.size();
        let missing = size.saturating_sub(self.bytes.len() as u64);
        Ok(Survey {
            number: self.number,
            at,
            base,
            cut: Rescue {
                kept,
                dropped: size.saturating_sub(at),
            },
            salvaged: Rescue {
                kept: all,
                dropped: missing.saturating_add(behind.dropped as u64),
            },
            behind,
            has_accounts: false,
        })
    }
}

impl Base {
    /// Whether the opening of the segment is whole.
    fn is_own(self) -> bool
        ensures { result ≡ spec.is_own self }
    {
        matches!(self, Base::Own)
    }

    /// How next unique ids are raised if so many bytes are dropped: by as many messages as these can hold. A damaged opening may have
    /// said that ids were raised before, so without it they become at least this one first.
    pub fn raise_for(self, dropped: u64, least: u64) -> Raise
        ensures { result ≡ spec.raise_for dropped self least }
    {
        let by = most_messages(dropped);
        match self {
            Base::Own => Raise { least: 0, by },
            Base::Before(_) | Base::Nothing => Raise { least, by },
        }
    }
}

/// Whether a number is the one after another.
fn is_next(before: u64, number: u64) -> bool
    ensures { result ≡ (before + 1 == number) }
{
    before < number && number - before == 1
}

/// What was kept, with the next unique id of each user raised.
fn raised(alloc: Global, rescue: Rescue, base: Base, least: u64) -> Result<Kept, Memory>
    ensures { IfOk result (IsRaised rescue.dropped base least rescue.kept) }
{
    let raise = base.raise_for(rescue.dropped, least);
    let mut kept = rescue.kept;
    raise_all(alloc, &mut kept, raise)?;
    Ok(kept)
}

impl Survey {
    /// Keeps the names of all accounts, so that the next unique ids of these users are raised too. Nothing else changes.
    pub fn know(&mut self, names: &[Name]) -> Result<(), Memory>
        ensures cut { OnOk result ((name : List ℕ) → kept_for name self.new.cut.kept ≡ kept_for name self.old.cut.kept) }
        ensures salvaged { OnOk result ((name : List ℕ) → kept_for name self.new.salvaged.kept ≡ kept_for name self.old.salvaged.kept) }
    {
        know_named(&mut self.cut.kept, names)?;
        know_named(&mut self.salvaged.kept, names)?;
        self.has_accounts = true;
        Ok(())
    }

    /// Whether a user may have been given a unique id of whom not even the name is kept: the names of all accounts aren't, and the opening
    /// is damaged, or what can't be read has room for a message.
    pub fn lacks_names(&self) -> bool
        ensures { result ≡ spec.lacks_names self.now.has_accounts self.now.base self.now.salvaged.dropped }
    {
        !self.has_accounts && (!self.base.is_own() || most_messages(self.salvaged.dropped) > 0)
    }

    /// The least next unique id that a mend leaves, if mends before have raised ids to this one, which is `None` if it can't be read. If
    /// the segment just before isn't whole, nothing may be known of ids that were given: then it is at least this time.
    pub(crate) fn least(&self, mended: Option<u64>, time: u64) -> u64
        ensures { result ≡ spec.least_for self.now.base self.now.number mended time }
    {
        let before = match self.base {
            Base::Own => return 0,
            Base::Before(before) => before,
            Base::Nothing => 0,
        };
        match (mended, is_next(before, self.number)) {
            (None, _) => time,
            (Some(mended), true) => mended,
            (Some(mended), false) => mended.max(time),
        }
    }

    /// What is left by a cut, or by a salvage, with the next unique id of each user raised.
    pub(crate) fn into_kept(self, alloc: Global, way: Way, least: u64) -> Result<Kept, Memory>
        ensures cut { way ≡ Cut → IfOk result (IsRaised self.cut.dropped self.base least self.cut.kept) }
        ensures salvage { way ≡ Salvage → IfOk result (IsRaised self.salvaged.dropped self.base least self.salvaged.kept) }
    {
        let Survey {
            number: _number,
            at: _at,
            base,
            cut,
            salvaged,
            behind: _behind,
            has_accounts: _has_accounts,
        } = self;
        match way {
            Way::Cut => raised(alloc, cut, base, least),
            Way::Salvage => raised(alloc, salvaged, base, least),
        }
    }
}

/// What follows the damage of a user's mail.
#[derive(Clone, Copy, Debug, PartialEq, Eq)]
pub struct Behind {
    pub name: Name,
    /// How many messages were stored there, and are kept by a salvage alone.
    pub messages: u64,
    /// How many messages were removed there, and come back by a cut.
    pub removed: u64,
}

/// How many messages have this unique id or a higher one.
fn count_from(next: u64, messages: &[Message]) -> u64 {
    let mut count = 0u64;
    for message in messages {
        if message.uid >= next {
            count = count.saturating_add(1);
        }
    }
    count
}

impl Survey {
    /// What follows the damage, by users.
    pub fn users(&self, alloc: Global) -> Result<Vec<Behind>, Memory> {
        let (cut, all) = (&self.cut.kept, &self.salvaged.kept);
        let mut users = Vec::new(alloc);
        for i in 0..all.users() {
            let Some(name) = all.name_at(i) else {
                break;
            };
            let next = cut.next_uid(&name);
            let messages = count_from(next, all.messages(&name));
            let stayed = (all.messages(&name).len() as u64).saturating_sub(messages);
            let removed = (cut.messages(&name).len() as u64).saturating_sub(stayed);
            if all.next_uid(&name) > next || removed > 0 {
                users.push(Behind {
                    name,
                    messages,
                    removed,
                })?;
            }
        }
        Ok(users)
    }
}
