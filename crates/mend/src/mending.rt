//! Mends a data folder.
ghost use Rattle.std.specs.Prelude.{◌≡◌, true, IsErr};
ghost use Rattle.mend.specs.Raising.{lacks_names};

use crate::fault::MendFault;
use crate::folder_files::FolderFiles;
use crate::head::head_of;
use crate::mended::{mended_in, spell_mended};
use crate::note::Noted;
use crate::place::HEAD;
use crate::survey::{Base, Segment, Survey, Way, end_of, front_of};
use crate::whole::record_at;
use ballot::Memory;
use batches::put_head;
use maildrop::Kept;
use std::alloc::Global;
use std::fs::File;
use std::rt::Files;
use store::{DataFolder, StoreFault, SyncMode};

/// A data folder that this process has the lock of.
#[derive(Drop)]
pub struct Mending<R: Files<File = File>> {
    alloc: Global,
    folder: DataFolder<R>,
    files: FolderFiles<R>,
}

/// How a start finds a folder.
#[derive(Drop)]
pub enum Condition {
    /// A start goes on.
    Sound,
    /// A start refuses it for this, and only the note of an orderly end is wrong. This is kept.
    NoteAlone(StoreFault, Kept),
    /// A start refuses it for this.
    Damaged(StoreFault, Survey),
}

/// Whether a note can be of a segment with these bytes: it has the salt of their head, or they don't begin with one.
fn is_note_of(noted: &Noted, bytes: &[u8]) -> bool {
    match head_of(bytes) {
        Some(head) => head.salt == noted.salt,
        None => true,
    }
}

/// The newest segment's bytes, with the head that was noted in place of theirs, if that makes its first record whole.
fn with_noted_head(
    alloc: Global,
    bytes: Vec<u8>,
    noted: &Noted,
) -> Result<(Vec<u8>, bool), Memory> {
    if bytes.len() < HEAD {
        return Ok((bytes, false));
    }
    let (_, rest) = bytes.split_at(HEAD);
    let is_so = match head_of(&bytes) {
        Some(head) => head.is_batched && head.salt == noted.salt,
        None => false,
    };
    if is_so || record_at(noted.salt, HEAD as u64, rest).is_none() {
        return Ok((bytes, false));
    }
    let mut mended = Vec::with_capacity(alloc, bytes.len())?;
    put_head(&mut mended, noted.salt)?;
    mended.extend_from_slice(rest)?;
    Ok((mended, true))
}

/// Whether a start has found that a file isn't as it was written.
pub fn is_of_files(fault: StoreFault) -> bool {
    !matches!(
        fault,
        StoreFault::InUse
            | StoreFault::NotBegun
            | StoreFault::NotEmpty
            | StoreFault::Memory
            | StoreFault::Read
            | StoreFault::Write
    )
}

/// How many segments before the newest one are looked at for a whole one.
const LOOKED_AT_BEFORE: u64 = 100;

/// What the newest segment before the one with this number has that a start would take.
fn before<R: Files<File = File> + Copy>(
    alloc: Global,
    files: &FolderFiles<R>,
    number: u64,
) -> Result<(Base, Kept), StoreFault> {
    for distance in 1..LOOKED_AT_BEFORE + 1 {
        let before = number.saturating_sub(distance);
        if before == 0 {
            break;
        }
        if let Some(bytes) = files.segment(before)? {
            if let Some(kept) = front_of(alloc, before, &bytes, bytes.len())? {
                return Ok((Base::Before(before), kept));
            }
        }
    }
    Ok((Base::Nothing, Kept::new(alloc)))
}

/// What stands in a segment, and whether something is missing of it.
fn condition_of<R: Files<File = File> + Copy>(
    alloc: Global,
    files: &FolderFiles<R>,
    fault: StoreFault,
    segment: &Segment<'_>,
    is_changed: bool,
) -> Result<Condition, StoreFault> {
    let (number, bytes) = (segment.number, segment.bytes);
    let (end, is_whole) = end_of(alloc, number, bytes)?;
    let at = segment.cut_at(end);
    let front = front_of(alloc, number, bytes, at)?;
    let is_sound = is_whole && !is_changed && segment.is_as_noted();
    match front {
        Some(kept) if is_sound => Ok(Condition::NoteAlone(fault, kept)),
        Some(kept) => Ok(Condition::Damaged(fault, segment.survey(alloc, Base::Own, kept, at)?)),
        None => {
            let (base, kept) = before(alloc, files, number)?;
            Ok(Condition::Damaged(fault, segment.survey(alloc, base, kept, at)?))
        }
    }
}

/// Looks for what can be had of a folder that a start refuses for this.
fn examine<R: Files<File = File> + Copy>(
    alloc: Global,
    files: &FolderFiles<R>,
    fault: StoreFault,
) -> Result<Condition, StoreFault> {
    let note = files.note()?;
    let newest = files.newest()?;
    let number = newest.max(note.map_or(0, |noted| noted.number));
    let noted = note.filter(|noted| noted.number == number);
    let (bytes, is_changed) = match (files.segment(number)?, &noted) {
        (Some(bytes), Some(noted)) => with_noted_head(alloc, bytes, noted)?,
        (Some(bytes), None) => (bytes, false),
        (None, _) => (Vec::new(alloc), true),
    };
    let segment = Segment {
        number,
        bytes: &bytes,
        noted: noted.filter(|noted| is_note_of(noted, &bytes)),
    };
    condition_of(alloc, files, fault, &segment, is_changed)
}

/// What can be read of a folder that a start refuses for this. Takes no lock and changes nothing.
pub fn read_damaged<R: Files<File = File> + Copy>(
    rt: &R,
    alloc: Global,
    path: &str,
    fault: StoreFault,
) -> Result<Kept, StoreFault> {
    let files = FolderFiles::new(rt, alloc, path)?;
    match examine(alloc, &files, fault)? {
        Condition::Sound => Ok(Kept::new(alloc)),
        Condition::NoteAlone(_, kept) => Ok(kept),
        Condition::Damaged(_, survey) => Ok(survey.salvaged.kept),
    }
}

impl<R: Files<File = File> + Copy> Mending<R> {
    /// Takes the lock of a data folder. `InUse` if another process has it, `NotBegun` if there is none.
    pub fn open(rt: &R, alloc: Global, path: &str) -> Result<Self, StoreFault> {
        let folder = DataFolder::open(rt, alloc, path, SyncMode::Disk)?;
        let files = FolderFiles::new(rt, alloc, path)?;
        Ok(Mending {
            alloc,
            folder,
            files,
        })
    }

    /// Looks whether a start would go on, and if not what can be had. Changes nothing.
    pub fn look(&self) -> Result<Condition, StoreFault> {
        match self.folder.load_newest() {
            Ok(_) => Ok(Condition::Sound),
            Err(fault) if is_of_files(fault) => examine(self.alloc, &self.files, fault),
            Err(fault) => Err(fault),
        }
    }

    /// The least next unique id that a mend leaves at this time, which is 0 if the segment's opening is whole. Each mend notes how far ids
    /// are raised. If the segment just before isn't whole either, nothing may be known of ids that were given: then it is at least the
    /// time, in seconds since 2020.
    pub fn least(&self, survey: &Survey, time: u64) -> Result<u64, StoreFault> {
        Ok(survey.least(self.mended()?, time))
    }

    /// How far mends have raised ids: 0 before the first one, and nothing if the note of it can't be read.
    fn mended(&self) -> Result<Option<u64>, StoreFault> {
        match self.files.mended()? {
            Some(bytes) => Ok(mended_in(self.alloc, &bytes)?),
            None => Ok(Some(0)),
        }
    }

    /// Notes how far ids are raised in what is kept, before it is.
    fn note_mended(&self, kept: &Kept) -> Result<(), StoreFault> {
        let mut highest = self.mended()?.unwrap_or(0);
        for i in 0..kept.users() {
            if let Some(name) = kept.name_at(i) {
                highest = highest.max(kept.next_uid(&name));
            }
        }
        self.files.write_mended(&spell_mended(self.alloc, highest)?)
    }

    /// Mends the folder in this way: the segment is replaced by one with this salt. If its opening is damaged, each next unique id becomes
    /// at least this one, which `least` returns. `Nothing` if there is nothing that could be kept, and
    /// `NoNames` if the accounts aren't known and must be. After an error a start refuses the folder as before, or reads it as mended,
    /// and this can be tried again.
    pub fn mend(&self, survey: Survey, way: Way, salt: u64, least: u64) -> Result<(), MendFault>
        ensures names { lacks_names survey.has_accounts survey.base survey.salvaged.dropped ≡ true → IsErr result }
    {
        let number = survey.number;
        let is_lost = way == Way::Cut || survey.behind.records == 0;
        if survey.base == Base::Nothing && is_lost {
            return Err(MendFault::Nothing { segment: number });
        }
        if survey.lacks_names() {
            return Err(MendFault::NoNames);
        }
        let kept = survey.into_kept(self.alloc, way, least)?;
        self.note_mended(&kept)?;
        self.files.replace(number, &kept, salt)?;
        self.check()
    }

    /// Removes the note of an orderly end.
    pub fn forget_note(&self) -> Result<(), MendFault> {
        self.files.forget_note()?;
        self.check()
    }

    /// Whether a start goes on now.
    fn check(&self) -> Result<(), MendFault> {
        match self.folder.load_newest() {
            Ok(_) => Ok(()),
            Err(fault) => Err(MendFault::Store(fault)),
        }
    }
}
