//! The files of a data folder that a mend reads and replaces.

use crate::fault::MendFault;
use crate::note::{Noted, note_in};
use maildrop::Kept;
use std::alloc::{AllocError, Global};
use std::fs::{File, OpenOptions};
use std::io::{ErrorKind, Read, Write};
use std::os::unix::fs::OpenOptionsExt;
use std::rt::Files;
use std::{fs, io};
use store::{FileDevice, StoreFault, SyncMode, write_snapshot};

/// The permissions of files: only the owner reads and writes them.
const FILE_MODE: u32 = 0o600;

/// The fewest digits of a number in a name.
const DIGITS: usize = 8;

/// The end of the name of a segment that counts.
const PUBLISHED: &[u8] = b".log";

/// The name of the note of an orderly end.
const NOTE: &str = "clean";

/// The name of the file that says how far mends have raised unique ids, and its name until it is whole.
const MENDED: &str = "mended";

const UNFINISHED: &str = "mended.new";

/// How many bytes of a list of names are read at a time.
const PIECE: usize = 8192;

/// The files of the folder with this path, which is locked.
#[derive(Drop)]
pub(crate) struct FolderFiles<R: Files<File = File>> {
    rt: R,
    alloc: Global,
    path: String,
}

/// The number of a segment that counts, by its name.
fn number_in(name: &[u8]) -> Option<u64> {
    let digits = name.strip_suffix(PUBLISHED)?;
    if digits.len() < DIGITS || (digits.len() > DIGITS && digits[0] == b'0') {
        return None;
    }
    let mut number = 0u64;
    for digit in digits {
        if !digit.is_ascii_digit() {
            return None;
        }
        number = number
            .checked_mul(10)?
            .checked_add(u64::from(*digit - b'0'))?;
    }
    if number == 0 { None } else { Some(number) }
}

/// The highest number of a segment, of this one and those among these names, each of which ends with a NUL.
fn newest_in(best: u64, names: &[u8]) -> u64 {
    let mut newest = best;
    let mut start = 0;
    for i in 0..names.len() {
        if names[i] == 0 {
            let (front, _) = names.split_at(i);
            let (_, name) = front.split_at(start.min(i));
            if let Some(number) = number_in(name) {
                newest = newest.max(number);
            }
            start = i + 1;
        }
    }
    newest
}

fn read_fault(error: io::Error) -> StoreFault {
    match error.kind() {
        ErrorKind::OutOfMemory => StoreFault::Memory,
        _ => StoreFault::Read,
    }
}

fn write_fault(_error: io::Error) -> StoreFault {
    StoreFault::Write
}

impl<R: Files<File = File> + Copy> FolderFiles<R> {
    /// Takes memory for the path.
    pub(crate) fn new(rt: &R, alloc: Global, path: &str) -> Result<Self, AllocError> {
        Ok(FolderFiles {
            rt: *rt,
            alloc,
            path: String::from_str(alloc, path)?,
        })
    }

    /// The path of a file of the folder.
    fn path_of(&self, name: &str) -> Result<String, AllocError> {
        let alloc = self.alloc;
        let path = &self.path;
        format!(in alloc; "{path}/{name}")
    }

    /// The path of a segment with this end.
    fn segment_path(&self, number: u64, end: &str) -> Result<String, AllocError> {
        let alloc = self.alloc;
        let path = &self.path;
        format!(in alloc; "{path}/{number:08}.{end}")
    }

    /// The bytes of a file. `None` if there is none.
    fn read(&self, path: &str) -> Result<Option<Vec<u8>>, StoreFault> {
        let mut file = match fs::open(&self.rt, path) {
            Ok(file) => file,
            Err(error) if error.kind() == ErrorKind::NotFound => return Ok(None),
            Err(error) => return Err(read_fault(error)),
        };
        let mut bytes = Vec::new(self.alloc);
        file.read_to_end(&mut bytes).map_err(read_fault)?;
        Ok(Some(bytes))
    }

    /// The bytes of the segment with this number. `None` if there is none.
    pub(crate) fn segment(&self, number: u64) -> Result<Option<Vec<u8>>, StoreFault> {
        let path = self.segment_path(number, "log")?;
        self.read(path.as_str())
    }

    /// The note of an orderly end, if there is one that can be read.
    pub(crate) fn note(&self) -> Result<Option<Noted>, StoreFault> {
        let path = self.path_of(NOTE)?;
        Ok(self.read(path.as_str())?.and_then(|bytes| note_in(&bytes)))
    }

    /// The number of the newest segment, or 0.
    pub(crate) fn newest(&self) -> Result<u64, StoreFault> {
        let path = self.path_of("")?;
        let mut folder = self.rt.open_dir(path.as_str()).map_err(read_fault)?;
        let mut piece = vec![in self.alloc; 0u8; PIECE]?;
        let mut newest = 0;
        for _ in 0..u64::MAX {
            match folder.read(&mut piece) {
                Ok(0) => return Ok(newest),
                // No read ends inside a name.
                Ok(count) => newest = newest_in(newest, piece.split_at(count).0),
                Err(error) if error.kind() == ErrorKind::Interrupted => {}
                Err(error) => return Err(read_fault(error)),
            }
        }
        Err(StoreFault::Read)
    }

    /// Waits until the names in the folder are on the disk.
    fn sync(&self) -> Result<(), StoreFault> {
        let folder = fs::open(&self.rt, self.path.as_str()).map_err(write_fault)?;
        folder.sync_all().map_err(write_fault)
    }

    /// The bytes of the file that says how far mends have raised unique ids. `None` before the first mend.
    pub(crate) fn mended(&self) -> Result<Option<Vec<u8>>, StoreFault> {
        let path = self.path_of(MENDED)?;
        self.read(path.as_str())
    }

    /// Replaces that file by one with these bytes, which is on the disk then.
    pub(crate) fn write_mended(&self, bytes: &[u8]) -> Result<(), StoreFault> {
        let from = self.path_of(UNFINISHED)?;
        let to = self.path_of(MENDED)?;
        let _gone = fs::remove_file(&self.rt, from.as_str());
        let mut options = OpenOptions::new();
        options.write(true).create_new(true).mode(FILE_MODE);
        let mut file = options.open(&self.rt, from.as_str()).map_err(write_fault)?;
        file.write_all(bytes).map_err(write_fault)?;
        file.sync_all().map_err(write_fault)?;
        fs::rename(&self.rt, from.as_str(), to.as_str()).map_err(write_fault)?;
        self.sync()
    }

    /// Makes a segment with this number, which doesn't count yet. All of it is on the disk.
    fn make(&self, number: u64, kept: &Kept, salt: u64) -> Result<(), StoreFault> {
        let path = self.segment_path(number, "new")?;
        let _gone = fs::remove_file(&self.rt, path.as_str());
        let mut options = OpenOptions::new();
        options.append(true).create_new(true).mode(FILE_MODE);
        let file = options.open(&self.rt, path.as_str()).map_err(write_fault)?;
        let device = FileDevice::new(file, SyncMode::Disk);
        write_snapshot(self.alloc, device, number, salt, kept, usize::MAX)?;
        Ok(())
    }

    /// Gives the damaged segment a second name, under which it stays. It may have that name already, if a mend was cut off.
    fn set_aside(&self, number: u64) -> Result<(), MendFault> {
        let from = self.segment_path(number, "log")?;
        let to = self.segment_path(number, "log.damaged")?;
        match fs::hard_link(&self.rt, from.as_str(), to.as_str()) {
            Ok(()) => Ok(()),
            Err(error) if error.kind() == ErrorKind::NotFound => Ok(()),
            Err(error) if error.kind() == ErrorKind::AlreadyExists => {
                if self.read(from.as_str())? == self.read(to.as_str())? {
                    Ok(())
                } else {
                    Err(MendFault::InTheWay { segment: number })
                }
            }
            Err(error) => Err(MendFault::Store(write_fault(error))),
        }
    }

    /// Replaces the segment with this number, or one that is missing, by one in which this is kept, with this salt. The old one stays
    /// beside it, with the end `.log.damaged`.
    ///
    /// Whatever call is the last, a start reads the old segment or the new one. The note of an orderly end goes last: until then a start
    /// refuses either, since it isn't what was noted.
    pub(crate) fn replace(&self, number: u64, kept: &Kept, salt: u64) -> Result<(), MendFault> {
        self.make(number, kept, salt)?;
        self.set_aside(number)?;
        self.sync()?;
        let from = self.segment_path(number, "new")?;
        let to = self.segment_path(number, "log")?;
        fs::rename(&self.rt, from.as_str(), to.as_str()).map_err(write_fault)?;
        self.sync()?;
        self.forget_note()?;
        Ok(())
    }

    /// Removes the note of an orderly end, if there is one.
    pub(crate) fn forget_note(&self) -> Result<(), StoreFault> {
        let path = self.path_of(NOTE)?;
        match fs::remove_file(&self.rt, path.as_str()) {
            Ok(()) => {}
            Err(error) if error.kind() == ErrorKind::NotFound => {}
            Err(error) => return Err(write_fault(error)),
        }
        self.sync()
    }
}
