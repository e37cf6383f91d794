//! Why a file can't be read.

use std::io::ErrorKind;
use std::rt::Files;
use std::{fs, io};
use thiserror::Error;

/// Why a file can't be read.
#[derive(Clone, Copy, Debug, PartialEq, Eq, Error)]
pub enum Unread {
    #[error("no such file")]
    Absent,
    #[error("permission denied")]
    Forbidden,
    #[error("it is a folder")]
    Folder,
}

impl Unread {
    /// What an error says of a file, if it says that much.
    pub(crate) fn of(error: &io::Error) -> Option<Self> {
        match error.kind() {
            ErrorKind::NotFound => Some(Unread::Absent),
            ErrorKind::PermissionDenied => Some(Unread::Forbidden),
            _ => None,
        }
    }

    /// Why the file of this path can't be read, if that is known. Only an ordinary file is opened: who opens a pipe has an effect on
    /// whoever writes to it.
    pub fn look<R: Files>(rt: &R, path: &str) -> Option<Self> {
        match fs::metadata(rt, path) {
            Ok(found) if found.is_dir() => Some(Unread::Folder),
            Ok(found) if found.is_file() => Self::open(rt, path),
            Ok(_) => None,
            Err(error) => Self::of(&error),
        }
    }

    fn open<R: Files>(rt: &R, path: &str) -> Option<Self> {
        match fs::open(rt, path) {
            Ok(_file) => None,
            Err(error) => Self::of(&error),
        }
    }
}
