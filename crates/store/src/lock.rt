//! The lock of a data folder.

use std::fs::File;
use std::io;
use std::os::unix::fs::MetadataExt;

/// The lock of a data folder, which this process has. It is given back once this is let go. Whatever can write to the folder
/// owns a share.
#[derive(Drop)]
pub struct FolderLock {
    file: File,
}

impl FolderLock {
    /// This file was locked.
    pub(crate) fn new(file: File) -> Self {
        FolderLock { file }
    }

    /// How many names the file has. Another process may lock another file once it has none.
    pub(crate) fn links(&self) -> io::Result<u64> {
        let metadata = self.file.metadata()?;
        Ok(metadata.nlink())
    }
}
