//! The mark of a node that was started.
ghost use Rattle.std.specs.Prelude.{IfErr};
ghost use Rattle.settings.specs.Faults.{IsMarkFault};

use ballot::NodeId;
use ports::Fault;
use std::alloc::Global;
use std::fs::{File, OpenOptions};
use std::io::ErrorKind;
use std::rt::Files;
use std::{fs, io};

/// Makes a file of the node's number in this folder, for good: it is there after a power failure too. If it is there
/// already, the node was started before: `StartedBefore`. A node that has forgotten what it promised may not come back. `Mark` if
/// the file can't be made, or `Memory`.
pub fn mark_start<R: Files<File = File>>(
    rt: &R,
    alloc: Global,
    folder: &str,
    node: NodeId,
) -> Result<(), Fault>
    ensures { IfErr result (λ fault. IsMarkFault node fault) }
{
    let number = node.get();
    let path = format!(in alloc; "{folder}/{number}")?;
    match make_file(rt, folder, path.as_str()) {
        Ok(()) => Ok(()),
        Err(error) if error.kind() == ErrorKind::AlreadyExists => {
            Err(Fault::StartedBefore(number))
        }
        Err(_) => Err(Fault::Mark),
    }
}

/// Makes an empty file, and waits until it is on the disk, and its name in the folder. If that can't be had the file is removed: the node
/// hasn't promised anything yet.
fn make_file<R: Files<File = File>>(rt: &R, folder: &str, path: &str) -> io::Result<()> {
    let folder = fs::open(rt, folder)?;
    let file = OpenOptions::new()
        .write(true)
        .create_new(true)
        .open(rt, path)?;
    let synced = sync_all(&file, &folder);
    if synced.is_err() {
        let _stays = fs::remove_file(rt, path);
    }
    synced
}

/// Waits until a file is on the disk, and its name in the folder.
fn sync_all(file: &File, folder: &File) -> io::Result<()> {
    file.sync_all()?;
    folder.sync_all()
}
