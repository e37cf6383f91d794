//! Files that are read piece by piece.

use crate::fault::Fault;
use crate::operator_limits::PIECE;
use std::alloc::Global;
use std::io;
use std::io::Read;
use std::rt::Files;

/// What looks at a file while it is read.
pub trait ReadOn {
    /// Whether the file may still be what it has to be, if it begins with these bytes. More bytes come with each call.
    fn reads_on(&mut self, bytes: &[u8]) -> bool;
}

/// Reads on whatever comes.
#[derive(Drop)]
struct Anything;

impl ReadOn for Anything {
    fn reads_on(&mut self, _bytes: &[u8]) -> bool {
        true
    }
}

/// The bytes of the file of this path. They end early, after the piece that shows that the file isn't what it has to be, or
/// that makes them more than so many.
pub fn read_file<R: Files, L: ReadOn>(
    rt: &R,
    alloc: Global,
    path: &str,
    most: u64,
    look: &mut L,
) -> Result<Vec<u8>, Fault> {
    match std::fs::open(rt, path) {
        Ok(mut file) => read_on(alloc, &mut file, most, look),
        Err(error) => Err(fault_of(error.kind())),
    }
}

/// The bytes that a reader has, or, if these are more than so many, the first of them, which are also more.
pub fn read_within<S: Read>(alloc: Global, reader: &mut S, most: u64) -> Result<Vec<u8>, Fault> {
    read_on(alloc, reader, most, &mut Anything)
}

fn read_on<S: Read, L: ReadOn>(
    alloc: Global,
    reader: &mut S,
    most: u64,
    look: &mut L,
) -> Result<Vec<u8>, Fault> {
    let mut bytes = Vec::new(alloc);
    let mut piece = [0u8; PIECE];
    for _ in 0..u64::MAX {
        let count = match reader.read(&mut piece) {
            Ok(count) => count,
            Err(error) if error.kind() == io::ErrorKind::Interrupted => continue,
            Err(error) => return Err(fault_of(error.kind())),
        };
        bytes.extend_from_slice(&piece[..count])?;
        if count == 0 || bytes.len() as u64 > most || !look.reads_on(&bytes) {
            return Ok(bytes);
        }
    }
    Ok(bytes)
}

fn fault_of(kind: io::ErrorKind) -> Fault {
    match kind {
        io::ErrorKind::OutOfMemory => Fault::Memory,
        _ => Fault::Read,
    }
}
