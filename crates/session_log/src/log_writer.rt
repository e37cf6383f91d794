//! The thread that writes the lines of the log.

use crate::event_lines::{put_gap, put_time};
use crate::log_queue::{LogQueue, Turn};
use ballot::Memory;
use ports::{Fault, STACK};
use std::alloc::Global;
use std::fs::{File, OpenOptions};
use std::io;
use std::io::{ErrorKind, Write};
use std::os::unix::fs::OpenOptionsExt;
use std::rt::Files;
use std::sync::{Arc, Wait};
use std::thread::{Builder, Threads};
use std::time::{Clock, Duration};

/// Room for most lines.
pub(crate) const LINE: usize = 256;

/// The permissions of a log that is made: it names users and addresses.
const FILE_MODE: u32 = 0o640;

/// After how many milliseconds a write that failed is tried again.
const RETRY_MS: u64 = 1_000;

/// Where lines are written.
#[derive(Drop)]
pub(crate) enum Target {
    /// To the end of a file.
    File(File),
    /// To standard error.
    StandardError,
}

impl Target {
    /// The file of this path, to append to it. One that isn't there is made.
    pub(crate) fn open<R: Files<File = File>>(rt: &R, path: &str) -> io::Result<Target> {
        let mut options = OpenOptions::new();
        let file = options
            .append(true)
            .create(true)
            .mode(FILE_MODE)
            .open(rt, path)?;
        Ok(Target::File(file))
    }

    /// Opens the file of this path in place of the one that it was, which goes on if that fails. Returns whether it is opened.
    fn reopen<R: Files<File = File>>(&mut self, rt: &R, path: &str) -> bool {
        match Target::open(rt, path) {
            Ok(target) => {
                *self = target;
                true
            }
            Err(_) => false,
        }
    }

    /// Writes as many bytes as the system takes at once. Returns how many, which is 0 after an error.
    fn write(&mut self, bytes: &[u8]) -> usize {
        match self {
            Target::File(file) => written(file, bytes),
            Target::StandardError => {
                usize::try_from(libc::write(libc::STDERR_FILENO, bytes)).unwrap_or(0)
            }
        }
    }
}

/// How many bytes were written to a file at once, 0 after an error. An interrupted write is made again.
fn written(file: &mut File, bytes: &[u8]) -> usize {
    for _ in 0..u64::MAX {
        match file.write(bytes) {
            Ok(count) => return count,
            Err(error) if error.kind() == ErrorKind::Interrupted => {}
            Err(_) => return 0,
        }
    }
    0
}

/// Where the lines of a log go, and the path by which that is opened anew.
#[derive(Drop)]
struct Place {
    target: Target,
    path: String,
}

/// Starts the thread that writes the lines of a queue to a target, which it opens anew by this path.
pub(crate) fn start_writing<R: Files<File = File> + Threads + Wait + Clock + Copy + Send + 'static>(
    rt: &R,
    alloc: Global,
    queue: &Arc<LogQueue>,
    target: Target,
    path: &str,
) -> Result<(), Fault>
where
    R::Dir: Send,
{
    let path = String::from_str(alloc, path)?;
    let (rt, queue) = (*rt, Arc::try_clone(queue)?);
    let mut place = Place { target, path };
    let mut gap = Vec::with_capacity(alloc, LINE)?;
    let thread = Builder::new().stack_size(STACK).spawn(
        &rt,
        move || write_lines(&rt, &queue, &mut place, &mut gap),
    );
    match thread {
        Ok(_) => Ok(()),
        Err(_) => Err(Fault::Memory),
    }
}

/// Writes each line that comes, until none comes any more. `gap` has room for the line about those that are missing.
fn write_lines<R: Files<File = File> + Wait + Clock>(
    rt: &R,
    queue: &LogQueue,
    place: &mut Place,
    gap: &mut Vec<u8>,
) {
    for _ in rt.forever() {
        let turn = queue.next(rt);
        if !take_turn(rt, queue, place, gap, &turn) {
            break;
        }
    }
    write_gap(rt, queue, place, gap, queue.missing(rt));
    queue.end(rt);
}

/// Does what comes next. Returns whether more may come.
fn take_turn<R: Files<File = File> + Wait + Clock>(
    rt: &R,
    queue: &LogQueue,
    place: &mut Place,
    gap: &mut Vec<u8>,
    turn: &Turn,
) -> bool {
    match turn {
        Turn::Line(line) => {
            write_gap(rt, queue, place, gap, line.missing);
            if !write_whole(rt, queue, place, line.text.as_slice()) {
                queue.lose(rt);
            }
            true
        }
        Turn::Reopen(number) => {
            reopen(rt, queue, place, *number);
            true
        }
        Turn::End => false,
    }
}

/// Opens the file anew for the requests up to this number. If it can't be opened, the old one goes on. Returns whether it is opened.
fn reopen<R: Files<File = File> + Wait>(
    rt: &R,
    queue: &LogQueue,
    place: &mut Place,
    number: u64,
) -> bool {
    let is_opened = place.target.reopen(rt, place.path.as_str());
    queue.note_reopened(rt, number, is_opened);
    is_opened
}

/// Opens the file anew if that is asked for, whatever lines stand before the request: the old file takes none. Returns whether it
/// is opened.
fn reopen_if_asked<R: Files<File = File> + Wait>(
    rt: &R,
    queue: &LogQueue,
    place: &mut Place,
) -> bool {
    match queue.take_reopen(rt) {
        None => false,
        Some(number) => reopen(rt, queue, place, number),
    }
}

/// Writes how many lines are missing, if any are.
fn write_gap<R: Files<File = File> + Wait + Clock>(
    rt: &R,
    queue: &LogQueue,
    place: &mut Place,
    gap: &mut Vec<u8>,
    missing: u64,
) {
    if missing > 0
        && put_gap_line(rt, gap, missing).is_ok()
        && !write_whole(rt, queue, place, gap.as_slice())
    {
        queue.miss(rt, missing);
    }
}

/// Puts the line about lines that are missing in place of a text.
fn put_gap_line<R: Clock>(rt: &R, text: &mut Vec<u8>, missing: u64) -> Result<(), Memory> {
    text.clear();
    put_time(text, millis_since_1970(rt))?;
    put_gap(text, missing)
}

/// Writes all of a line. What can't be written is tried again each second. Once no line comes any more it is tried for the last time.
/// If the file is opened anew meanwhile, a line of which nothing is written yet goes to the new one, and the rest of another one is
/// dropped. Returns whether all of it is written.
fn write_whole<R: Files<File = File> + Wait + Clock>(
    rt: &R,
    queue: &LogQueue,
    place: &mut Place,
    line: &[u8],
) -> bool {
    let mut rest = line;
    let mut is_last = false;
    for _ in rt.forever() {
        let count = place.target.write(rest);
        rest = rest.get(count..).unwrap_or_default();
        if rest.is_empty() {
            return true;
        }
        if count == 0 {
            if is_last {
                return false;
            }
            is_last = queue.pauses(rt, Duration::from_millis(RETRY_MS));
            if reopen_if_asked(rt, queue, place) && rest.len() < line.len() {
                return false;
            }
        }
    }
    false
}

/// The time, or 0 if the clock can't be read.
pub(crate) fn millis_since_1970<R: Clock>(rt: &R) -> u64 {
    match rt.since_1970() {
        Ok(time) => u64::try_from(time.as_millis()).unwrap_or(u64::MAX),
        Err(_) => 0,
    }
}
