//! The lines of a script, as they are read.
ghost use Rattle.std.specs.Prelude.{◌≡◌, ◌≤◌, ◌++◌, ◌+◌, ℕ, List, [], true, false, length, take, drop, Some, Err, IfOk, IfErr, OnOk, OnErr};
ghost use Rattle.std.specs.Io.Buffered.{reader_buffer, reader_remaining};
ghost use Rattle.std.specs.List.{list_any};
ghost use Rattle.memchr.specs.Find.{is_byte};
ghost use Rattle.script.specs.Beginnings as beginnings;
ghost use Rattle.script.specs.Beginnings.{BeginsNoLine};
ghost use Rattle.simulator.specs.Reading.{BeginsWithNone, IsFaultAt, IsPart, IsPartTaken, IsRead};

use crate::fault::Fault;
use memchr::memchr;
use script::may_begin_line;
use std::io::{BufRead, BufReader, ErrorKind, Read};

/// How many reads a script may take.
pub(crate) const MOST_READS: u32 = u32::MAX;

/// How many of the bytes are of the first line, with its line feed, and whether that is among them.
fn part_of_line(bytes: &[u8]) -> (usize, bool)
    ensures bound { result.0 ≤ length bytes.now }
    ensures part { (behind : List ℕ) → IsPart (bytes.now ++ behind) (take result.0 bytes.now) (drop result.0 bytes.now ++ behind) result.1 }
    ensures whole { result.1 ≡ list_any (is_byte 10) bytes.now }
    ensures all { result.1 ≡ false → result.0 ≡ length bytes.now }
{
    match memchr(b'\n', bytes) {
        Some(end) => (end + 1, true),
        None => (bytes.len(), false),
    }
}

/// Moves what is held of the line to `line`. Returns whether its line feed is among it; if not, nothing is held any more.
/// After `Memory` all is as it was.
fn take_held<R: Read>(reader: &mut BufReader<R>, line: &mut Vec<u8>) -> Result<bool, Fault>
    ensures known { (bytes : List ℕ) → reader_remaining R.remaining reader.old ≡ Some bytes →
        IfOk result (λ whole. IsPartTaken bytes line.old.items line.new.items (reader_remaining R.remaining reader.new) whole) }
    ensures whole { IfOk result (λ whole. whole ≡ list_any (is_byte 10) (reader_buffer reader.old)) }
    ensures emptied { IfOk result (λ whole. whole ≡ false → reader_buffer reader.new ≡ []) }
    ensures fault { IfErr result (λ fault. fault ≡ Fault.Memory) }
    ensures err { OnErr result ((reader.new ≡ reader.old) × (line.new.items ≡ line.old.items)) }
{
    let held = reader.buffer();
    let (count, is_whole) = part_of_line(held);
    if line.extend_from_slice(&held[..count]).is_err() {
        return Err(Fault::Memory);
    }
    reader.consume(count);
    Ok(is_whole)
}

/// Reads once, for the line of this number of which so much is read. Returns whether more may come: false at the end of
/// the input. If no line of the language begins so, that is its fault, and nothing is read.
fn read_more<R: Read>(
    reader: &mut BufReader<R>,
    reads_left: &mut u32,
    number: u64,
    line: &[u8],
) -> Result<bool, Fault>
    requires empty { reader_buffer reader.old ≡ [] }
    ensures refused { beginnings.may_begin_line line.now ≡ false → (result ≡ Err (Fault.Line number)) × (reader.new ≡ reader.old) × (reads_left.new ≡ reads_left.old) }
    ensures none { IfErr result (λ fault. fault ≡ Fault.Line number → BeginsNoLine line.now) }
    ensures counted { OnOk result (reads_left.old ≡ reads_left.new + 1) }
    ensures bound { reads_left.new ≤ reads_left.old }
    ensures kept { (bytes : List ℕ) → reader_remaining R.remaining reader.old ≡ Some bytes → OnOk result (reader_remaining R.remaining reader.new ≡ Some bytes) }
    ensures end { (bytes : List ℕ) → reader_remaining R.remaining reader.old ≡ Some bytes → IfOk result (λ more. more ≡ false → bytes ≡ []) }
    ensures fault { IfErr result (IsFaultAt number) }
{
    if !may_begin_line(line) {
        return Err(Fault::Line(number));
    }
    let Some(left) = reads_left.checked_sub(1) else {
        return Err(Fault::Read);
    };
    *reads_left = left;
    match reader.fill_buf() {
        Ok(held) => Ok(!held.is_empty()),
        Err(error) => match error.kind() {
            ErrorKind::Interrupted => Ok(true),
            ErrorKind::OutOfMemory => Err(Fault::Memory),
            _ => Err(Fault::Read),
        },
    }
}

/// Reads the next line into `line`, with its line feed, in at most as many reads as are left, and in none if it is
/// held. Returns whether there was one. If no line of the language begins with what is read of it, its number is the
/// fault, and no more of it is read. At a fault what was read of the line is lost.
pub(crate) fn read_line<R: Read>(
    reader: &mut BufReader<R>,
    reads_left: &mut u32,
    number: u64,
    line: &mut Vec<u8>,
) -> Result<bool, Fault>
    ensures known { (bytes : List ℕ) → reader_remaining R.remaining reader.old ≡ Some bytes → IfOk result (λ more. IsRead bytes line.new.items (reader_remaining R.remaining reader.new) more) }
    ensures bound { reads_left.new ≤ reads_left.old }
    ensures held { list_any (is_byte 10) (reader_buffer reader.old) ≡ true →
        (reads_left.new ≡ reads_left.old) × IfErr result (λ fault. fault ≡ Fault.Memory) }
    ensures none { (bytes : List ℕ) → reader_remaining R.remaining reader.old ≡ Some bytes → IfErr result (λ fault. fault ≡ Fault.Line number → BeginsWithNone bytes) }
    ensures fault { IfErr result (IsFaultAt number) }
{
    line.clear();
    while !take_held(reader, line)? {
        if !read_more(reader, reads_left, number, line.as_slice())? {
            break;
        }
    }
    Ok(!line.is_empty())
}
