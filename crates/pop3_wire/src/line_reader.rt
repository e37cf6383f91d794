//! Lines out of a stream that comes in pieces.
ghost use Rattle.std.specs.Prelude.{◌≡◌, ◌+◌, ◌<◌, ◌≤◌, ℕ, List, [], ◌∷◌, ◌++◌, length, take, MatchOption, IfNone};
ghost use Rattle.pop3_wire.specs.Limits.{longest_line};
ghost use Rattle.pop3_wire.specs.Reader as spec;
ghost use Rattle.pop3_wire.specs.Reader.{Open};

use crate::line::{Line, line_of};
use crate::line_bytes::LONGEST_LINE;
use arrayvec::ArrayVec;
use memchr::memchr;
use std::marker::Model;

/// As many bytes of an open line are kept: so many are too long, whatever comes.
const KEPT: usize = LONGEST_LINE + 1;

/// Cuts a stream into lines, however its bytes come in. It keeps one line at most and takes no memory.
#[derive(Drop)]
pub struct LineReader {
    /// What the open line, or the finished one, begins with.
    bytes: ArrayVec<u8, { KEPT }>,
    is_finished: bool,
}

impl Model for LineReader {
    ghost use Rattle.std.specs.Prelude.{◌≡◌, false, if◌then◌else◌};
    ghost use Rattle.std.specs.List.{list_any};
    ghost use Rattle.pop3_wire.specs.Lines.{is_lf, line_of};
    ghost use Rattle.pop3_wire.specs.Reader.{Kept, Open, Finished};

    ghost Value = { Kept };

    ghost view = { λ r. if r.is_finished then Finished (line_of r.bytes.items) else Open r.bytes.items };

    ghost invariant = { λ r. list_any is_lf r.bytes.items ≡ false };
}

/// Adds as many of the bytes as there is room for.
fn keep(kept: &mut ArrayVec<u8, { KEPT }>, bytes: &[u8])
    ensures { kept.new.items ≡ take (longest_line + 1) (kept.old.items ++ bytes.now) }
{
    let fitting = kept.remaining_capacity().min(bytes.len());
    kept.try_extend_from_slice(&bytes[..fitting]).unwrap();
}

impl LineReader {
    /// A reader at the start of a stream.
    pub fn new() -> Self
        ensures { result ≡ Open [] }
    {
        LineReader {
            bytes: ArrayVec::new(),
            is_finished: false,
        }
    }

    /// Takes the bytes of a piece up to and including the next line end, and tells how many these are: none while a
    /// finished line waits.
    pub fn feed(&mut self, piece: &[u8]) -> usize
        ensures taken { result ≡ spec.taken self.old piece.now }
        ensures range { result ≤ length piece.now }
        ensures progress { 0 < length piece.now → spec.waiting self.old ≡ None → 0 < result }
        ensures kept { self.new ≡ spec.fed self.old piece.now }

        // What is to come is not changed by when it comes.
        ensures lines { (more : List ℕ) →
            spec.lines_after self.old (take result piece.now ++ more) ≡ spec.lines_after self.new more }
        ensures stream { (bytes : List ℕ) → self.old ≡ spec.kept_after bytes →
            self.new ≡ spec.kept_after (bytes ++ take result piece.now) }
    {
        if self.is_finished {
            return 0;
        }
        match memchr(b'\n', piece) {
            None => {
                keep(&mut self.bytes, piece);
                piece.len()
            }
            Some(end) => {
                keep(&mut self.bytes, &piece[..end]);
                self.is_finished = true;
                end + 1
            }
        }
    }

    /// Takes out the finished line, if one waits.
    pub fn next_line(&mut self) -> Option<Line>
        ensures line { result ≡ spec.waiting self.old }
        ensures kept { self.new ≡ spec.taken_out self.old }
        ensures lines { (more : List ℕ) → MatchOption result
            (spec.lines_after self.new more ≡ spec.lines_after self.old more)
            (λ line. spec.lines_after self.old more ≡ line ∷ spec.lines_after self.new more) }

        // What has not ended is no line.
        ensures none { IfNone result (spec.lines_after self.new [] ≡ []) }
    {
        if !self.is_finished {
            return None;
        }
        self.is_finished = false;
        let line = line_of(self.bytes.as_slice());
        self.bytes.clear();
        Some(line)
    }
}

/// However a stream is cut into pieces, and in whatever order a reader is fed and asked, the lines that it gives are
/// the lines of the stream.
pub fn reader_cuts_lines()
    ensures { (calls : List spec.Call) → spec.CutsLines calls }
{}
