//! Lines that wait for the log.
ghost use Rattle.std.specs.Prelude.{◌≡◌, ◌++◌, ◌&&◌, ◌⊎◌, ◌∷◌, [], IfSome, IfNone, Some, None, length, nat_lt, not, true, false, if◌then◌else◌};
ghost use Rattle.std.specs.Option.{option_or};
ghost use Rattle.session_log.specs.Sessions.{added};
ghost use Rattle.session_log.specs.Reopenings as spec;

use ballot::Memory;
use ports::Fault;
use std::alloc::Global;
use std::collections::VecDeque;
use std::mem;
use std::sync::{Condvar, Mutex, Wait};
use std::time::{Clock, Duration};

/// How many lines may wait. Others are missing in the log.
const MOST_LINES: usize = 4_096;

/// A line of the log.
#[derive(Drop)]
pub(crate) struct QueuedLine {
    /// All of it, with its end.
    pub text: Vec<u8>,
    /// How many lines are missing before it.
    pub missing: u64,
}

/// What the writer does next.
#[derive(Drop)]
pub(crate) enum Turn {
    /// It writes a line.
    Line(QueuedLine),
    /// It opens the file anew for the requests up to this number.
    Reopen(u64),
    /// It ends, since no line comes any more.
    End,
}

/// One less, if it is a number.
fn one_less(place: Option<usize>) -> Option<usize>
    ensures { result ≡ spec.one_less place }
{
    match place {
        None => None,
        Some(before) => Some(before.saturating_sub(1)),
    }
}

/// The lines that wait, in order.
#[derive(Drop)]
pub(crate) struct Waiting {
    lines: VecDeque<QueuedLine>,
    /// How many lines are missing after these.
    missing: u64,
    /// How many lines are missing in all.
    lost: u64,
    /// Whether no line comes any more.
    is_closed: bool,
    /// Whether nothing is written any more.
    has_ended: bool,
    /// After how many of the lines the file is to be opened anew, if it is.
    reopen_after: Option<usize>,
    /// How many requests to open it anew were made.
    asked: u64,
    /// Up to which of these the writer has tried it.
    tried: u64,
    /// Up to which of these it was opened anew.
    reopened: u64,
}

impl Waiting {
    /// Before the first line. Takes room for all that may wait.
    fn new(alloc: Global) -> Result<Self, Memory> {
        Ok(Waiting {
            lines: VecDeque::with_capacity(alloc, MOST_LINES)?,
            missing: 0,
            lost: 0,
            is_closed: false,
            has_ended: false,
            reopen_after: None,
            asked: 0,
            tried: 0,
            reopened: 0,
        })
    }

    /// A line is missing.
    fn lose(&mut self)
        ensures lines { self.new.lines.items ≡ self.old.lines.items }
        ensures missing { self.new.missing ≡ added self.old.missing 1 }
        ensures lost { self.new.lost ≡ added self.old.lost 1 }
        ensures reopening { self.new.reopen_after ≡ self.old.reopen_after }
    {
        self.missing = self.missing.saturating_add(1);
        self.lost = self.lost.saturating_add(1);
    }

    /// Adds a line after the others, with how many are missing before it. It is missing itself if there is no room for it, or no line is
    /// to come any more.
    fn add(&mut self, text: Vec<u8>)
        ensures lines { ((self.new.lines.items ≡ self.old.lines.items ++ record { text = text; missing = self.old.missing } ∷ []) × (self.new.missing ≡ 0) × (self.new.lost ≡ self.old.lost))
            ⊎ ((self.new.lines.items ≡ self.old.lines.items) × (self.new.missing ≡ added self.old.missing 1) × (self.new.lost ≡ added self.old.lost 1)) }
        ensures reopening { self.new.reopen_after ≡ self.old.reopen_after }
    {
        if self.is_closed || self.lines.len() >= MOST_LINES {
            self.lose();
            return;
        }
        let line = QueuedLine {
            text,
            missing: self.missing,
        };
        match self.lines.push_back(line) {
            Ok(()) => self.missing = 0,
            Err(_) => self.lose(),
        }
    }

    /// The line about so many missing lines isn't written, so they are still to be told of.
    fn miss(&mut self, count: u64)
        ensures missing { self.new.missing ≡ added self.old.missing count }
        ensures lost { self.new.lost ≡ self.old.lost }
        ensures lines { self.new.lines.items ≡ self.old.lines.items }
    {
        self.missing = self.missing.saturating_add(count);
    }

    /// Takes the first line. One line less stands before the place where the file is opened anew.
    fn take(&mut self) -> Option<QueuedLine>
        ensures first { IfSome result (λ line. self.old.lines.items ≡ line ∷ self.new.lines.items) }
        ensures none { IfNone result (self.old.lines.items ≡ []) }
        ensures missing { self.new.missing ≡ self.old.missing }
        ensures lost { self.new.lost ≡ self.old.lost }
        ensures reopening { self.new.reopen_after ≡ spec.one_less self.old.reopen_after }
    {
        self.reopen_after = one_less(self.reopen_after);
        self.lines.pop_front()
    }

    /// Takes how many lines are missing after the last one.
    fn take_missing(&mut self) -> u64
        ensures taken { result ≡ self.old.missing }
        ensures none { self.new.missing ≡ 0 }
    {
        mem::replace(&mut self.missing, 0)
    }

    /// The file is to be opened anew: after the lines that wait, or earlier if that was asked for before. Returns the number of the
    /// request.
    fn ask_reopen(&mut self) -> u64
        ensures number { result ≡ added self.old.asked 1 }
        ensures asked { self.new.asked ≡ added self.old.asked 1 }
        ensures place { self.new.reopen_after ≡ option_or self.old.reopen_after (Some (length self.old.lines.items)) }
        ensures lines { self.new.lines.items ≡ self.old.lines.items }
    {
        if self.reopen_after.is_none() {
            self.reopen_after = Some(self.lines.len());
        }
        self.asked = self.asked.saturating_add(1);
        self.asked
    }

    /// Whether the file is to be opened anew before the next line.
    fn is_reopen_due(&self) -> bool
        ensures { result ≡ spec.is_due self.now.reopen_after }
    {
        match self.reopen_after {
            None => false,
            Some(before) => before == 0,
        }
    }

    /// Takes the requests to open the file anew, wherever they stand. Returns the number of the last one.
    fn take_reopen(&mut self) -> Option<u64>
        ensures number { result ≡ spec.number_of self.old.reopen_after self.old.asked }
        ensures taken { self.new.reopen_after ≡ None }
        ensures lines { self.new.lines.items ≡ self.old.lines.items }
    {
        match mem::replace(&mut self.reopen_after, None) {
            None => None,
            Some(_) => Some(self.asked),
        }
    }

    /// The writer has tried to open the file anew for the requests up to this number.
    fn note_reopened(&mut self, number: u64, is_opened: bool)
        ensures tried { self.new.tried ≡ number }
        ensures reopened { self.new.reopened ≡ (if is_opened then number else self.old.reopened) }
        ensures lines { self.new.lines.items ≡ self.old.lines.items }
        ensures reopening { self.new.reopen_after ≡ self.old.reopen_after }
    {
        self.tried = number;
        if is_opened {
            self.reopened = number;
        }
    }

    /// Whether the writer may still come to a request.
    fn awaits_reopen(&self, number: u64) -> bool
        ensures { result ≡ (nat_lt self.now.tried number && not self.now.has_ended) }
    {
        self.tried < number && !self.has_ended
    }

    /// Why the file isn't opened anew for a request, if it isn't.
    fn reopen_fault(&self, number: u64) -> Option<Fault>
        ensures { result ≡ spec.fault_of number self.now.tried self.now.reopened }
    {
        if number <= self.reopened {
            None
        } else if number <= self.tried {
            Some(Fault::Log)
        } else {
            Some(Fault::Write)
        }
    }
}

/// The lines that wait for the log, between those who add them and the thread that writes them. Nobody who adds one waits for a write.
#[derive(Drop)]
pub(crate) struct LogQueue {
    waiting: Mutex<Waiting>,
    changes: Condvar,
}

impl LogQueue {
    /// Before the first line. Takes room for all that may wait.
    pub(crate) fn new(alloc: Global) -> Result<Self, Memory> {
        Ok(LogQueue {
            waiting: Mutex::new(Waiting::new(alloc)?),
            changes: Condvar::new(),
        })
    }

    /// Adds a line. It is missing if too many wait.
    pub(crate) fn add<R: Wait>(&self, rt: &R, text: Vec<u8>) {
        let mut guard = self.waiting.lock(rt);
        let waiting = &mut *guard;
        waiting.add(text);
        self.changes.notify_all();
    }

    /// A line is missing.
    pub(crate) fn lose<R: Wait>(&self, rt: &R) {
        let mut guard = self.waiting.lock(rt);
        let waiting = &mut *guard;
        waiting.lose();
    }

    /// The line about so many missing lines isn't written.
    pub(crate) fn miss<R: Wait>(&self, rt: &R, count: u64) {
        let mut guard = self.waiting.lock(rt);
        let waiting = &mut *guard;
        waiting.miss(count);
    }

    /// How many lines are missing so far.
    pub(crate) fn lost<R: Wait>(&self, rt: &R) -> u64 {
        self.waiting.lock(rt).lost
    }

    /// Waits for what the writer is to do next, and takes it.
    pub(crate) fn next<R: Wait>(&self, rt: &R) -> Turn {
        let guard = self.waiting.lock(rt);
        let mut guard = self.changes.wait_while(rt, guard, |waiting| {
            waiting.lines.is_empty() && !waiting.is_closed && !waiting.is_reopen_due()
        });
        let waiting = &mut *guard;
        if waiting.is_reopen_due() {
            if let Some(number) = waiting.take_reopen() {
                return Turn::Reopen(number);
            }
        }
        let Some(line) = waiting.take() else {
            return Turn::End;
        };
        Turn::Line(line)
    }

    /// Has the file opened anew, and waits at most so long for that. `Log` if it can't be opened. `Write` if the writer hasn't come to
    /// it in this time: it comes to it as soon as it can.
    pub(crate) fn reopen<R: Wait + Clock>(&self, rt: &R, time: Duration) -> Result<(), Fault> {
        let mut guard = self.waiting.lock(rt);
        let waiting = &mut *guard;
        let number = waiting.ask_reopen();
        self.changes.notify_all();
        let (waiting, _) = self
            .changes
            .wait_timeout_while(rt, guard, time, |waiting| waiting.awaits_reopen(number));
        match waiting.reopen_fault(number) {
            None => Ok(()),
            Some(fault) => Err(fault),
        }
    }

    /// Takes the requests to open the file anew, without regard to the lines before them. Returns the number of the last one.
    pub(crate) fn take_reopen<R: Wait>(&self, rt: &R) -> Option<u64> {
        let mut guard = self.waiting.lock(rt);
        let waiting = &mut *guard;
        waiting.take_reopen()
    }

    /// The writer has tried to open the file anew for the requests up to this number.
    pub(crate) fn note_reopened<R: Wait>(&self, rt: &R, number: u64, is_opened: bool) {
        let mut guard = self.waiting.lock(rt);
        let waiting = &mut *guard;
        waiting.note_reopened(number, is_opened);
        self.changes.notify_all();
    }

    /// How many lines are missing after the last one.
    pub(crate) fn missing<R: Wait>(&self, rt: &R) -> u64 {
        let mut guard = self.waiting.lock(rt);
        let waiting = &mut *guard;
        waiting.take_missing()
    }

    /// No line comes any more.
    pub(crate) fn close<R: Wait>(&self, rt: &R) {
        self.waiting.lock(rt).is_closed = true;
        self.changes.notify_all();
    }

    /// Nothing is written any more.
    pub(crate) fn end<R: Wait>(&self, rt: &R) {
        self.waiting.lock(rt).has_ended = true;
        self.changes.notify_all();
    }

    /// Waits so long, or until no line comes any more or the file is to be opened anew. Returns whether no line comes.
    pub(crate) fn pauses<R: Wait + Clock>(&self, rt: &R, time: Duration) -> bool {
        let guard = self.waiting.lock(rt);
        let (waiting, _) = self.changes.wait_timeout_while(rt, guard, time, |waiting| {
            !waiting.is_closed && waiting.reopen_after.is_none()
        });
        waiting.is_closed
    }

    /// Waits at most so long until nothing is written any more.
    pub(crate) fn wait_for_end<R: Wait + Clock>(&self, rt: &R, time: Duration) {
        let guard = self.waiting.lock(rt);
        let _waited = self
            .changes
            .wait_timeout_while(rt, guard, time, |waiting| !waiting.has_ended);
    }
}
