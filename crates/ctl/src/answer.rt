//! The answer to an operator's request, as `maildropd ctl` hears it.
ghost use Rattle.std.specs.Prelude.{◌≡◌, IfOk};
ghost use Rattle.ctl.specs.Answers as spec;

use crate::put::{PutOutcome, outcome_of};
use crate::requests;
use ports::Fault;
use script::{Instruction, Request};

/// The exit status after a verdict that isn't `audit ok`.
const WRONG: u8 = 1;

/// The exit status if what was asked wasn't done.
pub(crate) const REFUSED: u8 = 3;

/// Whether a line says that what was asked wasn't done.
fn is_refusal(line: &[u8]) -> bool
    ensures { result ≡ spec.is_refusal line.now }
{
    line == b"bad request".as_slice()
        || line == b"bad mbox".as_slice()
        || line == b"down".as_slice()
        || line.starts_with(b"roll failed: ")
        || line.starts_with(b"reopen failed: ")
}

/// Whether a line is a verdict.
fn is_verdict(line: &[u8]) -> bool
    ensures { result ≡ spec.is_verdict line.now }
{
    line.starts_with(b"audit ")
}

/// How an answer ends, as far as it was read.
#[derive(Clone, Copy, Debug, PartialEq, Eq)]
pub enum Ending {
    /// In the middle, or by what doesn't answer the request.
    Broken,
    /// By a line that says that what was asked wasn't done.
    Refused,
    /// By a verdict that isn't `audit ok`.
    Wrong,
    /// By the last line of an answer to the request.
    Done,
}

impl Ending {
    /// The exit status that the answer brings.
    pub(crate) fn status(self) -> Result<u8, Fault>
        ensures status { result ≡ spec.status_of self }
        ensures statuses { IfOk result spec.IsStatus }
    {
        match self {
            Ending::Broken => Err(Fault::Read),
            Ending::Refused => Ok(REFUSED),
            Ending::Wrong => Ok(WRONG),
            Ending::Done => Ok(0),
        }
    }
}

/// Whether a line ends the answer to a request to stop.
fn ends_stop(waits: bool, line: &[u8]) -> bool
    ensures { result ≡ spec.ends_stop waits line.now }
{
    if waits {
        line == b"audit ok".as_slice() || line == b"stopped".as_slice()
    } else {
        line == b"stopping".as_slice()
    }
}

/// Whether a line ends the answer to the delivery of one message.
fn ends_put(line: &[u8]) -> bool
    ensures { result ≡ spec.ends_put line.now }
{
    line == b"end".as_slice() || line == b"no such user".as_slice()
}

/// Whether a line is the last one of an answer to a request that isn't refused.
fn ends_request(request: &Request, line: &[u8]) -> bool
    ensures { result ≡ spec.ends_request request.now line.now }
{
    match request {
        Request::Deliver { .. }
        | Request::Status
        | Request::Sessions
        | Request::Stats
        | Request::Locks
        | Request::Users => line == b"end".as_slice(),
        Request::Put { .. } => ends_put(line),
        Request::Break { .. } => {
            line == b"done".as_slice() || line == b"no such user".as_slice()
        }
        Request::Kick { .. } => line.starts_with(b"kicked "),
        Request::Crash { .. } => line == b"crashed".as_slice(),
        Request::Roll => line == b"rolled".as_slice(),
        Request::Reopen => line == b"reopened".as_slice(),
        Request::Stop { wait, .. } => ends_stop(*wait, line),
    }
}

/// Whether a line is the last one of an answer to an instruction that isn't refused.
fn ends_answer(instruction: &Instruction<'_>, line: &[u8]) -> bool
    ensures { result ≡ spec.ends_answer instruction.now line.now }
{
    match instruction {
        Instruction::Deliver { .. } => line == b"end".as_slice(),
        Instruction::Put { .. } => ends_put(line),
        Instruction::Ask(request) => ends_request(request, line),
    }
}

/// Whether the answer to an instruction may have to wait until the nodes have decided.
pub(crate) fn awaits_nodes(instruction: &Instruction<'_>) -> bool
    ensures { result ≡ spec.awaits_answer instruction.now }
{
    match instruction {
        Instruction::Deliver { .. } | Instruction::Put { .. } => true,
        Instruction::Ask(request) => requests::awaits_nodes(request),
    }
}

/// Whether the answer to an instruction ends with a verdict.
pub(crate) fn awaits_verdict(instruction: &Instruction<'_>) -> bool
    ensures { result ≡ spec.awaits_verdict instruction.now }
{
    match instruction {
        Instruction::Ask(Request::Stop { wait, .. }) => *wait,
        _ => false,
    }
}

/// How an answer to an instruction ends, by its last line without the line feed.
fn ending_by(instruction: &Instruction<'_>, line: &[u8]) -> Ending
    ensures { result ≡ spec.ending_by instruction.now line.now }
{
    if is_refusal(line) {
        Ending::Refused
    } else if ends_answer(instruction, line) {
        Ending::Done
    } else if awaits_verdict(instruction) && is_verdict(line) {
        Ending::Wrong
    } else {
        Ending::Broken
    }
}

/// What an answer says, as far as it was heard.
#[derive(Clone, Copy, Debug, PartialEq, Eq)]
pub struct Answer {
    /// How it ends.
    pub ending: Ending,
    /// What has become of a message, if it says so.
    pub outcome: Option<PutOutcome>,
}

impl Answer {
    /// Of which nothing was heard.
    pub(crate) fn new() -> Self
        ensures { result ≡ spec.unheard }
    {
        Answer {
            ending: Ending::Broken,
            outcome: None,
        }
    }

    /// One more line was heard, without its line feed.
    pub(crate) fn hear(&mut self, instruction: &Instruction<'_>, line: &[u8])
        ensures { self.new ≡ spec.heard instruction.now line.now self.old }
    {
        self.ending = ending_by(instruction, line);
        if let Some(outcome) = outcome_of(line) {
            self.outcome = Some(outcome);
        }
    }

    /// It breaks off in the middle of a line.
    pub(crate) fn break_off(&mut self)
        ensures ending { self.new.ending ≡ spec.broken }
        ensures outcome { self.new.outcome ≡ self.old.outcome }
    {
        self.ending = Ending::Broken;
    }
}
