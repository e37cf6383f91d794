//! The verdict on a run once it has ended.
ghost use Rattle.std.specs.Prelude.{◌≡◌, ◌++◌, ◌∷◌, [], string_bytes, IfOk};
ghost use Rattle.service.specs.Verdicts as spec;
ghost use Rattle.service.specs.Verdicts.{IsVerdict};

use audit::{AuditError, audit};
use ballot::{Memory, NodeId};
use node::NodeLog;
use session::Transcript;
use std::alloc::{AllocError, Global};

/// The verdict on a run once it has ended.
#[derive(Clone, Copy, Debug, PartialEq, Eq)]
pub enum Verdict {
    /// What the nodes logged and the sessions were told can have come in an order that is legal.
    Legal,
    /// It can't, and this is the least node that has an input which can't come.
    NoOrder(NodeId),
    /// All inputs can come, and this session, counted from 0 in the order in which sessions ended, is the first whose
    /// transcript tells something else of an operation or of its outcome.
    WrongAnswer(usize),
    /// There was no memory to look, or none for what a session left.
    Memory,
}

impl Verdict {
    /// The line that reports it, with its line feed.
    pub fn line(&self, alloc: Global) -> Result<String, Memory>
        ensures { IfOk result (λ line. string_bytes line ≡ spec.text_of self.now ++ 10 ∷ []) }
    {
        match self {
            Verdict::Legal => Ok(format!(in alloc; "audit ok\n")?),
            Verdict::NoOrder(node) => {
                let number = node.get();
                Ok(format!(in alloc; "audit no order at node {number}\n")?)
            }
            Verdict::WrongAnswer(session) => {
                Ok(format!(in alloc; "audit wrong answer in session {session}\n")?)
            }
            Verdict::Memory => Ok(format!(in alloc; "audit no memory\n")?),
        }
    }

    /// The exit status: 0 if the audit found all in order, else 1.
    pub fn status(&self) -> u8
        ensures { result ≡ spec.status_of self.now }
    {
        match self {
            Verdict::Legal => 0,
            Verdict::NoOrder(_) | Verdict::WrongAnswer(_) | Verdict::Memory => 1,
        }
    }
}

/// The verdict after an audit that found no legal order.
fn verdict_by(error: AuditError) -> Verdict
    ensures { result ≡ spec.verdict_by error }
{
    match error {
        AuditError::NoOrder(node) => Verdict::NoOrder(node),
        AuditError::WrongAnswer(session) => Verdict::WrongAnswer(session),
        AuditError::Memory => Verdict::Memory,
    }
}

/// What an audit says of these logs of nodes and these transcripts of sessions.
pub fn verdict_of(alloc: Global, logs: &[NodeLog], transcripts: &[Transcript]) -> Verdict
    ensures { IsVerdict logs.now transcripts.now result }
{
    match audit(alloc, logs, transcripts) {
        Ok(events) => {
            drop(events);
            Verdict::Legal
        }
        Err(error) => verdict_by(error),
    }
}
