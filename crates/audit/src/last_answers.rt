//! Whether sessions get the answers to their last commands.
ghost use Rattle.std.specs.Prelude.{◌≡◌, ◌<◌, List, IfOk, length};
ghost use Rattle.session.specs.declared.transcript.Transcript.{Transcript};
ghost use Rattle.audit.specs.Case.{key_in, turns_of};
ghost use Rattle.audit.specs.Checks.{AreReplayed};
ghost use Rattle.audit.specs.Names.{entry_keys};
ghost use Rattle.audit.specs.Records.{case_of};
ghost use Rattle.audit.specs.Speakers.{AreAnswered};
ghost use Rattle.audit.specs.Turns.{script_of};
ghost use Rattle.audit.specs.Written.{answered_last, last_of};

use crate::home::place_of;
use crate::replay::Replay;
use ballot::Memory;
use maildrop::CommandId;
use node::NodeLog;
use session::{Asked, Transcript};
use std::alloc::Allocator;

/// The last command that entries name.
fn last_command<A: Allocator + Copy>(entries: &[Asked<A>]) -> Option<CommandId>
    ensures { result ≡ last_of (entry_keys entries.now) }
{
    for number in (0..entries.len()).rev() {
        let entry = &entries[number];
        if let Some(ticket) = entry.ticket {
            return Some(CommandId::new(entry.name, ticket));
        }
    }
    None
}

/// Whether the last command of a session is answered in the end.
fn is_answered<A: Allocator + Copy>(
    logs: &[NodeLog<A>],
    replays: &[Replay<A>],
    transcript: &Transcript<A>,
) -> bool
    ensures { (transcripts : List (Transcript A)) → AreReplayed logs.now transcripts replays.now
        → result ≡ answered_last (case_of logs.now transcripts) (last_of (key_in (case_of logs.now transcripts) (turns_of (case_of logs.now transcripts) (script_of transcript.now)))) }
{
    let Some(id) = last_command(transcript.asked.get()) else {
        return false;
    };
    let (_, ticket) = id.get();
    let (node, _) = ticket.get();
    match replays.get(place_of(logs, node)) {
        Some(replay) => replay.has_answer(id),
        None => false,
    }
}

/// Whether the last command of each session is answered, once all inputs have come.
pub(crate) fn answered_of<A: Allocator + Copy>(
    alloc: A,
    logs: &[NodeLog<A>],
    transcripts: &[Transcript<A>],
    replays: &[Replay<A>],
) -> Result<Vec<bool, A>, Memory>
    requires { AreReplayed logs.now transcripts.now replays.now }
    ensures { IfOk result (λ answered. AreAnswered logs.now transcripts.now answered.items) }
{
    let mut answered = Vec::with_capacity(alloc, transcripts.len())?;
    for transcript in transcripts {
        answered.push(is_answered(logs, replays, transcript))?;
    }
    Ok(answered)
}
