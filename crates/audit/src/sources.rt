//! What brings the next input of a log, if it can come by what is placed.
ghost use Rattle.std.specs.Prelude.{◌≡◌, ◌<◌, ◌≤◌, ℕ, length, None, true, false, is_some, IfSome, ◌&&◌, ◌==◌, slice_get};
ghost use Rattle.std.specs.List.{list_any};
ghost use Rattle.audit.specs.Answered.{is_answered_by, needs_no_more, are_answered, is_turn, AreAnswered};
ghost use Rattle.audit.specs.Findings.{IsFound};
ghost use Rattle.audit.specs.Names.{entry_key, named_from};
ghost use Rattle.audit.specs.Nodes.{counts_of};
ghost use Rattle.audit.specs.Placings.{IsPlaced, IsNext};
ghost use Rattle.audit.specs.Records as records;
ghost use Rattle.audit.specs.Replays as spec;
ghost use Rattle.audit.specs.Same.{same_envelope};

use crate::findings::Findings;
use crate::home::place_of;
use crate::placement::Source;
use crate::placing::Placing;
use crate::replay::Replay;
use crate::sent::Sent;
use ballot::Envelope;
use maildrop::{CommandId, Op, SharedCommand};
use node::{Input, NodeLog, SharedOp};
use session::{Asked, Transcript};
use std::alloc::Allocator;

/// Whether the node that got a command has answered it.
fn is_answered<A: Allocator + Copy>(
    logs: &[NodeLog<A>],
    replays: &[Replay<A>],
    id: CommandId,
) -> bool
    ensures { result ≡ is_answered_by logs.now replays.now id }
{
    let (_, ticket) = id.get();
    let (node, _) = ticket.get();
    match replays.get(place_of(logs, node)) {
        Some(replay) => replay.has_answer(id),
        None => false,
    }
}

/// Whether what an entry asked is answered. One without a ticket asked nothing of its node.
fn is_entry_answered<A: Allocator + Copy>(
    logs: &[NodeLog<A>],
    replays: &[Replay<A>],
    entry: &Asked<A>,
) -> bool
    ensures { result ≡ needs_no_more (is_answered_by logs.now replays.now) (entry_key entry.now) }
{
    match entry.ticket {
        Some(ticket) => is_answered(logs, replays, CommandId::new(entry.name, ticket)),
        None => true,
    }
}

/// How many of a session's first entries are answered, if so many are known to be. It looks at no entry from `end` on.
fn answered_up_to<A: Allocator + Copy>(
    logs: &[NodeLog<A>],
    replays: &[Replay<A>],
    asked: &[Asked<A>],
    known: usize,
    end: usize,
) -> usize
    requires end { end ≤ length asked.now }
    requires known { are_answered (is_answered_by logs.now replays.now) known asked.now ≡ true }
    ensures answered { are_answered (is_answered_by logs.now replays.now) result asked.now ≡ true }
    ensures first { result < end → are_answered (is_answered_by logs.now replays.now) end asked.now ≡ false }
{
    for number in known..end {
        if !is_entry_answered(logs, replays, &asked[number]) {
            return number;
        }
    }
    known.max(end)
}

/// The session that asks for a command, if all that it asked before is answered.
fn session_of<A: Allocator + Copy>(
    logs: &[NodeLog<A>],
    transcripts: &[Transcript<A>],
    findings: &Findings<A>,
    replays: &[Replay<A>],
    answered: &mut Vec<usize, A>,
    id: CommandId,
) -> Option<usize>
    requires found { IsFound logs.now transcripts.now findings.now }
    requires answered { AreAnswered (is_answered_by logs.now replays.now) transcripts.now answered.old.items }
    ensures answered { AreAnswered (is_answered_by logs.now replays.now) transcripts.now answered.new.items }
    ensures turn { is_some result ≡ is_turn (is_answered_by logs.now replays.now) transcripts.now (named_from id 0 transcripts.now) }
    ensures session { IfSome result (λ session. (entry : ℕ) × (named_from id 0 transcripts.now ≡ Some (session, entry))) }
{
    let (session, entry) = *findings.names.get(&id)?;
    let asked = transcripts[session].asked.get();
    let known = answered_up_to(logs, replays, asked, answered[session], entry);
    answered[session] = known;
    if known < entry {
        return None;
    }
    Some(session)
}

/// As which number the message that reaches a node was sent, if it was sent to that node.
fn message_of<A: Allocator + Copy>(
    logs: &[NodeLog<A>],
    sent: &Sent<A>,
    envelope: &Envelope<SharedCommand<A>, A>,
    node: usize,
) -> Option<usize>
    ensures sent { is_some result ≡ (records.place_of envelope.now.to logs.now == node && list_any (λ other. same_envelope other envelope.now) sent.now) }
    ensures number { IfSome result (λ number. slice_get sent.now number ≡ Some envelope.now) }
{
    if place_of(logs, envelope.to) != node {
        return None;
    }
    sent.find(envelope)
}

/// Whether only a session asks for such an operation.
fn is_of_lock<A: Allocator + Copy>(op: &SharedOp<A>) -> bool
    ensures { result ≡ spec.is_of_lock op.now }
{
    match op.get() {
        Op::Take | Op::Commit { .. } | Op::Free { .. } => true,
        Op::Mail { .. } | Op::Break => false,
    }
}

/// What brings the next input of a log, if it can come by what is placed.
pub(crate) fn next_source<A: Allocator + Copy>(
    logs: &[NodeLog<A>],
    transcripts: &[Transcript<A>],
    findings: &Findings<A>,
    placing: &Placing<A>,
    answered: &mut Vec<usize, A>,
    node: usize,
) -> Option<Source>
    requires node { node < length logs.now }
    requires found { IsFound logs.now transcripts.now findings.now }
    requires placed { IsPlaced logs.now transcripts.now placing.now }
    requires answered { AreAnswered (is_answered_by logs.now placing.now.replays.items) transcripts.now answered.old.items }
    ensures answered { AreAnswered (is_answered_by logs.now placing.now.replays.items) transcripts.now answered.new.items }
    ensures next { IsNext logs.now transcripts.now (counts_of placing.now.replays.items) placing.now.sent node result }
{
    let replay = &placing.replays[node];
    let place = replay.placed();
    let input = logs[node].inputs.get().get(place)?;
    if !replay.runs() {
        return None;
    }
    match input {
        Input::Tick | Input::Campaign => Some(Source::Own),
        Input::Crash => Some(Source::Last),
        Input::Arrive(envelope) => {
            let number = message_of(logs, &placing.sent, envelope, node)?;
            Some(Source::Message(number))
        }
        Input::Submit(user, op) => {
            if !is_of_lock(op) {
                return Some(Source::Own);
            }
            let ticket = findings.numbers[node].tickets[place]?;
            let id = CommandId::new(*user, ticket);
            let session = session_of(logs, transcripts, findings, &placing.replays, answered, id)?;
            Some(Source::FromSession(session))
        }
    }
}
