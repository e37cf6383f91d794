//! Whether transcripts say of operations and their outcomes what the logs say.
ghost use Rattle.std.specs.Prelude.{◌≡◌, ◌&&◌, ◌==◌, ℕ, List, [], Option, true, false, not, Some, None, length, slice_get};
ghost use Rattle.std.specs.List.{list_any};
ghost use Rattle.std.specs.Map.{lookup};
ghost use Rattle.maildrop.specs.CommandId.{CommandId, same_id};
ghost use Rattle.session.specs.declared.transcript.Transcript.{Transcript};
ghost use Rattle.audit.specs.Case.{turns_of};
ghost use Rattle.audit.specs.Names.{entry_key, with_key, named_in, named_from};
ghost use Rattle.audit.specs.Numbers.{submitted_by, AreNumbered};
ghost use Rattle.audit.specs.Records.{case_of};
ghost use Rattle.audit.specs.Replays.{Replay, same_submit};
ghost use Rattle.audit.specs.Turns.{script_of, is_untold};
ghost use Rattle.audit.specs.Wrong.{are_good, node_of, seen_after, first_wrong as the_first_wrong};
ghost use Rattle.audit.specs.Checks.{AreFound, IsLeft, AreLeft, AreAllNumbered, submit_of, named_after};
ghost use Rattle.audit.specs.Checks as spec;

use crate::command_index::CommandIndex;
use crate::home::{first_node, place_of};
use crate::numbers::Numbers;
use crate::outcomes::Outcomes;
use maildrop::{CommandId, Outcome};
use node::{Input, NodeLog};
use session::{Asked, Transcript};
use std::alloc::Allocator;

/// Whether the outcome that an entry tells, if it does, is the answer.
fn is_answer<A: Allocator + Copy>(outcome: &Option<Outcome<A>>, answer: &Option<Outcome<A>>) -> bool
    ensures { result ≡ spec.is_answer outcome.now answer.now }
{
    match (outcome, answer) {
        (None, _) => true,
        (Some(outcome), Some(answer)) => outcome.same(answer),
        (Some(_), None) => false,
    }
}

/// Whether the first entry that names the command is the one of this number in this session.
fn is_first<A: Allocator + Copy>(
    names: &CommandIndex<A>,
    id: CommandId,
    session: usize,
    number: usize,
) -> bool
    ensures { result ≡ spec.is_place session number (lookup (same_id id) names.now.entries) }
{
    match names.get(&id) {
        Some(first) => first.0 == session && first.1 == number,
        None => false,
    }
}

/// Whether the input is the Submit that the entry tells.
fn is_told<A: Allocator + Copy>(input: &Input<A>, entry: &Asked<A>) -> bool
    ensures { result ≡ same_submit input.now (submit_of entry.now) }
{
    match input {
        Input::Submit(name, op) => *name == entry.name && op.get().same(&entry.op),
        _ => false,
    }
}

/// Whether the log has the Submit that the entry tells, and it got this identity there.
fn is_submitted<A: Allocator + Copy>(
    log: &NodeLog<A>,
    numbers: &Numbers<A>,
    id: CommandId,
    entry: &Asked<A>,
) -> bool
    requires { AreNumbered log.now (length log.now.inputs) numbers.now.tickets.items numbers.now.places.entries }
    ensures { result ≡ submitted_by log.now id (submit_of entry.now) (length log.now.inputs) }
{
    let Some(place) = numbers.places.get(&id) else {
        return false;
    };
    match log.inputs.get().get(*place) {
        Some(input) => is_told(input, entry),
        None => false,
    }
}

/// Whether the log's node, if it has one, was given what the entry tells, and answered so.
fn is_right<A: Allocator + Copy>(
    log: &NodeLog<A>,
    numbers: &Numbers<A>,
    begun: bool,
    id: CommandId,
    entry: &Asked<A>,
    answer: &Option<Outcome<A>>,
) -> bool
    requires { AreNumbered log.now (length log.now.inputs) numbers.now.tickets.items numbers.now.places.entries }
    ensures { result ≡ (((begun && submitted_by log.now id (submit_of entry.now) (length log.now.inputs)) && (id.ticket.node == log.now.opening.me)) && spec.is_answer entry.now.outcome answer.now) }
{
    let (_, ticket) = id.get();
    let (node, _) = ticket.get();
    begun
        && is_submitted(log, numbers, id, entry)
        && node == log.opening.me
        && is_answer(&entry.outcome, answer)
}

/// Checks an entry, and takes the answer that it tells of.
fn check_entry<A: Allocator + Copy>(
    log: &NodeLog<A>,
    names: &CommandIndex<A>,
    numbers: &Numbers<A>,
    outcomes: &mut Outcomes<A>,
    session: usize,
    number: usize,
    entry: &Asked<A>,
) -> bool
    requires { AreNumbered log.now (length log.now.inputs) numbers.now.tickets.items numbers.now.places.entries }
    ensures { (state : Replay A) (named : List CommandId) → IsLeft state named outcomes.old
        → ((id : CommandId) → entry_key entry.now ≡ Some id → spec.is_place session number (lookup (same_id id) names.now.entries) ≡ not (spec.was_named named id))
        → (result ≡ spec.is_right log.now state named entry.now (entry_key entry.now)) × IsLeft state (with_key (entry_key entry.now) named) outcomes.new }
{
    let Some(ticket) = entry.ticket else {
        return true;
    };
    let id = CommandId::new(entry.name, ticket);
    let answer = outcomes.take(id);
    if !is_first(names, id, session, number) {
        return false;
    }
    is_right(log, numbers, outcomes.begun(), id, entry, &answer)
}

/// Checks entries at the node of a log.
fn check_entries<A: Allocator + Copy>(
    log: &NodeLog<A>,
    names: &CommandIndex<A>,
    numbers: &Numbers<A>,
    outcomes: &mut Outcomes<A>,
    session: usize,
    entries: &[Asked<A>],
) -> bool
    requires { AreNumbered log.now (length log.now.inputs) numbers.now.tickets.items numbers.now.places.entries }
    ensures { (state : Replay A) (named : List CommandId) (rest : CommandId → Option (ℕ × ℕ)) → IsLeft state named outcomes.old
        → AreFound session 0 named (λ id. named_in id session 0 entries.now (rest id)) (λ id. lookup (same_id id) names.now.entries)
        → (result ≡ spec.are_right log.now state named entries.now) × (result ≡ true → IsLeft state (named_after named entries.now) outcomes.new) }
{
    for (number, entry) in entries.iter().enumerate() {
        if !check_entry(log, names, numbers, outcomes, session, number, entry) {
            return false;
        }
    }
    true
}

/// Whether an entry has an outcome without a ticket.
fn has_untold<A: Allocator + Copy>(entries: &[Asked<A>]) -> bool
    ensures { result ≡ list_any is_untold entries.now }
{
    for entry in entries {
        if entry.ticket.is_none() && entry.outcome.is_some() {
            return true;
        }
    }
    false
}

/// Checks the entries of a session.
fn check_session<A: Allocator + Copy>(
    logs: &[NodeLog<A>],
    names: &CommandIndex<A>,
    numbers: &[Numbers<A>],
    outcomes: &mut [Outcomes<A>],
    session: usize,
    transcript: &Transcript<A>,
) -> bool
    requires numbered { AreAllNumbered logs.now numbers.now }
    requires count { length outcomes.old ≡ length logs.now }
    ensures { (transcripts : List (Transcript A)) (named : List CommandId) (rest : CommandId → Option (ℕ × ℕ)) → AreLeft logs.now transcripts named outcomes.old
        → AreFound session 0 named (λ id. named_in id session 0 transcript.now.asked (rest id)) (λ id. lookup (same_id id) names.now.entries)
        → (result ≡ are_good (case_of logs.now transcripts) (node_of (case_of logs.now transcripts) (turns_of (case_of logs.now transcripts) (script_of transcript.now))) named (turns_of (case_of logs.now transcripts) (script_of transcript.now)))
        × (result ≡ true → AreLeft logs.now transcripts (seen_after (case_of logs.now transcripts) named (turns_of (case_of logs.now transcripts) (script_of transcript.now))) outcomes.new) }
{
    let entries = transcript.asked.get();
    let Some(node) = first_node(entries) else {
        return true;
    };
    let home = place_of(logs, node);
    if home >= logs.len() {
        return false;
    }
    check_entries(
        &logs[home],
        names,
        &numbers[home],
        &mut outcomes[home],
        session,
        entries,
    )
}

/// The place of the first transcript with a wrong answer, if all that was placed is all of the logs. It costs look-ups
/// in proportion to the entries. Takes no memory.
pub(crate) fn first_wrong<A: Allocator + Copy>(
    logs: &[NodeLog<A>],
    transcripts: &[Transcript<A>],
    names: &CommandIndex<A>,
    numbers: &[Numbers<A>],
    outcomes: &mut [Outcomes<A>],
) -> Option<usize>
    requires numbered { AreAllNumbered logs.now numbers.now }
    requires names { (id : CommandId) → lookup (same_id id) names.now.entries ≡ named_from id 0 transcripts.now }
    requires answers { AreLeft logs.now transcripts.now [] outcomes.old }
    ensures { result ≡ the_first_wrong (case_of logs.now transcripts.now) 0 [] (case_of logs.now transcripts.now).scripts }
{
    for (session, transcript) in transcripts.iter().enumerate() {
        if has_untold(transcript.asked.get()) {
            return Some(session);
        }
        if !check_session(logs, names, numbers, outcomes, session, transcript) {
            return Some(session);
        }
    }
    None
}
