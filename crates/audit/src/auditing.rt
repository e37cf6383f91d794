//! An audit: inputs are placed until none can be placed, answers are held against the logs, and the events are written down.
ghost use Rattle.std.specs.Prelude.{◌≡◌, ℕ, length, None, IfOk, IfErr, []};
ghost use Rattle.apop.specs.Stamp.{Stamp};
ghost use Rattle.runs.specs.declared.config.Config.{Config};
ghost use Rattle.audit.specs.Audits.{IsWhole, IsCause, HasNoOrder};
ghost use Rattle.audit.specs.Checks.{AreReplayed};
ghost use Rattle.audit.specs.Findings.{IsFound};
ghost use Rattle.audit.specs.Order.{IsLegalOrder};
ghost use Rattle.audit.specs.Records.{AreFit, case_of};
ghost use Rattle.audit.specs.Runs.{AreOfService, IsTaken};
ghost use Rattle.audit.specs.Written.{ArePlaced};
ghost use Rattle.audit.specs.Wrong as wrong;

use crate::audit_error::AuditError;
use crate::check::first_wrong;
use crate::event::Event;
use crate::findings::{Findings, findings_of};
use crate::last_answers::answered_of;
use crate::left::least_left;
use crate::outcomes::outcomes_of;
use crate::pass::place_all;
use crate::placement::Placement;
use crate::placing::Placing;
use crate::replay::Replay;
use crate::write::written;
use node::NodeLog;
use session::Transcript;
use std::alloc::Allocator;

/// The events of placements of all inputs, if no transcript has a wrong answer.
fn judge<A: Allocator + Copy>(
    alloc: A,
    logs: &[NodeLog<A>],
    transcripts: &[Transcript<A>],
    findings: &Findings<A>,
    placements: &[Placement],
    replays: Vec<Replay<A>, A>,
) -> Result<Vec<Event, A>, AuditError>
    requires found { IsFound logs.now transcripts.now findings.now }
    requires whole { IsWhole (case_of logs.now transcripts.now) }
    requires placed { ArePlaced (case_of logs.now transcripts.now) (λ n. 0) [] placements.now }
    requires replayed { AreReplayed logs.now transcripts.now replays.items }
    ensures order { AreFit logs.now transcripts.now → IfOk result (λ events. IsLegalOrder (case_of logs.now transcripts.now) events.items) }
    ensures right { IfOk result (λ events. wrong.first_wrong (case_of logs.now transcripts.now) 0 [] (case_of logs.now transcripts.now).scripts ≡ None) }
    ensures cause { IfErr result (IsCause (case_of logs.now transcripts.now)) }
    ensures never { IfErr result (HasNoOrder (case_of logs.now transcripts.now)) }
{
    let answered = answered_of(alloc, logs, transcripts, &replays)?;
    let mut outcomes = outcomes_of(alloc, replays)?;
    let wrong = first_wrong(
        logs,
        transcripts,
        &findings.names,
        &findings.numbers,
        &mut outcomes,
    );
    if let Some(session) = wrong {
        return Err(AuditError::WrongAnswer(session));
    }
    let events = written(alloc, logs, transcripts, placements, &answered)?;
    Ok(events)
}

/// Looks for a legal order of what the nodes of a service logged and of what its sessions did, and gives its events. The
/// logs and the transcripts may be any: those of a service that ran are fit, and then what is given is a legal order.
/// After `Ok` all inputs can come, and no transcript has a wrong answer; after `NoOrder` there is no legal order. Where the
/// logs and the transcripts are a service's, that service takes the order without a refusal, and it brings what they tell.
pub fn audit<A: Allocator + Copy>(
    alloc: A,
    logs: &[NodeLog<A>],
    transcripts: &[Transcript<A>],
) -> Result<Vec<Event, A>, AuditError>
    ensures order { AreFit logs.now transcripts.now → IfOk result (λ events. IsLegalOrder (case_of logs.now transcripts.now) events.items) }
    ensures taken { IfOk result (λ events. (config : Config A) (stamps : ℕ → Stamp) → AreFit logs.now transcripts.now → AreOfService config stamps logs.now transcripts.now
        → IsTaken config stamps logs.now transcripts.now events.items) }
    ensures whole { IfOk result (λ events. IsWhole (case_of logs.now transcripts.now)) }
    ensures right { IfOk result (λ events. wrong.first_wrong (case_of logs.now transcripts.now) 0 [] (case_of logs.now transcripts.now).scripts ≡ None) }
    ensures cause { IfErr result (IsCause (case_of logs.now transcripts.now)) }
    ensures never { IfErr result (HasNoOrder (case_of logs.now transcripts.now)) }
{
    let findings = findings_of(alloc, logs, transcripts)?;
    let placing = place_all(alloc, logs, transcripts, &findings)?;
    if let Some(node) = least_left(logs, &placing.replays) {
        return Err(AuditError::NoOrder(node));
    }
    let Placing {
        placements,
        replays,
        sent,
    } = placing;
    // No judgment looks at it, and it is large.
    drop(sent);
    judge(alloc, logs, transcripts, &findings, &placements, replays)
}
