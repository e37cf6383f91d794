//! An epoch that has ended, and the verdict on it.
ghost use Rattle.std.specs.Prelude.{◌≡◌, ◌⊎◌, List, true, false, is_some, IfSome};
ghost use Rattle.std.specs.Arc.{arc_value};
ghost use Rattle.std.specs.declared.alloc.Global.{Global};
ghost use Rattle.session.specs.declared.transcript.Transcript.{Transcript};
ghost use Rattle.service.specs.Transcripts as spec;
ghost use Rattle.service.specs.Transcripts.{AreEnded, WereServed};
ghost use Rattle.service.specs.Epochs.{WasLegalEpoch};
ghost use Rattle.service.specs.Verdicts.{CanServe, IsFound, IsJudged, IsLegal, config_of};
ghost use Rattle.service.specs.declared.verdict.Verdict.TheVariants.{Legal, Memory};

use crate::brand::Service;
use crate::service_nodes::ServiceLogs;
use crate::transcripts::{TranscriptList, Transcripts};
use crate::verdict::{Verdict, verdict_of};
use apop::Accounts;
use cluster::{EndedLogs, Setup};
use node::NodeLog;
use session::Transcript;
use std::alloc::Global;
use std::marker::Model;
use std::sync::Arc;

/// An epoch that has ended: what its nodes began with, over which accounts its sessions were served, and what nodes and
/// sessions left. Nothing else than what an epoch leaves can be here.
#[derive(Drop)]
pub(crate) struct EndedEpoch {
    accounts: Arc<Accounts>,
    setup: Setup,
    logs: EndedLogs,
    transcripts: TranscriptList,
}

impl Model for EndedEpoch {
    ghost use Rattle.std.specs.Arc.{arc_value};
    ghost use Rattle.service.specs.Epochs.{EpochValue, HasEnded};

    ghost Value = { EpochValue };

    ghost view = { λ e. record { accounts = arc_value e.accounts; setup = e.setup; logs = e.logs; transcripts = e.transcripts } };

    ghost invariant = { λ e. HasEnded (record { accounts = arc_value e.accounts; setup = e.setup; logs = e.logs; transcripts = e.transcripts }) };
}

impl EndedEpoch {
    /// An epoch whose nodes began with this setup and left these logs, and whose sessions were served over these accounts.
    pub(crate) fn new<D: Service>(
        accounts: Arc<Accounts>,
        setup: Setup,
        logs: ServiceLogs<D>,
        transcripts: Transcripts<D>,
    ) -> Self
        requires accounts { arc_value accounts ≡ D.accounts }
        requires setup { setup ≡ D.setup }
        requires service { CanServe D.accounts D.setup }
        ensures accounts { result.accounts ≡ D.accounts }
        ensures setup { result.setup ≡ D.setup }
        ensures logs { result.logs ≡ logs }
        ensures transcripts { result.transcripts ≡ transcripts }
    {
        EndedEpoch {
            accounts,
            setup,
            logs: logs.into_ended(),
            transcripts: transcripts.into_list(),
        }
    }

    /// What the epoch leaves, with the verdict of an audit on all that its nodes and sessions did. `Memory` if the transcript
    /// of a session that was greeted is missing. What the nodes were beside their logs is let go first.
    pub(crate) fn judge(self, alloc: Global) -> Left
        ensures judged { IsJudged self.logs self.transcripts result.verdict }
        ensures whole { (result.verdict ≡ Memory) ⊎ ((self.transcripts.is_short ≡ false) × (self.transcripts.ended ≡ self.transcripts.greeted)) }
        ensures legal { result.verdict ≡ Legal → (all : List (Transcript Global)) → AreEnded self.transcripts all → WereServed self.accounts all
            → IsLegal (config_of self.accounts self.setup) self.logs all }
        ensures found { result.verdict ≡ Legal → WasLegalEpoch self }
        ensures logs { result.logs.items ≡ self.logs }
        ensures kept { result.transcripts.items ≡ self.transcripts.kept }
        ensures greeted { result.greeted ≡ self.transcripts.greeted }
    {
        let EndedEpoch {
            accounts: _,
            setup: _,
            logs,
            transcripts,
        } = self;
        let logs = logs.into_vec();
        let verdict = verdict_on(alloc, logs.as_slice(), &transcripts);
        let TranscriptList {
            kept,
            numbers: _,
            greeted,
            ended: _,
            is_short: _,
        } = transcripts;
        Left {
            verdict,
            logs,
            transcripts: kept,
            greeted,
        }
    }
}

/// What the last epoch of a service leaves: the verdict on it, and all that was judged.
#[derive(Drop)]
pub(crate) struct Left {
    pub verdict: Verdict,
    /// The logs of all nodes.
    pub logs: Vec<NodeLog>,
    /// The transcripts of sessions that asked something.
    pub transcripts: Vec<Transcript>,
    /// How many sessions were greeted.
    pub greeted: usize,
}

/// What an epoch leaves that is judged now, or that can't be judged as a node left no log or the transcripts are gone.
pub(crate) fn left_by(alloc: Global, ended: Option<EndedEpoch>) -> Left
    ensures legal { result.verdict ≡ Legal → IfSome ended WasLegalEpoch }
    ensures some { result.verdict ≡ Legal → is_some ended ≡ true }
    ensures logs { IfSome ended (λ epoch. result.logs.items ≡ epoch.logs) }
    ensures kept { IfSome ended (λ epoch. result.transcripts.items ≡ epoch.transcripts.kept) }
    ensures greeted { IfSome ended (λ epoch. result.greeted ≡ epoch.transcripts.greeted) }
{
    match ended {
        Some(epoch) => epoch.judge(alloc),
        None => Left {
            verdict: Verdict::Memory,
            logs: Vec::new(alloc),
            transcripts: Vec::new(alloc),
            greeted: 0,
        },
    }
}

/// The verdict on these logs and on what was kept of sessions. `Memory` if the transcript of a session is missing.
fn verdict_on(alloc: Global, logs: &[NodeLog], transcripts: &TranscriptList) -> Verdict
    ensures { (result ≡ Memory) ⊎ IsFound logs.now transcripts.now result }
{
    if transcripts.is_short || transcripts.ended != transcripts.greeted {
        return Verdict::Memory;
    }
    let verdict = verdict_of(alloc, logs, transcripts.kept.as_slice());
    numbered(&transcripts.numbers, verdict)
}

/// The same verdict, with the number of a session among all sessions in place of the place of its transcript.
fn numbered(numbers: &[usize], verdict: Verdict) -> Verdict
    ensures { result ≡ spec.numbered numbers.now verdict }
{
    match verdict {
        Verdict::WrongAnswer(place) => Verdict::WrongAnswer(number_at(numbers, place)),
        Verdict::Legal | Verdict::NoOrder(_) | Verdict::Memory => verdict,
    }
}

/// The number of the session whose transcript is at this place.
fn number_at(numbers: &[usize], place: usize) -> usize
    ensures { result ≡ spec.number_at numbers.now place }
{
    match numbers.get(place) {
        Some(number) => *number,
        None => place,
    }
}
