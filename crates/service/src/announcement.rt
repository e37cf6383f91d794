//! What is announced about a run that has ended.
ghost use Rattle.std.specs.Prelude.{◌≡◌, ◌++◌, ◌∷◌, [], string_bytes, unwrap_or, IfOk};
ghost use Rattle.service.specs.Verdicts as spec;
ghost use Rattle.service.specs.declared.announcement.Report.TheVariants as report;

use crate::brand::Service;
use crate::epoch::Left;
use crate::service_nodes::Unaudited;
use crate::verdict::Verdict;
use ballot::Memory;
use std::alloc::Global;
use std::marker::Model;

/// What a line reports about a run that has ended.
#[derive(Clone, Copy, Debug, PartialEq, Eq)]
enum Report {
    /// A verdict on all that its nodes and sessions did.
    Audit(Verdict),
    /// Only one node ran here, so there is no verdict.
    Stopped,
}

/// What is announced about a run. It can only be what is known of a service that has ended.
#[derive(Drop)]
pub(crate) struct Announcement {
    report: Report,
}

impl Model for Announcement {
    ghost use Rattle.service.specs.declared.announcement.Report.{Report};

    ghost Value = { Report };

    ghost view = { λ a. a.report };
}

impl Announcement {
    /// The verdict on the last epoch of a service, or the first one on an earlier epoch that isn't that all was in order.
    pub(crate) fn audited(first_bad: &Option<Verdict>, left: &Left) -> Self
        ensures { result ≡ report.Audit (unwrap_or first_bad.now left.now.verdict) }
    {
        let verdict = match first_bad {
            Some(bad) => bad,
            None => &left.verdict,
        };
        Announcement {
            report: Report::Audit(*verdict),
        }
    }

    /// A node has stopped, and there is no verdict.
    pub(crate) fn stopped<D: Service>(_unaudited: &Unaudited<D>) -> Self
        ensures { result ≡ report.Stopped }
    {
        Announcement {
            report: Report::Stopped,
        }
    }

    /// The same once more.
    pub(crate) fn again(&self) -> Self
        ensures { result ≡ self.now }
    {
        Announcement {
            report: self.report,
        }
    }

    /// The line that reports it, with its line feed.
    pub(crate) fn line(&self, alloc: Global) -> Result<String, Memory>
        ensures { IfOk result (λ line. string_bytes line ≡ spec.report_of self.now ++ 10 ∷ []) }
    {
        match self.report {
            Report::Audit(verdict) => verdict.line(alloc),
            Report::Stopped => Ok(format!(in alloc; "stopped\n")?),
        }
    }
}
