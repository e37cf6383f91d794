//! What the sessions of a service are served over, and what they leave.
ghost use Rattle.std.specs.Prelude.{◌≡◌};
ghost use Rattle.std.specs.Arc.{arc_value};

use crate::brand::Service;
use crate::service_nodes::ServiceDesk;
use crate::transcripts::{Greeted, Served, Transcripts};
use apop::{Accounts, Stamp};
use cluster::Link;
use session::{End, Gate};
use session_log::SharedFacts;
use std::alloc::Global;
use std::io::{Read, Write};
use std::marker::Model;
use std::sync::ledger::Book;
use std::sync::{Arc, Mutex, Wait};
use std::time::Clock;

/// How a session has ended, and how many bytes it leaves, about.
#[derive(Clone, Copy, Debug, PartialEq, Eq)]
pub(crate) struct SessionEnd {
    pub end: End,
    pub bytes: u64,
}

/// The accounts that the sessions of a service are served over, and the transcripts that they leave. Contracts see it as the
/// accounts.
#[derive(Drop)]
pub(crate) struct ServedSessions<D: Service> {
    alloc: Global,
    accounts: Arc<Accounts>,
    /// Whether transcripts are kept.
    is_audited: bool,
    /// There are none any more once the service has ended.
    transcripts: Mutex<Option<Transcripts<D>>>,
}

impl<D: Service> Model for ServedSessions<D> {
    ghost use Rattle.std.specs.Prelude.{◌≡◌, List};
    ghost use Rattle.std.specs.Arc.{arc_value};
    ghost use Rattle.apop.specs.Accounts.{Account};

    ghost Value = { List Account };

    ghost view = { λ s. arc_value s.accounts };

    ghost invariant = { λ s. arc_value s.accounts ≡ D.accounts };
}

impl<D: Service> ServedSessions<D> {
    /// The sessions of a service that has greeted nobody. Transcripts are kept if it is audited at its end.
    pub(crate) fn new(
        alloc: Global,
        accounts: Arc<Accounts>,
        book: Book<D>,
        is_audited: bool,
    ) -> Self
        requires { arc_value accounts ≡ D.accounts }
    {
        ServedSessions {
            alloc,
            accounts,
            is_audited,
            transcripts: Mutex::new(Some(Transcripts::new(alloc, book))),
        }
    }

    /// Greets a client and serves its session at a node to the end. Keeps the transcript if the service is audited. Returns
    /// how the session ended. Once the service has ended nobody is greeted.
    pub(crate) fn serve<R: Wait + Clock + Copy, L: Link + Drop, I: Read, O: Write, G: Gate>(
        &self,
        rt: R,
        node: ServiceDesk<D, R, L>,
        facts: SharedFacts,
        reader: &mut I,
        writer: &mut O,
        stamp: Stamp,
        gate: &mut G,
    ) -> Option<SessionEnd> {
        let greeted = self.greet(&rt)?;
        let accounts: &Accounts = &self.accounts;
        let served = node.serve(
            rt, self.alloc, greeted, accounts, stamp, facts, reader, writer, gate,
        );
        let end = SessionEnd {
            end: served.end(),
            bytes: served.bytes(),
        };
        self.keep(&rt, served);
        Some(end)
    }

    /// A client is greeted, unless the service has ended.
    fn greet<T: Wait>(&self, rt: &T) -> Option<Greeted<D>> {
        match &mut *self.transcripts.lock(rt) {
            Some(transcripts) => Some(transcripts.greet()),
            None => None,
        }
    }

    /// Keeps what the session of such a client left, if the service is audited.
    fn keep<T: Wait>(&self, rt: &T, served: Served<D>) {
        match &mut *self.transcripts.lock(rt) {
            Some(transcripts) if self.is_audited => transcripts.add(served),
            _ => served.lose(),
        }
    }

    /// Takes the transcripts, once all sessions have ended.
    pub(crate) fn take<T: Wait>(&self, rt: &T) -> Option<Transcripts<D>> {
        self.transcripts.lock(rt).take()
    }
}
