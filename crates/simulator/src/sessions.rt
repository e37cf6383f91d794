//! The sessions of a script, and what of their replies is written.
ghost use Rattle.std.specs.Prelude.{◌≡◌, ◌++◌, [], drop, length, OnOk};
ghost use Rattle.script.specs.Output.{reply_lines};
ghost use Rattle.simulator.specs.Plays.{shown_of, with_shown};

use crate::report::Report;
use ballot::Memory;
use indexmap::IndexMap;
use std::alloc::Global;
use std::hash::{BuildHasherDefault, FoldHasher};
use std::marker::Model;
use world::SessionId;

/// The sessions that a script has connected, each with how many bytes of its replies are written. What comes of an event
/// is found without looking at other sessions.
#[derive(Drop)]
pub(crate) struct Sessions {
    shown: IndexMap<SessionId, usize, BuildHasherDefault<FoldHasher>>,
}

impl Model for Sessions {
    ghost use Rattle.simulator.specs.Plays.{Shown};

    ghost Value = { Shown };

    ghost view = { λ s. s.shown.entries };
}

impl Sessions {
    /// None. Takes no memory.
    pub(crate) fn new(alloc: Global) -> Self
        ensures { result ≡ [] }
    {
        Sessions {
            shown: IndexMap::new(alloc),
        }
    }

    /// How many were told something.
    pub(crate) fn len(&self) -> usize
        ensures { result ≡ length self.now }
    {
        self.shown.len()
    }

    /// How many bytes of a session's replies are written.
    fn shown(&self, session: SessionId) -> usize
        ensures { result ≡ shown_of session self.now }
    {
        match self.shown.get(&session) {
            Some(count) => *count,
            None => 0,
        }
    }

    /// Writes what is not written yet of a session's replies.
    pub(crate) fn write_replies(
        &mut self,
        session: SessionId,
        replies: &[u8],
        report: &mut Report,
    ) -> Result<(), Memory>
        ensures shown { OnOk result (self.new ≡ with_shown session (length replies.now) self.old) }
        ensures text { OnOk result (report.new ≡ report.old ++ reply_lines session (drop (shown_of session self.old) replies.now)) }
    {
        // A script's sessions have numbers of nine digits, so there is always one.
        let Ok(number) = u32::try_from(session.get()) else {
            return Err(Memory);
        };
        let fresh = replies.get(self.shown(session)..).unwrap_or(&[]);
        report.replies(number, fresh)?;
        let _ = self.shown.insert(session, replies.len())?;
        Ok(())
    }
}
