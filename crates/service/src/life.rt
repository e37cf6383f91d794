//! What all threads of a service share, over all its epochs.
ghost use Rattle.std.specs.Prelude.{◌≡◌, IfOk, OnOk};
ghost use Rattle.pop3_wire.specs.Reply.{invalid_login};
ghost use Rattle.service.specs.Stats as spec;

use crate::announcements::Announcements;
use crate::served_node::ServedNode;
use crate::start_note::StartNote;
use apop::{Stamp, stamp};
use ballot::{Items, Memory};
use pop3_wire::Reply;
use ports::{Opening, Stages};
use rolls::{EpochStats, RollLimits, Rolls};
use session_log::{Counters, EventLog, OpenSessions, put, put_number_line};
use std::alloc::Global;
use std::random::RandomSource;
use std::sync::{Mutex, Wait};
use std::time::Clock;

/// The line that ends an answer to an operator.
const END: &[u8] = b"end\n";

/// What all threads of a service share, over all its epochs: how far it has come, and which sessions are open.
#[derive(Drop)]
pub(crate) struct ServiceLife {
    host: Items<u8>,
    /// The reply to a login that is refused.
    refusal: Items<u8>,
    idle_seconds: u64,
    /// The line about what all nodes of the service must begin with, if its nodes have ports.
    agreement: Option<Vec<u8>>,
    stages: Stages,
    rolls: Rolls,
    announcements: Announcements,
    /// The number of the last session.
    last_number: Mutex<u64>,
    sessions: OpenSessions,
    counters: Counters,
    log: EventLog,
    /// How it was started.
    start: Option<StartNote>,
}

/// The reply to a login that is refused.
fn refusal_of(alloc: Global) -> Result<Items<u8>, Memory>
    ensures { IfOk result (λ refusal. refusal ≡ invalid_login) }
{
    let reply: Reply<'_, Global> = Reply::InvalidLogin;
    let text = reply.text(alloc)?;
    Ok(Items::from_vec(text))
}

/// 1 or 0.
fn number_of(is_so: bool) -> u64
    ensures { result ≡ spec.number_of is_so }
{
    if is_so { 1 } else { 0 }
}

/// Adds the lines about an epoch.
fn put_epoch(text: &mut Vec<u8>, stats: &EpochStats) -> Result<(), Memory>
    ensures { OnOk result (text.new.items ≡ spec.with_epoch text.old.items stats.now) }
{
    put_number_line(text, b"epoch ", stats.epoch)?;
    put_number_line(text, b"epoch_seconds ", stats.seconds)?;
    put_number_line(text, b"epoch_sessions ", stats.load.sessions)?;
    put_number_line(text, b"epoch_bytes ", stats.load.bytes)?;
    put_number_line(text, b"audits_running ", number_of(stats.is_auditing))
}

impl ServiceLife {
    /// What threads share at the start of a service, whose sessions may be silent for so many seconds, or for ever if that
    /// is 0. Without limits it has one epoch.
    pub(crate) fn new<R: Clock>(
        rt: &R,
        alloc: Global,
        host: Items<u8>,
        idle_seconds: u64,
        agreement: Option<Vec<u8>>,
        limits: Option<RollLimits>,
        log: EventLog,
    ) -> Result<Self, Memory> {
        let refusal = refusal_of(alloc)?;
        Ok(ServiceLife {
            host,
            refusal,
            idle_seconds,
            agreement,
            stages: Stages::new(),
            rolls: Rolls::new(limits),
            announcements: Announcements::new(),
            last_number: Mutex::new(0),
            sessions: OpenSessions::new(alloc),
            counters: Counters::new(rt),
            log,
            start: None,
        })
    }

    /// The same, which knows how it was started.
    pub(crate) fn with_start(mut self, start: StartNote) -> Self {
        self.start = Some(start);
        self
    }

    /// Notes in the log that the service takes clients from now on, beginning with this epoch over these nodes.
    pub(crate) fn note_start<R: Wait + Clock, N: ServedNode>(
        &self,
        rt: &R,
        epoch: u64,
        nodes: &[N],
    ) {
        if let Some(start) = &self.start {
            start.note(rt, &self.log, epoch, nodes);
        }
    }

    /// The reply to a login that is refused.
    pub(crate) fn refusal(&self) -> &[u8] {
        self.refusal.get()
    }

    /// For how many seconds a session that is logged in may send no whole line: 0 for ever.
    pub(crate) fn idle_seconds(&self) -> u64 {
        self.idle_seconds
    }

    /// How far the service has come.
    pub(crate) fn stages(&self) -> &Stages {
        &self.stages
    }

    /// How far its epochs have come.
    pub(crate) fn rolls(&self) -> &Rolls {
        &self.rolls
    }

    /// What is announced about the run, for those who wait for its end.
    pub(crate) fn announcements(&self) -> &Announcements {
        &self.announcements
    }

    /// The sessions that are open.
    pub(crate) fn sessions(&self) -> &OpenSessions {
        &self.sessions
    }

    /// What the service has done so far.
    pub(crate) fn counters(&self) -> &Counters {
        &self.counters
    }

    /// Where events are written.
    pub(crate) fn log(&self) -> &EventLog {
        &self.log
    }

    /// Lets the service stop, once its sessions have ended.
    pub(crate) fn stop<R: Wait>(&self, rt: &R) {
        self.stages.stop(rt);
        self.rolls.stop(rt);
    }

    /// Lets the service stop, since fewer than a majority of its nodes are up.
    pub(crate) fn stop_without_majority<R: Wait>(&self, rt: &R) {
        self.stages.stop_without_majority(rt);
        self.rolls.stop(rt);
    }

    /// The service has ended.
    pub(crate) fn end<R: Wait>(&self, rt: &R) {
        self.stages.end(rt);
        self.rolls.end(rt);
    }

    /// The answer to an operator who asks what the service has done: a line for each number, and `end`.
    pub(crate) fn stats<R: Wait + Clock>(
        &self,
        rt: &R,
        alloc: Global,
        slots: u64,
    ) -> Result<Vec<u8>, Memory> {
        let open = self.sessions.count(rt);
        let lost = self.log.lines_lost(rt);
        let mut text = self.counters.stats(rt, open, slots, lost).text(alloc)?;
        text.truncate(text.len().saturating_sub(END.len()));
        put_epoch(&mut text, &self.rolls.stats(rt))?;
        if let Some(line) = &self.agreement {
            put(&mut text, line.as_slice())?;
        }
        put(&mut text, END)?;
        Ok(text)
    }

    /// The number of a new session, counted from 1, and the timestamp of its greeting: 16 random hexadecimal digits, a dot
    /// and the number, before the service's host. Returns nothing if the system has no random bytes.
    pub(crate) fn new_stamp<R: RandomSource + Wait>(
        &self,
        rt: &R,
        alloc: Global,
    ) -> Option<(u64, Stamp)> {
        let number = self.next_number(rt);
        let mut bytes = [0u8; 8];
        rt.fill_bytes(&mut bytes).ok()?;
        let digits = u64::from_be_bytes(bytes);
        let nonce = format!(in alloc; "{digits:016x}.{number}").ok()?;
        match stamp(nonce.as_bytes(), self.host.get()) {
            Some(stamp) => Some((number, stamp)),
            None => None,
        }
    }

    /// The number of a new session.
    fn next_number<R: Wait>(&self, rt: &R) -> u64 {
        let mut last_number = self.last_number.lock(rt);
        let number = last_number.wrapping_add(1);
        *last_number = number;
        number
    }
}

impl Opening for ServiceLife {
    fn wait_for_begin<R: Wait>(&self, rt: &R) {
        self.stages.wait_for_begin(rt);
    }
}
