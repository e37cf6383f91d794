//! When the epochs of a service end.
ghost use Rattle.std.specs.Prelude.{◌≡◌};
ghost use Rattle.rolls.specs.Rolls as spec;

use crate::progress::{Progress, Wake, millis_since};
use ports::Fault;
use std::sync::{Condvar, Mutex, Wait};
use std::time::{Clock, Duration};

/// How many times as much as its limit an epoch may have before it ends although sessions are open.
const FORCED: u64 = 5;

/// How old an epoch is at least, in milliseconds, before it ends although sessions are open.
const FORCED_AGE_MS: u64 = 60_000;

/// How many bytes are kept for a command until the audit, about: its inputs at all nodes, and what its session left.
const COMMAND_BYTES: u64 = 2_700;

/// How many bytes are kept for a message that a login lists, about.
const LISTED_BYTES: u64 = 25;

/// How many bytes are kept for a line of a session beside its own: four, and room for as many more.
const LINE_BYTES: u64 = 8;

/// From how much on an epoch ends: at either limit. 0 is no limit.
#[derive(Clone, Copy, Debug, PartialEq, Eq)]
pub struct RollLimits {
    /// How many sessions have ended that asked for something.
    pub sessions: u64,
    /// How many bytes are kept for its audit, about.
    pub bytes: u64,
}

/// What an epoch has come to. Neither number passes 2^64 - 1.
#[derive(Clone, Copy, Debug, PartialEq, Eq)]
pub struct EpochLoad {
    /// How many of its sessions have ended that asked for something.
    pub sessions: u64,
    /// How many bytes are kept for its audit, about.
    pub bytes: u64,
}

/// Whether an epoch is to end.
#[derive(Clone, Copy, Debug, PartialEq, Eq)]
pub(crate) enum Due {
    /// It goes on.
    No,
    /// It ends at the first moment without an open session.
    Quiet,
    /// It ends, and its sessions with it.
    Forced,
}

impl EpochLoad {
    /// Of an epoch that begins.
    pub(crate) fn new() -> Self
        ensures { result ≡ spec.no_load }
    {
        EpochLoad {
            sessions: 0,
            bytes: 0,
        }
    }

    /// A session has ended, and left so many bytes.
    fn end_session(&mut self, bytes: u64)
        ensures { self.new ≡ spec.after_session bytes self.old }
    {
        self.sessions = self.sessions.saturating_add(1);
        self.bytes = self.bytes.saturating_add(bytes);
    }

    /// So many messages were stored or refused, of so many octets together.
    fn store(&mut self, messages: u64, octets: u64)
        ensures { self.new ≡ spec.after_delivery messages octets self.old }
    {
        let bytes = messages
            .saturating_mul(COMMAND_BYTES)
            .saturating_add(octets);
        self.bytes = self.bytes.saturating_add(bytes);
    }
}

/// Returns how many bytes a session leaves for the audit, about, beside the bytes of its lines: it asked for so many operations, its
/// logins listed so many messages, and it sent so many lines. At most 2^64 - 1.
pub fn session_bytes(asked: usize, listed: usize, lines: usize) -> u64
    ensures { result ≡ spec.session_bytes asked listed lines }
{
    let commands = (asked as u64).saturating_mul(COMMAND_BYTES);
    let messages = (listed as u64).saturating_mul(LISTED_BYTES);
    commands
        .saturating_add(messages)
        .saturating_add((lines as u64).saturating_mul(LINE_BYTES))
}

/// Whether a number is at least so many times its limit, if there is one.
fn reaches(count: u64, limit: u64, times: u64) -> bool
    ensures { result ≡ spec.reaches count limit times }
{
    limit > 0 && limit as u128 * times as u128 <= count as u128
}

/// Whether an epoch has at least so many times as much as one of its limits.
pub(crate) fn has_reached(load: EpochLoad, limits: RollLimits, times: u64) -> bool
    ensures { result ≡ spec.has_reached load limits times }
{
    reaches(load.sessions, limits.sessions, times) || reaches(load.bytes, limits.bytes, times)
}

/// Whether an epoch of this age is to end.
pub(crate) fn when_due(load: EpochLoad, limits: RollLimits, age_ms: u64) -> Due
    ensures { result ≡ spec.when_due load limits age_ms }
{
    if has_reached(load, limits, FORCED) && age_ms >= FORCED_AGE_MS {
        Due::Forced
    } else if has_reached(load, limits, 1) {
        Due::Quiet
    } else {
        Due::No
    }
}

/// The numbers of the epochs, for operators.
#[derive(Clone, Copy, Debug, PartialEq, Eq)]
pub struct EpochStats {
    /// The number of this epoch.
    pub epoch: u64,
    /// How many seconds it runs.
    pub seconds: u64,
    /// What it has come to.
    pub load: EpochLoad,
    /// Whether the audit of the one before it goes on.
    pub is_auditing: bool,
}

/// Whether an operator's request for the end of an epoch counts.
#[derive(Clone, Copy, Debug, PartialEq, Eq)]
pub enum Asked {
    /// There is only one epoch.
    Never,
    /// The epoch ends already, and what the next one opens with was looked at before the request.
    TooLate,
    /// It counts. So many were refused before it.
    Noted(u64),
}

/// What has become of an operator's request for the end of an epoch.
#[derive(Clone, Copy, Debug, PartialEq, Eq)]
pub enum RollEnd {
    /// A node of a later epoch leads.
    Rolled,
    /// What the next epoch needs couldn't be had, so this one goes on.
    Refused(Fault),
    /// The service stops or ends.
    Over,
}

/// How far the epochs of a service have come, for all its threads.
#[derive(Drop)]
pub struct Rolls {
    /// There are none if there is only one epoch, whose nodes have ports.
    limits: Option<RollLimits>,
    progress: Mutex<Progress>,
    changes: Condvar,
    /// Whether the accounts file could be read when that was tried last.
    has_read_accounts: Mutex<bool>,
    /// The last epoch that ends, or has ended, for which a request to end it comes too late.
    ending: Mutex<u64>,
}

impl Rolls {
    /// The state before the first epoch. Without limits there is only one epoch.
    pub fn new(limits: Option<RollLimits>) -> Self {
        Rolls {
            limits,
            progress: Mutex::new(Progress::new()),
            changes: Condvar::new(),
            has_read_accounts: Mutex::new(true),
            ending: Mutex::new(0),
        }
    }

    /// This epoch, counted from 1, is about to end: what the next one opens with is looked at from now on.
    pub fn begin_end<R: Wait>(&self, rt: &R, epoch: u64) {
        *self.ending.lock(rt) = epoch;
    }

    /// The epoch that was about to end goes on.
    pub fn give_up_end<R: Wait>(&self, rt: &R) {
        let mut ending = self.ending.lock(rt);
        *ending = ending.saturating_sub(1);
        self.changes.notify_all();
    }

    /// The accounts file could be read, or not.
    pub fn note_accounts<R: Wait>(&self, rt: &R, is_read: bool) {
        *self.has_read_accounts.lock(rt) = is_read;
    }

    /// Whether the accounts file could be read when that was tried last. True before the first try.
    pub fn has_read_accounts<R: Wait>(&self, rt: &R) -> bool {
        *self.has_read_accounts.lock(rt)
    }

    /// The next epoch begins. Returns its number.
    pub fn begin<R: Wait + Clock>(&self, rt: &R) -> u64 {
        let mut guard = self.progress.lock(rt);
        let progress = &mut *guard;
        progress.begin(rt);
        progress.epoch
    }

    /// The epoch that has just begun couldn't be started: nobody was served in it.
    pub fn withdraw<R: Wait>(&self, rt: &R) {
        let mut guard = self.progress.lock(rt);
        let progress = &mut *guard;
        progress.epoch = progress.epoch.saturating_sub(1);
    }

    /// The number of this epoch, counted from 1, or 0 before the first. One in which nobody was served doesn't count.
    pub fn epoch<R: Wait>(&self, rt: &R) -> u64 {
        self.progress.lock(rt).epoch
    }

    /// A node of this epoch leads.
    pub fn lead<R: Wait>(&self, rt: &R) {
        let mut guard = self.progress.lock(rt);
        let progress = &mut *guard;
        progress.led = progress.epoch;
        self.changes.notify_all();
    }

    /// Whether a node of this epoch has led.
    pub fn has_led<R: Wait>(&self, rt: &R) -> bool {
        let progress = self.progress.lock(rt);
        progress.led == progress.epoch
    }

    /// Asks for the end of this epoch for an operator.
    pub fn ask<R: Wait>(&self, rt: &R, epoch: u64) -> Asked {
        if self.limits.is_none() {
            return Asked::Never;
        }
        let ending = self.ending.lock(rt);
        if *ending >= epoch {
            return Asked::TooLate;
        }
        let mut guard = self.progress.lock(rt);
        let progress = &mut *guard;
        progress.is_asked = progress.is_asked | (progress.epoch == epoch);
        self.changes.notify_all();
        Asked::Noted(progress.refusals)
    }

    /// Asks for the end of this epoch, unless it has ended, since a majority is wanting. Returns false if there is only one.
    pub fn require<R: Wait>(&self, rt: &R, epoch: u64) -> bool {
        if self.limits.is_none() {
            return false;
        }
        let mut guard = self.progress.lock(rt);
        let progress = &mut *guard;
        progress.is_required = progress.is_required | (progress.epoch == epoch);
        progress.is_asked = progress.is_asked | progress.is_required;
        self.changes.notify_all();
        true
    }

    /// Refuses the end of this epoch to the operators who ask for it, for this reason.
    pub fn refuse<R: Wait>(&self, rt: &R, fault: Fault) {
        let mut guard = self.progress.lock(rt);
        let progress = &mut *guard;
        let _asked = progress.refuse(fault);
        self.changes.notify_all();
    }

    /// Waits until a node of a later epoch leads, two later ones have begun, the end of this one is refused once more than so many times,
    /// or the service stops or ends.
    pub fn waits_for_next<R: Wait>(&self, rt: &R, epoch: u64, refusals: u64) -> RollEnd {
        let guard = self.progress.lock(rt);
        let progress = self.changes.wait_while(rt, guard, |progress| {
            progress.led <= epoch
                && !progress.has_refused(epoch, refusals)
                && progress.joined < epoch
                && !progress.is_over()
        });
        match progress.refusal {
            // The epoch two after this one has begun, perhaps before a node of the next one led.
            _ if progress.led > epoch || progress.joined >= epoch => RollEnd::Rolled,
            Some(fault) if progress.has_refused(epoch, refusals) => RollEnd::Refused(fault),
            _ => RollEnd::Over,
        }
    }

    /// Waits at most so long until a node of a later epoch leads. Returns whether one does.
    pub fn follows_within<R: Wait + Clock>(&self, rt: &R, epoch: u64, time: Duration) -> bool {
        let guard = self.progress.lock(rt);
        let (progress, _) = self
            .changes
            .wait_timeout_while(rt, guard, time, |progress| {
                progress.led <= epoch && !progress.is_over()
            });
        progress.led > epoch
    }

    /// Whether a node of a later epoch leads.
    pub fn follows<R: Wait>(&self, rt: &R, epoch: u64) -> bool {
        self.progress.lock(rt).led > epoch
    }

    /// Whether an operator asks for the end of this epoch, and may be refused.
    pub fn may_refuse<R: Wait>(&self, rt: &R) -> bool {
        let progress = self.progress.lock(rt);
        progress.is_asked && !progress.is_required
    }

    /// Waits so long, or until the service stops or ends. Returns whether it does.
    pub fn pauses_unless_over<R: Wait + Clock>(&self, rt: &R, time: Duration) -> bool {
        let guard = self.progress.lock(rt);
        let (progress, _) = self
            .changes
            .wait_timeout_while(rt, guard, time, |progress| !progress.is_over());
        progress.is_over()
    }

    /// Waits at most so long for the end of the service, or until the threads of this epoch's operators are to be joined.
    /// Returns whether either has happened.
    pub fn pauses<R: Wait + Clock>(&self, rt: &R, epoch: u64, time: Duration) -> bool {
        let guard = self.progress.lock(rt);
        let (progress, _) = self
            .changes
            .wait_timeout_while(rt, guard, time, |progress| {
                progress.joined < epoch && !progress.has_ended
            });
        progress.has_ended || progress.joined >= epoch
    }

    /// The threads of operators are to be joined, except those of the last two epochs: who still waits there stops waiting.
    pub fn join_before_last<R: Wait>(&self, rt: &R) {
        let mut guard = self.progress.lock(rt);
        let progress = &mut *guard;
        progress.joined = progress.epoch.saturating_sub(2);
        self.changes.notify_all();
    }

    /// The service stops.
    pub fn stop<R: Wait>(&self, rt: &R) {
        self.progress.lock(rt).is_stopping = true;
        self.changes.notify_all();
    }

    /// Whether the service stops.
    pub fn is_stopping<R: Wait>(&self, rt: &R) -> bool {
        self.progress.lock(rt).is_stopping
    }

    /// The service has ended.
    pub fn end<R: Wait>(&self, rt: &R) {
        self.progress.lock(rt).has_ended = true;
        self.changes.notify_all();
    }

    /// The audit of an epoch that has ended begins.
    pub fn begin_audit<R: Wait>(&self, rt: &R) {
        let mut guard = self.progress.lock(rt);
        let progress = &mut *guard;
        progress.is_auditing = true;
        progress.has_audited = false;
    }

    /// The audit has ended.
    pub fn end_audit<R: Wait>(&self, rt: &R) {
        let mut guard = self.progress.lock(rt);
        let progress = &mut *guard;
        progress.is_auditing = false;
        progress.has_audited = true;
        self.changes.notify_all();
    }

    /// Waits at most so long for the end of the audit. Returns whether it goes on, and the service doesn't stop.
    pub fn awaits_audit<R: Wait + Clock>(&self, rt: &R, time: Duration) -> bool {
        let guard = self.progress.lock(rt);
        let (progress, _) = self
            .changes
            .wait_timeout_while(rt, guard, time, |progress| {
                progress.is_auditing && !progress.is_over()
            });
        progress.is_auditing && !progress.is_over()
    }

    /// From how much on an epoch ends.
    fn limits(&self) -> RollLimits {
        self.limits.unwrap_or(RollLimits {
            sessions: 0,
            bytes: 0,
        })
    }

    /// A session that asked for something has ended, and left so many bytes.
    pub fn end_session<R: Wait>(&self, rt: &R, bytes: u64) {
        let mut guard = self.progress.lock(rt);
        let progress = &mut *guard;
        progress.load.end_session(bytes);
        if progress.is_newly_full(self.limits()) {
            self.changes.notify_all();
        }
    }

    /// So many messages were stored or refused, of so many octets together.
    pub fn store<R: Wait>(&self, rt: &R, messages: u64, octets: u64) {
        let mut guard = self.progress.lock(rt);
        let progress = &mut *guard;
        progress.load.store(messages, octets);
        if progress.is_newly_full(self.limits()) {
            self.changes.notify_all();
        }
    }

    /// Waits until there is something to do for the epochs, or 2 to 100 ms have passed. Returns what to do.
    pub fn wait<R: Wait + Clock>(&self, rt: &R) -> Wake {
        let limits = self.limits();
        let guard = self.progress.lock(rt);
        let look = Duration::from_millis(guard.look_ms(limits));
        let (mut guard, _) = self
            .changes
            .wait_timeout_while(rt, guard, look, |progress| !progress.is_urgent(limits));
        let progress = &mut *guard;
        progress.wake(rt, limits)
    }

    /// The numbers of the epochs, for operators.
    pub fn stats<R: Wait + Clock>(&self, rt: &R) -> EpochStats {
        let progress = self.progress.lock(rt);
        EpochStats {
            epoch: progress.epoch,
            seconds: millis_since(rt, &progress.began) / 1_000,
            load: progress.load,
            is_auditing: progress.is_auditing,
        }
    }
}
