//! How far the epochs of a service have come, and what is to be done for them.
ghost use Rattle.std.specs.Prelude.{◌≡◌, ◌||◌, ℕ, true, false, None, if◌then◌else◌};
ghost use Rattle.rolls.specs.Rolls.{highest, no_load};
ghost use Rattle.rolls.specs.Wakes as spec;

use crate::rolls::{Due, EpochLoad, RollLimits, has_reached, when_due};
use ports::Fault;
use std::time::{Clock, Instant};

/// After how many milliseconds the epoch is looked at again.
const LOOK_MS: u64 = 100;

/// The same until its nodes lead.
const LEAD_LOOK_MS: u64 = 2;

/// The same while it has as much as a limit.
const FULL_LOOK_MS: u64 = 10;

/// Half of the milliseconds between the first two tries to find a moment without an open session. The time doubles with each
/// try. Meanwhile the epoch grows beyond its limit.
const FIRST_RETRY_MS: u64 = 10;

/// How many milliseconds lie between two such tries at most.
const LAST_RETRY_MS: u64 = 30_000;

/// What wakes the thread that looks after the epochs.
#[derive(Clone, Copy, Debug, PartialEq, Eq)]
pub enum Wake {
    /// The service stops.
    Stop,
    /// The audit of the epoch before this one has ended.
    Audited,
    /// The epoch has as much as a limit, and the audit of the one before it goes on.
    Behind,
    /// The epoch is to end, and its sessions with it.
    Roll,
    /// The epoch is to end if no session is open.
    Quiet,
    /// Time has passed.
    Look,
}

/// How far the epochs of a service have come.
#[derive(Drop)]
pub(crate) struct Progress {
    /// The number of this epoch, counted from 1.
    pub epoch: u64,
    /// The last epoch of which a node led.
    pub led: u64,
    /// The last epoch whose operators are waited for.
    pub joined: u64,
    /// When this epoch began, unless the clock couldn't be read.
    pub began: Option<Instant>,
    pub load: EpochLoad,
    /// Whether a moment without an open session was looked for.
    pub has_tried: bool,
    /// When it was looked for last, unless the clock couldn't be read.
    pub tried: Option<Instant>,
    /// How many milliseconds after that it is looked for again.
    pub retry_ms: u64,
    /// Whether an operator, or want of a majority, asks for the end of this epoch.
    pub is_asked: bool,
    /// Whether want of a majority does.
    pub is_required: bool,
    /// How many times the end of an epoch was refused to operators.
    pub refusals: u64,
    /// Why it was refused last.
    pub refusal: Option<Fault>,
    /// The epoch whose end was refused last.
    pub refused: u64,
    /// Whether the audit of the epoch before this one goes on.
    pub is_auditing: bool,
    /// Whether it has ended, and nobody was told so yet.
    pub has_audited: bool,
    pub is_stopping: bool,
    pub has_ended: bool,
}

/// Returns how many milliseconds have passed since then: 2^64 - 1 if there is no such moment, or the clock can't be read.
pub fn millis_since<R: Clock>(rt: &R, since: &Option<Instant>) -> u64
    ensures { since.now ≡ None → result ≡ highest }
{
    match since {
        Some(since) => match since.elapsed(rt) {
            Ok(time) => u64::try_from(time.as_millis()).unwrap_or(u64::MAX),
            Err(_) => u64::MAX,
        },
        None => u64::MAX,
    }
}

impl Progress {
    /// The state before the first epoch.
    pub(crate) fn new() -> Self
        ensures { result ≡ spec.before_all }
    {
        Progress {
            epoch: 0,
            led: 0,
            joined: 0,
            began: None,
            load: EpochLoad::new(),
            has_tried: false,
            tried: None,
            retry_ms: 0,
            is_asked: false,
            is_required: false,
            refusals: 0,
            refusal: None,
            refused: 0,
            is_auditing: false,
            has_audited: false,
            is_stopping: false,
            has_ended: false,
        }
    }

    /// The next epoch begins.
    pub(crate) fn begin<R: Clock>(&mut self, rt: &R)
        ensures number { self.new.epoch ≡ spec.next_epoch self.old.epoch }
        ensures load { self.new.load ≡ no_load }
        ensures untried { (self.new.has_tried ≡ false) × (self.new.tried ≡ None) }
        ensures retry { self.new.retry_ms ≡ 10 }
        ensures unasked { (self.new.is_asked ≡ false) × (self.new.is_required ≡ false) }
        ensures rest { self.new ≡ record self.old {
          epoch = self.new.epoch;
          began = self.new.began;
          load = self.new.load;
          has_tried = self.new.has_tried;
          tried = self.new.tried;
          retry_ms = self.new.retry_ms;
          is_asked = self.new.is_asked;
          is_required = self.new.is_required;
        } }
    {
        self.epoch = self.epoch.saturating_add(1);
        self.began = Instant::now(rt).ok();
        self.load = EpochLoad::new();
        self.has_tried = false;
        self.tried = None;
        self.retry_ms = FIRST_RETRY_MS;
        self.is_asked = false;
        self.is_required = false;
    }

    /// Whether the end of this epoch was refused since there were so many refusals.
    pub(crate) fn has_refused(&self, epoch: u64, refusals: u64) -> bool
        ensures { result ≡ spec.has_refused self.now epoch refusals }
    {
        self.refused == epoch && self.refusals > refusals
    }

    /// Refuses the end of this epoch to the operators who ask for it, for this reason. Returns false if none asks, or a majority is
    /// wanting: then the epoch ends in any case.
    pub(crate) fn refuse(&mut self, fault: Fault) -> bool
        ensures refused { result ≡ spec.may_refuse self.old }
        ensures so { self.new ≡ (if spec.may_refuse self.old then spec.after_refusal fault self.old else self.old) }
    {
        if !self.is_asked || self.is_required {
            return false;
        }
        self.is_asked = false;
        self.refusals = self.refusals.saturating_add(1);
        self.refusal = Some(fault);
        self.refused = self.epoch;
        true
    }

    /// Whether the epoch has as much as a limit, and no moment without an open session was looked for yet.
    pub(crate) fn is_newly_full(&self, limits: RollLimits) -> bool
        ensures { result ≡ spec.is_newly_full self.now limits }
    {
        !self.has_tried && has_reached(self.load, limits, 1)
    }

    /// Whether there is something to do at once.
    pub(crate) fn is_urgent(&self, limits: RollLimits) -> bool
        ensures { result ≡ spec.is_urgent self.now limits }
    {
        self.is_stopping
            || self.has_audited
            || (self.is_asked && !self.is_auditing)
            || self.is_newly_full(limits)
    }

    /// After how many milliseconds the epoch is looked at again.
    pub(crate) fn look_ms(&self, limits: RollLimits) -> u64
        ensures { result ≡ spec.look_ms self.now limits }
    {
        if self.led != self.epoch {
            LEAD_LOOK_MS
        } else if has_reached(self.load, limits, 1) {
            FULL_LOOK_MS
        } else {
            LOOK_MS
        }
    }

    /// Whether the service stops or has ended.
    pub(crate) fn is_over(&self) -> bool
        ensures { result ≡ self.now.is_stopping || self.now.has_ended }
    {
        self.is_stopping || self.has_ended
    }

    /// What is to be done in an epoch of this age, if the last try to find a moment without an open session was `tried_ms`
    /// milliseconds ago.
    fn wake_at(&self, limits: RollLimits, age_ms: u64, tried_ms: u64) -> Wake
        ensures { result ≡ spec.wake_at self.now limits age_ms tried_ms }
    {
        if self.is_stopping {
            return Wake::Stop;
        }
        if self.has_audited {
            return Wake::Audited;
        }
        if self.is_auditing {
            return if has_reached(self.load, limits, 1) {
                Wake::Behind
            } else {
                Wake::Look
            };
        }
        if self.is_asked {
            return Wake::Roll;
        }
        match when_due(self.load, limits, age_ms) {
            Due::Forced => Wake::Roll,
            Due::Quiet if tried_ms >= self.retry_ms => Wake::Quiet,
            Due::Quiet | Due::No => Wake::Look,
        }
    }

    /// Notes that a moment without an open session is looked for now.
    fn note_try<R: Clock>(&mut self, rt: &R)
        ensures tried { self.new.has_tried ≡ true }
        ensures retry { self.new.retry_ms ≡ spec.next_retry self.old.retry_ms }
        ensures rest { self.new ≡ record self.old { has_tried = self.new.has_tried; tried = self.new.tried; retry_ms = self.new.retry_ms } }
    {
        self.has_tried = true;
        self.tried = Instant::now(rt).ok();
        self.retry_ms = self.retry_ms.saturating_mul(2).min(LAST_RETRY_MS);
    }

    /// Returns what the caller is to do now, and notes that it was told.
    pub(crate) fn wake<R: Clock>(&mut self, rt: &R, limits: RollLimits) -> Wake
        // By the age of the epoch and of the last try, as the clock has them.
        ensures due { (age_ms tried_ms : ℕ) × (result ≡ spec.wake_at self.old limits age_ms tried_ms) }
        ensures noted { self.new ≡ spec.after_wake result self.new.tried self.old }
    {
        let age_ms = millis_since(rt, &self.began);
        let tried_ms = millis_since(rt, &self.tried);
        let wake = self.wake_at(limits, age_ms, tried_ms);
        match wake {
            Wake::Audited => self.has_audited = false,
            Wake::Quiet => self.note_try(rt),
            Wake::Stop | Wake::Behind | Wake::Roll | Wake::Look => {}
        }
        wake
    }
}
