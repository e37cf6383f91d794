//! How far a service has come.
ghost use Rattle.std.specs.Prelude.{◌≡◌};
ghost use Rattle.ports.specs.declared.stages.Stage.TheVariants as spec;

use std::sync::{Condvar, Mutex, Wait};
use std::time::{Clock, Duration};

/// How far a service has come.
#[derive(Clone, Copy, Debug, PartialEq, Eq)]
enum Stage {
    /// Not all threads have been started, and no connection is taken yet.
    Starting,
    /// Connections are taken.
    Serving,
    /// No POP3 connection is taken any more, and the sessions go on to their ends, for which their nodes need time.
    Stopping,
    /// All sessions have ended.
    Ended,
}

impl Stage {
    /// A service that starts serves. One that was stopped before stays so.
    fn begin(&mut self)
        ensures starting { self.old ≡ spec.Starting → self.new ≡ spec.Serving }
        ensures serving { self.old ≡ spec.Serving → self.new ≡ spec.Serving }
        ensures stopping { self.old ≡ spec.Stopping → self.new ≡ spec.Stopping }
        ensures ended { self.old ≡ spec.Ended → self.new ≡ spec.Ended }
    {
        if matches!(*self, Stage::Starting) {
            *self = Stage::Serving;
        }
    }

    /// A service that starts or serves stops. One that stops or has ended stays so, however late another request to stop
    /// comes.
    fn stop(&mut self)
        ensures starting { self.old ≡ spec.Starting → self.new ≡ spec.Stopping }
        ensures serving { self.old ≡ spec.Serving → self.new ≡ spec.Stopping }
        ensures stopping { self.old ≡ spec.Stopping → self.new ≡ spec.Stopping }
        ensures ended { self.old ≡ spec.Ended → self.new ≡ spec.Ended }
    {
        if matches!(*self, Stage::Starting | Stage::Serving) {
            *self = Stage::Stopping;
        }
    }
}

/// How far a service has come, for all its threads.
#[derive(Drop)]
pub struct Stages {
    stage: Mutex<Stage>,
    changes: Condvar,
    /// Whether the service ends since fewer than a majority of its nodes are up.
    lacks_majority: Mutex<bool>,
}

impl Stages {
    /// Of a service that starts.
    pub fn new() -> Self {
        Stages {
            stage: Mutex::new(Stage::Starting),
            changes: Condvar::new(),
            lacks_majority: Mutex::new(false),
        }
    }

    /// All threads have been started: connections are taken from here on.
    pub fn begin<R: Wait>(&self, rt: &R) {
        self.stage.lock(rt).begin();
        self.changes.notify_all();
    }

    /// Waits until all threads have been started, or the service stops.
    pub fn wait_for_begin<R: Wait>(&self, rt: &R) {
        let guard = self.stage.lock(rt);
        let _begun = self
            .changes
            .wait_while(rt, guard, |stage| matches!(*stage, Stage::Starting));
    }

    /// Whether the service stops, or has ended.
    pub fn is_stopping<R: Wait>(&self, rt: &R) -> bool {
        matches!(*self.stage.lock(rt), Stage::Stopping | Stage::Ended)
    }

    /// Whether the sessions have ended, and the nodes need no more time.
    pub fn has_ended<R: Wait>(&self, rt: &R) -> bool {
        matches!(*self.stage.lock(rt), Stage::Ended)
    }

    /// Waits so long, or until the sessions have ended. Returns whether they have.
    pub fn pauses<R: Wait + Clock>(&self, rt: &R, time: Duration) -> bool {
        let guard = self.stage.lock(rt);
        let (stage, _) = self
            .changes
            .wait_timeout_while(rt, guard, time, |stage| !matches!(*stage, Stage::Ended));
        matches!(*stage, Stage::Ended)
    }

    /// Lets the service stop. Its thread of the end closes the POP3 ports.
    pub fn stop<R: Wait>(&self, rt: &R) {
        self.stage.lock(rt).stop();
        self.changes.notify_all();
    }

    /// The sessions of a service that stops have ended: its nodes need no more time.
    pub fn end<R: Wait>(&self, rt: &R) {
        *self.stage.lock(rt) = Stage::Ended;
        self.changes.notify_all();
    }

    /// Lets the service stop, since fewer than a majority of its nodes are up.
    pub fn stop_without_majority<R: Wait>(&self, rt: &R) {
        *self.lacks_majority.lock(rt) = true;
        self.stop(rt);
    }

    /// Whether the service ends since fewer than a majority of its nodes are up.
    pub fn lacks_majority<R: Wait>(&self, rt: &R) -> bool {
        *self.lacks_majority.lock(rt)
    }

    /// Waits until the service stops.
    pub fn wait_for_stop<R: Wait>(&self, rt: &R) {
        let guard = self.stage.lock(rt);
        let _stopping = self.changes.wait_while(rt, guard, |stage| {
            matches!(*stage, Stage::Starting | Stage::Serving)
        });
    }
}
