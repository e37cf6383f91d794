//! The log: a line for each event.
ghost use Rattle.std.specs.Prelude.{◌≡◌, is_some};

use crate::event_lines::{
    StartLoad, put_audit, put_broken, put_crash, put_delivery, put_end, put_event, put_fault,
    put_refused, put_roll, put_roll_failed, put_session, put_start, put_time, put_torn,
};
use crate::facts::{Ending, SessionFacts};
use crate::log_queue::LogQueue;
use crate::log_writer::{LINE, Target, millis_since_1970, start_writing};
use crate::open_sessions::peer_text;
use ballot::{Memory, NodeId};
use maildrop::Name;
use ports::Fault;
use std::alloc::Global;
use std::fs::File;
use std::net::SocketAddr;
use std::rt::Files;
use std::sync::{Arc, Wait};
use std::thread::Threads;
use std::time::{Clock, Duration};

/// The path that stands for standard error.
const STANDARD_ERROR: &str = "-";

/// How long the end of a service waits for the lines that still wait, in milliseconds.
const END_MS: u64 = 1_000;

/// How long an operator waits for the file to be opened anew, in milliseconds.
const REOPEN_MS: u64 = 2_000;

/// The log: a line for each event. Lines are written by a thread of their own, so that nobody waits for the log. A line for which there is
/// no room or memory is missing: the next one that is written has a line before it that says how many are.
#[derive(Drop)]
pub struct EventLog {
    alloc: Global,
    /// Nothing if there is no log.
    queue: Option<Arc<LogQueue>>,
    /// Whether it is a file, which can be opened anew.
    is_file: bool,
}

/// Where the lines of a log of this path go: `-` is standard error.
fn target_of<R: Files<File = File>>(rt: &R, path: &str) -> Result<Target, Fault> {
    if path == STANDARD_ERROR {
        return Ok(Target::StandardError);
    }
    match Target::open(rt, path) {
        Ok(target) => Ok(target),
        Err(_) => Err(Fault::Log),
    }
}

impl EventLog {
    /// The log of this path: `-` is standard error, and without a path there is none. `Memory` if there is no thread for it.
    pub fn open<R: Files<File = File> + Threads + Wait + Clock + Copy + Send + 'static>(
        rt: &R,
        alloc: Global,
        path: Option<&str>,
    ) -> Result<EventLog, Fault>
    where
        R::Dir: Send,
    {
        let Some(path) = path else {
            return Ok(EventLog {
                alloc,
                queue: None,
                is_file: false,
            });
        };
        let target = target_of(rt, path)?;
        let queue = Arc::new(alloc, LogQueue::new(alloc)?)?;
        start_writing(rt, alloc, &queue, target, path)?;
        Ok(EventLog {
            alloc,
            queue: Some(queue),
            is_file: path != STANDARD_ERROR,
        })
    }

    /// How many lines are missing so far.
    pub fn lines_lost<R: Wait>(&self, rt: &R) -> u64 {
        match &self.queue {
            Some(queue) => queue.lost(rt),
            None => 0,
        }
    }

    /// Has the file opened anew: lines that were added before go to the old one if it still takes them, and those that come later to
    /// the one that its path names by now. Waits for that, but for two seconds at most. `Log` if it can't be opened: the old one
    /// goes on. `Write` if the thread that writes hasn't come to it, since a write hangs, or is at its end: it comes to it as soon as it
    /// can. Nothing is to do if the log is standard error, or there is none.
    pub fn reopen<R: Wait + Clock>(&self, rt: &R) -> Result<(), Fault> {
        match &self.queue {
            Some(queue) if self.is_file => queue.reopen(rt, Duration::from_millis(REOPEN_MS)),
            _ => Ok(()),
        }
    }

    /// Waits until all lines are written, but for a second at most. Lines that come later are missing.
    pub fn finish<R: Wait + Clock>(&self, rt: &R) {
        if let Some(queue) = &self.queue {
            queue.close(rt);
            queue.wait_for_end(rt, Duration::from_millis(END_MS));
        }
    }

    /// Whether there is one.
    pub fn is_kept(&self) -> bool
        ensures { result ≡ is_some self.now.queue }
    {
        self.queue.is_some()
    }

    /// A session at a node has ended.
    pub fn session<R: Wait + Clock>(
        &self,
        rt: &R,
        node: NodeId,
        peer: SocketAddr,
        facts: &SessionFacts,
        ending: Ending,
    ) {
        if let Some(mut line) = self.begin(rt) {
            let put = self.put_session(&mut line, node, peer, facts, ending);
            self.end(rt, line, put);
        }
    }

    fn put_session(
        &self,
        line: &mut Vec<u8>,
        node: NodeId,
        peer: SocketAddr,
        facts: &SessionFacts,
        ending: Ending,
    ) -> Result<(), Memory> {
        let peer = peer_text(self.alloc, peer)?;
        put_session(line, node.get(), peer.as_bytes(), facts, ending)
    }

    /// A login at a node was refused.
    pub fn login_refused<R: Wait + Clock>(&self, rt: &R, node: NodeId, peer: SocketAddr) {
        if let Some(mut line) = self.begin(rt) {
            let put = self.put_refused(&mut line, node, peer);
            self.end(rt, line, put);
        }
    }

    fn put_refused(
        &self,
        line: &mut Vec<u8>,
        node: NodeId,
        peer: SocketAddr,
    ) -> Result<(), Memory> {
        let peer = peer_text(self.alloc, peer)?;
        put_refused(line, node.get(), peer.as_bytes())
    }

    /// A delivery to a user at a node has ended: so many of its messages were stored, and so many refused.
    pub fn delivery<R: Wait + Clock>(
        &self,
        rt: &R,
        node: NodeId,
        user: &Name,
        stored: u64,
        refused: u64,
    ) {
        if let Some(mut line) = self.begin(rt) {
            let put = put_delivery(&mut line, node.get(), user, stored, refused);
            self.end(rt, line, put);
        }
    }

    /// An operator has stopped a node.
    pub fn crash<R: Wait + Clock>(&self, rt: &R, node: NodeId) {
        if let Some(mut line) = self.begin(rt) {
            let put = put_crash(&mut line, node.get());
            self.end(rt, line, put);
        }
    }

    /// A user's lock is broken, since the node is down whose session held it.
    pub fn lock_broken<R: Wait + Clock>(&self, rt: &R, user: &Name, node: NodeId) {
        if let Some(mut line) = self.begin(rt) {
            let put = put_broken(&mut line, user, node.get());
            self.end(rt, line, put);
        }
    }

    /// An epoch of this number begins, with what the one before it has left.
    pub fn roll<R: Wait + Clock>(&self, rt: &R, epoch: u64) {
        if let Some(mut line) = self.begin(rt) {
            let put = put_roll(&mut line, epoch);
            self.end(rt, line, put);
        }
    }

    /// The next epoch can't begin, so the present one goes on or, if it has ended, the next one is tried again.
    pub fn roll_failed<R: Wait + Clock>(&self, rt: &R, fault: Fault) {
        if let Some(mut line) = self.begin(rt) {
            let put = self.put_cause(&mut line, fault);
            self.end(rt, line, put);
        }
    }

    fn put_cause(&self, line: &mut Vec<u8>, fault: Fault) -> Result<(), Memory> {
        let cause = format!(in self.alloc; "{fault}")?;
        put_roll_failed(line, cause.as_bytes())
    }

    /// A start has dropped so many bytes of a segment, those from this place on.
    pub fn torn<R: Wait + Clock>(&self, rt: &R, segment: u64, at: u64, bytes: u64) {
        if let Some(mut line) = self.begin(rt) {
            let put = put_torn(&mut line, segment, at, bytes);
            self.end(rt, line, put);
        }
    }

    /// The service takes clients from now on. It begins with this epoch, and was started so.
    pub fn start<R: Wait + Clock>(&self, rt: &R, epoch: u64, load: StartLoad, how: &str) {
        if let Some(mut line) = self.begin(rt) {
            let put = put_start(&mut line, epoch, load, how.as_bytes());
            self.end(rt, line, put);
        }
    }

    /// The audit of an epoch has ended with this verdict.
    pub fn audit<R: Wait + Clock>(&self, rt: &R, epoch: u64, verdict: &str) {
        if let Some(mut line) = self.begin(rt) {
            let put = put_audit(&mut line, epoch, verdict.as_bytes());
            self.end(rt, line, put);
        }
    }

    /// The service has ended with this status.
    pub fn ended<R: Wait + Clock>(&self, rt: &R, status: u8) {
        if let Some(mut line) = self.begin(rt) {
            let put = put_end(&mut line, status);
            self.end(rt, line, put);
        }
    }

    /// The nodes lack a majority.
    pub fn no_majority<R: Wait + Clock>(&self, rt: &R) {
        self.event(rt, b"no_majority");
    }

    /// An operator stops the service.
    pub fn stop<R: Wait + Clock>(&self, rt: &R) {
        self.event(rt, b"stop");
    }

    fn event<R: Wait + Clock>(&self, rt: &R, name: &[u8]) {
        if let Some(mut line) = self.begin(rt) {
            let put = put_event(&mut line, name);
            self.end(rt, line, put);
        }
    }

    /// Something has failed.
    pub fn fault<R: Wait + Clock>(&self, rt: &R, text: &str) {
        if let Some(mut line) = self.begin(rt) {
            let put = put_fault(&mut line, text.as_bytes());
            self.end(rt, line, put);
        }
    }

    /// A line with its time, if there is a log and memory for it.
    fn begin<R: Wait + Clock>(&self, rt: &R) -> Option<Vec<u8>> {
        let queue = self.queue.as_ref()?;
        let line = timed_line(rt, self.alloc);
        if line.is_err() {
            queue.lose(rt);
        }
        line.ok()
    }

    /// Adds a line to those that wait, if there was memory for all of it.
    fn end<R: Wait>(&self, rt: &R, line: Vec<u8>, put: Result<(), Memory>) {
        let Some(queue) = &self.queue else {
            return;
        };
        match put {
            Ok(()) => queue.add(rt, line),
            Err(_) => queue.lose(rt),
        }
    }
}

/// A line that has its time so far.
fn timed_line<R: Clock>(rt: &R, alloc: Global) -> Result<Vec<u8>, Memory> {
    let mut line = Vec::with_capacity(alloc, LINE)?;
    put_time(&mut line, millis_since_1970(rt))?;
    Ok(line)
}
