//! What the next epoch needs of the system, held from before this one ends until then.
ghost use Rattle.std.specs.Prelude.{◌≡◌};
ghost use Rattle.service.specs.Reserves as spec;

use crate::threads::join_all;
use ports::{Fault, System};
use std::alloc::Global;
use std::fs::File;
use std::rt::Files;
use std::sync::{Arc, Condvar, Mutex, Wait};
use std::thread::JoinHandle;
use std::{mem, thread};

/// What is opened to hold a descriptor: it is there, and nothing is read of it.
const ANY_FOLDER: &str = "/";

/// How many descriptors the next epoch needs at most: for the folder, its list, the new segment and the accounts file, and one of each
/// thread that takes connections, which may take one more before it waits.
const OWN_DESCRIPTORS: usize = 5;

/// How many threads it needs beside those of nodes and ports: for the sessions' end, ticks, the majority, two for operators, and the audit.
const OWN_THREADS: usize = 6;

/// How many bytes it needs beside those for mail, about.
const OWN_BYTES: usize = 4 << 20;

/// How many bytes it needs for a message, about: in what one epoch leaves, and the next one and its journal open with.
const MESSAGE_BYTES: usize = 256;

/// The same for a user.
const USER_BYTES: usize = 1_024;

/// How much is needed.
#[derive(Clone, Copy, Debug, PartialEq, Eq)]
pub(crate) struct Needs {
    /// In bytes.
    pub memory: usize,
    pub descriptors: usize,
    pub threads: usize,
}

/// What an epoch needs that opens with so many users and messages, at so many nodes and ports.
pub(crate) fn needs_of(users: usize, messages: usize, nodes: usize, ports: usize) -> Needs
    ensures { result ≡ spec.needs_of users messages nodes ports }
{
    let mail = messages
        .saturating_mul(MESSAGE_BYTES)
        .saturating_add(users.saturating_mul(USER_BYTES));
    Needs {
        memory: mail.saturating_add(OWN_BYTES),
        descriptors: ports.saturating_add(OWN_DESCRIPTORS),
        threads: nodes.saturating_add(ports).saturating_add(OWN_THREADS),
    }
}

/// Where threads wait that are only held: those from this place on end.
#[derive(Drop)]
struct Release {
    held: Mutex<usize>,
    changes: Condvar,
}

impl Release {
    /// Waits until the thread of this place is to end.
    fn wait<R: Wait>(&self, rt: &R, place: usize) {
        let guard = self.held.lock(rt);
        let _released = self.changes.wait_while(rt, guard, |held| *held > place);
    }

    /// Has all threads end but the first ones, of which so many are held on.
    fn release<R: Wait>(&self, rt: &R, held: usize) {
        *self.held.lock(rt) = held;
        self.changes.notify_all();
    }
}

/// What the next epoch needs of the system.
#[derive(Drop)]
pub(crate) struct Reserve {
    alloc: Global,
    memory: Option<Vec<u8>>,
    descriptors: Vec<File>,
    threads: Vec<JoinHandle<()>>,
    /// Where these threads wait.
    release: Option<Arc<Release>>,
}

impl Reserve {
    /// Nothing is held. Takes no memory.
    pub(crate) fn new(alloc: Global) -> Self {
        Reserve {
            alloc,
            memory: None,
            descriptors: Vec::new(alloc),
            threads: Vec::new(alloc),
            release: None,
        }
    }

    /// Holds all that is needed, in place of what was held. If something can't be had nothing is held: `Memory` if out of memory or
    /// threads, and `Read` if out of descriptors.
    pub(crate) fn hold<R: System + Files<File = File>>(
        &mut self,
        rt: R,
        needs: Needs,
    ) -> Result<(), Fault> {
        self.release(&rt);
        let held = self.hold_all(rt, needs);
        if held.is_err() {
            self.release(&rt);
        }
        held
    }

    fn hold_all<R: System + Files<File = File>>(
        &mut self,
        rt: R,
        needs: Needs,
    ) -> Result<(), Fault> {
        self.descriptors.reserve(needs.descriptors)?;
        for _ in 0..needs.descriptors {
            let Ok(file) = File::open(&rt, ANY_FOLDER) else {
                return Err(Fault::Read);
            };
            self.descriptors.push(file)?;
        }
        self.hold_threads(rt, needs.threads)?;
        self.memory = Some(Vec::with_capacity(self.alloc, needs.memory)?);
        Ok(())
    }

    fn hold_threads<R: System>(&mut self, rt: R, count: usize) -> Result<(), Fault> {
        let release = Release {
            held: Mutex::new(count),
            changes: Condvar::new(),
        };
        let release = Arc::new(self.alloc, release)?;
        self.release = Some(Arc::try_clone(&release)?);
        self.threads.reserve(count)?;
        for place in 0..count {
            let theirs = Arc::try_clone(&release)?;
            let Ok(thread) = thread::spawn(&rt, move || theirs.wait(&rt, place)) else {
                return Err(Fault::Memory);
            };
            self.threads.push(thread)?;
        }
        Ok(())
    }

    /// Holds no memory any more.
    pub(crate) fn release_memory(&mut self) {
        self.memory = None;
    }

    /// Holds no descriptors any more.
    pub(crate) fn release_descriptors(&mut self) {
        self.descriptors.clear();
    }

    /// Holds one thread less.
    pub(crate) fn release_thread<R: System>(&mut self, rt: &R) {
        let Some(thread) = self.threads.pop() else {
            return;
        };
        if let Some(release) = &self.release {
            release.release(rt, self.threads.len());
        }
        thread.join(rt);
    }

    /// Holds nothing any more.
    pub(crate) fn release<R: System>(&mut self, rt: &R) {
        self.release_memory();
        self.release_descriptors();
        if let Some(release) = self.release.take() {
            release.release(rt, 0);
        }
        join_all(rt, mem::replace(&mut self.threads, Vec::new(self.alloc)));
    }
}
