//! Sessions on threads of their own.
ghost use Rattle.std.specs.Prelude.{◌≡◌, ◌≤◌, [], true, is_some, IfOk, IfSome, IsSomeAnd, vec_len, vec_capacity};
ghost use Rattle.std.specs.Arc.{arc_value};
ghost use Rattle.std.specs.List.{AllZip};
ghost use Rattle.ballot.specs.Nodes.{is_among};
ghost use Rattle.session.specs.Serve.{IsTranscript};
ghost use Rattle.cluster.specs.Jobs.{IsServed};

use crate::cluster::Cluster;
use crate::desk::NodeDesk;
use crate::link::Link;
use crate::setup::Deployment;
use apop::{Accounts, Stamp};
use ballot::{Memory, NodeId};
use session::{Gate, Transcript, serve};
use std::alloc::Global;
use std::io::{Read, Write};
use std::snapshot::Snapshot;
use std::sync::{Arc, Wait};
use std::thread;
use std::thread::{Promise, PromisedHandle, Threads};

/// A session that is to be served.
#[derive(Drop)]
pub struct Job<I, O, G> {
    /// The node whose desk it asks.
    pub node: NodeId,
    /// Where its lines come from.
    pub reader: I,
    /// Where its replies go.
    pub writer: O,
    /// The timestamp of its greeting.
    pub stamp: Stamp,
    /// What it passes around each line.
    pub gate: G,
}

/// A job with all that its thread needs: the desk of its node, if that node is here, and the accounts.
#[derive(Drop)]
struct ReadyJob<D: Deployment, R: Wait, L: Link, I, O, G> {
    job: Job<I, O, G>,
    desk: Option<NodeDesk<D, R, L>>,
    accounts: Arc<Accounts>,
}

/// What a session's thread promises: the transcript of a session with this timestamp, over these accounts.
#[derive(Drop)]
struct Served {
    accounts: Snapshot<Arc<Accounts>>,
    stamp: Stamp,
}

impl Promise<Transcript> for Served {
    ghost use Rattle.std.specs.Arc.{arc_value};
    ghost use Rattle.session.specs.Serve.{IsTranscript};

    ghost kept_by = { λ promise transcript. IsTranscript (arc_value promise.accounts.value) promise.stamp transcript };
}

/// The thread of a session.
type SessionThread = PromisedHandle<Transcript, Served>;

impl<
    D: Deployment + Send + Sync + 'static,
    R: Threads + Wait + Copy + Send + Sync + 'static,
    L: Link + Drop + Send + Sync + 'static,
> Cluster<D, R, L> {
    /// Serves each job on a thread of its own, and joins them all. Returns an answer for each job, in the order of the jobs:
    /// its transcript, or none if the job's node isn't here or the system has no thread for it. `Memory` is answered before
    /// any is started.
    pub fn sessions<
        I: Read + Drop + Send + 'static,
        O: Write + Drop + Send + 'static,
        G: Gate + Drop + Send + 'static,
    >(
        &self,
        jobs: Vec<Job<I, O, G>>,
        accounts: &Arc<Accounts>,
    ) -> Result<Vec<Option<Transcript>>, Memory>
        ensures served { IfOk result (λ answers.
            AllZip (λ job answer. IsServed self.now (arc_value accounts.now) job.node job.stamp answer) jobs.items answers.items) }
    {
        let alloc = self.allocator();
        let answers = Vec::with_capacity(alloc, jobs.len())?;
        let threads = Vec::with_capacity(alloc, jobs.len())?;
        let ready = self.with_desks(jobs, accounts)?;
        let rt = self.runtime();
        Ok(join_all(&rt, start_all(rt, alloc, ready, threads), answers))
    }

    /// The jobs, each with what its thread needs.
    fn with_desks<I: Drop, O: Drop, G: Drop>(
        &self,
        jobs: Vec<Job<I, O, G>>,
        accounts: &Arc<Accounts>,
    ) -> Result<Vec<ReadyJob<D, R, L, I, O, G>>, Memory>
        ensures count { IfOk result (λ ready. vec_len ready ≡ vec_len jobs) }
        ensures ready { IfOk result (λ ready. AllZip (λ job ready. (ready.job ≡ job)
            × (is_some ready.desk ≡ is_among job.node self.now) × (arc_value ready.accounts ≡ arc_value accounts.now)) jobs.items ready.items) }
    {
        let mut ready = Vec::new(self.allocator());
        for job in jobs {
            ready.push(self.with_desk(job, accounts)?)?;
        }
        Ok(ready)
    }

    fn with_desk<I: Drop, O: Drop, G: Drop>(
        &self,
        job: Job<I, O, G>,
        accounts: &Arc<Accounts>,
    ) -> Result<ReadyJob<D, R, L, I, O, G>, Memory>
        ensures job { IfOk result (λ ready. ready.job ≡ job) }
        ensures desk { IfOk result (λ ready. is_some ready.desk ≡ is_among job.node self.now) }
        ensures accounts { IfOk result (λ ready. arc_value ready.accounts ≡ arc_value accounts.now) }
    {
        let desk = self.desk(job.node)?;
        let accounts = Arc::try_clone(accounts)?;
        Ok(ReadyJob {
            job,
            desk,
            accounts,
        })
    }
}

/// Starts a thread for each job. There is room for them all.
fn start_all<
    D: Deployment + Send + Sync + 'static,
    R: Threads + Wait + Copy + Send + Sync + 'static,
    L: Link + Drop + Send + Sync + 'static,
    I: Read + Drop + Send + 'static,
    O: Write + Drop + Send + 'static,
    G: Gate + Drop + Send + 'static,
>(
    rt: R,
    alloc: Global,
    jobs: Vec<ReadyJob<D, R, L, I, O, G>>,
    mut threads: Vec<Option<SessionThread>>,
) -> Vec<Option<SessionThread>>
    requires none { threads.items ≡ [] }
    requires room { vec_len jobs ≤ vec_capacity threads }
    ensures count { vec_len result ≡ vec_len jobs }
    ensures started { AllZip (λ job thread. IfSome thread (λ thread. (is_some job.desk ≡ true)
        × (arc_value thread.promise.accounts.value ≡ arc_value job.accounts) × (thread.promise.stamp ≡ job.job.stamp))) jobs.items result.items }
{
    for job in jobs {
        threads.push_reserved(start(rt, alloc, job));
    }
    threads
}

/// Starts the thread of a job, if its node is here and the system has a thread.
fn start<
    D: Deployment + Send + Sync + 'static,
    R: Threads + Wait + Copy + Send + Sync + 'static,
    L: Link + Drop + Send + Sync + 'static,
    I: Read + Drop + Send + 'static,
    O: Write + Drop + Send + 'static,
    G: Gate + Drop + Send + 'static,
>(rt: R, alloc: Global, job: ReadyJob<D, R, L, I, O, G>) -> Option<SessionThread>
    ensures here { IfSome result (λ thread. is_some job.desk ≡ true) }
    ensures accounts { IfSome result (λ thread. arc_value thread.promise.accounts.value ≡ arc_value job.accounts) }
    ensures stamp { IfSome result (λ thread. thread.promise.stamp ≡ job.job.stamp) }
{
    let ReadyJob {
        job,
        desk,
        accounts,
    } = job;
    let desk = desk?;
    let promise = Served {
        accounts: Snapshot::of(&accounts),
        stamp: job.stamp.copy(),
    };
    thread::spawn_with(&rt, promise, move || run_job(alloc, job, &accounts, desk)).ok()
}

/// Joins the threads. There is room for what all of them leave.
fn join_all<R: Threads>(
    rt: &R,
    threads: Vec<Option<SessionThread>>,
    mut answers: Vec<Option<Transcript>>,
) -> Vec<Option<Transcript>>
    requires none { answers.items ≡ [] }
    requires room { vec_len threads ≤ vec_capacity answers }
    ensures joined { AllZip (λ thread answer. IfSome answer (λ transcript. IsSomeAnd thread (λ thread.
        IsTranscript (arc_value thread.promise.accounts.value) thread.promise.stamp transcript))) threads.items result.items }
{
    for thread in threads {
        answers.push_reserved(joined(rt, thread));
    }
    answers
}

fn joined<R: Threads>(rt: &R, thread: Option<SessionThread>) -> Option<Transcript>
    ensures { IfSome result (λ transcript. IsSomeAnd thread (λ thread.
        IsTranscript (arc_value thread.promise.accounts.value) thread.promise.stamp transcript)) }
{
    match thread {
        None => None,
        Some(thread) => Some(thread.join(rt)),
    }
}

fn run_job<
    D: Deployment,
    R: Wait + Drop,
    L: Link + Drop,
    I: Read + Drop,
    O: Write + Drop,
    G: Gate + Drop,
>(alloc: Global, job: Job<I, O, G>, accounts: &Accounts, mut desk: NodeDesk<D, R, L>) -> Transcript
    ensures { IsTranscript accounts.now job.stamp result }
{
    let Job {
        node: _,
        mut reader,
        mut writer,
        stamp,
        mut gate,
    } = job;
    serve(
        alloc,
        &mut reader,
        &mut writer,
        accounts,
        stamp,
        &mut desk,
        &mut gate,
    )
}
