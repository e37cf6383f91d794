//! `maildropd serve --node`: one node of a service, with its sessions and an operator's port, in a process of its own.
ghost use Rattle.std.specs.Prelude.{◌≡◌, ◌≤◌, ◌<◌, ◌++◌, ◌∷◌, [], IsTrue, IsErrOf, IfSome, OnOk, codes, map};
ghost use Rattle.std.specs.Arc.{arc_value};
ghost use Rattle.std.specs.Io.KnownBytes.{Appends};
ghost use Rattle.settings.specs.Options as spec;
ghost use Rattle.ports.specs.Faults.{status_at};
ghost use Rattle.apop.specs.Accounts.{name_of};
ghost use Rattle.maildrop.specs.Name.{are_different};

use crate::announcement::Announcement;
use crate::brand::Service;
use crate::epoch_journal::EpochJournal;
use crate::epoch_run::{Ending, end_threads, state_of};
use crate::life::ServiceLife;
use crate::serve::{FIRST_LEADER, life_of, note_fault, setup_of};
use crate::served_sessions::ServedSessions;
use crate::service_nodes::ServiceNodes;
use crate::threads;
use crate::threads::{Ports, join_all};
use apop::Accounts;
use ballot::NodeId;
use cluster::Setup;
use maildrop::{Kept, Shared};
use ports::{Fault, System, say};
use settings::{NodeOptions, Settings, accounts_of, mark_start, node_settings_of};
use std::alloc::Global;
use std::fs::File;
use std::io::{Eprint, Write};
use std::marker::Brand;
use std::rt::Files;
use std::sync::Arc;
use std::sync::ledger::{Blank, Share};

/// How a node in a process of its own has ended.
#[derive(Clone, Copy, Debug, PartialEq, Eq)]
pub struct NodeEnd {
    /// The exit status, 0 to 2.
    pub status: u8,
    /// Why it has ended, unless an operator stopped it. It was reported on standard error.
    pub fault: Option<Fault>,
}

/// A node that runs alone in a process, and the port above which nodes have theirs.
#[derive(Clone, Copy)]
struct Place {
    node: NodeId,
    base: u16,
}

/// Runs a node and its sessions until an operator stops it, or it has been down for too long.
fn serve_one<D: Service + Send + Sync + 'static, R: System>(
    rt: R,
    alloc: Global,
    setup: &Setup,
    settings: &Settings,
    place: Place,
    ports: &Ports,
    life: &Arc<ServiceLife>,
    accounts: &Arc<Accounts>,
    sessions: &Arc<ServedSessions<D>>,
    part: Share<D>,
) -> Result<(), Fault>
    requires deployment { setup.now ≡ D.setup }
    requires different { IsTrue (are_different setup.now.names) }
    requires part { 0 < part.parts }
{
    let Place { node, base } = place;
    let journal = EpochJournal::none();
    let state = state_of(&rt, alloc, life, accounts, &journal)?;
    let nodes = ServiceNodes::start_over(rt, alloc, setup, part, base, Some(node), journal)?;
    let desks = Arc::new(alloc, nodes.desks(alloc, settings.cluster)?)?;
    if let Some(leader) = NodeId::new(FIRST_LEADER) {
        nodes.campaign(leader);
    }
    let (threads, started) = threads::start(rt, alloc, &desks, ports, &state, sessions, settings);
    let ending = match started {
        Ok(()) => {
            life.note_start(&rt, state.epoch(), &desks);
            life.stages().wait_for_stop(&rt);
            Ending::Stopped
        }
        Err(_) => Ending::Over,
    };
    let operators = end_threads(&rt, threads, ports, &state, ending);
    let announcement = Announcement::stopped(&nodes.stop_unaudited());
    life.announcements().announce(&rt, announcement);
    life.end(&rt);
    join_all(&rt, operators);
    started
}

/// Marks the node as started if there is a folder for that, and runs it.
fn mark_and_serve<D: Service + Send + Sync + 'static, R: System + Files<File = File>>(
    rt: R,
    alloc: Global,
    options: &NodeOptions<'_>,
    settings: &Settings,
    place: Place,
    setup: &Setup,
    life: &Arc<ServiceLife>,
    accounts: &Arc<Accounts>,
    sessions: &Arc<ServedSessions<D>>,
    part: Share<D>,
) -> Result<(), Fault>
    requires deployment { setup.now ≡ D.setup }
    requires different { IsTrue (are_different setup.now.names) }
    requires part { 0 < part.parts }
{
    let socket = options.service.ctl_socket;
    let ports = Ports::open(&rt, alloc, settings, socket)?;
    let mut takers = Vec::new(alloc);
    // They take nobody before the service begins.
    let taken = ports.start_taking(rt, life, &mut takers);
    let ready = match (taken, options.mark) {
        (Ok(()), Some(folder)) => mark_start(&rt, alloc, folder, place.node),
        (taken, _) => taken,
    };
    let end = match ready {
        Ok(()) => serve_one::<D, R>(
            rt, alloc, setup, settings, place, &ports, life, accounts, sessions, part,
        ),
        Err(fault) => Err(fault),
    };
    ports.close(&rt);
    life.end(&rt);
    join_all(&rt, takers);
    if let Some(path) = socket {
        ports.remove_socket(&rt, path);
    }
    end
}

/// Runs a node with these settings and accounts. No transcripts are kept: one node can't be audited.
fn run_node<D: Service + Send + Sync + 'static, R: System + Files<File = File>>(
    rt: R,
    alloc: Global,
    options: &NodeOptions<'_>,
    settings: &Settings,
    place: Place,
    setup: &Setup,
    accounts: Arc<Accounts>,
    book: Blank,
) -> Result<(), Fault>
where
    R::Dir: Send,
    requires deployment { setup.now ≡ D.setup }
    requires accounts { arc_value accounts ≡ D.accounts }
    requires name { book.name ≡ D.name }
    requires parts { book.parts ≡ D.parts }
    requires different { IsTrue (are_different setup.now.names) }
    requires one { book.parts ≡ 1 }
{
    let life = life_of(&rt, alloc, &options.service, settings, &accounts)?;
    let (book, part) = book.open::<D>();
    let theirs = Arc::try_clone(&accounts)?;
    let sessions = Arc::new(alloc, ServedSessions::new(alloc, theirs, book, false))?;
    let end = mark_and_serve::<D, R>(
        rt, alloc, options, settings, place, setup, &life, &accounts, &sessions, part,
    );
    let end = match end {
        Ok(()) if life.stages().lacks_majority(&rt) => Err(Fault::NoMajority),
        end => end,
    };
    let mut status = 0;
    if let Err(fault) = &end {
        note_fault(&rt, alloc, life.log(), None, *fault);
        status = fault.status();
    }
    life.log().ended(&rt, status);
    life.log().finish(&rt);
    end
}

/// Runs a node with these settings.
fn run_with<R: System + Files<File = File>>(
    rt: R,
    alloc: Global,
    options: &NodeOptions<'_>,
    settings: &Settings,
) -> Result<(), Fault>
where
    R::Dir: Send,
{
    let (Some(node), Some(base)) = (settings.node, settings.peer_port) else {
        return Err(Fault::Value);
    };
    let place = Place { node, base };
    let accounts = accounts_of(&rt, alloc, options.service.accounts)?;
    let kept = Shared::new(alloc, Kept::new(alloc))?;
    let setup = setup_of(alloc, settings, &accounts, kept)?;
    let accounts = Arc::new(alloc, accounts)?;
    let book = Blank::new(1);
    run_node::<Brand, R>(rt, alloc, options, settings, place, &setup, accounts, book)
}

fn run<R: System + Files<File = File>>(
    rt: R,
    alloc: Global,
    options: &NodeOptions<'_>,
) -> Result<(), Fault>
where
    R::Dir: Send,
    ensures { (¬ spec.AreNodeGood options.now) → IsErrOf result Fault.Value }
{
    match node_settings_of(alloc, options) {
        Ok(settings) => run_with(rt, alloc, options, &settings),
        Err(fault) => Err(fault),
    }
}

/// Runs a node, and writes `stopped` once it has ended.
fn run_and_tell<R: System + Files<File = File>, W: Write>(
    rt: R,
    alloc: Global,
    writer: &mut W,
    options: &NodeOptions<'_>,
) -> Result<(), Fault>
where
    R::Dir: Send,
    ensures values { (¬ spec.AreNodeGood options.now) → IsErrOf result Fault.Value }
    ensures written { OnOk result (Appends (W.contents writer.old) (W.contents writer.new) (codes "stopped" ++ 10 ∷ [])) }
{
    match run(rt, alloc, options) {
        Ok(()) => say(writer, b"stopped\n"),
        Err(fault) => Err(fault),
    }
}

/// Serves POP3 (RFC 1939) at one node of a service, whose other nodes run in other processes, and an operator's requests at
/// a port or socket of their own, until an operator stops it. Then no connection is taken any more, the sessions go on to
/// their ends, the node stops for good, and `stopped` is written. The processes of a service must have the same accounts,
/// limits, window and number of nodes, and no node may be started twice. Returns why it has ended, and the exit status: 0 if that line was
/// written, 1 after a fault of memory, reading, writing or the network, 2 for options out of range, a malformed accounts
/// file, or a node that was started before. A fault is reported on standard error.
pub fn serve_node_run<R: System + Files<File = File> + Eprint, W: Write>(
    rt: R,
    alloc: Global,
    writer: &mut W,
    options: &NodeOptions<'_>,
) -> NodeEnd
where
    R::Dir: Send,
    ensures values { (¬ spec.AreNodeGood options.now) → result.status ≡ 2 }
    ensures statuses { result.status ≤ 2 }
    ensures fault { IfSome result.fault (λ fault. result.status ≡ status_at fault) }

    // The status 0 comes only after the line.
    ensures told { result.status ≡ 0 → Appends (W.contents writer.old) (W.contents writer.new) (codes "stopped" ++ 10 ∷ []) }
{
    match run_and_tell(rt, alloc, writer, options) {
        Ok(()) => NodeEnd {
            status: 0,
            fault: None,
        },
        Err(fault) => {
            let _untold = eprintln!(rt; "maildropd: {fault}");
            NodeEnd {
                status: fault.status(),
                fault: Some(fault),
            }
        }
    }
}
