//! `maildropd serve`.

use crate::dry_run::run_dry;
use crate::serve_faults::mistake_behind;
use crate::serve_options::{on_fault_of, sync_of};
use clap::ArgMatches;
use command_line::{
    Config, Mistake, Unread, bytes_of, hint, mistake_in_reading, number_of, optional_number_of,
    optional_text_of, refuse, text_of,
};
use ports::Fault;
use service::{NodeOptions, ServeOptions, serve_node_run, serve_run};
use std::fs::File;
use std::io;
use std::net::{IpAddr, Net, TcpListener, TcpStream};
use std::random::RandomSource;
use std::rt::Files;
use std::sync::Wait;
use std::thread::Threads;
use std::time::Clock;
use store::SyncMode;

/// How many segments stay in a data folder by default.
const KEPT_SEGMENTS: u64 = 2;

/// How a data folder is used: when a change is answered, and how many segments stay. Nothing if a word is none, or is given
/// without a folder: whoever forgets the folder would lose the mail.
fn folder_use_of(matches: &ArgMatches<'_>) -> Option<(SyncMode, u64)> {
    let sync = optional_text_of(matches, "sync");
    let keep = optional_number_of(matches, "keep");
    if optional_text_of(matches, "data").is_none() && (sync.is_some() || keep.is_some()) {
        return None;
    }
    let sync = match sync {
        Some(word) => sync_of(word)?,
        None => SyncMode::Disk,
    };
    Some((sync, keep.unwrap_or(KEPT_SEGMENTS)))
}

/// What the options say, or nothing if the address or a word is none.
fn options_of<'a>(matches: &ArgMatches<'a>) -> Option<ServeOptions<'a>> {
    let listen = text_of(matches, "listen").parse::<IpAddr>().ok()?;
    let on_fault = on_fault_of(text_of(matches, "on-fault"))?;
    let (sync, keep) = folder_use_of(matches)?;
    Some(ServeOptions {
        accounts: text_of(matches, "accounts"),
        port: optional_number_of(matches, "port"),
        pop_port: optional_number_of(matches, "pop-port"),
        listen,
        ctl_port: optional_number_of(matches, "ctl-port"),
        ctl_socket: optional_text_of(matches, "ctl-socket"),
        peer_port: optional_number_of(matches, "peer-port"),
        nodes: number_of(matches, "nodes"),
        window: number_of(matches, "window"),
        messages: number_of(matches, "messages"),
        octets: number_of(matches, "octets"),
        ids: number_of(matches, "ids"),
        host: bytes_of(matches, "host"),
        tick_ms: number_of(matches, "tick-ms"),
        idle_seconds: number_of(matches, "idle-seconds"),
        no_majority_seconds: number_of(matches, "no-majority-seconds"),
        delivery_bytes: number_of(matches, "delivery-bytes"),
        epoch_sessions: number_of(matches, "epoch-sessions"),
        epoch_bytes: number_of(matches, "epoch-bytes"),
        keys: number_of(matches, "keys"),
        on_fault,
        log: optional_text_of(matches, "log"),
        data: optional_text_of(matches, "data"),
        sync,
        keep,
    })
}

/// How a service or a node has ended: its status, and the fault that led to it, if one did.
#[derive(Clone, Copy)]
struct Ended {
    status: u8,
    fault: Option<Fault>,
}

/// Reports that an option is out of its range.
fn refused<R: Eprint>(rt: &R) -> Ended {
    Ended {
        status: refuse(rt, Fault::Value),
        fault: Some(Fault::Value),
    }
}

/// Runs the service that the options describe, to its end.
fn serve_options<
    R: Net<Listener = TcpListener, Stream = TcpStream>
        + Threads
        + Wait
        + Clock
        + RandomSource
        + Copy
        + Send
        + Sync
        + 'static
        + AllocGlobal
        + Files<File = File>
        + Print
        + Eprint,
>(rt: &R, matches: &ArgMatches<'_>) -> Ended
where
    R::Dir: Send,
{
    let Some(service) = options_of(matches) else {
        return refused(rt);
    };
    let mark = optional_text_of(matches, "mark");
    match optional_number_of(matches, "node") {
        Some(node) => {
            let options = NodeOptions {
                service,
                node,
                mark,
            };
            let end = serve_node_run(*rt, rt.alloc(), &mut io::writer(rt), &options);
            Ended {
                status: end.status,
                fault: end.fault,
            }
        }
        None if mark.is_some() => refused(rt),
        None => {
            let end = serve_run(*rt, rt.alloc(), &mut io::writer(rt), &service);
            Ended {
                status: end.status,
                fault: end.fault,
            }
        }
    }
}

/// Which mistake led to this end of a service, if that is known: by what its accounts file was like before it was started, if that
/// couldn't be read then.
fn mistake_after<'a, R: AllocGlobal + Files + Copy>(
    rt: &R,
    matches: &ArgMatches<'a>,
    ended: Ended,
    unread: Option<Unread>,
) -> Option<Mistake<'a>> {
    let fault = ended.fault?;
    if fault != Fault::Read {
        return mistake_behind(rt, matches, fault);
    }
    let path = text_of(matches, "accounts");
    // It may have come and gone meanwhile.
    match (unread, Unread::look(rt, path)) {
        (Some(before), Some(now)) if before == now => Some(Mistake::CannotRead(path, now)),
        (None, None) => mistake_in_reading(rt, optional_text_of(matches, "data")?),
        _ => None,
    }
}

/// Runs `serve`. Returns the exit status.
pub(crate) fn run_serve<
    R: Net<Listener = TcpListener, Stream = TcpStream>
        + Threads
        + Wait
        + Clock
        + RandomSource
        + Copy
        + Send
        + Sync
        + 'static
        + AllocGlobal
        + Files<File = File>
        + Print
        + Eprint,
>(rt: &R, matches: &ArgMatches<'_>, config: &Config<'_>) -> u8
where
    R::Dir: Send,
{
    if matches.get_flag("check") {
        return run_dry(rt, matches, config, options_of(matches));
    }
    let unread = Unread::look(rt, text_of(matches, "accounts"));
    let ended = serve_options(rt, matches);
    hint(rt, mistake_after(rt, matches, ended, unread));
    ended.status
}
