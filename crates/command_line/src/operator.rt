//! `maildropd ctl`.

use crate::arguments::{optional_number_of, optional_text_of};
use crate::ctl_place::{await_listener, place_of};
use crate::greeting_writer::GreetingWriter;
use crate::mistake::{Mistake, hint};
use crate::noting_runtime::NotingRuntime;
use crate::range::{Bound, LAST_PORT};
use crate::requests::{REQUESTS, mistake_in_words};
use clap::{Arg, ArgAction, ArgMatches, Command, Error, value_parser};
use ctl::{CtlOptions, ctl_run};
use std::alloc::Global;
use std::io;
use std::net::{Net, TcpListener, TcpStream};
use std::rt::Files;
use std::time::Clock;

/// The status after a fault of the system or the network.
const FAILED: u8 = 1;

/// The statuses after words or options that are none: of `put`, and of any other request.
const BAD_PUT: u8 = 64;

const BAD_VALUE: u8 = 2;

/// The options that name the service: a port or a socket.
fn places<'a>(alloc: Global) -> Result<(Arg<'a>, Arg<'a>), Error> {
    let port = Arg::new(alloc, "port")
        .long("port")
        .value_name("PORT")
        .help("The port of 127.0.0.1 at which the service takes operators' requests")
        .value_parser(value_parser!(u64))
        .action(ArgAction::Set)
        .required_unless_present("socket")?
        .conflicts_with("socket")?;
    let socket = Arg::new(alloc, "socket")
        .long("socket")
        .value_name("PATH")
        .help("The Unix socket at which it takes them, in place of a port")
        .allow_hyphen_values(true)
        .action(ArgAction::Set);
    Ok((port, socket))
}

/// The command `ctl` of the command line.
pub fn ctl_command<'a>(alloc: Global) -> Result<Command<'a>, Error> {
    let words = Arg::new(alloc, "words")
        .value_name("REQUEST")
        .help("The request, as below")
        .required(true)
        .num_args(1..)
        // After the first word nothing is an option: a user's name, a file or a key may begin with a hyphen.
        .trailing_var_arg(true)
        .allow_hyphen_values(true)
        .action(ArgAction::Append);
    let wait = Arg::new(alloc, "wait")
        .long("wait")
        .help(
            "Waits for the verdict after `stop` or `stop now`, and prints it. Before `status` it waits until the service takes requests, for a minute at most",
        )
        .action(ArgAction::SetTrue);
    let (port, socket) = places(alloc)?;
    let ctl = Command::new(alloc, "ctl")
        .about("Makes an operator's request to a service on this machine, and prints the answer")
        .after_help(REQUESTS);
    Ok(ctl.arg(port)?.arg(socket)?.arg(wait)?.arg(words)?)
}

/// Whether a request is `status`.
fn is_status(words: &[&str]) -> bool {
    match words {
        [word] => *word == "status",
        _ => false,
    }
}

/// Whether a request is `stop` or `stop now`.
fn is_stop(words: &[&str]) -> bool {
    match words {
        [word] => *word == "stop",
        [word, second] => *word == "stop" && *second == "now",
        _ => false,
    }
}

/// What is wrong with the words of a request, if that is known.
fn mistake_in<'a>(alloc: Global, words: &[&'a str], waits: bool) -> Option<Mistake<'a>> {
    let mistake = mistake_in_words(alloc, words);
    if mistake.is_none() && waits && !is_stop(words) {
        return Some(Mistake::NotWaitedFor);
    }
    mistake
}

/// The path of the file that a request has delivered.
fn file_of<'a>(words: &[&'a str]) -> Option<&'a str> {
    match words {
        [_, _, _, file, ..] => Some(*file),
        _ => None,
    }
}

/// Why a request failed, if that is known, by what it was refused, or by who answered at this port.
fn mistake_seen<'a, R>(
    noted: &NotingRuntime<'_, R>,
    port: Option<u64>,
    file: Option<&'a str>,
    is_greeted: bool,
) -> Option<Mistake<'a>> {
    if noted.lacks_listener() {
        return Some(match port {
            Some(_) => Mistake::NobodyAtPort,
            None => Mistake::NobodyAtSocket,
        });
    }
    if let Some(cause) = noted.unread() {
        return Some(Mistake::CannotRead(file?, cause));
    }
    match port {
        Some(port) if is_greeted => Some(Mistake::PopPort(port)),
        _ => None,
    }
}

/// What is wrong with the options or the words of a request, if that is known.
fn mistake_asked<'a>(alloc: Global, matches: &ArgMatches<'a>, waits: bool) -> Option<Mistake<'a>> {
    let port = optional_number_of(matches, "port");
    if place_of(port, optional_text_of(matches, "socket")).is_none() {
        return Some(Mistake::OutOfRange("port", 1, Bound(LAST_PORT)));
    }
    mistake_in(alloc, matches.get_strs("words").unwrap_or(&[]), waits)
}

/// Waits until the service listens, if that is asked for before `status`. Returns whether a verdict is to be waited for.
fn waits_for_verdict<R: Net<Listener = TcpListener, Stream = TcpStream> + Clock>(
    rt: &R,
    matches: &ArgMatches<'_>,
) -> bool {
    let waits = matches.get_flag("wait");
    if !waits || !is_status(matches.get_strs("words").unwrap_or(&[])) {
        return waits;
    }
    let port = optional_number_of(matches, "port");
    if let Some(place) = place_of(port, optional_text_of(matches, "socket")) {
        await_listener(rt, &place);
    }
    false
}

/// Runs `ctl`. Returns the exit status.
pub fn run_ctl<
    R: Net<Listener = TcpListener, Stream = TcpStream>
        + Clock
        + AllocGlobal
        + Files
        + Input
        + Print
        + Eprint,
>(rt: &R, matches: &ArgMatches<'_>) -> u8 {
    let waits = waits_for_verdict(rt, matches);
    let options = CtlOptions {
        port: optional_number_of(matches, "port"),
        socket: optional_text_of(matches, "socket"),
        waits,
        words: matches.get_strs("words").unwrap_or(&[]),
    };
    let noted = NotingRuntime::new(rt);
    let mut writer = GreetingWriter::new(io::writer(rt));
    let alloc = rt.alloc();
    let status = ctl_run(&noted, alloc, &mut rt.reader(), &mut writer, &options);
    match status {
        FAILED => {
            let port = optional_number_of(matches, "port");
            let file = file_of(matches.get_strs("words").unwrap_or(&[]));
            hint(rt, mistake_seen(&noted, port, file, writer.is_greeted()));
        }
        BAD_VALUE | BAD_PUT => hint(rt, mistake_asked(alloc, matches, waits)),
        _ => {}
    }
    status
}
