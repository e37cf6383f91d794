//! The program `maildropd`: `serve`, and which command is run.
#![tactic(auto)]

mod dry_run;
mod serve;
mod serve_faults;
mod serve_mistakes;
mod serve_options;

use crate::serve::run_serve;
use crate::serve_options::{OPTIONS, serve, serve_in_part};
use clap::error::ErrorKind;
use clap::{Command, Error};
use command_line::{
    Config, begin_command, check_command, config_of, ctl_command, export_command, lone_command,
    mend_command, option_by_environment, run_begin, run_check, run_ctl, run_export, run_lone,
    run_mend, run_sim, sim_command, status_without_memory, words_of_serve,
};
use service::VERSION;
use std::alloc::Global;
use std::env::Env;
use std::fs::File;
use std::io;
use std::net::{Net, TcpListener, TcpStream};
use std::process::ExitCode;
use std::random::RandomSource;
use std::rt::Files;
use std::sync::Wait;
use std::thread::Threads;
use std::time::Clock;

fn command<'a>(alloc: Global) -> Result<Command<'a>, Error> {
    let maildropd = Command::new(alloc, "maildropd")
        .about("A POP3 server (RFC 1939), each function of which is proved to meet its contract")
        .version(VERSION)
        .subcommand_required(true)
        .subcommand(lone_command(alloc)?)?
        .subcommand(sim_command(alloc)?)?
        .subcommand(serve(alloc)?)?
        .subcommand(ctl_command(alloc)?)?
        .subcommand(begin_command(alloc)?)?
        .subcommand(check_command(alloc)?)?
        .subcommand(export_command(alloc)?)?
        .subcommand(mend_command(alloc)?)?;
    Ok(maildropd)
}

fn run<
    R: Net<Listener = TcpListener, Stream = TcpStream>
        + Threads
        + Wait
        + Clock
        + RandomSource
        + Copy
        + Send
        + Sync
        + 'static
        + AllocGlobal
        + Files<File = File>
        + Input
        + Print
        + Eprint
        + Env,
>(rt: &R, words: &[String]) -> Result<u8, Error>
where
    R::Dir: Send,
{
    let alloc = rt.alloc();
    let place = option_by_environment(rt, words)?;
    let config = match words_of_serve(words) {
        None => Ok(Config::none(alloc)),
        Some(words) => config_of(rt, serve_in_part(alloc)?, words, OPTIONS),
    };
    let config = match config {
        Ok(config) => config,
        Err(fault) => return Ok(fault.report(rt)),
    };
    let words = config.joined(alloc, words, &place)?;
    let matches = command(alloc)?.try_get_matches_from(words.as_slice())?;
    match matches.subcommand() {
        Some(("lone", inner)) => Ok(run_lone(rt, inner)),
        Some(("sim", _)) => Ok(run_sim(rt)),
        Some(("serve", inner)) => Ok(run_serve(rt, inner, &config)),
        Some(("ctl", inner)) => Ok(run_ctl(rt, inner)),
        Some(("begin", inner)) => Ok(run_begin(rt, inner)),
        Some(("check", inner)) => Ok(run_check(rt, inner)),
        Some(("export", inner)) => Ok(run_export(rt, inner)),
        Some(("mend", inner)) => Ok(run_mend(rt, inner)),
        _ => Ok(2),
    }
}

/// Reports why nothing was run, and returns the exit status: 0 after a help text; if out of memory 75 if a message was to be put,
/// and 1 otherwise; else 2.
fn refused<R: Print + Eprint + Env>(rt: &R, error: &Error) -> u8 {
    match error.kind() {
        ErrorKind::OutOfMemory => {
            let _ = eprintln!(rt; "maildropd: no memory");
            status_without_memory(rt)
        }
        ErrorKind::DisplayHelp | ErrorKind::DisplayVersion => {
            let _ = error.print(rt);
            0
        }
        _ => {
            let _ = error.print(rt);
            2
        }
    }
}

/// The words of the command line.
fn words_of(rt: &HostRuntime) -> io::Result<Vec<String>> {
    let words = std::env::args(rt)?.collect::<Vec<String>>(rt.alloc())?;
    Ok(words)
}

/// Reports why the words can't be read, and returns the exit status: if out of memory 75 if a message was to be put, and 1
/// otherwise; else 2.
fn unreadable<R: Eprint + Env>(rt: &R, error: &io::Error) -> u8 {
    if error.kind() == io::ErrorKind::OutOfMemory {
        let _ = eprintln!(rt; "maildropd: no memory");
        status_without_memory(rt)
    } else {
        let _ = eprintln!(rt; "maildropd: a word of the command line is not UTF-8");
        2
    }
}

fn main(rt: HostRuntime) -> ExitCode {
    let status = match words_of(&rt) {
        Ok(words) => run(&rt, words.as_slice()).unwrap_or_else(|error| refused(&rt, &error)),
        Err(error) => unreadable(&rt, &error),
    };
    ExitCode::from(status)
}
