//! `serve --check`: what a start would take and find. Nothing is made or changed.

use crate::serve_faults::mistake_behind;
use crate::serve_mistakes::mistake_in_options;
use crate::serve_options::OPTIONS;
use clap::ArgMatches;
use clap::parser::ValueSource;
use command_line::{
    Choice, Config, Mistake, Presence, Unread, accounts_in, hint, mistake_in_reading,
    optional_number_of, optional_text_of, text_of,
};
use ports::{Fault, say};
use service::{ServeOptions, fault_of_store};
use std::fs::File;
use std::rt::Files;
use std::{fs, io};
use store::read_newest;

/// What an option is if it isn't given, but for a default that clap knows.
fn default_of(matches: &ArgMatches<'_>, presence: Presence) -> Option<&'static str> {
    match presence {
        Presence::DefaultWithData(value) if matches.contains_id("data") => Some(value),
        _ => None,
    }
}

/// The value of an option, if it has one.
fn value_of<'a>(matches: &ArgMatches<'a>, choice: &Choice) -> Option<&'a str> {
    match matches.get_str(choice.name) {
        Some(value) => Some(value),
        None => default_of(matches, choice.presence),
    }
}

/// Prints an option with its value and where that came from, if it has one.
fn print_setting<R: AllocGlobal + Print>(
    rt: &R,
    matches: &ArgMatches<'_>,
    config: &Config<'_>,
    choice: &Choice,
) -> Result<(), Fault> {
    let Some(value) = value_of(matches, choice) else {
        return Ok(());
    };
    let (alloc, name, path) = (rt.alloc(), choice.name, config.path());
    let line = match (matches.value_source(name), config.line_of(name)) {
        (Some(ValueSource::CommandLine), Some(line)) => {
            format!(in alloc; "{name} {value}, {path}:{line}\n")?
        }
        (Some(ValueSource::CommandLine), None) => {
            format!(in alloc; "{name} {value}, command line\n")?
        }
        _ => format!(in alloc; "{name} {value}, default\n")?,
    };
    say(&mut io::writer(rt), line.as_bytes())
}

/// `StartedBefore` if the options name a mark of the node that is there, `Mark` if its folder isn't.
fn look_at_mark<R: AllocGlobal + Files<File = File>>(
    rt: &R,
    matches: &ArgMatches<'_>,
) -> Result<(), Fault> {
    let node = optional_number_of(matches, "node");
    let (Some(node), Some(folder)) = (node, optional_text_of(matches, "mark")) else {
        return Ok(());
    };
    let Ok(node) = u8::try_from(node) else {
        return Err(Fault::Value);
    };
    let path = format!(in rt.alloc(); "{folder}/{node}")?;
    if fs::metadata(rt, path.as_str()).is_ok() {
        return Err(Fault::StartedBefore(node));
    }
    match fs::metadata(rt, folder) {
        Ok(_) => Ok(()),
        Err(_) => Err(Fault::Mark),
    }
}

/// Reads the newest segment of the data folder, if the options name one.
fn look_at_data<R: AllocGlobal + Files<File = File> + Copy>(
    rt: &R,
    data: Option<&str>,
) -> Result<(), Fault> {
    let Some(path) = data else {
        return Ok(());
    };
    match read_newest(rt, rt.alloc(), path) {
        Ok(_) => Ok(()),
        Err(fault) => Err(fault_of_store(fault)),
    }
}

/// Looks at all that a start looks at before it takes a port.
fn look<R: AllocGlobal + Files<File = File> + Copy + Print>(
    rt: &R,
    matches: &ArgMatches<'_>,
    config: &Config<'_>,
    options: Option<ServeOptions<'_>>,
) -> Result<(), Fault> {
    for choice in OPTIONS {
        print_setting(rt, matches, config, choice)?;
    }
    let Some(options) = options else {
        return Err(Fault::Value);
    };
    if mistake_in_options(matches).is_some() {
        return Err(Fault::Value);
    }
    let _accounts = accounts_in(rt, options.accounts)?;
    look_at_mark(rt, matches)?;
    look_at_data(rt, options.data)
}

/// Which mistake led to a fault, if that is known.
fn mistake_of<'a, R: AllocGlobal + Files + Copy>(
    rt: &R,
    matches: &ArgMatches<'a>,
    fault: Fault,
) -> Option<Mistake<'a>> {
    match fault {
        Fault::Read => {
            let path = text_of(matches, "accounts");
            match Unread::look(rt, path) {
                Some(cause) => Some(Mistake::CannotRead(path, cause)),
                None => mistake_in_reading(rt, optional_text_of(matches, "data")?),
            }
        }
        _ => mistake_behind(rt, matches, fault),
    }
}

/// Reports the fault that a start would have. Returns the status.
fn refuse<R: Eprint>(rt: &R, data: Option<&str>, fault: Fault) -> u8 {
    match data {
        Some(path) if fault.is_of_folder() => {
            let _untold = eprintln!(rt; "maildropd: {path}{fault}");
        }
        _ => {
            let _untold = eprintln!(rt; "maildropd: {fault}");
        }
    }
    fault.status()
}

/// Prints the settings, and looks for faults as a start would. The options are none if a start would refuse a word. Returns the
/// status.
pub(crate) fn run_dry<R: AllocGlobal + Files<File = File> + Copy + Print + Eprint>(
    rt: &R,
    matches: &ArgMatches<'_>,
    config: &Config<'_>,
    options: Option<ServeOptions<'_>>,
) -> u8 {
    match look(rt, matches, config, options) {
        Ok(()) => 0,
        Err(fault) => {
            let status = refuse(rt, optional_text_of(matches, "data"), fault);
            hint(rt, mistake_of(rt, matches, fault));
            status
        }
    }
}
