//! `maildropd begin`, `check` and `export`: what is done with a data folder beside `serve`.

use crate::arguments::{Choice, Kind, Presence, text_of, with_options};
use crate::mistake::{Mistake, hint};
use crate::unread::Unread;
use clap::{Arg, ArgAction, ArgMatches, Command, Error};
use maildrop::{Kept, Message, Name};
use mboxrd::write;
use mend::{is_of_files, read_damaged};
use ports::{Fault, say};
use records::Ending;
use std::alloc::Global;
use std::fs::File;
use std::io::ErrorKind;
use std::path::Path;
use std::random::RandomSource;
use std::rt::Files;
use std::{fs, io};
use store::{DataFolder, Found, Report, StoreFault, check, read_newest};

/// The line that begins each exported message.
const FROM_LINE: &[u8] = b"From maildropd Thu Jan  1 00:00:00 1970";

/// What the name of a segment's file ends with.
const SEGMENT_END: &str = ".log";

/// The status after any fault of a folder.
const FAILED: u8 = 1;

/// The unique id of a user's first message.
const FIRST_UID: u64 = 1;

/// The option of all three.
const OPTIONS: &[Choice] = &[Choice {
    name: "data",
    value: "FOLDER",
    kind: Kind::Text,
    presence: Presence::Required,
    help: "The data folder",
}];

/// The command `begin` of the command line.
pub fn begin_command<'a>(alloc: Global) -> Result<Command<'a>, Error> {
    let begin = Command::new(alloc, "begin").about(
        "Makes a data folder without mail, for `serve --data`. Refuses a folder that is not empty",
    );
    with_options(alloc, begin, OPTIONS)
}

/// The command `check` of the command line.
pub fn check_command<'a>(alloc: Global) -> Result<Command<'a>, Error> {
    let check = Command::new(alloc, "check").about(
        "Reads all segments of a data folder, and prints a line for each. The status is 1 if one is damaged",
    );
    with_options(alloc, check, OPTIONS)
}

/// The command `export` of the command line.
pub fn export_command<'a>(alloc: Global) -> Result<Command<'a>, Error> {
    let name = Arg::new(alloc, "name")
        .value_name("NAME")
        .help("The user")
        .required(true)
        .allow_hyphen_values(true)
        .action(ArgAction::Set);
    let export = Command::new(alloc, "export").about(
        "Writes the mail that a data folder has of a user, as a mailbox file (mboxrd). The status is 1 if the user never had mail, or if the folder is damaged: then it writes what can be read",
    );
    Ok(with_options(alloc, export, OPTIONS)?.arg(name)?)
}

/// Reports a fault. Returns the status.
pub fn refuse<R: Eprint>(rt: &R, fault: Fault) -> u8 {
    let _untold = eprintln!(rt; "maildropd: {fault}");
    fault.status()
}

/// Whether nothing has this path.
fn is_absent<R: Files>(rt: &R, path: &str) -> bool {
    match fs::metadata(rt, path) {
        Ok(_) => false,
        Err(error) => error.kind() == ErrorKind::NotFound,
    }
}

/// Whether the folder of this path has nothing in it.
fn is_empty<R: AllocGlobal + Files + Copy>(rt: &R, path: &str) -> bool {
    match fs::read_dir(rt, path) {
        Ok(mut entries) => entries.next().is_none(),
        Err(_) => false,
    }
}

/// Why there is no mail in this folder, if it isn't there, or is empty.
pub fn mistake_in_folder<'a, R: AllocGlobal + Files + Copy>(
    rt: &R,
    path: &'a str,
) -> Option<Mistake<'a>> {
    if is_absent(rt, path) || is_empty(rt, path) {
        Some(Mistake::NotBegun(path))
    } else {
        None
    }
}

/// The number of the segment whose file has this name, if it is one.
fn segment_of(name: &str) -> Option<u64> {
    name.strip_suffix(SEGMENT_END)?.parse::<u64>().ok()
}

/// The number of the newest segment in the folder of this path, by its name. Nothing if there is none, or the folder can't be read.
fn newest_in<R: AllocGlobal + Files + Copy>(rt: &R, path: &str) -> Option<u64> {
    let mut newest = 0;
    for entry in fs::read_dir(rt, path).ok()? {
        let entry = entry.ok()?;
        if let Some(number) = segment_of(entry.file_name()) {
            newest = newest.max(number);
        }
    }
    (newest > 0).then_some(newest)
}

/// Why the data folder of this path, or its newest segment, can't be read, if that is known.
pub fn mistake_in_reading<'a, R: AllocGlobal + Files + Copy>(
    rt: &R,
    path: &'a str,
) -> Option<Mistake<'a>> {
    if let Err(error) = fs::read_dir(rt, path) {
        return Some(Mistake::CannotRead(path, Unread::of(&error)?));
    }
    let number = newest_in(rt, path)?;
    let file = format!(in rt.alloc(); "{path}/{number:08}{SEGMENT_END}").ok()?;
    let cause = Unread::look(rt, file.as_str())?;
    Some(Mistake::CannotReadSegment(path, number, cause))
}

/// Which mistake led to a fault of a data folder, if that is known.
fn mistake_in<'a, R: AllocGlobal + Files + Copy>(
    rt: &R,
    path: &'a str,
    fault: StoreFault,
) -> Option<Mistake<'a>> {
    match fault {
        StoreFault::NotBegun => mistake_in_folder(rt, path),
        StoreFault::NotEmpty => Some(Mistake::NotEmpty),
        StoreFault::Write => {
            let parent = Path::new(path).parent()?.as_str();
            if !parent.is_empty() && is_absent(rt, parent) {
                Some(Mistake::NoParent(parent))
            } else {
                None
            }
        }
        _ => None,
    }
}

/// Reports why a folder can't be used, and which mistake led to that, if it is known. Returns the status.
pub(crate) fn refuse_folder<R: AllocGlobal + Files + Copy + Eprint>(
    rt: &R,
    path: &str,
    fault: StoreFault,
) -> u8 {
    let _untold = eprintln!(rt; "maildropd: {path}{fault}");
    hint(rt, mistake_in(rt, path, fault));
    FAILED
}

/// Runs `begin`. Returns the exit status.
pub fn run_begin<R: AllocGlobal + Files<File = File> + RandomSource + Copy + Eprint>(
    rt: &R,
    matches: &ArgMatches<'_>,
) -> u8 {
    let path = text_of(matches, "data");
    let mut salt = [0u8; 8];
    if rt.fill_bytes(&mut salt).is_err() {
        return refuse(rt, Fault::Read);
    }
    match DataFolder::begin(rt, rt.alloc(), path, u64::from_be_bytes(salt)) {
        Ok(()) => 0,
        Err(fault) => refuse_folder(rt, path, fault),
    }
}

/// Prints what was found in a segment that was read.
fn print_segment<R: AllocGlobal + Print>(rt: &R, report: &Report) -> Result<(), Fault> {
    let number = report.number;
    let Found::Whole {
        messages,
        octets,
        changes,
        ending,
        ..
    } = report.found
    else {
        return Ok(());
    };
    let end = match ending {
        Ending::Clean(_) => "whole",
        _ => "cut",
    };
    let line = format!(in rt.alloc();
        "segment {number} messages {messages} octets {octets} changes {changes} {end}\n"
    );
    match line {
        Ok(line) => say(&mut io::writer(rt), line.as_bytes()),
        Err(_) => Err(Fault::Memory),
    }
}

/// Reports what a start drops of the newest segment, if it drops anything.
fn tell_dropped<R: Eprint>(rt: &R, path: &str, report: &Report) {
    let segment = report.number;
    if let Found::Whole {
        dropped: Some(dropped),
        ..
    } = report.found
    {
        let (at, bytes) = (dropped.at, dropped.bytes);
        let _untold = eprintln!(rt;
            "maildropd: {path}/{segment:08}.log: a start drops {bytes} bytes from byte {at} on"
        );
    }
}

/// Runs `check`. Returns the exit status.
pub fn run_check<R: AllocGlobal + Files<File = File> + Copy + Print + Eprint>(
    rt: &R,
    matches: &ArgMatches<'_>,
) -> u8 {
    let path = text_of(matches, "data");
    let reports = match check(rt, rt.alloc(), path) {
        Ok(reports) => reports,
        Err(fault) => return refuse_folder(rt, path, fault),
    };
    let mut status = 0;
    for report in &reports {
        match report.found {
            Found::Damaged(at) => {
                let segment = report.number;
                status = refuse_folder(rt, path, StoreFault::Damaged { segment, at });
            }
            _ => {
                if let Err(fault) = print_segment(rt, report) {
                    return refuse(rt, fault);
                }
            }
        }
    }
    // A start reads only this one.
    if let Some(newest) = reports.last() {
        tell_dropped(rt, path, newest);
    }
    status
}

/// Writes messages as a mailbox file, one after another.
fn write_mailbox<R: AllocGlobal + Print>(rt: &R, messages: &[Message]) -> Result<(), Fault> {
    for message in messages {
        let text = message.text.copy()?;
        let bytes = write(rt.alloc(), FROM_LINE, &[text])?;
        say(&mut io::writer(rt), bytes.as_slice())?;
    }
    Ok(())
}

/// What the newest segment has, with the status 0. Of a folder that a start refuses what can be read, with the status 1, and the
/// fault is reported.
fn read_mail<R: AllocGlobal + Files<File = File> + Copy + Eprint>(
    rt: &R,
    path: &str,
) -> Result<(Kept, u8), StoreFault> {
    match read_newest(rt, rt.alloc(), path) {
        Ok(loaded) => Ok((loaded.kept, 0)),
        Err(fault) if is_of_files(fault) => {
            let status = refuse_folder(rt, path, fault);
            Ok((read_damaged(rt, rt.alloc(), path, fault)?, status))
        }
        Err(fault) => Err(fault),
    }
}

/// Runs `export`. Returns the exit status.
pub fn run_export<R: AllocGlobal + Files<File = File> + Copy + Print + Eprint>(
    rt: &R,
    matches: &ArgMatches<'_>,
) -> u8 {
    let path = text_of(matches, "data");
    let word = text_of(matches, "name");
    let Some(name) = Name::new(word.as_bytes()) else {
        let status = refuse(rt, Fault::Value);
        hint(rt, Some(Mistake::Name));
        return status;
    };
    let (kept, status) = match read_mail(rt, path) {
        Ok(read) => read,
        Err(fault) => return refuse_folder(rt, path, fault),
    };
    if kept.next_uid(&name) == FIRST_UID {
        let _untold = eprintln!(rt; "maildropd: {path} never had mail for {word}");
        return FAILED;
    }
    match write_mailbox(rt, kept.messages(&name)) {
        Ok(()) => status,
        Err(fault) => refuse(rt, fault),
    }
}
