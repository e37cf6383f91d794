//! `maildropd mend`: what can be had of a data folder that a start refuses.

use crate::accounts::accounts_in;
use crate::arguments::{Choice, Kind, Presence, optional_text_of, text_of, with_options};
use crate::data::{refuse, refuse_folder};
use crate::mistake::{Mistake, hint};
use apop::Accounts;
use clap::{Arg, ArgAction, ArgMatches, Command, Error};
use mend::{Base, Behind, Condition, Gap, MendFault, Mending, Survey, Way, most_messages};
use ports::{Fault, say};
use std::alloc::Global;
use std::fs::File;
use std::io;
use std::random::RandomSource;
use std::rt::Files;
use std::time::Clock;
use store::StoreFault;

/// The options that have a value.
const OPTIONS: &[Choice] = &[
    Choice {
        name: "data",
        value: "FOLDER",
        kind: Kind::Text,
        presence: Presence::Required,
        help: "The data folder",
    },
    Choice {
        name: "accounts",
        value: "FILE",
        kind: Kind::Text,
        presence: Presence::Optional,
        help: "The accounts file of the service. It is needed if what can't be read may have names of users: no user in it is given a unique id again",
    },
];

/// The command `mend` of the command line.
pub fn mend_command<'a>(alloc: Global) -> Result<Command<'a>, Error> {
    let cut = Arg::new(alloc, "cut")
        .long("cut")
        .help("Drops all from the damage on")
        .action(ArgAction::SetTrue);
    let salvage = Arg::new(alloc, "salvage")
        .long("salvage")
        .help("Keeps each whole change after the damage that can still be made")
        .action(ArgAction::SetTrue);
    let mend = Command::new(alloc, "mend").about(
        "Reports what is damaged in a data folder that `serve` refuses, and what follows the damage. With --cut or --salvage it mends the folder. The status is 0 if `serve` would go on",
    );
    Ok(with_options(alloc, mend, OPTIONS)?.arg(cut)?.arg(salvage)?)
}

/// Which way the words ask for. `Value` if they ask for both.
fn way_of(matches: &ArgMatches<'_>) -> Result<Option<Way>, Fault> {
    match (matches.get_flag("cut"), matches.get_flag("salvage")) {
        (false, false) => Ok(None),
        (true, false) => Ok(Some(Way::Cut)),
        (false, true) => Ok(Some(Way::Salvage)),
        (true, true) => Err(Fault::Value),
    }
}

/// The accounts of the file that the words name. None if they name no file.
fn accounts_of<R: AllocGlobal + Files<File = File>>(
    rt: &R,
    matches: &ArgMatches<'_>,
) -> Result<Option<Accounts>, Fault> {
    match optional_text_of(matches, "accounts") {
        Some(path) => Ok(Some(accounts_in(rt, path)?)),
        None => Ok(None),
    }
}

/// Prints a line.
fn tell<R: AllocGlobal + Print>(
    rt: &R,
    line: Result<String, std::alloc::AllocError>,
) -> Result<(), Fault> {
    match line {
        Ok(line) => say(&mut io::writer(rt), line.as_bytes()),
        Err(_) => Err(Fault::Memory),
    }
}

/// Prints what is kept before anything is salvaged.
fn tell_base<R: AllocGlobal + Print>(rt: &R, survey: &Survey) -> Result<(), Fault> {
    let alloc = rt.alloc();
    let (number, at) = (survey.number, survey.at);
    let line = match survey.base {
        Base::Own => format!(in alloc; "segment {number} is kept up to byte {at}\n"),
        Base::Before(before) => format!(in alloc;
            "segment {number} has a damaged opening, so segment {before} is taken\n"
        ),
        Base::Nothing => format!(in alloc;
            "segment {number} has a damaged opening, and there is no whole segment before it\n"
        ),
    };
    tell(rt, line)
}

/// Prints where nothing can be read.
fn tell_gap<R: AllocGlobal + Print>(rt: &R, gap: &Gap) -> Result<(), Fault> {
    let (at, bytes) = (gap.at, gap.bytes);
    let most = most_messages(bytes);
    let line = format!(in rt.alloc();
        "unreadable bytes {bytes} from byte {at} on, at most {most} messages\n"
    );
    tell(rt, line)
}

/// Prints what follows the damage of a user's mail.
fn tell_user<R: AllocGlobal + Print>(rt: &R, user: &Behind) -> Result<(), Fault> {
    let alloc = rt.alloc();
    let name = std::str::from_utf8(user.name.get()).unwrap_or("?");
    let (messages, removed) = (user.messages, user.removed);
    tell(
        rt,
        format!(in alloc; "user {name} messages {messages} removed {removed}\n"),
    )
}

/// Prints what was found. Next unique ids become at least this one, if it isn't 0.
fn tell_survey<R: AllocGlobal + Print>(rt: &R, survey: &Survey, least: u64) -> Result<(), Fault> {
    let alloc = rt.alloc();
    tell_base(rt, survey)?;
    for gap in &survey.behind.gaps {
        tell_gap(rt, gap)?;
    }
    let (records, refused) = (survey.behind.records, survey.behind.refused);
    tell(
        rt,
        format!(in alloc; "after the damage whole batches {records}, not taken whole {refused}\n"),
    )?;
    for user in &survey.users(alloc)? {
        tell_user(rt, user)?;
    }
    if least > 0 {
        tell(
            rt,
            format!(in alloc; "first next ids become at least {least}\n"),
        )?;
    }
    for (word, dropped) in [
        ("cut", survey.cut.dropped),
        ("salvage", survey.salvaged.dropped),
    ] {
        let ids = most_messages(dropped);
        tell(
            rt,
            format!(in alloc; "--{word} drops bytes {dropped}, raises next ids by {ids}\n"),
        )?;
    }
    Ok(())
}

/// The first second of 2020, in seconds since 1970.
const YEAR_2020: u64 = 1_577_836_800;

/// The seconds since 2020: more than a user is given unique ids by a service that doesn't get a message a second for years.
fn seconds_since_2020<R: Clock>(rt: &R) -> Result<u64, Fault> {
    match rt.since_1970() {
        Ok(time) => Ok(time.as_secs().saturating_sub(YEAR_2020)),
        Err(_) => Err(Fault::Read),
    }
}

/// A number that no sender of mail can know.
fn random_salt<R: RandomSource>(rt: &R) -> Result<u64, Fault> {
    let mut salt = [0u8; 8];
    match rt.fill_bytes(&mut salt) {
        Ok(()) => Ok(u64::from_be_bytes(salt)),
        Err(_) => Err(Fault::Read),
    }
}

/// Reports why a folder isn't mended. Returns the status.
fn refuse_mending<R: AllocGlobal + Files + Copy + Eprint>(
    rt: &R,
    path: &str,
    fault: MendFault,
) -> u8 {
    if let MendFault::Store(fault) = fault {
        return refuse_folder(rt, path, fault);
    }
    let _untold = eprintln!(rt; "maildropd: {path}{fault}");
    1
}

/// Reports what a start refuses, and which words would mend it. Returns the status.
fn ask<R: AllocGlobal + Files + Copy + Eprint>(
    rt: &R,
    path: &str,
    fault: StoreFault,
    lacks_names: bool,
) -> u8 {
    refuse_folder(rt, path, fault);
    let accounts = if lacks_names {
        ", with --accounts FILE"
    } else {
        ""
    };
    let _untold = eprintln!(rt; "maildropd: nothing was changed; say --cut or --salvage{accounts}");
    1
}

/// Reports what was found, and mends a folder in this way. Returns the status.
fn mend_segment<R: AllocGlobal + Files<File = File> + RandomSource + Clock + Copy + Print + Eprint>(
    rt: &R,
    path: &str,
    mending: &Mending<R>,
    found: (StoreFault, Survey),
    way: Option<Way>,
) -> Result<u8, Fault> {
    let (fault, survey) = found;
    let least = match mending.least(&survey, seconds_since_2020(rt)?) {
        Ok(least) => least,
        Err(fault) => return Ok(refuse_folder(rt, path, fault)),
    };
    tell_survey(rt, &survey, least)?;
    let Some(way) = way else {
        return Ok(ask(rt, path, fault, survey.lacks_names()));
    };
    let mended = mending.mend(survey, way, random_salt(rt)?, least);
    tell_end(rt, path, mended)
}

/// Removes the note of an orderly end, if one of the words was given. Returns the status.
fn mend_note<R: AllocGlobal + Files<File = File> + Copy + Print + Eprint>(
    rt: &R,
    path: &str,
    mending: &Mending<R>,
    fault: StoreFault,
    way: Option<Way>,
) -> Result<u8, Fault> {
    let alloc = rt.alloc();
    tell(rt, format!(in alloc; "the newest segment is whole\n"))?;
    if way.is_none() {
        return Ok(ask(rt, path, fault, false));
    }
    tell_end(rt, path, mending.forget_note())
}

/// Reports whether a folder was mended. Returns the status.
fn tell_end<R: AllocGlobal + Files + Copy + Print + Eprint>(
    rt: &R,
    path: &str,
    mended: Result<(), MendFault>,
) -> Result<u8, Fault> {
    if let Err(fault) = mended {
        return Ok(refuse_mending(rt, path, fault));
    }
    let alloc = rt.alloc();
    tell(rt, format!(in alloc; "mended\n"))?;
    Ok(0)
}

/// Mends a folder as the words say. Returns the status.
fn apply<R: AllocGlobal + Files<File = File> + RandomSource + Clock + Copy + Print + Eprint>(
    rt: &R,
    path: &str,
    matches: &ArgMatches<'_>,
    mending: &Mending<R>,
) -> Result<u8, Fault> {
    let alloc = rt.alloc();
    let way = way_of(matches)?;
    let accounts = accounts_of(rt, matches)?;
    match mending.look() {
        Err(fault) => Ok(refuse_folder(rt, path, fault)),
        Ok(Condition::Sound) => {
            tell(rt, format!(in alloc; "nothing to mend\n"))?;
            Ok(0)
        }
        Ok(Condition::NoteAlone(fault, _)) => mend_note(rt, path, mending, fault, way),
        Ok(Condition::Damaged(fault, mut survey)) => {
            if let Some(accounts) = &accounts {
                survey.know(accounts.names())?;
            }
            mend_segment(rt, path, mending, (fault, survey), way)
        }
    }
}

/// Runs `mend`. Returns the exit status.
pub fn run_mend<R: AllocGlobal + Files<File = File> + RandomSource + Clock + Copy + Print + Eprint>(
    rt: &R,
    matches: &ArgMatches<'_>,
) -> u8 {
    let path = text_of(matches, "data");
    let mending = match Mending::open(rt, rt.alloc(), path) {
        Ok(mending) => mending,
        Err(fault) => return refuse_folder(rt, path, fault),
    };
    match apply(rt, path, matches, &mending) {
        Ok(status) => status,
        Err(Fault::Value) => {
            let status = refuse(rt, Fault::Value);
            hint(rt, Some(Mistake::BothWays));
            status
        }
        Err(fault) => refuse(rt, fault),
    }
}
