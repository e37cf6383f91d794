//! `serve --config`: a file that gives options beside the command line.

use crate::arguments::{Choice, Kind, Presence, optional_text_of, with_options};
use crate::data::refuse;
use crate::mistake::{Mistake, hint};
use crate::settings_file::{LineMistake, Setting, SettingsFault, settings_in};
use crate::unread::Unread;
use clap::error::ErrorKind;
use clap::{Arg, ArgAction, ArgMatches, Command, Error};
use ports::{Fault, read_within};
use std::alloc::{AllocError, Global};
use std::fs::File;
use std::io;
use std::rt::Files;

/// The command that takes a file of options.
const SERVE: &str = "serve";

/// How many words come before the options: the program and the command.
const WORDS_BEFORE: usize = 2;

/// The most bytes of a file of options.
const MOST_BYTES: u64 = 1 << 20;

/// The option that names a file of options.
const FILE_OPTION: &[Choice] = &[Choice {
    name: "config",
    value: "FILE",
    kind: Kind::Text,
    presence: Presence::Optional,
    help: "Takes options that aren't given from this file too: TOML, with a line `name = value` for each",
}];

/// The options that a file gives and the command line doesn't.
#[derive(Drop)]
pub struct Config<'a> {
    path: &'a str,
    settings: Vec<Setting>,
}

/// Why the options of a file can't be taken.
#[derive(Drop)]
pub enum ConfigFault<'a> {
    Memory,
    /// The file of this path can't be read, for this reason.
    Unreadable(&'a str, Option<Unread>),
    TooLarge(&'a str),
    /// The line of this number of the file of this path is at fault.
    Line(&'a str, usize, LineMistake),
}

impl<'a> Config<'a> {
    /// No file is named.
    pub fn none(alloc: Global) -> Self {
        Config {
            path: "",
            settings: Vec::new(alloc),
        }
    }

    /// The path of the file, as the command line has it.
    pub fn path(&self) -> &'a str {
        self.path
    }

    /// The number of the line that gives this option, if the option is the file's.
    pub fn line_of(&self, name: &str) -> Option<usize> {
        for setting in &self.settings {
            if setting.name == name {
                return Some(setting.line);
            }
        }
        None
    }

    /// The words of the command line, with the options of the file, and one more if there is one, before its own.
    pub fn joined<'b>(
        &'b self,
        alloc: Global,
        words: &'b [String],
        more: &'b Option<String>,
    ) -> Result<Vec<&'b str>, AllocError> {
        let (before, options) = words.split_at(words.len().min(WORDS_BEFORE));
        let mut joined = Vec::new(alloc);
        for word in before {
            joined.push(word.as_str())?;
        }
        for setting in &self.settings {
            joined.push(setting.word.as_str())?;
        }
        if let Some(word) = more {
            joined.push(word.as_str())?;
        }
        for word in options {
            joined.push(word.as_str())?;
        }
        Ok(joined)
    }
}

impl ConfigFault<'_> {
    /// What the first line on standard error says.
    fn fault(&self) -> Fault {
        match self {
            ConfigFault::Memory => Fault::Memory,
            ConfigFault::Unreadable(_, _) => Fault::Read,
            ConfigFault::TooLarge(_) | ConfigFault::Line(_, _, _) => Fault::Value,
        }
    }

    /// Reports the fault, and on a second line what is to be mended. Returns the status.
    pub fn report<R: Eprint>(&self, rt: &R) -> u8 {
        let status = refuse(rt, self.fault());
        match self {
            ConfigFault::Memory => {}
            ConfigFault::Unreadable(path, cause) => {
                hint(rt, cause.map(|cause| Mistake::CannotRead(path, cause)));
            }
            ConfigFault::TooLarge(path) => {
                let _untold = eprintln!(rt; "maildropd: {path} has over {MOST_BYTES} bytes");
            }
            ConfigFault::Line(path, line, mistake) => {
                let _untold = eprintln!(rt; "maildropd: {path} line {line}: {mistake}");
            }
        }
        status
    }
}

/// The command with the options that are no settings of a service.
pub fn with_config<'a>(alloc: Global, command: Command<'a>) -> Result<Command<'a>, Error> {
    let check = Arg::new(alloc, "check")
        .long("check")
        .help(
            "Starts nothing: prints each setting and where it came from, then reads accounts and data folder as a start would. The status is 0 if it found no fault",
        )
        .action(ArgAction::SetTrue);
    Ok(with_options(alloc, command, FILE_OPTION)?.arg(check)?)
}

/// The words from the command on, if it takes a file of options.
pub fn words_of_serve(words: &[String]) -> Option<&[String]> {
    let (_program, rest) = words.split_first()?;
    if rest.first()?.as_str() == SERVE {
        Some(rest)
    } else {
        None
    }
}

/// The bytes of a file of options.
fn bytes_of<'a, R: AllocGlobal + Files<File = File>>(
    rt: &R,
    path: &'a str,
) -> Result<Vec<u8>, ConfigFault<'a>> {
    let mut file = match std::fs::open(rt, path) {
        Ok(file) => file,
        Err(error) if error.kind() == io::ErrorKind::OutOfMemory => {
            return Err(ConfigFault::Memory);
        }
        Err(error) => return Err(ConfigFault::Unreadable(path, Unread::of(&error))),
    };
    if file.metadata().is_ok_and(|found| found.is_dir()) {
        return Err(ConfigFault::Unreadable(path, Some(Unread::Folder)));
    }
    let bytes = match read_within(rt.alloc(), &mut file, MOST_BYTES) {
        Ok(bytes) => bytes,
        Err(Fault::Memory) => return Err(ConfigFault::Memory),
        Err(_) => return Err(ConfigFault::Unreadable(path, None)),
    };
    if bytes.len() as u64 > MOST_BYTES {
        return Err(ConfigFault::TooLarge(path));
    }
    Ok(bytes)
}

/// What the words give by themselves. None if they are refused: they are again with the options of no file, and then it is
/// reported why.
fn first_look<'a>(
    command: Command<'a>,
    words: &'a [String],
) -> Result<Option<ArgMatches<'a>>, ConfigFault<'a>> {
    match command.try_get_matches_from(words) {
        Ok(matches) => Ok(Some(matches)),
        Err(error) if error.kind() == ErrorKind::OutOfMemory => Err(ConfigFault::Memory),
        Err(_) => Ok(None),
    }
}

/// The options of the file that the words of this command name. It is to need no option. Each option of the file is among the
/// choices.
pub fn config_of<'a, R: AllocGlobal + Files<File = File>>(
    rt: &R,
    command: Command<'a>,
    words: &'a [String],
    choices: &[Choice],
) -> Result<Config<'a>, ConfigFault<'a>> {
    let alloc = rt.alloc();
    let Some(matches) = first_look(command, words)? else {
        return Ok(Config::none(alloc));
    };
    let Some(path) = optional_text_of(&matches, "config") else {
        return Ok(Config::none(alloc));
    };
    let bytes = bytes_of(rt, path)?;
    let mut settings = match settings_in(alloc, choices, bytes.as_slice()) {
        Ok(settings) => settings,
        Err(SettingsFault::Memory) => return Err(ConfigFault::Memory),
        Err(SettingsFault::Line(line, mistake)) => {
            return Err(ConfigFault::Line(path, line, mistake));
        }
    };
    settings.retain(|setting| !matches.contains_id(setting.name));
    Ok(Config { path, settings })
}
