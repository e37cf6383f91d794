//! Options of the command line.

use crate::range::Range;
use clap::{Arg, ArgAction, ArgMatches, Command, Error, value_parser};
use std::alloc::Global;

/// What the value of an option is.
#[derive(Clone, Copy)]
pub enum Kind {
    /// Any text. It may begin with a hyphen.
    Text,
    /// A number of 64 bits, which is to be in this range.
    Number(Range),
}

/// Whether an option must be given, and what it is if it isn't.
#[derive(Clone, Copy)]
pub enum Presence {
    Required,
    Optional,
    Default(&'static str),
    /// It is this if there is a data folder. Else it must not be given.
    DefaultWithData(&'static str),
}

/// An option of a command, with a value.
#[derive(Clone, Copy)]
pub struct Choice {
    /// Its name, without the two hyphens.
    pub name: &'static str,
    /// What `--help` shows for its value.
    pub value: &'static str,
    pub kind: Kind,
    pub presence: Presence,
    pub help: &'static str,
}

fn arg_of<'a>(alloc: Global, choice: Choice) -> Arg<'a> {
    let arg = Arg::new(alloc, choice.name)
        .long(choice.name)
        .value_name(choice.value)
        .help(choice.help)
        .action(ArgAction::Set);
    let arg = match choice.kind {
        Kind::Text => arg.allow_hyphen_values(true),
        Kind::Number(_) => arg.value_parser(value_parser!(u64)),
    };
    match choice.presence {
        Presence::Required => arg.required(true),
        Presence::Optional | Presence::DefaultWithData(_) => arg,
        Presence::Default(value) => arg.default_value(value),
    }
}

/// The command with these options.
pub fn with_options<'a>(
    alloc: Global,
    mut command: Command<'a>,
    choices: &[Choice],
) -> Result<Command<'a>, Error> {
    for choice in choices {
        command = command.arg(arg_of(alloc, *choice))?;
    }
    Ok(command)
}

/// The command with these options, none of which must be given or has a default.
pub fn with_optional<'a>(
    alloc: Global,
    mut command: Command<'a>,
    choices: &[Choice],
) -> Result<Command<'a>, Error> {
    for choice in choices {
        let mut choice = *choice;
        choice.presence = Presence::Optional;
        command = command.arg(arg_of(alloc, choice))?;
    }
    Ok(command)
}

/// The text of an option, or none if it wasn't given.
pub fn text_of<'a>(matches: &ArgMatches<'a>, name: &str) -> &'a str {
    matches.get_str(name).unwrap_or("")
}

/// The text of an option, if it was given.
pub fn optional_text_of<'a>(matches: &ArgMatches<'a>, name: &str) -> Option<&'a str> {
    matches.get_str(name)
}

/// The number of an option, if it was given.
pub fn optional_number_of(matches: &ArgMatches<'_>, name: &str) -> Option<u64> {
    matches.get_one::<u64>(name)
}

/// The bytes of an option, or none if it wasn't given.
pub fn bytes_of<'a>(matches: &ArgMatches<'a>, name: &str) -> &'a [u8] {
    text_of(matches, name).as_bytes()
}

/// The number of an option, which is required or has a default.
pub fn number_of(matches: &ArgMatches<'_>, name: &str) -> u64 {
    matches.get_one::<u64>(name).unwrap_or(0)
}
