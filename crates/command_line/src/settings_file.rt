//! Options in a file of TOML, a line `name = value` for each.

use crate::arguments::{Choice, Kind};
use std::alloc::{AllocError, AllocFailed, Global};
use std::str::from_utf8;
use thiserror::Error;
use toml::{Value, table_from_str};

/// An option that a line of a file gives.
#[derive(Drop)]
pub(crate) struct Setting {
    pub name: &'static str,
    /// The word of a command line that gives it.
    pub word: String,
    /// The number of the line, counted from 1.
    pub line: usize,
}

/// What is wrong with a line. Its text follows the number of the line.
#[derive(Debug, Drop, Error)]
pub enum LineMistake {
    #[error("not TOML")]
    NotToml,
    #[error("no such option: {0}")]
    NoSuchOption(String),
    /// A line before it gives the same option.
    #[error("{0} twice")]
    Twice(&'static str),
    #[error("a value is a number or a text")]
    OtherValue,
    #[error("{0} is a number from 0 to 18446744073709551615")]
    NoNumber(&'static str),
}

/// Why a file gives no options.
#[derive(Drop)]
pub(crate) enum SettingsFault {
    Memory,
    /// The line of this number is at fault.
    Line(usize, LineMistake),
}

impl From<AllocError> for SettingsFault {
    fn from(_error: AllocError) -> SettingsFault {
        SettingsFault::Memory
    }
}

impl<T: Drop> From<AllocFailed<T>> for SettingsFault {
    fn from(_error: AllocFailed<T>) -> SettingsFault {
        SettingsFault::Memory
    }
}

/// The number of the line that has the byte at this place.
fn line_at(bytes: &[u8], place: usize) -> usize {
    let mut line = 1usize;
    for byte in bytes.iter().take(place) {
        if *byte == b'\n' {
            line = line.saturating_add(1);
        }
    }
    line
}

/// The option of this name, if there is one.
fn choice_of<'a>(choices: &'a [Choice], name: &str) -> Option<&'a Choice> {
    choices.iter().find(|choice| choice.name == name)
}

/// The text of a number or a text. None for any other value.
fn text_of(alloc: Global, value: &Value) -> Result<Option<String>, AllocError> {
    match value {
        Value::String(text) => Ok(Some(String::from_str(alloc, text.as_str())?)),
        Value::Integer(number) => Ok(Some(format!(in alloc; "{number}")?)),
        _ => Ok(None),
    }
}

/// Whether a text can be the value of an option of this kind.
fn is_of_kind(kind: Kind, text: &str) -> bool {
    match kind {
        Kind::Text => true,
        Kind::Number(_) => text.parse::<u64>().is_ok(),
    }
}

/// What the line of this number gives to this option.
fn setting_of(
    alloc: Global,
    choice: &Choice,
    value: &Value,
    line: usize,
) -> Result<Setting, SettingsFault> {
    let name = choice.name;
    let Some(text) = text_of(alloc, value)? else {
        return Err(SettingsFault::Line(line, LineMistake::OtherValue));
    };
    if !is_of_kind(choice.kind, text.as_str()) {
        return Err(SettingsFault::Line(line, LineMistake::NoNumber(name)));
    }
    let word = format!(in alloc; "--{name}={text}")?;
    Ok(Setting { name, word, line })
}

/// What a line gives. None for a comment or an empty line.
fn setting_in(
    alloc: Global,
    choices: &[Choice],
    text: &str,
    line: usize,
) -> Result<Option<Setting>, SettingsFault> {
    let table = match table_from_str(alloc, text) {
        Ok(table) => table,
        Err(error) if error.is_memory() => return Err(SettingsFault::Memory),
        Err(_) => return Err(SettingsFault::Line(line, LineMistake::NotToml)),
    };
    let Some((name, value)) = table.first_key_value() else {
        return Ok(None);
    };
    match choice_of(choices, name.as_str()) {
        Some(choice) => Ok(Some(setting_of(alloc, choice, value, line)?)),
        None => {
            let name = String::from_str(alloc, name.as_str())?;
            Err(SettingsFault::Line(line, LineMistake::NoSuchOption(name)))
        }
    }
}

/// The options that a file of these bytes gives, in the order of its lines.
pub(crate) fn settings_in(
    alloc: Global,
    choices: &[Choice],
    bytes: &[u8],
) -> Result<Vec<Setting>, SettingsFault> {
    let text = match from_utf8(bytes) {
        Ok(text) => text,
        Err(error) => {
            let line = line_at(bytes, error.valid_up_to());
            return Err(SettingsFault::Line(line, LineMistake::NotToml));
        }
    };
    let mut settings: Vec<Setting> = Vec::new(alloc);
    let mut number = 0usize;
    for line in text.lines() {
        number = number.saturating_add(1);
        let Some(setting) = setting_in(alloc, choices, line, number)? else {
            continue;
        };
        if settings.iter().any(|other| other.name == setting.name) {
            return Err(SettingsFault::Line(number, LineMistake::Twice(setting.name)));
        }
        settings.push(setting)?;
    }
    Ok(settings)
}
