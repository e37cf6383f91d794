//! Reads a line of a script.
ghost use Rattle.std.specs.Prelude.{◌≡◌, false};
ghost use Rattle.maildrop.specs.Text.{IsLine};
ghost use Rattle.script.specs.Beginnings as beginnings;
ghost use Rattle.script.specs.Beginnings.{BeginsNoLine};
ghost use Rattle.script.specs.Commands as spec;

use crate::command::Command;
use crate::command_parsing::command_with;
use crate::fault::ScriptFault;
use crate::keyword::{keyword_of, setting_keyword_of};
use crate::setting_parsing::setting_with;
use crate::statement::Statement;
use crate::words::cut_at_space;

/// How many bytes the longest keyword has.
const LONGEST_KEYWORD: usize = 8;

/// The statement of a first word and what stands after its space.
fn statement_with<'a>(word: &[u8], rest: &'a [u8]) -> Option<Statement<'a>>
    requires { IsLine rest.now }
    ensures { result ≡ spec.statement_with word.now rest.now }
{
    if let Some(keyword) = setting_keyword_of(word) {
        return match setting_with(keyword, rest) {
            Some(setting) => Some(Statement::Setting(setting)),
            None => None,
        };
    }
    let keyword = keyword_of(word)?;
    match command_with(keyword, rest) {
        Some(command) => Some(Statement::Command(command)),
        None => None,
    }
}

fn statement_of(line: &[u8]) -> Option<Statement<'_>>
    requires { IsLine line.now }
    ensures { result ≡ spec.statement_of line.now }
{
    match cut_at_space(line) {
        Some((word, rest)) => statement_with(word, rest),
        None => {
            if line == b"lose".as_slice() {
                Some(Statement::Command(Command::Lose))
            } else {
                None
            }
        }
    }
}

/// What a line says, without its line end: nothing, if it is empty. One space stands between two words, and no number
/// has a leading zero. The line isn't copied.
pub fn parse(line: &[u8]) -> Result<Option<Statement<'_>>, ScriptFault>
    requires { IsLine line.now }
    ensures { result ≡ spec.parsed line.now }
{
    if line.is_empty() {
        return Ok(None);
    }
    match statement_of(line) {
        Some(statement) => Ok(Some(statement)),
        None => Err(ScriptFault::NoStatement),
    }
}

fn is_keyword(word: &[u8]) -> bool
    ensures { result ≡ beginnings.is_keyword word.now }
{
    setting_keyword_of(word).is_some() || keyword_of(word).is_some()
}

/// Whether a line of the language may begin with these bytes: the first word is a keyword, or no space stands after it
/// yet and it isn't too long for one. Takes no memory.
pub fn may_begin_line(bytes: &[u8]) -> bool
    ensures value { result ≡ beginnings.may_begin_line bytes.now }
    ensures none { result ≡ false → BeginsNoLine bytes.now }
{
    match cut_at_space(bytes) {
        Some((word, _)) => is_keyword(word),
        None => bytes.len() <= LONGEST_KEYWORD,
    }
}
