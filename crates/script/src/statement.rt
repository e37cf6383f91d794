//! The lines of a script.

use crate::command::Command;
use crate::setting::Setting;

/// What a line of a script says.
#[derive(Drop)]
pub enum Statement<'a> {
    Setting(Setting<'a>),
    Command(Command<'a>),
}
