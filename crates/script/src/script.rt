//! A script as it is read.
ghost use Rattle.std.specs.Prelude.{◌≡◌, ◌⊎◌, None, Ok, Err, OnOk, OnErr, IfOk, IfErr};
ghost use Rattle.maildrop.specs.Text.{IsLine};
ghost use Rattle.script.specs.Scripts.{new_script, read_line, set};

use crate::command::Command;
use crate::fault::ScriptFault;
use crate::parsing::parse;
use crate::setting::Setting;
use crate::settings::Settings;
use crate::statement::Statement;
use std::alloc::{Allocator, Global};
use std::marker::Model;

/// A script as far as it is read. Its settings come before all commands.
#[derive(Drop)]
pub struct Script<A: Allocator = Global> {
    settings: Settings<A>,
    begun: bool,
}

impl<A: Allocator> Model for Script<A> {
    ghost use Rattle.script.specs.Scripts.{Script};

    ghost Value = { Script };

    ghost view = { λ s. record { settings = s.settings; begun = s.begun } };
}

impl<A: Allocator + Copy> Script<A> {
    /// A script of which nothing is read. Takes no memory.
    pub fn new(alloc: A) -> Self
        ensures { result ≡ new_script }
    {
        Script {
            settings: Settings::new(alloc),
            begun: false,
        }
    }

    /// What is set so far.
    pub fn settings(&self) -> &Settings<A>
        ensures { result.now ≡ self.now.settings }
    {
        &self.settings
    }

    /// Reads a line, without its line end, and answers the command on it; an empty line and a setting have none. A
    /// setting after a command is refused, and an account whose name another has. After an error nothing is changed.
    pub fn read<'a>(&mut self, line: &'a [u8]) -> Result<Option<Command<'a>>, ScriptFault>
        requires { IsLine line.now }
        ensures value { IfOk result (λ command. read_line self.old line.now ≡ Ok (command, self.new)) }
        ensures refused { IfErr result
            (λ error. (error ≡ ScriptFault.Memory) ⊎ (read_line self.old line.now ≡ Err error)) }
        ensures err { OnErr result (self.new ≡ self.old) }
    {
        match parse(line) {
            Err(fault) => Err(fault),
            Ok(None) => Ok(None),
            Ok(Some(Statement::Command(command))) => {
                self.begun = true;
                Ok(Some(command))
            }
            Ok(Some(Statement::Setting(setting))) => {
                self.set(setting)?;
                Ok(None)
            }
        }
    }

    fn set(&mut self, setting: Setting<'_>) -> Result<(), ScriptFault>
        ensures value { OnOk result (set self.old setting.entry ≡ Ok (None, self.new)) }
        ensures refused { IfErr result
            (λ error. (error ≡ ScriptFault.Memory) ⊎ (set self.old setting.entry ≡ Err error)) }
        ensures err { OnErr result (self.new ≡ self.old) }
    {
        if self.begun {
            return Err(ScriptFault::LateSetting);
        }
        self.settings.set(setting)
    }
}
