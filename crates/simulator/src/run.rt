//! A script under way.
ghost use Rattle.std.specs.Prelude.{◌≡◌, ◌⊎◌, ◌++◌, [], Ok, Err, Some, None, OnOk, IfErr, Option};
ghost use Rattle.maildrop.specs.Text.{IsLine};
ghost use Rattle.script.specs.Scripts.{new_script, read_line};
ghost use Rattle.script.specs.declared.command.Command as script;
ghost use Rattle.simulator.specs.Plays.{performed};
ghost use Rattle.simulator.specs.Runs.{begun, line_told, run_of};
ghost use Rattle.simulator.specs.Told.{IsWritten};

use crate::play::Play;
use crate::report::Report;
use ballot::Memory;
use script::{Command, Script, ScriptFault, Settings};
use std::alloc::Global;

/// A script as far as it is read, the service that it drives, which begins with its first command, and what is still to
/// be written.
#[derive(Drop)]
pub(crate) struct Run {
    script: Script,
    play: Option<Play>,
    /// What is still to be written.
    pub report: Report,
}

/// Does a command. The service begins with the first one.
fn perform(
    alloc: Global,
    play: &mut Option<Play>,
    settings: &Settings,
    command: Command<'_>,
    report: &mut Report,
) -> Result<(), Memory>
    ensures play { OnOk result (play.new ≡ Some (performed settings.now.host command.entry (begun settings.now play.old)).state) }
    ensures report { OnOk result (report.new ≡ report.old ++ (performed settings.now.host command.entry (begun settings.now play.old)).text) }
{
    let mut now = match play.take() {
        Some(play) => play,
        None => Play::new(alloc, settings)?,
    };
    now.perform(alloc, settings, command, report)?;
    *play = Some(now);
    Ok(())
}

impl Run {
    /// A script of which nothing is read. Takes no memory.
    pub(crate) fn new(alloc: Global) -> Self
        ensures script { result.script ≡ new_script }
        ensures play { result.play ≡ None }
        ensures report { result.report ≡ [] }
    {
        Run {
            script: Script::new(alloc),
            play: None,
            report: Report::new(alloc),
        }
    }

    /// Reads a line, without its line end, and does what it says. One that is refused changes nothing.
    pub(crate) fn take_line(&mut self, alloc: Global, line: &[u8]) -> Result<(), ScriptFault>
        requires { IsLine line.now }
        ensures told { OnOk result ((command : Option script.Command) × (read_line self.old.script line.now ≡ Ok (command, self.new.script))
            × IsWritten (line_told self.old.play (command, self.new.script)) (run_of self.new) self.old.report self.new.report) }
        ensures refused { IfErr result
            (λ error. (error ≡ ScriptFault.Memory) ⊎ ((read_line self.old.script line.now ≡ Err error) × (self.new.report ≡ self.old.report))) }
    {
        let Some(command) = self.script.read(line)? else {
            return Ok(());
        };
        let settings = self.script.settings();
        perform(alloc, &mut self.play, settings, command, &mut self.report)?;
        Ok(())
    }
}
