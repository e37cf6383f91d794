//! What performs commands.
ghost use Rattle.std.specs.Prelude.{◌≡◌, IfOk, OnOk, OnErr};

use crate::memory::Memory;
use crate::payload::Payload;

/// A machine that performs commands one after another. What it answers and what it becomes follow from what
/// it is and from the command alone, so machines that begin alike and perform the same commands stay alike.
pub trait Machine: Drop {
    /// What it performs.
    type Command: Payload;

    /// What it answers.
    type Answer: Drop;

    /// The answer to a command.
    ghost answer_to: { Self → Self.Command → Self.Answer };

    /// The machine after a command.
    ghost after: { Self → Self.Command → Self };

    /// Performs a command. After `Memory` the machine is as it was.
    fn apply(&mut self, command: &Self::Command) -> Result<Self::Answer, Memory>
        ensures answer { IfOk result (λ answer. answer ≡ answer_to self.old command.now) }
        ensures after { OnOk result (self.new ≡ after self.old command.now) }
        ensures err { OnErr result (self.new ≡ self.old) };
}
