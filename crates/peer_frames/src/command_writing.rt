//! Writes commands.
ghost use Rattle.std.specs.Prelude.{◌≡◌, ◌++◌, ◌<◌, ◌^◌, length, IsErrOf, OnOk};
ghost use Rattle.std.specs.List.{flat_map};
ghost use Rattle.peer_frames.specs.declared.version.Version.TheVariants.{Second};
ghost use Rattle.peer_frames.specs.Numbers.{longest};
ghost use Rattle.peer_frames.specs.Fitting.{FitsText, FitsUids, FitsOp, FitsCommand, FitAll, FitsLine};
ghost use Rattle.peer_frames.specs.Frames.{long_string, u64_bytes, counted, op_bytes, command_bytes};

use crate::content::{Content, Front};
use crate::encode_error::EncodeError;
use maildrop::{Command, Op, Text, Uids};
use std::alloc::Allocator;

/// How many lines a text has.
fn lines_in<A: Allocator + Copy>(text: &Text<A>) -> usize
    ensures { result ≡ length text.now }
{
    let mut lines = text.get();
    let mut count = 0;
    while let Some(_) = lines.next_line() {
        count += 1;
    }
    count
}

impl<B: Allocator, F: Front> Content<B, F> {
    /// Adds the lines of a text, one after another.
    fn put_lines<A: Allocator + Copy>(&mut self, text: &Text<A>) -> Result<(), EncodeError>
        ensures ok { OnOk result (self.new ≡ self.old ++ flat_map long_string text.now) }
        ensures fits { OnOk result (FitAll FitsLine text.now) }
        ensures long { IsErrOf result EncodeError.TooLong → longest < length (flat_map long_string text.now) }
    {
        let mut lines = text.get();
        while let Some(line) = lines.next_line() {
            self.put_line(line)?;
        }
        Ok(())
    }

    #[tactic(auto, using(crate::proofs::Sizes::many_lines))]
    fn put_text<A: Allocator + Copy>(&mut self, text: &Text<A>) -> Result<(), EncodeError>
        ensures ok { OnOk result (self.new ≡ self.old ++ counted long_string text.now) }
        ensures fits { OnOk result (FitsText text.now) }
        ensures long { IsErrOf result EncodeError.TooLong → longest < length (counted long_string text.now) }
    {
        self.put_count(lines_in(text))?;
        self.put_lines(text)
    }

    /// Adds unique ids, one after another.
    fn put_numbers(&mut self, uids: &[u64]) -> Result<(), EncodeError>
        ensures ok { OnOk result (self.new ≡ self.old ++ flat_map u64_bytes uids.now) }
        ensures fits { OnOk result (FitAll (λ uid. uid < 2 ^ 64) uids.now) }
        ensures long { IsErrOf result EncodeError.TooLong → longest < length (flat_map u64_bytes uids.now) }
    {
        let mut rest = uids;
        while let Some((uid, others)) = rest.split_first() {
            self.put_u64(*uid)?;
            rest = others;
        }
        Ok(())
    }

    #[tactic(auto, using(crate::proofs::Sizes::many_numbers, crate::proofs::Ascending::rises_from_ascending))]
    fn put_uids<A: Allocator + Copy>(&mut self, uids: &Uids<A>) -> Result<(), EncodeError>
        ensures ok { OnOk result (self.new ≡ self.old ++ counted u64_bytes uids.now) }
        ensures fits { OnOk result (FitsUids uids.now) }
        ensures long { IsErrOf result EncodeError.TooLong → longest < length (counted u64_bytes uids.now) }
    {
        let numbers = uids.get();
        self.put_count(numbers.len())?;
        self.put_numbers(numbers)
    }

    fn put_op<A: Allocator + Copy>(&mut self, op: &Op<A>) -> Result<(), EncodeError>
        ensures ok { OnOk result (self.new ≡ self.old ++ op_bytes Second op.now) }
        ensures fits { OnOk result (FitsOp Second op.now) }
        ensures long { IsErrOf result EncodeError.TooLong → longest < length (op_bytes Second op.now) }
    {
        match op {
            Op::Mail { text, key } => {
                self.put_byte(1)?;
                self.put_key(key)?;
                self.put_text(text)?;
            }
            Op::Take => self.put_byte(2)?,
            Op::Commit { lock, uids } => {
                self.put_byte(3)?;
                self.put_ticket(*lock)?;
                self.put_uids(uids)?;
            }
            Op::Free { lock } => {
                self.put_byte(4)?;
                self.put_ticket(*lock)?;
            }
            Op::Break => self.put_byte(5)?,
        }
        Ok(())
    }

    pub(crate) fn put_command<A: Allocator + Copy>(
        &mut self,
        command: &Command<A>,
    ) -> Result<(), EncodeError>
        ensures ok { OnOk result (self.new ≡ self.old ++ command_bytes Second command.now) }
        ensures fits { OnOk result (FitsCommand Second command.now) }
        ensures long { IsErrOf result EncodeError.TooLong → longest < length (command_bytes Second command.now) }
    {
        self.put_name(&command.user)?;
        self.put_ticket(command.ticket)?;
        self.put_op(&command.op)
    }
}
