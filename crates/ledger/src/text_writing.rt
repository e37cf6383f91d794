//! Writes texts and lists of unique ids.
ghost use Rattle.std.specs.Prelude.{◌≡◌, ◌++◌, ◌<◌, ◌^◌, length, OnOk};
ghost use Rattle.std.specs.List.{flat_map};
ghost use Rattle.maildrop.specs.Text.{octets_of};
ghost use Rattle.ledger.specs.Fitting.{FitsText, FitsUids, FitAll, FitsLine, IsShort};
ghost use Rattle.ledger.specs.Payloads.{long_string, u64_bytes, counted};

use crate::payload::{Front, Payload};
use ballot::Memory;
use maildrop::{Text, Uids};
use std::alloc::Allocator;

/// How many lines a text has.
fn lines_in<A: Allocator + Copy>(text: &Text<A>) -> usize
    ensures { result ≡ length text.now }
{
    let mut lines = text.get();
    let mut count = 0;
    while let Some(_) = lines.next_line() {
        count += 1;
    }
    count
}

impl<B: Allocator, F: Front> Payload<B, F> {
    /// Adds the lines of a text, one after another.
    fn put_lines<A: Allocator + Copy>(&mut self, text: &Text<A>) -> Result<(), Memory>
        requires { FitAll IsShort text.now }
        ensures ok { OnOk result (self.new ≡ self.old ++ flat_map long_string text.now) }
        ensures fits { OnOk result (FitAll FitsLine text.now) }
    {
        let mut lines = text.get();
        while let Some(line) = lines.next_line() {
            self.put_line(line)?;
        }
        Ok(())
    }

    #[tactic(auto, using(crate::proofs::Sizes::few_lines, crate::proofs::Sizes::short_lines))]
    pub(crate) fn put_text<A: Allocator + Copy>(&mut self, text: &Text<A>) -> Result<(), Memory>
        requires { octets_of text.now < 2 ^ 32 }
        ensures ok { OnOk result (self.new ≡ self.old ++ counted long_string text.now) }
        ensures fits { OnOk result (FitsText text.now) }
    {
        self.put_count(lines_in(text))?;
        self.put_lines(text)
    }

    /// Adds unique ids, one after another.
    fn put_numbers(&mut self, uids: &[u64]) -> Result<(), Memory>
        ensures ok { OnOk result (self.new ≡ self.old ++ flat_map u64_bytes uids.now) }
        ensures fits { OnOk result (FitAll (λ uid. uid < 2 ^ 64) uids.now) }
    {
        let mut rest = uids;
        while let Some((uid, others)) = rest.split_first() {
            self.put_u64(*uid)?;
            rest = others;
        }
        Ok(())
    }

    #[tactic(auto, using(crate::proofs::Ascending::rises_from_ascending))]
    pub(crate) fn put_uids<A: Allocator + Copy>(&mut self, uids: &Uids<A>) -> Result<(), Memory>
        requires { length uids.now < 2 ^ 32 }
        ensures ok { OnOk result (self.new ≡ self.old ++ counted u64_bytes uids.now) }
        ensures fits { OnOk result (FitsUids uids.now) }
    {
        let numbers = uids.get();
        self.put_count(numbers.len())?;
        self.put_numbers(numbers)
    }
}
