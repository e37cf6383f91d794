//! The maildrops of an epoch, and what its commands change of them.
ghost use Rattle.std.specs.Prelude.{◌≡◌, ◌+◌, ◌++◌, true, false, Ok, is_some, IfOk, IfSome, IsErr, IsTrue, OnOk, OnErr};
ghost use Rattle.maildrop.specs.Changes.{change_in};
ghost use Rattle.maildrop.specs.Name.{are_different};
ghost use Rattle.maildrop.specs.Office.{users_after};
ghost use Rattle.ledger.specs.Payloads.{payload};
ghost use Rattle.ledger.specs.Reading.{record_in};
ghost use Rattle.ledger.specs.Taking.{opened_ledger, entry_in_slot, entry_bytes};
ghost use Rattle.ledger.specs.declared.entry.Record.TheVariants as said;

use crate::fitting::fits;
use crate::payload_writing::put_change;
use ballot::Memory;
use maildrop::{Command, Kept, Limits, Name, Office};
use std::alloc::{Allocator, Global};
use std::marker::Model;

/// The maildrops after the commands of an epoch, as far as they were taken. They are taken in the order in which they
/// were decided.
#[derive(Drop)]
pub struct Ledger<A: Allocator = Global> {
    office: Office<A>,
    taken: u64,
    has_failed: bool,
}

impl<A: Allocator> Model for Ledger<A> {
    ghost use Rattle.ledger.specs.Taking.{LedgerState};

    ghost Value = { LedgerState A };

    ghost view = { λ l. record { users = l.office; taken = l.taken; has_failed = l.has_failed } };
}

impl<A: Allocator + Copy> Ledger<A> {
    /// No command is taken yet. Each name has the maildrop with which `Office::open` opens it.
    pub fn open(
        alloc: A,
        names: &[Name],
        kept: &Kept<A>,
        limits: Limits,
        keys: usize,
    ) -> Result<Self, Memory>
        requires { IsTrue (are_different names.now) }
        ensures { IfOk result (λ ledger. ledger ≡ opened_ledger limits keys kept.now names.now) }
    {
        Ok(Ledger {
            office: Office::open(alloc, names, kept, limits, keys)?,
            taken: 0,
            has_failed: false,
        })
    }

    /// How many commands were taken.
    pub fn taken(&self) -> u64
        ensures { result ≡ self.now.taken }
    {
        self.taken
    }

    /// Whether a command could not be taken.
    pub fn has_failed(&self) -> bool
        ensures { result ≡ self.now.has_failed }
    {
        self.has_failed
    }

    /// Takes the next command. If it changes what is kept of its user, the payload of that change is added to `out`, and the
    /// answer is true.
    ///
    /// The error is `Memory` also if the change doesn't fit into a payload: if its text has 2^32 octets or more, or its list
    /// 2^32 unique ids or more. A maildrop's widest limits allow such a text. It is `Memory` after 2^64 - 1 commands too.
    ///
    /// After an error `out` is as it was, the command doesn't count as taken, and no other one is taken: each later answer
    /// is `Memory`.
    pub fn take<B: Allocator + Copy>(
        &mut self,
        slot: u64,
        command: &Command<A>,
        out: &mut Vec<u8, B>,
    ) -> Result<bool, Memory>
        ensures users { OnOk result (self.new.users ≡ users_after self.old.users command.now) }
        ensures taken { OnOk result (self.new.taken ≡ self.old.taken + 1) }

        // What is added is the payload of what the command changes, or nothing.
        ensures added { OnOk result (out.new.items ≡ out.old.items ++ entry_bytes (entry_in_slot self.old.users slot command.now)) }
        ensures changes { IfOk result (λ changes. changes ≡ is_some (change_in self.old.users command.now)) }

        // What is added is read back.
        ensures read_back { OnOk result (IfSome (entry_in_slot self.old.users slot command.now) (λ e.
            record_in (payload e.slot e.name e.change) ≡ Ok (said.Entry e))) }
        ensures not_added { OnErr result (out.new.items ≡ out.old.items) }
        ensures not_taken { OnErr result (self.new.taken ≡ self.old.taken) }

        // After an error each later answer is one.
        ensures fails { OnErr result (self.new.has_failed ≡ true) }
        ensures goes_on { OnOk result (self.new.has_failed ≡ false) }
        ensures has_failed { self.old.has_failed ≡ true → IsErr result }
    {
        if self.has_failed || self.taken == u64::MAX {
            self.has_failed = true;
            return Err(Memory);
        }
        match follow(&mut self.office, slot, command, out) {
            Ok(changes) => {
                self.taken += 1;
                Ok(changes)
            }
            Err(error) => {
                self.has_failed = true;
                Err(error)
            }
        }
    }
}

/// Performs a command, and adds the payload of what it changes. After an error `out` is as it was, but the maildrops may
/// have changed.
fn follow<A: Allocator + Copy, B: Allocator + Copy>(
    office: &mut Office<A>,
    slot: u64,
    command: &Command<A>,
    out: &mut Vec<u8, B>,
) -> Result<bool, Memory>
    ensures users { OnOk result (office.new ≡ users_after office.old command.now) }
    ensures added { OnOk result (out.new.items ≡ out.old.items ++ entry_bytes (entry_in_slot office.old slot command.now)) }
    ensures changes { IfOk result (λ changes. changes ≡ is_some (change_in office.old command.now)) }
    ensures read_back { OnOk result (IfSome (entry_in_slot office.old slot command.now) (λ e.
        record_in (payload e.slot e.name e.change) ≡ Ok (said.Entry e))) }
    ensures not_added { OnErr result (out.new.items ≡ out.old.items) }
{
    let Some(change) = office.follow(command)? else {
        return Ok(false);
    };
    if !fits(&change) {
        return Err(Memory);
    }
    put_change(out, slot, &command.user, &change)?;
    Ok(true)
}
