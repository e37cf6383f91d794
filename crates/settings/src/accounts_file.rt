//! The accounts of a file.
ghost use Rattle.std.specs.Arc.{arc_value};
ghost use Rattle.std.specs.Prelude.{◌≡◌, ◌<◌, ◌⊎◌, Ok, Some, length, map, IfOk, IfErr};
ghost use Rattle.apop.specs.Accounts as table;
ghost use Rattle.apop.specs.Accounts.{name_of};
ghost use Rattle.settings.specs.Faults as faults;

use crate::account_lines::{AccountLines, LARGEST_ACCOUNTS};
use apop::{Accounts, AccountsError};
use ports::{Fault, read_file};
use std::alloc::Global;
use std::rt::Files;
use std::sync::Arc;

/// The fault of an accounts file that is refused.
fn fault_of(error: AccountsError) -> Fault
    ensures { result ≡ faults.fault_of error }
{
    match error {
        AccountsError::Line(line) => Fault::Account(line),
        AccountsError::Twice(line) => Fault::NameTwice(line),
        AccountsError::Memory => Fault::Memory,
    }
}

/// The accounts of a file of these bytes.
fn accounts_in(alloc: Global, bytes: &[u8]) -> Result<Accounts, Fault>
    ensures value { IfOk result (λ accounts. table.accounts_of bytes.now ≡ Ok accounts) }
    ensures refused { IfErr result
        (λ fault. (fault ≡ Fault.Memory) ⊎ (faults.fault_in (table.accounts_of bytes.now) ≡ Some fault)) }
{
    match Accounts::read(alloc, bytes) {
        Ok(accounts) => Ok(accounts),
        Err(error) => Err(fault_of(error)),
    }
}

/// Returns the accounts of the file of this path. It is read up to the first line that is no account. `Account` or `NameTwice` has the
/// first bad line, counted from 1. `Value` if the file has more than 64 MiB, `Read` if it can't be read, or `Memory`.
pub fn accounts_of<R: Files>(rt: &R, alloc: Global, path: &str) -> Result<Accounts, Fault> {
    let mut lines = AccountLines::new();
    let bytes = read_file(rt, alloc, path, LARGEST_ACCOUNTS, &mut lines)?;
    if bytes.len() as u64 > LARGEST_ACCOUNTS {
        return Err(Fault::Value);
    }
    accounts_in(alloc, bytes.as_slice())
}

/// Returns the accounts of the file of this path, as `accounts_of` does. `NoAccounts` if it has none: it may be one that is being
/// written.
pub fn some_accounts_of<R: Files>(rt: &R, alloc: Global, path: &str) -> Result<Arc<Accounts>, Fault>
    ensures { IfOk result (λ accounts. 0 < length (map name_of (arc_value accounts))) }
{
    let accounts = accounts_of(rt, alloc, path)?;
    if accounts.names().is_empty() {
        return Err(Fault::NoAccounts);
    }
    Ok(Arc::new(alloc, accounts)?)
}
