//! The accounts of a file, as `serve` reads them.

use apop::{Accounts, AccountsError};
use ports::{Fault, read_within};
use std::fs::File;
use std::io::ErrorKind;
use std::rt::Files;

/// The most bytes of an accounts file.
const LARGEST_ACCOUNTS: u64 = 64 << 20;

/// The accounts of this file. `Value` if it is too large.
pub fn accounts_in<R: AllocGlobal + Files<File = File>>(
    rt: &R,
    path: &str,
) -> Result<Accounts, Fault> {
    let mut file = match std::fs::open(rt, path) {
        Ok(file) => file,
        Err(error) if error.kind() == ErrorKind::OutOfMemory => return Err(Fault::Memory),
        Err(_) => return Err(Fault::Read),
    };
    let bytes = read_within(rt.alloc(), &mut file, LARGEST_ACCOUNTS)?;
    if bytes.len() as u64 > LARGEST_ACCOUNTS {
        return Err(Fault::Value);
    }
    match Accounts::read(rt.alloc(), &bytes) {
        Ok(accounts) => Ok(accounts),
        Err(AccountsError::Line(line)) => Err(Fault::Account(line)),
        Err(AccountsError::Twice(line)) => Err(Fault::NameTwice(line)),
        Err(AccountsError::Memory) => Err(Fault::Memory),
    }
}
