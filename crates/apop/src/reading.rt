//! Reads a file of accounts.
ghost use Rattle.std.specs.Prelude.{◌≡◌, ◌++◌, ◌+◌, [], ◌⊎◌, Ok, Err, Some, None, OnOk, IfOk, IfErr};
ghost use Rattle.std.specs.Option.{option_to_list};
ghost use Rattle.apop.specs.Accounts.{accounts_of, fault_of, row_of as account_of_row};

use crate::accounts::Accounts;
use crate::error::AccountsError;
use crate::row::row_of;
use maildrop::next_line;
use std::alloc::Allocator;

/// Adds the account of the line of this number, if the line isn't empty.
fn add_line<A: Allocator + Copy>(
    accounts: &mut Accounts<A>,
    number: usize,
    line: &[u8],
) -> Result<(), AccountsError>
    ensures sound { OnOk result (fault_of number accounts.old line.now ≡ None) }
    ensures added { OnOk result (accounts.new ≡ accounts.old ++ option_to_list (account_of_row line.now)) }
    ensures refused { IfErr result
        (λ error. (error ≡ AccountsError.Memory) ⊎ (fault_of number accounts.old line.now ≡ Some error)) }
{
    if line.is_empty() {
        return Ok(());
    }
    let Some(row) = row_of(line) else {
        return Err(AccountsError::Line(number));
    };
    if accounts.has(&row.name) {
        return Err(AccountsError::Twice(number));
    }
    accounts.push(&row).map_err(|_| AccountsError::Memory)?;
    Ok(())
}

impl<A: Allocator + Copy> Accounts<A> {
    /// The accounts of a file. Each line that isn't empty is `name method secret`, with one space between: a name of
    /// 1 to 40 bytes of 0x21 to 0x7E, the method `pass` or `apop`, and the rest of the line as the secret, 1 to 255
    /// bytes of 0x20 to 0x7E or 0x80 to 0xFF. A line feed ends a line, and one carriage return directly before it is
    /// dropped; a last line without a line feed is a line. Refuses the first line that is no account, or whose name
    /// stands before it.
    pub fn read(alloc: A, bytes: &[u8]) -> Result<Self, AccountsError>
        ensures value { IfOk result (λ accounts. accounts_of bytes.now ≡ Ok accounts) }
        ensures refused { IfErr result
            (λ error. (error ≡ AccountsError.Memory) ⊎ (accounts_of bytes.now ≡ Err error)) }
    {
        let mut accounts = Accounts::new(alloc);
        let mut number = 0;
        let mut rest = bytes;
        while let Some((line, behind)) = next_line(rest) {
            number += 1;
            add_line(&mut accounts, number, line)?;
            rest = behind;
        }
        Ok(accounts)
    }
}
