//! The accounts of a script, as bytes of an accounts file.
ghost use Rattle.std.specs.Prelude.{◌≡◌, ◌++◌, ◌∷◌, [], ◌⊎◌, Ok, Err, OnOk, OnErr, IfErr};
ghost use Rattle.apop.specs.Accounts.{row_of as account_of_row};
ghost use Rattle.script.specs.Seen.{AreNamesOf};
ghost use Rattle.script.specs.Rows.{AreRows, accounts_written};
ghost use Rattle.script.specs.Scripts.{with_account};

use crate::account_row::AccountRow;
use crate::fault::ScriptFault;
use ballot::Memory;
use maildrop::Name;
use std::alloc::Allocator;
use std::collections::BTreeSet;

/// Adds a row with its line feed. After `Memory` the rows are as they were.
fn put_row<A: Allocator>(rows: &mut Vec<u8, A>, row: &[u8]) -> Result<(), Memory>
    ensures ok { OnOk result (rows.new.items ≡ rows.old.items ++ (row.now ++ 10 ∷ [])) }
    ensures err { OnErr result (rows.new.items ≡ rows.old.items) }
{
    let len = rows.len();
    rows.extend_from_slice(row)?;
    if rows.extend_from_slice(b"\n").is_err() {
        rows.truncate(len);
        return Err(Memory);
    }
    Ok(())
}

/// Adds an account, if its name is new. The set has the names of the accounts, so that none is compared with all
/// others. After an error the rows are as they were.
pub(crate) fn add_account<A: Allocator + Copy>(
    rows: &mut Vec<u8, A>,
    names: &mut BTreeSet<Name, A>,
    row: &AccountRow<'_>,
) -> Result<(), ScriptFault>
    requires rows { AreRows rows.old.items }
    requires names { AreNamesOf names.old (accounts_written rows.old.items) }
    ensures ok { OnOk result
        (with_account (accounts_written rows.old.items) (account_of_row row.now) ≡ Ok (accounts_written rows.new.items)) }
    ensures refused { IfErr result (λ error. (error ≡ ScriptFault.Memory)
        ⊎ (with_account (accounts_written rows.old.items) (account_of_row row.now) ≡ Err error)) }
    ensures rows { AreRows rows.new.items }
    ensures names { AreNamesOf names.new (accounts_written rows.new.items) }
    ensures err { OnErr result (rows.new.items ≡ rows.old.items) }
{
    let name = row.name();
    if names.contains(&name) {
        return Err(ScriptFault::NameTwice);
    }
    let len = rows.len();
    put_row(rows, row.get())?;
    if names.insert(name).is_err() {
        rows.truncate(len);
        return Err(ScriptFault::Memory);
    }
    Ok(())
}
