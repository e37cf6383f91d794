//! The rows of accounts.
ghost use Rattle.std.specs.Prelude.{◌≡◌, Some, IfSome, is_some};
ghost use Rattle.std.specs.Option.{option_map};
ghost use Rattle.apop.specs.Accounts.{row_of as account_of_row, name_of};
ghost use Rattle.maildrop.specs.Text.{IsLine};

use apop::row_of;
use maildrop::Name;
use std::marker::Model;

/// A row `NAME METHOD SECRET` of an accounts file, as it is written there.
#[derive(Drop)]
pub struct AccountRow<'a> {
    bytes: &'a [u8],
    name: Name,
}

impl<'a> Model for AccountRow<'a> {
    ghost use Rattle.std.specs.Prelude.{◌≡◌, ℕ, List, Some};
    ghost use Rattle.std.specs.Option.{option_map};
    ghost use Rattle.apop.specs.Accounts.{row_of, name_of};
    ghost use Rattle.maildrop.specs.Text.{IsLine};

    ghost Value = { List ℕ };

    ghost view = { λ r. r.bytes.now };

    ghost invariant = { λ r. IsLine r.bytes.now × (option_map name_of (row_of r.bytes.now) ≡ Some r.name) };
}

impl<'a> AccountRow<'a> {
    /// The row of these bytes, if they are one.
    pub fn new(bytes: &'a [u8]) -> Option<Self>
        requires { IsLine bytes.now }
        ensures valid { is_some result ≡ is_some (account_of_row bytes.now) }
        ensures value { IfSome result (λ row. row ≡ bytes.now) }
    {
        match row_of(bytes) {
            Some(row) => Some(AccountRow {
                bytes,
                name: row.name,
            }),
            None => None,
        }
    }

    /// The name of the account.
    pub fn name(&self) -> Name
        ensures { option_map name_of (account_of_row self.now) ≡ Some result }
    {
        self.name
    }

    /// The bytes of the row.
    pub fn get(&self) -> &'a [u8]
        ensures value { result.now ≡ self.now }
        ensures line { IsLine self.now }
    {
        self.bytes
    }
}
