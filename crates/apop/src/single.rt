//! A table of one account.
ghost use Rattle.std.specs.Prelude.{◌≡◌, ◌↔◌, ◌∷◌, [], IsSome, IsTrue, IfOk, IfSome, IsErr, OnErr};
ghost use Rattle.apop.specs.Accounts.{is_secret as secret_test};

use crate::accounts::Accounts;
use crate::method::Method;
use crate::row::{Row, is_secret};
use ballot::Memory;
use maildrop::Name;
use std::alloc::Allocator;

impl<A: Allocator + Copy> Accounts<A> {
    /// The table of one account, if its secret is one: 1 to 255 bytes of 0x20 to 0x7E or 0x80 to 0xFF.
    pub fn single(
        alloc: A,
        name: Name,
        method: Method,
        secret: &[u8],
    ) -> Result<Option<Self>, Memory>
        ensures valid { IfOk result (λ accounts. IsSome accounts ↔ IsTrue (secret_test secret.now)) }
        ensures value { IfOk result (λ accounts. IfSome accounts
            (λ a. a ≡ record { name = name; method = method; secret = secret.now } ∷ [])) }
        ensures memory { IsErr result → IsTrue (secret_test secret.now) }
    {
        if !is_secret(secret) {
            return Ok(None);
        }
        let mut accounts = Accounts::new(alloc);
        accounts.push(&Row {
            name,
            method,
            secret,
        })?;
        Ok(Some(accounts))
    }
}
