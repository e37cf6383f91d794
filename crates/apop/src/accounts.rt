//! The table of accounts.
ghost use Rattle.std.specs.Prelude.{◌≡◌, ◌++◌, ◌∷◌, [], false, map, OnOk};
ghost use Rattle.apop.specs.Accounts.{has_account, name_of, HaveDifferentNames};
ghost use Rattle.apop.specs.Login.{passes, passes_apop};

use crate::credential::Credential;
use crate::row::Row;
use crate::timestamp::Stamp;
use ballot::{Items, Memory};
use indexmap::IndexMap;
use maildrop::Name;
use std::alloc::{Allocator, Global};
use std::hash::{BuildHasherDefault, FoldHasher};
use std::marker::Model;

/// Credentials by the names of their users, in the order of the accounts.
type Credentials<A> = IndexMap<Name, Credential<A>, BuildHasherDefault<FoldHasher>, A>;

/// The users who may log in, each with a method and a secret, in the order of their file. A user is found by a hash of
/// the name, so a login costs the same however many users there are.
#[derive(Drop)]
pub struct Accounts<A: Allocator = Global> {
    /// The names once more, in one piece, as they are handed out.
    names: Vec<Name, A>,
    credentials: Credentials<A>,
}

impl<A: Allocator> Model for Accounts<A> {
    ghost use Rattle.std.specs.Prelude.{◌≡◌, List, map};
    ghost use Rattle.apop.specs.Accounts.{Account, HaveDifferentNames, name_of};
    ghost use Rattle.apop.specs.Table.{accounts_in_table};

    ghost Value = { List Account };

    ghost view = { λ a. accounts_in_table a.credentials.entries };

    ghost invariant = { λ a. (a.names.items ≡ map name_of (accounts_in_table a.credentials.entries))
        × HaveDifferentNames (accounts_in_table a.credentials.entries) };
}

impl<A: Allocator + Copy> Accounts<A> {
    /// No accounts. Takes no memory.
    pub(crate) fn new(alloc: A) -> Self
        ensures { result ≡ [] }
    {
        Accounts {
            names: Vec::new(alloc),
            credentials: IndexMap::new(alloc),
        }
    }

    /// Whether an account has this name, by one look-up. Takes no memory.
    pub fn has(&self, name: &Name) -> bool
        ensures { result ≡ has_account self.now name.now }
    {
        self.credentials.contains_key(name)
    }

    /// Adds an account at the end.
    pub(crate) fn push(&mut self, row: &Row<'_>) -> Result<(), Memory>
        requires { has_account self.old row.now.name ≡ false }
        ensures { OnOk result
            (self.new ≡ self.old ++ record { name = row.now.name; method = row.now.method; secret = row.now.secret.now } ∷ []) }
    {
        let secret = Items::from_bytes(*self.names.allocator(), row.secret)?;
        self.names.reserve(1)?;
        let credential = Credential {
            method: row.method,
            secret,
        };
        self.credentials.insert(row.name, credential)?;
        self.names.push_reserved(row.name);
        Ok(())
    }

    /// The names of the accounts, in order, all different.
    pub fn names(&self) -> &[Name]
        ensures value { result.now ≡ map name_of self.now }
        ensures different { HaveDifferentNames self.now }
    {
        self.names.as_slice()
    }

    /// Whether a user logs in by PASS with this secret (RFC 1939 section 7): not if no account has the name.
    pub fn check_pass(&self, name: &Name, secret: &[u8]) -> bool
        ensures { result ≡ passes self.now name.now secret.now }
    {
        match self.credentials.get(name) {
            Some(credential) => credential.admits_secret(secret),
            None => false,
        }
    }

    /// Whether a user logs in by APOP with this digest, in lower-case hexadecimal, after a greeting with this
    /// timestamp (RFC 1939 section 7): not if no account has the name. Takes no memory.
    pub fn check_apop(&self, name: &Name, stamp: &Stamp, digest: &[u8]) -> bool
        ensures { result ≡ passes_apop self.now name.now stamp.now digest.now }
    {
        match self.credentials.get(name) {
            Some(credential) => credential.admits_digest(stamp, digest),
            None => false,
        }
    }
}
