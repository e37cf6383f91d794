//! What the services begin with, and what their clients say.

use apop::{Accounts, Stamp, stamp};
use maildrop::Limits;
use pop3_wire::{Line, LineBytes};
use std::alloc::Global;
use std::test::Fail;

/// The accounts of each service.
pub const ACCOUNTS: &[u8] = b"alice pass s\nbob pass s\ncarol pass s\n";

/// The users with an account. The first few of them have clients and mail in a service.
pub const USERS: &[&str] = &["alice", "bob", "carol"];

/// For how many slots a node proposes.
pub const WINDOW: u64 = 3;

/// What a client says first.
const LOGINS: &[&str] = &["USER alice", "USER bob", "USER carol"];

/// What clients say after that, in the order in which most of them say it. The first word is never said.
pub const WORDS: &[&str] = &[
    "", "PASS s", "STAT", "DELE 1", "RETR 1", "UIDL", "QUIT", "NOOP", "RETR 2", "DELE 2", "LIST",
    "RSET", "TOP 1 0", "CAPA", "PASS t", "what",
];

/// The words of a user's client with this number: 0 is the login.
pub fn words_of(user: usize, number: usize) -> &'static str {
    let words = if number == 0 {
        LOGINS.get(user)
    } else {
        WORDS.get(number)
    };
    match words {
        Some(words) => words,
        None => "NOOP",
    }
}

/// The accounts of these rows.
pub fn accounts(alloc: Global, rows: &[u8]) -> Result<Accounts, Fail> {
    match Accounts::read(alloc, rows) {
        Ok(accounts) => Ok(accounts),
        Err(_) => Err("no accounts")?,
    }
}

/// Four messages, 60 octets and six unique ids: services meet each of these limits.
pub fn limits() -> Result<Limits, Fail> {
    Ok(Limits::new(4, 60, 6).ok_or("no limits")?)
}

/// The line of these bytes.
pub fn line(bytes: &[u8]) -> Result<Line, Fail> {
    Ok(Line::Whole(LineBytes::new(bytes).ok_or("no line")?))
}

/// The timestamp of each greeting.
pub fn greeting_stamp() -> Result<Stamp, Fail> {
    Ok(stamp(b"1", b"localhost").ok_or("no stamp")?)
}
