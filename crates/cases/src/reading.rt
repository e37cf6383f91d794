//! The cases of a file: lines of a key, a colon and a value. Empty lines, and lines that begin with `#`, say nothing.
//!
//! | Key | Value |
//! |---|---|
//! | `case` | the name of a case, which goes on to the next one |
//! | `user`, `method`, `secret`, `nonce`, `host` | an option of `lone`, if it isn't the usual one |
//! | `mbox` | bytes of the mailbox file |
//! | `C` | a line of the client, which first awaits all replies before it |
//! | `raw` | bytes that the client sends without waiting |
//! | `S` | a line of the server |
//! | `got` | bytes of the server before the rest of a line |
//! | `status`, `told` | the exit status, if it isn't 0, and a line on standard error |
//! | `meanwhile` | what others do to the maildrop at this place: `mail LINES`, `take` or `break` |
//! | `left` | the unique ids that the next session gets, or `locked` |
//! | `in` | a line of a script, before which all that the lines before it write is awaited |
//! | `out` | a line that the script writes |
//! | `only` | what the lines begin with that count; the others may be any |
//!
//! `mbox`, `C`, `raw`, `S`, `got`, `in`, `out` and `told` may say how often their value stands there, as in `C x 3: NOOP`. A case
//! with `meanwhile` or `left` is one session over a desk, with the limits of nine messages and 1,000 octets.

use crate::case::{Case, Turn};
use crate::escapes::bytes_of;
use crate::meanwhile::operation_of;
use maildrop::Op;
use std::alloc::{AllocError, Global};
use std::test::Fail;

/// The key of a line, how often its value stands there, and the value.
fn parts_of(line: &str) -> Result<(&str, u32, &str), Fail> {
    let (head, rest) = line.split_once(':').ok_or("a line without a colon")?;
    let value = rest.strip_prefix(' ').unwrap_or(rest);
    match head.split_once(" x ") {
        None => Ok((head, 1, value)),
        Some((key, count)) => Ok((key, count.parse::<u32>()?, value)),
    }
}

fn extend(bytes: &mut Vec<u8>, count: u32, more: &[u8], end: &[u8]) -> Result<(), AllocError> {
    for _ in 0..count {
        bytes.extend_from_slice(more)?;
        bytes.extend_from_slice(end)?;
    }
    Ok(())
}

/// The client awaits the replies so far, before it sends what follows.
fn wait(case: &mut Case, meanwhile: Option<Op>) -> Result<(), Fail> {
    case.turns.push(Turn {
        sent: case.sent.len(),
        wanted: case.wanted.len(),
        meanwhile,
    })?;
    Ok(())
}

/// Adds a line that says what is sent or what is wanted, if it is one.
fn add_bytes(case: &mut Case, key: &str, count: u32, bytes: &[u8]) -> Result<bool, Fail> {
    match key {
        "C" => {
            wait(case, None)?;
            extend(&mut case.sent, count, bytes, b"\r\n")?;
        }
        "in" => {
            case.is_script = true;
            wait(case, None)?;
            extend(&mut case.sent, count, bytes, b"\n")?;
        }
        "raw" => extend(&mut case.sent, count, bytes, b"")?,
        "out" => extend(&mut case.wanted, count, bytes, b"\n")?,
        "S" => extend(&mut case.wanted, count, bytes, b"\r\n")?,
        "got" => extend(&mut case.wanted, count, bytes, b"")?,
        "told" => extend(&mut case.told, count, bytes, b"\n")?,
        _ => return Ok(false),
    }
    Ok(true)
}

/// Adds to the mailbox file.
fn add_mbox(case: &mut Case, alloc: Global, count: u32, bytes: &[u8]) -> Result<(), Fail> {
    let mut mbox = case.settings.mbox.take().unwrap_or(Vec::new(alloc));
    extend(&mut mbox, count, bytes, b"")?;
    case.settings.mbox = Some(mbox);
    Ok(())
}

/// Adds a line that says what the session is served with, if it is one.
fn set(case: &mut Case, key: &str, bytes: Vec<u8>) -> bool {
    match key {
        "user" => case.settings.user = bytes,
        "method" => case.settings.method = bytes,
        "secret" => case.settings.secret = bytes,
        "nonce" => case.settings.nonce = bytes,
        "host" => case.settings.host = bytes,
        "only" => case.only = Some(bytes),
        _ => return false,
    }
    true
}

/// Adds a line of text.
fn add_words(case: &mut Case, alloc: Global, key: &str, words: &str) -> Result<(), Fail> {
    match key {
        "status" => case.status = words.parse::<u8>()?,
        "left" => case.left = Some(words.to_string(alloc)?),
        "meanwhile" => wait(case, Some(operation_of(alloc, words)?))?,
        _ => Err("an unknown key")?,
    }
    Ok(())
}

/// Adds a line.
fn add(case: &mut Case, alloc: Global, line: &str) -> Result<(), Fail> {
    let (key, count, value) = parts_of(line)?;
    let bytes = bytes_of(alloc, value)?;
    if key == "mbox" {
        return add_mbox(case, alloc, count, bytes.as_slice());
    }
    if add_bytes(case, key, count, bytes.as_slice())? {
        return Ok(());
    }
    if count != 1 {
        Err("this key stands once")?;
    }
    if set(case, key, bytes) {
        return Ok(());
    }
    add_words(case, alloc, key, value)
}

/// The cases of a file, each from a line `case: NAME` on.
pub fn cases_of(alloc: Global, text: &str) -> Result<Vec<Case>, Fail> {
    let mut cases: Vec<Case> = Vec::new(alloc);
    for line in text.lines() {
        if line.is_empty() || line.starts_with('#') {
            continue;
        }
        match line.strip_prefix("case: ") {
            Some(name) => cases.push(Case::new(alloc, name)?)?,
            None => add(
                cases.last_mut().ok_or("a line before the first case")?,
                alloc,
                line,
            )?,
        }
    }
    Ok(cases)
}
