//! Why an accounts file is refused.

use crate::mistake::Mistake;
use apop::{Accounts, AccountsError, Method, row_of};
use maildrop::{Name, next_line};
use ports::{ReadOn, read_file};
use std::fs;
use std::rt::Files;
use thiserror::Error;

/// The most bytes that an accounts file has.
const LARGEST: u64 = 64 << 20;

/// The most bytes of a line that is an account: a name of 40, a method of 4, a secret of 255, two spaces, a carriage return.
const LONGEST_LINE: usize = 302;

/// A rule for the lines of an accounts file.
#[derive(Clone, Copy, Debug, PartialEq, Eq, Error)]
pub enum LineRule {
    #[error("a line can't be a comment")]
    NoComments,
    #[error("a line is NAME METHOD SECRET, with one space between")]
    ThreeParts,
    #[error("the method is pass or apop")]
    MethodWord,
    #[error("the name is 1 to 40 visible ASCII characters")]
    UserName,
    #[error("the secret is 1 to 255 bytes without control characters")]
    SecretBytes,
}

/// Reads on whatever comes.
#[derive(Drop)]
struct Anything;

impl ReadOn for Anything {
    fn reads_on(&mut self, _bytes: &[u8]) -> bool {
        true
    }
}

/// What stands before the first space, and what stands behind it.
fn cut_at_space(bytes: &[u8]) -> Option<(&[u8], &[u8])> {
    let place = bytes.iter().position(|byte| *byte == b' ')?;
    let behind = place.checked_add(1)?;
    Some((bytes.get(..place)?, bytes.get(behind..)?))
}

/// The name and the method of a line with three parts, of which none is empty but perhaps the last.
fn parts_of(line: &[u8]) -> Option<(&[u8], &[u8])> {
    let (name, rest) = cut_at_space(line)?;
    let (method, _secret) = cut_at_space(rest)?;
    if name.is_empty() || method.is_empty() {
        return None;
    }
    Some((name, method))
}

/// The rule that a line breaks which is no account.
fn rule_of(line: &[u8]) -> LineRule {
    if line.starts_with(b"#") {
        return LineRule::NoComments;
    }
    let Some((name, method)) = parts_of(line) else {
        return LineRule::ThreeParts;
    };
    if Method::from_word(method).is_none() {
        LineRule::MethodWord
    } else if Name::new(name).is_none() {
        LineRule::UserName
    } else {
        LineRule::SecretBytes
    }
}

/// The line of this number, counted from 1.
fn line_at(file: &[u8], number: usize) -> Option<&[u8]> {
    let mut rest = file;
    for place in 1..=number {
        let (line, behind) = next_line(rest)?;
        if place == number {
            return Some(line);
        }
        rest = behind;
    }
    None
}

/// Whether each line of the front of a file is empty or an account. Its last line may be cut.
fn are_accounts(front: &[u8]) -> bool {
    let mut rest = front;
    for _ in 0..front.len() {
        let Some((line, behind)) = next_line(rest) else {
            return true;
        };
        if behind.is_empty() {
            return line.len() <= LONGEST_LINE;
        }
        if !line.is_empty() && row_of(line).is_none() {
            return false;
        }
        rest = behind;
    }
    true
}

/// Why a service refuses an accounts file of these bytes, or of more that begin with them if they are too many.
fn mistake_in<R: AllocGlobal>(rt: &R, bytes: &[u8]) -> Option<Mistake<'static>> {
    if bytes.len() as u64 > LARGEST {
        return are_accounts(bytes).then_some(Mistake::LargeAccounts);
    }
    match Accounts::read(rt.alloc(), bytes) {
        Err(AccountsError::Line(number)) => {
            let line = line_at(bytes, number)?;
            Some(Mistake::AccountLine(number, rule_of(line)))
        }
        // Which name stands there twice the fault says.
        Err(AccountsError::Twice(_) | AccountsError::Memory) => None,
        Ok(_accounts) => None,
    }
}

/// Why a service refuses the accounts file of this path, if that is known. Only an ordinary file can be read twice.
pub fn mistake_in_accounts<R: AllocGlobal + Files>(rt: &R, path: &str) -> Option<Mistake<'static>> {
    match fs::metadata(rt, path) {
        Ok(found) if found.is_file() => {}
        _ => return None,
    }
    match read_file(rt, rt.alloc(), path, LARGEST, &mut Anything) {
        Ok(bytes) => mistake_in(rt, &bytes),
        Err(_) => None,
    }
}
