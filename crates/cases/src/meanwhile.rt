//! What others do to a session's maildrop while the session goes on.

use ballot::Items;
use maildrop::{Op, Text};
use std::alloc::Global;
use std::test::Fail;

/// A message of these lines, which are parted by `|`.
fn mail_of(alloc: Global, lines: &str) -> Result<Op, Fail> {
    let mut all = Vec::new(alloc);
    for line in lines.split('|') {
        all.push(Items::from_bytes(alloc, line.as_bytes())?)?;
    }
    let text = Text::new(alloc, &all)?.ok_or("a line feed stands in a line")?;
    Ok(Op::Mail { text, key: None })
}

/// Reads `mail LINES` (a message comes in, its lines parted by `|`), `take` (another session takes the lock) or `break`
/// (the operator breaks the lock).
pub fn operation_of(alloc: Global, words: &str) -> Result<Op, Fail> {
    match words.split_once(' ').unwrap_or((words, "")) {
        ("mail", lines) => mail_of(alloc, lines),
        ("take", "") => Ok(Op::Take),
        ("break", "") => Ok(Op::Break),
        _ => Err("no such thing happens meanwhile")?,
    }
}
