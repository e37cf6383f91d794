//! Names, tickets, limits and texts.

use ballot::{Items, NodeId};
use maildrop::{Limits, Name, Op, Text, Ticket};
use std::alloc::Allocator;
use std::test::Fail;

pub fn name(word: &str) -> Result<Name, Fail> {
    Ok(Name::new(word.as_bytes()).ok_or("no name")?)
}

pub fn alice() -> Result<Name, Fail> {
    name("alice")
}

/// Limits of nine messages, 1,000 octets and nine unique ids.
pub fn limits() -> Result<Limits, Fail> {
    Ok(Limits::new(9, 1_000, 9).ok_or("no limits")?)
}

pub fn widest_limits() -> Result<Limits, Fail> {
    Ok(Limits::new(999_999_999, 1 << 40, 1 << 63).ok_or("no limits")?)
}

/// The ticket of node 1 with this number.
pub fn ticket(number: u64) -> Result<Ticket, Fail> {
    node_ticket(1, number)
}

pub fn node_ticket(node: u8, number: u64) -> Result<Ticket, Fail> {
    let node = NodeId::new(node).ok_or("no node")?;
    Ok(Ticket::new(node, number).ok_or("no ticket")?)
}

/// A text of these lines.
pub fn text<A: Allocator + Copy>(alloc: A, lines: &[&str]) -> Result<Text<A>, Fail> {
    let mut all = Vec::new(alloc);
    for line in lines {
        all.push(Items::from_bytes(alloc, line.as_bytes())?)?;
    }
    Ok(Text::new(alloc, &all)?.ok_or("a line feed stands in a line")?)
}

/// A message of these lines that comes in without a key.
pub fn mail<A: Allocator + Copy>(alloc: A, lines: &[&str]) -> Result<Op<A>, Fail> {
    let text = text(alloc, lines)?;
    Ok(Op::Mail { text, key: None })
}
