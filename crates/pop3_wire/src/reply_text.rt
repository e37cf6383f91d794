//! The bytes of replies, one function for each occasion that tells something.
ghost use Rattle.std.specs.Prelude.{◌≡◌, ◌≤◌, ◌++◌, false, length, codes, decimal, IfOk, OnOk};
ghost use Rattle.std.specs.List.{flat_map};
ghost use Rattle.pop3_wire.specs.Limits.{longest_reply_line};
ghost use Rattle.pop3_wire.specs.Reply as spec;

use crate::listed::{Identified, Listed};
use crate::stuffing::{put_top, put_wire, wire_room};
use crate::writing::{put, put_number, with_room};
use ballot::Memory;
use maildrop::Text;
use std::alloc::Allocator;

/// At least as many octets as any first line has but the greeting.
const FIRST_LINE: u128 = 80;

/// At least as many octets as the line of a message has in a listing, for the numbers that a maildrop can have.
const LISTED_LINE: u128 = 32;

/// Room for the headers of most messages and a few lines more.
const TOP_ROOM: u128 = 4096;

/// A reply that tells nothing.
pub(crate) fn fixed<A: Allocator>(alloc: A, words: &[u8]) -> Result<Vec<u8, A>, Memory>
    requires { length words.now ≤ longest_reply_line }
    ensures value { IfOk result (λ text. text.items ≡ words.now) }
    ensures short { IfOk result (λ text. spec.HasShortFirstLine text.items) }
{
    Ok(Vec::from_slice(alloc, words)?)
}

pub(crate) fn greeting<A: Allocator>(
    alloc: A,
    nonce: &[u8],
    host: &[u8],
) -> Result<Vec<u8, A>, Memory>
    ensures value { IfOk result (λ text. text.items ≡ spec.greeting nonce.now host.now) }
    ensures short { length nonce.now ≤ 60 → length host.now ≤ 100 →
        IfOk result (λ text. spec.HasShortFirstLine text.items) }
{
    let mut text = with_room(alloc, 32 + nonce.len() as u128 + host.len() as u128)?;
    put(&mut text, b"+OK POP3 server ready <")?;
    put(&mut text, nonce)?;
    put(&mut text, b"@")?;
    put(&mut text, host)?;
    put(&mut text, b">\r\n")?;
    Ok(text)
}

pub(crate) fn maildrop_has<A: Allocator>(
    alloc: A,
    messages: u64,
    octets: u64,
) -> Result<Vec<u8, A>, Memory>
    ensures value { IfOk result (λ text. text.items ≡ spec.maildrop_has messages octets) }
    ensures short { IfOk result (λ text. spec.HasShortFirstLine text.items) }
{
    let mut text = with_room(alloc, FIRST_LINE)?;
    put(&mut text, b"+OK maildrop has ")?;
    put_number(&mut text, messages)?;
    put(&mut text, b" messages (")?;
    put_number(&mut text, octets)?;
    put(&mut text, b" octets)\r\n")?;
    Ok(text)
}

/// Adds two numbers, a line of a listing.
fn put_numbers<A: Allocator>(text: &mut Vec<u8, A>, first: u64, second: u64) -> Result<(), Memory>
    ensures { OnOk result (text.new.items ≡ text.old.items ++ spec.number_line first second) }
{
    put_number(text, first)?;
    put(text, b" ")?;
    put_number(text, second)?;
    put(text, b"\r\n")
}

/// A reply that tells two numbers.
pub(crate) fn two_numbers<A: Allocator>(
    alloc: A,
    first: u64,
    second: u64,
) -> Result<Vec<u8, A>, Memory>
    ensures value { IfOk result (λ text. text.items ≡ codes "+OK " ++ spec.number_line first second) }
    ensures code { IfOk result (λ text. spec.has_response_code text.items ≡ false) }
    ensures short { IfOk result (λ text. spec.HasShortFirstLine text.items) }
{
    let mut text = with_room(alloc, FIRST_LINE)?;
    put(&mut text, b"+OK ")?;
    put_numbers(&mut text, first, second)?;
    Ok(text)
}

fn put_scans<A: Allocator>(text: &mut Vec<u8, A>, messages: &[Listed]) -> Result<(), Memory>
    ensures { OnOk result (text.new.items ≡ text.old.items ++ flat_map (λ message. spec.number_line message.number message.octets) messages.now) }
{
    for message in messages {
        put_numbers(text, message.number, message.octets)?;
    }
    Ok(())
}

fn put_unique_ids<A: Allocator>(
    text: &mut Vec<u8, A>,
    messages: &[Identified],
) -> Result<(), Memory>
    ensures { OnOk result (text.new.items ≡ text.old.items ++ flat_map (λ message. spec.number_line message.number message.uid) messages.now) }
{
    for message in messages {
        put_numbers(text, message.number, message.uid)?;
    }
    Ok(())
}

pub(crate) fn scan_listings<A: Allocator>(
    alloc: A,
    octets: u64,
    messages: &[Listed],
) -> Result<Vec<u8, A>, Memory>
    ensures value { IfOk result (λ text. text.items ≡ spec.scan_listings octets messages.now) }
    ensures code { IfOk result (λ text. spec.has_response_code text.items ≡ false) }
    ensures short { IfOk result (λ text. spec.HasShortFirstLine text.items) }
{
    let mut text = with_room(alloc, FIRST_LINE + LISTED_LINE * messages.len() as u128)?;
    put(&mut text, b"+OK ")?;
    put_number(&mut text, messages.len() as u64)?;
    put(&mut text, b" messages (")?;
    put_number(&mut text, octets)?;
    put(&mut text, b" octets)\r\n")?;
    put_scans(&mut text, messages)?;
    put(&mut text, b".\r\n")?;
    Ok(text)
}

pub(crate) fn unique_id_listings<A: Allocator>(
    alloc: A,
    messages: &[Identified],
) -> Result<Vec<u8, A>, Memory>
    ensures value { IfOk result (λ text. text.items ≡ spec.unique_id_listings messages.now) }
    ensures short { IfOk result (λ text. spec.HasShortFirstLine text.items) }
{
    let mut text = with_room(alloc, FIRST_LINE + LISTED_LINE * messages.len() as u128)?;
    put(&mut text, b"+OK\r\n")?;
    put_unique_ids(&mut text, messages)?;
    put(&mut text, b".\r\n")?;
    Ok(text)
}

/// Adds the first line of the reply to RETR.
fn put_message_line<A: Allocator>(text: &mut Vec<u8, A>, octets: u64) -> Result<(), Memory>
    ensures { OnOk result (text.new.items ≡ text.old.items ++ (codes "+OK " ++ decimal octets ++ codes " octets\r\n")) }
{
    put(text, b"+OK ")?;
    put_number(text, octets)?;
    put(text, b" octets\r\n")
}

/// The first line of the reply to RETR, for a text of so many octets.
pub fn message_line<A: Allocator>(alloc: A, octets: u64) -> Result<Vec<u8, A>, Memory>
    ensures { IfOk result (λ line. line.items ≡ codes "+OK " ++ decimal octets ++ codes " octets\r\n") }
{
    let mut line = with_room(alloc, FIRST_LINE)?;
    put_message_line(&mut line, octets)?;
    Ok(line)
}

pub(crate) fn message_text<A: Allocator + Copy>(
    alloc: A,
    octets: u64,
    text: &Text<A>,
) -> Result<Vec<u8, A>, Memory>
    ensures value { IfOk result (λ reply. reply.items ≡ spec.message_text octets text.now) }
    ensures code { IfOk result (λ reply. spec.has_response_code reply.items ≡ false) }
    ensures short { IfOk result (λ reply. spec.HasShortFirstLine reply.items) }
{
    let mut reply = with_room(alloc, wire_room(text).saturating_add(FIRST_LINE))?;
    put_message_line(&mut reply, octets)?;
    put_wire(&mut reply, text)?;
    Ok(reply)
}

pub(crate) fn message_top<A: Allocator + Copy>(
    alloc: A,
    text: &Text<A>,
    lines: u32,
) -> Result<Vec<u8, A>, Memory>
    ensures value { IfOk result (λ reply. reply.items ≡ spec.message_top text.now lines) }
    ensures short { IfOk result (λ reply. spec.HasShortFirstLine reply.items) }
{
    let mut reply = with_room(alloc, wire_room(text).min(TOP_ROOM))?;
    put(&mut reply, b"+OK\r\n")?;
    put_top(&mut reply, text, lines)?;
    Ok(reply)
}

pub(crate) fn message_deleted<A: Allocator>(alloc: A, number: u64) -> Result<Vec<u8, A>, Memory>
    ensures value { IfOk result (λ text. text.items ≡ spec.message_deleted number) }
    ensures short { IfOk result (λ text. spec.HasShortFirstLine text.items) }
{
    let mut text = with_room(alloc, FIRST_LINE)?;
    put(&mut text, b"+OK message ")?;
    put_number(&mut text, number)?;
    put(&mut text, b" deleted\r\n")?;
    Ok(text)
}
