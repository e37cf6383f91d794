//! Texts on the wire (RFC 1939 section 3, multi-line responses).
ghost use Rattle.std.specs.Prelude.{◌≡◌, ◌++◌, take, IfOk, OnOk};
ghost use Rattle.std.specs.List.{flat_map};
ghost use Rattle.pop3_wire.specs.Stuffing.{stuffed_line, wire_line, wire_form, top_lines};

use crate::writing::{put, with_room};
use ballot::Memory;
use maildrop::{Lines, Text, begins_with_dot};
use std::alloc::Allocator;

/// Room is taken for so many dots that come in front of lines, and for one more with each so many octets.
const DOTS_AT_LEAST: u128 = 16;

const OCTETS_PER_DOT: u128 = 64;

/// What ends a text on the wire.
const END: &[u8] = b".\r\n";

/// About how many octets the wire form of a text has: its own, and some for dots. A guess too low costs a growth.
pub(crate) fn wire_room<A: Allocator + Copy>(text: &Text<A>) -> u128 {
    let octets = text.octets();
    let dots = DOTS_AT_LEAST + octets / OCTETS_PER_DOT;
    octets.saturating_add(dots).saturating_add(3)
}

fn put_stuffed<A: Allocator>(bytes: &mut Vec<u8, A>, line: &[u8]) -> Result<(), Memory>
    ensures { OnOk result (bytes.new.items ≡ bytes.old.items ++ stuffed_line line.now) }
{
    if !begins_with_dot(line) {
        return put(bytes, line);
    }
    put(bytes, b".")?;
    put(bytes, line)
}

fn put_line<A: Allocator>(bytes: &mut Vec<u8, A>, line: &[u8]) -> Result<(), Memory>
    ensures { OnOk result (bytes.new.items ≡ bytes.old.items ++ wire_line line.now) }
{
    put_stuffed(bytes, line)?;
    put(bytes, b"\r\n")
}

/// Adds all lines of a text. Without a dot to double they stand in its block as on the wire.
fn put_lines<A: Allocator + Copy>(bytes: &mut Vec<u8, A>, text: &Text<A>) -> Result<(), Memory>
    ensures { OnOk result (bytes.new.items ≡ bytes.old.items ++ flat_map wire_line text.now) }
{
    if !text.has_dots() {
        return put(bytes, text.block());
    }
    for line in text.get() {
        put_line(bytes, line)?;
    }
    Ok(())
}

/// Adds the wire form of a text.
pub(crate) fn put_wire<A: Allocator + Copy>(
    bytes: &mut Vec<u8, A>,
    text: &Text<A>,
) -> Result<(), Memory>
    ensures { OnOk result (bytes.new.items ≡ bytes.old.items ++ wire_form text.now) }
{
    put_lines(bytes, text)?;
    put(bytes, END)
}

/// The wire form of a text: each line that begins with a dot gets one more, and a dot alone ends it.
pub fn stuffed<A: Allocator + Copy>(alloc: A, text: &Text<A>) -> Result<Vec<u8, A>, Memory>
    ensures { IfOk result (λ bytes. bytes.items ≡ wire_form text.now) }
{
    let mut bytes = with_room(alloc, wire_room(text))?;
    put_wire(&mut bytes, text)?;
    Ok(bytes)
}

/// Adds the first lines, as many as this.
fn put_first<A: Allocator>(
    bytes: &mut Vec<u8, A>,
    mut lines: Lines,
    count: u32,
) -> Result<(), Memory>
    ensures { OnOk result (bytes.new.items ≡ bytes.old.items ++ flat_map wire_line (take count lines.entry)) }
{
    let mut left = count;
    while left > 0 {
        let Some(line) = lines.next_line() else {
            return Ok(());
        };
        put_line(bytes, line)?;
        left -= 1;
    }
    Ok(())
}

/// Adds the lines up to and including the first empty one, and so many more. Reads no line after them.
fn put_top_lines<A: Allocator>(
    bytes: &mut Vec<u8, A>,
    mut lines: Lines,
    count: u32,
) -> Result<(), Memory>
    ensures { OnOk result (bytes.new.items ≡ bytes.old.items ++ flat_map wire_line (top_lines count lines.entry)) }
{
    while let Some(line) = lines.next_line() {
        put_line(bytes, line)?;
        if line.is_empty() {
            return put_first(bytes, lines, count);
        }
    }
    Ok(())
}

/// Adds the wire form of the lines up to and including the first empty one, and of so many more.
pub(crate) fn put_top<A: Allocator + Copy>(
    bytes: &mut Vec<u8, A>,
    text: &Text<A>,
    count: u32,
) -> Result<(), Memory>
    ensures { OnOk result (bytes.new.items ≡ bytes.old.items ++ wire_form (top_lines count text.now)) }
{
    put_top_lines(bytes, text.get(), count)?;
    put(bytes, END)
}
