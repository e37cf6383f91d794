//! Texts off the wire (RFC 1939 section 3, multi-line responses).
ghost use Rattle.std.specs.Prelude.{◌≡◌, ℕ, List, ◌∷◌, ◌++◌, All, Some, MatchOption, IfOk, IfSome, IsOk, IsSomeAnd};
ghost use Rattle.std.specs.List.{flat_map};
ghost use Rattle.std.specs.Option.{option_copied};
ghost use Rattle.maildrop.specs.Text.{IsLine};
ghost use Rattle.pop3_wire.specs.Stuffing.{unstuffed_line as line_of_stuffed, wire_line, wire_form, AreStuffed, BeginsWithNone, BeginsWithOne};

use ballot::Memory;
use maildrop::{Text, TextBuilder, begins_with_dot};
use memchr::memchr;
use std::alloc::Allocator;

/// The bytes up to the first line end, if that is CR and LF, and what stands after it.
fn cut_at_line_end(bytes: &[u8]) -> Option<(&[u8], &[u8])>
    ensures { MatchOption result
        ((line rest : List ℕ) → IsLine line → ¬ (bytes.now ≡ line ++ 13 ∷ 10 ∷ rest))
        (λ cut. IsLine cut.0.now × (bytes.now ≡ cut.0.now ++ 13 ∷ 10 ∷ cut.1.now)) }
{
    let Some(end) = memchr(b'\n', bytes) else {
        return None;
    };
    match bytes[..end].split_last() {
        None => None,
        Some((last, line)) => {
            if *last == b'\r' {
                Some((line, &bytes[end + 1..]))
            } else {
                None
            }
        }
    }
}

/// The line that is stuffed so, if there is one.
fn unstuffed_line(line: &[u8]) -> Option<&[u8]>
    ensures { option_copied result ≡ line_of_stuffed line.now }
{
    match line {
        [b'.', line @ ..] => {
            if begins_with_dot(line) {
                Some(line)
            } else {
                None
            }
        }
        _ => Some(line),
    }
}

/// A stuffed line without the dot in front of its own.
fn without_dot(line: &[u8]) -> &[u8]
    ensures { (text_line : List ℕ) → line_of_stuffed line.now ≡ Some text_line → result.now ≡ text_line }
{
    match line {
        [b'.', line @ ..] => line,
        _ => line,
    }
}

/// The lines of the wire form that the bytes begin with, each with its CR and LF, and what stands after the dot that
/// ends it; none if they begin with no wire form.
fn split_wire_form(bytes: &[u8]) -> Option<(&[u8], &[u8])>
    ensures { MatchOption result (BeginsWithNone bytes.now) (λ cut. BeginsWithOne bytes.now cut.0.now cut.1.now) }
{
    let mut left = bytes;
    while let Some((line, rest)) = cut_at_line_end(left) {
        if unstuffed_line(line).is_none() {
            // A dot in front of another byte than a dot is no stuffed line, and a dot alone ends the text.
            if line.len() > 1 {
                return None;
            }
            return Some((&bytes[..bytes.len() - left.len()], rest));
        }
        left = rest;
    }
    None
}

/// The text of these stuffed lines, each with its CR and LF.
fn text_of<A: Allocator + Copy>(alloc: A, stuffed: &[u8]) -> Result<Text<A>, Memory>
    requires { AreStuffed stuffed.now }
    ensures lines { IfOk result (λ text. All IsLine text) }
    ensures value { IfOk result (λ text. stuffed.now ≡ flat_map wire_line text) }
{
    let mut text = TextBuilder::new(alloc);
    text.reserve(stuffed.len())?;
    let mut left = stuffed;
    while let Some((line, rest)) = cut_at_line_end(left) {
        text.push_line(without_dot(line))?;
        left = rest;
    }
    text.finish()
}

/// The text whose wire form the bytes begin with, and what stands after it; none if they begin with no wire form,
/// which takes no memory.
pub fn unstuffed<A: Allocator + Copy>(
    alloc: A,
    bytes: &[u8],
) -> Result<Option<(Text<A>, &[u8])>, Memory>
    ensures found { IfOk result (λ found. IfSome found (λ f.
        All IsLine f.0 × (bytes.now ≡ wire_form f.0 ++ f.1.now))) }

    // So nothing is found only if no front of the bytes is a wire form.
    ensures every { (text : List (List ℕ)) (rest : List ℕ) → All IsLine text → bytes.now ≡ wire_form text ++ rest →
        IfOk result (λ found. IsSomeAnd found (λ f. (f.0 ≡ text) × (f.1.now ≡ rest))) }
    ensures none { BeginsWithNone bytes.now → IsOk result }
{
    match split_wire_form(bytes) {
        None => Ok(None),
        Some((stuffed, rest)) => Ok(Some((text_of(alloc, stuffed)?, rest))),
    }
}
