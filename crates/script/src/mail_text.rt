//! The messages that a script writes in one line.
ghost use Rattle.std.specs.Prelude.{◌≡◌, ◌∷◌, [], ◌<◌, length, IfOk, IfSome, MatchOption};
ghost use Rattle.std.specs.List.{slice_split};
ghost use Rattle.maildrop.specs.Text.{IsLine};
ghost use Rattle.script.specs.Written as spec;

use crate::rest::Rest;
use ballot::Memory;
use maildrop::{Text, TextBuilder};
use memchr::{memchr, memchr_iter};
use std::alloc::Allocator;

/// What stands before the first bar and what stands after it, if there is a bar.
fn cut_at_bar(bytes: &[u8]) -> Option<(&[u8], &[u8])>
    ensures parts { MatchOption result
        (slice_split spec.is_bar bytes.now ≡ bytes.now ∷ [])
        (λ cut. slice_split spec.is_bar bytes.now ≡ cut.0.now ∷ slice_split spec.is_bar cut.1.now) }
    ensures lines { IsLine bytes.now → IfSome result (λ cut. IsLine cut.0.now × IsLine cut.1.now) }
    ensures shorter { IfSome result (λ cut. length cut.1.now < length bytes.now) }
{
    match memchr(b'|', bytes) {
        None => None,
        Some(end) => Some((&bytes[..end], &bytes[end + 1..])),
    }
}

/// The octets of the message that is written so: each bar, and the end, is a CR and an LF.
fn octets_of(written: &[u8]) -> usize {
    let bars = memchr_iter(b'|', written).count();
    written.len().saturating_add(bars).saturating_add(2)
}

/// The message that is written in one line: a bar ends each of its lines but the last.
pub fn text_of<A: Allocator + Copy>(alloc: A, written: &Rest<'_>) -> Result<Text<A>, Memory>
    ensures { IfOk result (λ text. text ≡ spec.lines_of written.now) }
{
    let mut text = TextBuilder::new(alloc);
    let mut rest = written.get();
    text.reserve(octets_of(rest))?;
    while let Some((line, behind)) = cut_at_bar(rest) {
        text.push_line(line)?;
        rest = behind;
    }
    text.push_line(rest)?;
    text.finish()
}
