//! Reads mailboxes that come in pieces.
ghost use Rattle.std.specs.Prelude.{◌≡◌, ◌↔◌, ◌++◌, ◌<◌, length, ℕ, List, [], ◌∷◌, false, None, Ok, Err, IsOk, IfOk, IfErr, OnOk, OnErr, IsErrOf, codes};
ghost use Rattle.std.specs.Str.Lines.{strip_carriage_return};
ghost use Rattle.maildrop.specs.Text.{IsLine};
ghost use Rattle.mboxrd.specs.declared.error.MboxError.{MboxError};
ghost use Rattle.mboxrd.specs.Mailbox.{read_of};
ghost use Rattle.mboxrd.specs.Reader as spec;
ghost use Rattle.mboxrd.specs.Reader.{Reading, Failed, kept_after};

use crate::error::MboxError;
use crate::open_text::OpenText;
use crate::quoting::{begins_message, unquoted};
use ballot::Memory;
use maildrop::{Text, without_carriage_return};
use memchr::memchr;
use std::alloc::{Allocator, Global};
use std::marker::Model;

/// What the first line of a mailbox starts with.
const FROM: &[u8] = b"From ";

/// For how many octets of a message room is asked for at most before they are seen.
const MOST_ROOM: usize = 65_536;

/// Reads a mailbox that comes in pieces, however it is cut. It keeps the texts so far and the line that has not ended;
/// a line that stands whole in a piece is copied once, into its text. After an error every call answers the same one.
#[derive(Drop)]
pub struct Reader<A: Allocator = Global> {
    texts: Vec<Text<A>, A>,
    text: Option<OpenText<A>>,
    line: Vec<u8, A>,
    error: Option<MboxError>,
}

impl<A: Allocator> Model for Reader<A> {
    ghost use Rattle.maildrop.specs.Text.{IsLine};
    ghost use Rattle.mboxrd.specs.Reader.{Kept, kept_by};

    ghost Value = { Kept };

    ghost view = { λ r. kept_by r.error r.texts.items r.text r.line.items };

    ghost invariant = { λ r. IsLine r.line.items };
}

/// Whether one of the two begins with the other.
fn agree(bytes: &[u8], others: &[u8]) -> bool
    ensures { result ≡ spec.agree bytes.now others.now }
{
    for i in 0..bytes.len().min(others.len()) {
        if bytes[i] != others[i] {
            return false;
        }
    }
    true
}

/// Whether a file that begins with these bytes can be a mailbox: they start with `From `, or are a prefix of it. Takes no
/// memory.
#[tactic(auto, using(crate::proofs::ReaderLemmas::never_begins))]
pub fn can_begin(bytes: &[u8]) -> bool
    ensures value { result ≡ spec.agree bytes.now (codes "From ") }
    ensures refused { (more : List ℕ) → result ≡ false → kept_after (bytes.now ++ more) ≡ Failed MboxError.NoFromLine }
{
    agree(bytes, FROM)
}

/// Whether this piece may come next: a message has begun, or the piece goes on with what the first line starts with.
fn may_go_on(has_text: bool, line: &[u8], piece: &[u8]) -> bool
    ensures { result ≡ spec.goes_on has_text line.now piece.now }
{
    has_text || agree(piece, &FROM[line.len().min(FROM.len())..])
}

/// Whether no bytes have come but those of a first line that begins a message, or a message has begun.
fn is_begun<A: Allocator>(text: &Option<OpenText<A>>, line: &[u8]) -> bool
    ensures { result ≡ spec.is_begun text.now line.now }
{
    text.is_some() || line.is_empty() || begins_message(line)
}

/// Adds a line that has ended, without its line end, to the texts and the open one. So many bytes of its piece stand
/// after it, which may all be of a message that it begins.
fn end_line<A: Allocator + Copy>(
    texts: &mut Vec<Text<A>, A>,
    text: &mut Option<OpenText<A>>,
    line: &[u8],
    behind: usize,
) -> Result<(), Memory>
    requires { IsLine line.now }
    ensures texts { OnOk result (texts.new.items ≡ spec.texts_with texts.old.items text.old line.now) }
    ensures text { OnOk result (text.new ≡ spec.text_with text.old line.now) }
{
    if begins_message(line) {
        let next = OpenText::new(*texts.allocator(), behind.min(MOST_ROOM));
        if let Some(ended) = text.replace(next) {
            texts.push(ended.finish()?)?;
        }
        return Ok(());
    }
    match text {
        Some(text) => text.push(unquoted(line)),
        None => Ok(()),
    }
}

/// Adds the open line, which ends with these bytes, to the texts and the open one. So many bytes of its piece stand
/// after it.
fn end_open_line<A: Allocator + Copy>(
    texts: &mut Vec<Text<A>, A>,
    text: &mut Option<OpenText<A>>,
    line: &mut Vec<u8, A>,
    end: &[u8],
    behind: usize,
) -> Result<(), Memory>
    requires open { IsLine line.old.items }
    requires end { IsLine end.now }
    ensures texts { OnOk result (texts.new.items ≡ spec.texts_with texts.old.items text.old (strip_carriage_return (line.old.items ++ end.now))) }
    ensures text { OnOk result (text.new ≡ spec.text_with text.old (strip_carriage_return (line.old.items ++ end.now))) }
    ensures line { OnOk result (line.new.items ≡ []) }
    ensures err { OnErr result (IsLine line.new.items) }
{
    if line.is_empty() {
        return end_line(texts, text, without_carriage_return(end), behind);
    }
    line.extend_from_slice(end)?;
    end_line(texts, text, without_carriage_return(line), behind)?;
    line.clear();
    Ok(())
}

/// Takes in a piece of a mailbox that goes on.
fn take_in<A: Allocator + Copy>(
    texts: &mut Vec<Text<A>, A>,
    text: &mut Option<OpenText<A>>,
    line: &mut Vec<u8, A>,
    piece: &[u8],
) -> Result<(), Memory>
    requires { IsLine line.old.items }
    ensures line { IsLine line.new.items }
    ensures kept { (bytes : List ℕ) → spec.IsKept bytes texts.old.items text.old line.old.items →
        OnOk result (spec.IsKept (bytes ++ piece.now) texts.new.items text.new line.new.items) }
    ensures empty { piece.now ≡ [] → IsOk result }
{
    let mut rest = piece;
    while let Some(end) = memchr(b'\n', rest) {
        let (ended, behind) = (&rest[..end], &rest[end + 1..]);
        end_open_line(texts, text, line, ended, behind.len())?;
        rest = behind;
    }
    line.extend_from_slice(rest)?;
    Ok(())
}

impl<A: Allocator + Copy> Reader<A> {
    /// A reader at the start of a mailbox. Takes no memory.
    pub fn new(alloc: A) -> Self
        ensures { result ≡ kept_after [] }
    {
        Reader {
            texts: Vec::new(alloc),
            text: None,
            line: Vec::new(alloc),
            error: None,
        }
    }

    /// Takes the next piece of the mailbox. Answers `NoFromLine` exactly if the bytes so far neither start with
    /// `From ` nor are a prefix of it.
    pub fn feed(&mut self, piece: &[u8]) -> Result<(), MboxError>
        ensures kept { (bytes : List ℕ) → self.old ≡ kept_after bytes → OnOk result (self.new ≡ kept_after (bytes ++ piece.now)) }
        ensures refused { (bytes : List ℕ) → self.old ≡ kept_after bytes →
            IsErrOf result MboxError.NoFromLine ↔ (kept_after (bytes ++ piece.now) ≡ Failed MboxError.NoFromLine) }
        ensures err { IfErr result (λ error. self.new ≡ Failed error) }
        ensures sticky { (error : MboxError) → self.old ≡ Failed error → result ≡ Err error }

        // An empty piece takes no memory.
        ensures empty { spec.has_failed self.old ≡ false → piece.now ≡ [] → IsOk result }
    {
        if let Some(error) = self.error {
            return Err(error);
        }
        if !may_go_on(self.text.is_some(), &self.line, piece) {
            self.error = Some(MboxError::NoFromLine);
            return Err(MboxError::NoFromLine);
        }
        match take_in(&mut self.texts, &mut self.text, &mut self.line, piece) {
            Ok(()) => Ok(()),
            Err(Memory) => {
                self.error = Some(MboxError::Memory);
                Err(MboxError::Memory)
            }
        }
    }

    /// The texts of the mailbox, of which no more comes: the same answer as `read` gives for all its bytes. Answers
    /// `NoFromLine` too if these are a nonempty shorter prefix of `From `.
    pub fn finish(self) -> Result<Vec<Text<A>, A>, MboxError>
        ensures value { (bytes : List ℕ) → self ≡ kept_after bytes → IfOk result (λ texts. read_of bytes ≡ Ok texts.items) }
        ensures refused { (bytes : List ℕ) → self ≡ kept_after bytes →
            IsErrOf result MboxError.NoFromLine ↔ (read_of bytes ≡ Err MboxError.NoFromLine) }
        ensures sticky { (error : MboxError) → self ≡ Failed error → result ≡ Err error }

        // The texts of an empty mailbox take no memory.
        ensures empty { self ≡ kept_after [] → IsOk result }
    {
        if let Some(error) = self.error {
            return Err(error);
        }
        if !is_begun(&self.text, &self.line) {
            return Err(MboxError::NoFromLine);
        }
        Ok(texts_of(self.texts, self.text, &self.line)?)
    }
}

/// All texts, once the open line is the last one.
fn texts_of<A: Allocator + Copy>(
    texts: Vec<Text<A>, A>,
    text: Option<OpenText<A>>,
    line: &[u8],
) -> Result<Vec<Text<A>, A>, Memory>
    requires { IsLine line.now }
    ensures all { IfOk result (λ all. all.items ≡ spec.all_texts texts.items text line.now) }
    ensures empty { text ≡ None → line.now ≡ [] → IsOk result }
{
    let mut texts = texts;
    let mut text = text;
    if !line.is_empty() {
        end_line(&mut texts, &mut text, line, 0)?;
    }
    if let Some(text) = text {
        texts.push(text.finish()?)?;
    }
    Ok(texts)
}
