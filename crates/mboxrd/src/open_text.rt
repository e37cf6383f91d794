//! The text of a message that has not ended.
ghost use Rattle.std.specs.Prelude.{◌≡◌, ◌++◌, ◌∷◌, [], IfOk, OnOk};
ghost use Rattle.maildrop.specs.Text.{IsLine};
ghost use Rattle.mboxrd.specs.Mailbox.{without_last_empty};

use ballot::Memory;
use maildrop::{Text, TextBuilder};
use std::alloc::{Allocator, Global};
use std::marker::Model;

/// The lines of a message so far. An empty line is held back until another line comes, since the last one of a message
/// isn't part of its text.
#[derive(Drop)]
pub(crate) struct OpenText<A: Allocator = Global> {
    text: TextBuilder<A>,
    holds_empty: bool,
}

impl<A: Allocator> Model for OpenText<A> {
    ghost use Rattle.std.specs.Prelude.{◌≡◌, ◌++◌, ◌∷◌, [], ℕ, List, false, if◌then◌else◌};
    ghost use Rattle.mboxrd.specs.Mailbox.{without_last_empty};

    ghost Value = { List (List ℕ) };

    ghost view = { λ t. if t.holds_empty then t.text.lines ++ [] ∷ [] else t.text.lines };

    ghost invariant = { λ t. t.holds_empty ≡ false → without_last_empty t.text.lines ≡ t.text.lines };
}

impl<A: Allocator + Copy> OpenText<A> {
    /// A text without lines, for which room for so many octets is asked for.
    pub(crate) fn new(alloc: A, octets: usize) -> Self
        ensures { result ≡ [] }
    {
        let mut text = TextBuilder::new(alloc);
        // A guess, so a text for which there isn't as much room grows with its lines.
        let _ = text.reserve(octets);
        OpenText {
            text,
            holds_empty: false,
        }
    }

    /// Adds a line.
    pub(crate) fn push(&mut self, line: &[u8]) -> Result<(), Memory>
        requires { IsLine line.now }
        ensures { OnOk result (self.new ≡ self.old ++ line.now ∷ []) }
    {
        if self.holds_empty {
            self.text.push_line(b"")?;
        }
        if line.is_empty() {
            self.holds_empty = true;
            return Ok(());
        }
        self.text.push_line(line)?;
        self.holds_empty = false;
        Ok(())
    }

    /// The text, without one empty line at its end.
    pub(crate) fn finish(self) -> Result<Text<A>, Memory>
        ensures { IfOk result (λ text. text ≡ without_last_empty self) }
    {
        self.text.finish()
    }
}
