//! What reading and writing have in common.
ghost use Rattle.std.specs.Prelude.{◌≡◌, ℕ, List, IsTrue, Ok};
ghost use Rattle.std.specs.List.{All};
ghost use Rattle.maildrop.specs.Text.{IsLine};
ghost use Rattle.mboxrd.specs.Mailbox.{is_from_line, read_of, written_of, EndsInNoReturn};

/// Texts of which no line ends in a carriage return are read as they were written.
pub fn written_texts_are_read_back()
    ensures { (from_line : List ℕ) (texts : List (List (List ℕ)))
        → IsTrue (is_from_line from_line)
        → All (All IsLine) texts → All (All EndsInNoReturn) texts
        → read_of (written_of from_line texts) ≡ Ok texts }
{}
