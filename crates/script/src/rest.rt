//! The end of a line.
ghost use Rattle.std.specs.Prelude.{◌≡◌};
ghost use Rattle.maildrop.specs.Text.{IsLine};

use std::marker::Model;

/// What stands after the words of a line: any bytes but a line feed. They are those of the line, not a copy.
#[derive(Drop)]
pub struct Rest<'a> {
    bytes: &'a [u8],
}

impl<'a> Model for Rest<'a> {
    ghost use Rattle.std.specs.Prelude.{ℕ, List};
    ghost use Rattle.maildrop.specs.Text.{IsLine};

    ghost Value = { List ℕ };

    ghost view = { λ r. r.bytes.now };

    ghost invariant = { λ r. IsLine r.bytes.now };
}

impl<'a> Rest<'a> {
    pub(crate) fn new(bytes: &'a [u8]) -> Self
        requires { IsLine bytes.now }
        ensures { result ≡ bytes.now }
    {
        Rest { bytes }
    }

    /// The bytes.
    pub fn get(&self) -> &'a [u8]
        ensures value { result.now ≡ self.now }
        ensures line { IsLine self.now }
    {
        self.bytes
    }
}
