//! The bytes of a line.
ghost use Rattle.std.specs.Prelude.{◌≡◌, ◌≤◌, ◌↔◌, ℕ, List, length, IsSome, IfSome};
ghost use Rattle.pop3_wire.specs.Limits.{longest_line};

use arrayvec::ArrayVec;
use std::marker::Model;

/// The most bytes that a line has without its line feed: 512 octets with it.
pub const LONGEST_LINE: usize = 511;

/// The bytes of a line without its end, at most `LONGEST_LINE`. They are kept in their own place and take no memory.
#[derive(Drop)]
pub struct LineBytes {
    bytes: ArrayVec<u8, { LONGEST_LINE }>,
}

impl Model for LineBytes {
    ghost Value = { List ℕ };

    ghost view = { λ b. b.bytes.items };
}

impl LineBytes {
    /// These bytes, if they are no more than `LONGEST_LINE`.
    pub fn new(bytes: &[u8]) -> Option<Self>
        ensures valid { IsSome result ↔ (length bytes.now ≤ longest_line) }
        ensures value { IfSome result (λ line. line ≡ bytes.now) }
    {
        if bytes.len() > LONGEST_LINE {
            return None;
        }
        Some(LineBytes::copied(bytes))
    }

    /// These bytes, which are no more than `LONGEST_LINE`.
    pub(crate) fn copied(bytes: &[u8]) -> Self
        requires { length bytes.now ≤ longest_line }
        ensures { result ≡ bytes.now }
    {
        let mut own = ArrayVec::new();
        own.try_extend_from_slice(bytes).unwrap();
        LineBytes { bytes: own }
    }

    /// The bytes that the line was made of.
    pub fn get(&self) -> &[u8]
        ensures value { result.now ≡ self.now }
        ensures range { length self.now ≤ longest_line }
    {
        self.bytes.as_slice()
    }
}
