//! The keys of the messages of one file.
ghost use Rattle.std.specs.Prelude.{◌≡◌, ◌↔◌, ◌≤◌, IsSome, IfSome};
ghost use Rattle.script.specs.Keys.{IsKeyPrefix, last_message, numbered_key};

use arrayvec::ArrayVec;
use itoa::Buffer;
use maildrop::Key;
use std::marker::Model;

/// The most bytes of a prefix.
const LONGEST_PREFIX: usize = 54;

/// The most bytes of a key.
const LONGEST_KEY: usize = 64;

/// The highest number that a message of a file has: nine digits.
pub const LAST_MESSAGE: u32 = 999_999_999;

/// What the keys of a file's messages begin with: 1 to 54 bytes of 0x21 to 0x7E. A dot and the number of the message
/// stand after it. It is kept in its own place, so a copy takes no memory.
#[derive(Clone, Copy, Debug)]
pub struct KeyPrefix {
    key: Key,
}

impl Model for KeyPrefix {
    ghost use Rattle.std.specs.Prelude.{ℕ, List};
    ghost use Rattle.script.specs.Keys.{IsKeyPrefix};

    ghost Value = { List ℕ };

    ghost view = { λ p. p.key };

    ghost invariant = { λ p. IsKeyPrefix p.key };

    ghost inverse = { λ p. record { key = p } };
}

impl KeyPrefix {
    /// The prefix of these bytes, if they are one.
    pub fn new(bytes: &[u8]) -> Option<Self>
        ensures valid { IsSome result ↔ IsKeyPrefix bytes.now }
        ensures value { IfSome result (λ prefix. prefix ≡ bytes.now) }
    {
        if bytes.len() > LONGEST_PREFIX {
            return None;
        }
        let key = Key::new(bytes)?;
        Some(KeyPrefix { key })
    }

    /// The bytes that the prefix was made of.
    pub fn get(&self) -> &[u8]
        ensures value { result.now ≡ self.now }
        ensures prefix { IsKeyPrefix self.now }
    {
        self.key.get()
    }

    /// The key of the message of this number, the first of a file being 1.
    pub fn numbered(&self, number: u32) -> Key
        requires { number ≤ last_message }
        ensures { result ≡ numbered_key self.now number }
    {
        let mut digits = Buffer::new();
        let mut bytes: ArrayVec<u8, { LONGEST_KEY }> = ArrayVec::new();
        bytes.try_extend_from_slice(self.key.get()).unwrap();
        bytes.try_extend_from_slice(b".").unwrap();
        bytes
            .try_extend_from_slice(digits.format(number).as_bytes())
            .unwrap();
        Key::new(&bytes).unwrap()
    }
}
