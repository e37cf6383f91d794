//! The numbers of sessions.
ghost use Rattle.std.specs.Prelude.{◌≡◌, ℕ};

use std::marker::Model;

/// The number by which a service knows a client's session. Each session of a service has its own, and none is used again.
#[derive(Clone, Copy, Debug, PartialEq, Eq, PartialOrd, Ord, Hash)]
pub struct SessionId {
    number: u64,
}

impl Model for SessionId {
    ghost Value = { ℕ };

    ghost view = { λ s. s.number };

    ghost inverse = { λ n. record { number = n } };
}

impl SessionId {
    /// The session of this number.
    pub fn new(number: u64) -> Self
        ensures { result ≡ number }
    {
        SessionId { number }
    }

    /// The number that the session was made of.
    pub fn get(self) -> u64
        ensures { result ≡ self }
    {
        self.number
    }
}
