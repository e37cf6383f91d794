//! Why a command of a script is refused.
ghost use Rattle.std.specs.Prelude.{◌≡◌};
ghost use Rattle.script.specs.Output as spec;

/// Why a command can't happen now. The script goes on after it.
#[derive(Clone, Copy, Debug, PartialEq, Eq)]
pub enum Refusal {
    /// No such message was sent that never arrived.
    NotSent,
    /// The node has crashed, or there is none of this number.
    Down,
    /// There is no such session, or it has ended.
    NoSession,
    /// The session awaits an answer.
    Busy,
    /// No account has the user's name.
    NoSuchUser,
    /// A session has had this number.
    SessionExists,
}

impl Refusal {
    /// The number of the refusal, 1 `NotSent` to 6 `SessionExists`.
    pub fn number(self) -> u8
        ensures { result ≡ spec.refusal_number self }
    {
        match self {
            Refusal::NotSent => 1,
            Refusal::Down => 2,
            Refusal::NoSession => 3,
            Refusal::Busy => 4,
            Refusal::NoSuchUser => 5,
            Refusal::SessionExists => 6,
        }
    }

    /// The name that is written.
    pub(crate) fn name(self) -> &'static [u8]
        ensures { result.now ≡ spec.refusal_name self }
    {
        match self {
            Refusal::NotSent => b"NotSent",
            Refusal::Down => b"Down",
            Refusal::NoSession => b"NoSession",
            Refusal::Busy => b"Busy",
            Refusal::NoSuchUser => b"NoSuchUser",
            Refusal::SessionExists => b"SessionExists",
        }
    }
}
