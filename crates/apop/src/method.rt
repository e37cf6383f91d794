//! How a user logs in.
ghost use Rattle.std.specs.Prelude.{◌≡◌};
ghost use Rattle.apop.specs.Accounts as spec;

/// How a user logs in (RFC 1939 section 7): by PASS or by APOP, each account by one of them.
#[derive(Clone, Copy, Debug, PartialEq, Eq)]
pub enum Method {
    Pass,
    Apop,
}

impl Method {
    /// The method of the word `pass` or `apop`, in small letters. Any other word is none.
    pub fn from_word(word: &[u8]) -> Option<Method>
        ensures { result ≡ spec.method_of word.now }
    {
        if word == b"pass".as_slice() {
            Some(Method::Pass)
        } else if word == b"apop".as_slice() {
            Some(Method::Apop)
        } else {
            None
        }
    }
}
