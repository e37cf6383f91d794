//! The words that begin the lines of a script.
ghost use Rattle.std.specs.Prelude.{◌≡◌};
ghost use Rattle.script.specs.Commands as spec;

/// The words that begin a command with words after it.
#[derive(Clone, Copy, Debug, PartialEq, Eq)]
pub(crate) enum Keyword {
    Mail,
    Keyed,
    Break,
    Connect,
    Line,
    Hangup,
    Tick,
    Campaign,
    Crash,
    Deliver,
    Settle,
    Storm,
    Order,
}

/// The words that begin a setting.
#[derive(Clone, Copy, Debug, PartialEq, Eq)]
pub(crate) enum SettingKeyword {
    Nodes,
    Limits,
    Window,
    Host,
    Account,
}

/// The keyword of an event that is told by a node or a session.
fn event_keyword_of(word: &[u8]) -> Option<Keyword>
    ensures { result ≡ spec.event_keyword_of word.now }
{
    if word == b"break".as_slice() {
        Some(Keyword::Break)
    } else if word == b"connect".as_slice() {
        Some(Keyword::Connect)
    } else if word == b"hangup".as_slice() {
        Some(Keyword::Hangup)
    } else if word == b"tick".as_slice() {
        Some(Keyword::Tick)
    } else if word == b"campaign".as_slice() {
        Some(Keyword::Campaign)
    } else if word == b"crash".as_slice() {
        Some(Keyword::Crash)
    } else if word == b"deliver".as_slice() {
        Some(Keyword::Deliver)
    } else if word == b"storm".as_slice() {
        Some(Keyword::Storm)
    } else if word == b"order".as_slice() {
        Some(Keyword::Order)
    } else {
        None
    }
}

/// The keyword of this word. Those that most lines have are looked for first.
pub(crate) fn keyword_of(word: &[u8]) -> Option<Keyword>
    ensures { result ≡ spec.keyword_of word.now }
{
    if word == b"line".as_slice() {
        Some(Keyword::Line)
    } else if word == b"settle".as_slice() {
        Some(Keyword::Settle)
    } else if word == b"mail".as_slice() {
        Some(Keyword::Mail)
    } else if word == b"keyed".as_slice() {
        Some(Keyword::Keyed)
    } else {
        event_keyword_of(word)
    }
}

/// The keyword of a setting of this word.
pub(crate) fn setting_keyword_of(word: &[u8]) -> Option<SettingKeyword>
    ensures { result ≡ spec.setting_keyword_of word.now }
{
    if word == b"nodes".as_slice() {
        Some(SettingKeyword::Nodes)
    } else if word == b"limits".as_slice() {
        Some(SettingKeyword::Limits)
    } else if word == b"window".as_slice() {
        Some(SettingKeyword::Window)
    } else if word == b"host".as_slice() {
        Some(SettingKeyword::Host)
    } else if word == b"account".as_slice() {
        Some(SettingKeyword::Account)
    } else {
        None
    }
}
