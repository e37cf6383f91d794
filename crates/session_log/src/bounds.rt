//! How much a client may send, and how long it may take.
ghost use Rattle.std.specs.Prelude.{◌≡◌};
ghost use Rattle.session_log.specs.Bounds as spec;

/// How many bytes a client may send before it is logged in.
pub(crate) const MOST_BYTES_BEFORE_LOGIN: u64 = 65_536;

/// How many bytes a client may send in all.
pub(crate) const MOST_BYTES: u64 = 16_777_216;

/// How many seconds a client has for each whole line before it is logged in.
pub(crate) const LOGIN_SECONDS: u64 = 180;

/// How many seconds a client waits after a login that was refused before its next line is heard.
pub const REFUSED_LOGIN_SECONDS: u64 = 2;

/// How many seconds a client may take nothing of what is written to it.
pub const WRITE_SECONDS: u64 = 60;

/// How much of a time is left.
#[derive(Clone, Copy, Debug, PartialEq, Eq)]
pub(crate) enum TimeLeft {
    /// Any time, since there is no limit.
    Any,
    /// So many milliseconds, at least one.
    Millis(u64),
    /// Nothing.
    Nothing,
}

/// How many bytes may still be read of a client that has sent so many.
pub(crate) fn bytes_left(read: u64, is_logged_in: bool) -> u64
    ensures { result ≡ spec.bytes_left read is_logged_in }
{
    if is_logged_in {
        MOST_BYTES.saturating_sub(read)
    } else {
        MOST_BYTES_BEFORE_LOGIN.saturating_sub(read)
    }
}

/// How many seconds a client has for a whole line: 0 for any number. One that is logged in has as many as the service's
/// options say.
pub(crate) fn line_seconds(is_logged_in: bool, idle_seconds: u64) -> u64
    ensures { result ≡ spec.line_seconds is_logged_in idle_seconds }
{
    if is_logged_in {
        idle_seconds
    } else {
        LOGIN_SECONDS
    }
}

/// What is left of so many seconds, or of any time if these are 0, after so many milliseconds.
pub(crate) fn time_left(seconds: u64, waited: u64) -> TimeLeft
    ensures { result ≡ spec.time_left seconds waited }
{
    let all = seconds.saturating_mul(1_000);
    if seconds == 0 {
        TimeLeft::Any
    } else if all <= waited {
        TimeLeft::Nothing
    } else {
        TimeLeft::Millis(all - waited)
    }
}

/// How many bytes are read next into room for so many, if so many may still be read.
pub(crate) fn next_read(left: u64, room: usize) -> usize
    ensures { result ≡ spec.next_read left room }
{
    left.min(room as u64) as usize
}
