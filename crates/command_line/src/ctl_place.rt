//! Where `ctl` finds the service.

use ports::{OperatorPlace, connect};
use std::alloc::AllocError;
use std::env;
use std::env::Env;
use std::net::{Net, TcpListener, TcpStream};
use std::time::{Clock, Duration};

/// The environment variable that names the place of the service, if no option does.
const VARIABLE: &str = "MAILDROPD_CTL";

/// The command that has such a place.
const CTL: &str = "ctl";

/// How long it takes from one try to reach the service to the next.
const PAUSE_MS: u64 = 100;

/// How often it is tried at most: for a minute.
const MOST_TRIES: u32 = 600;

/// Whether a text is that of a port. Any other is a path.
fn is_number(text: &str) -> bool {
    text.as_bytes().iter().all(|byte| byte.is_ascii_digit())
}

/// Whether a word is an option that names the place.
fn names_place(word: &str) -> bool {
    word == "--port"
        || word == "--socket"
        || word.starts_with("--port=")
        || word.starts_with("--socket=")
}

/// Whether these are words of `ctl` of which no option names the place.
fn lacks_place(words: &[String]) -> bool {
    let mut rest = words.iter().skip(1);
    match rest.next() {
        Some(word) if word.as_str() == CTL => {}
        _ => return false,
    }
    for word in rest {
        // After the first word of a request nothing is an option.
        if !word.as_str().starts_with("-") {
            break;
        }
        if names_place(word.as_str()) {
            return false;
        }
    }
    true
}

/// The option that names the place by the value of the environment variable, if the words are of `ctl`, and no option of theirs names
/// it. Digits are a port.
pub fn option_by_environment<R: Env + AllocGlobal>(
    rt: &R,
    words: &[String],
) -> Result<Option<String>, AllocError> {
    if !lacks_place(words) {
        return Ok(None);
    }
    let Ok(value) = env::var(rt, VARIABLE) else {
        return Ok(None);
    };
    let text = value.as_str();
    if text.is_empty() {
        return Ok(None);
    }
    if is_number(text) {
        Ok(Some(format!(in rt.alloc(); "--port={text}")?))
    } else {
        Ok(Some(format!(in rt.alloc(); "--socket={text}")?))
    }
}

/// The place of a port or a socket, if it is one.
pub(crate) fn place_of<'a>(
    port: Option<u64>,
    socket: Option<&'a str>,
) -> Option<OperatorPlace<'a>> {
    match (port, socket) {
        (Some(port), None) => match u16::try_from(port) {
            Ok(0) | Err(_) => None,
            Ok(port) => Some(OperatorPlace::Port(port)),
        },
        (None, Some(path)) => Some(OperatorPlace::Socket(path)),
        _ => None,
    }
}

/// Waits until somebody listens at this place, for a minute at most.
pub(crate) fn await_listener<R: Net<Listener = TcpListener, Stream = TcpStream> + Clock>(
    rt: &R,
    place: &OperatorPlace<'_>,
) {
    for _ in 0..MOST_TRIES {
        match connect(rt, place) {
            Ok(_stream) => return,
            Err(_) => rt.sleep(Duration::from_millis(PAUSE_MS)),
        }
    }
}
