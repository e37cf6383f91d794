//! Whether the command line asks to deliver one message, by calls that take no memory.
ghost use Rattle.std.specs.Prelude.{◌≡◌, if◌then◌else◌};

use std::env::Env;

/// Room for a word: more than the path of a socket and the option before it.
const ROOM: usize = 128;

/// How many words of options are looked at before the request.
const MOST_OPTIONS: usize = 8;

/// The status of a request that may be made again later (EX_TEMPFAIL).
const LATER: u8 = 75;

/// The status of any other request without memory.
const FAILED: u8 = 1;

/// Whether the word at this place of the command line is this one.
fn is_word<R: Env>(rt: &R, place: usize, word: &[u8]) -> bool {
    let mut room = [0u8; ROOM];
    match rt.arg(place, &mut room) {
        Ok(count) => &room[..count] == word,
        Err(_) => false,
    }
}

/// Whether the word at this place begins as an option with its value does.
fn is_option<R: Env>(rt: &R, place: usize) -> bool {
    let mut room = [0u8; ROOM];
    match rt.arg(place, &mut room) {
        Ok(count) => room[..count].starts_with(b"--"),
        Err(_) => false,
    }
}

/// Whether the command line is that of `ctl put`.
fn asks_to_put<R: Env>(rt: &R) -> bool {
    if !is_word(rt, 1, b"ctl") {
        return false;
    }
    let mut place = 2;
    for _ in 0..MOST_OPTIONS {
        if is_word(rt, place, b"--port") || is_word(rt, place, b"--socket") {
            place = place.saturating_add(2);
        } else if is_option(rt, place) {
            place = place.saturating_add(1);
        } else {
            break;
        }
    }
    is_word(rt, place, b"put")
}

/// The status without memory: a mail system that has a message put sends it again.
fn status_of(asks_to_put: bool) -> u8
    ensures { result ≡ (if asks_to_put then 75 else 1) }
{
    if asks_to_put { LATER } else { FAILED }
}

/// The exit status of a program that has no memory for its command line.
pub fn status_without_memory<R: Env>(rt: &R) -> u8 {
    status_of(asks_to_put(rt))
}
