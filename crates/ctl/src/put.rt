//! `maildropd ctl put`: one message from standard input, with the exit statuses of sysexits.
ghost use Rattle.std.specs.Prelude.{◌≡◌, position, IfOk, IfSome};
ghost use Rattle.std.specs.Option.{option_map};
ghost use Rattle.apop.specs.Accounts as accounts;
ghost use Rattle.ctl.specs.Outcomes as outcomes;
ghost use Rattle.ctl.specs.Puts as spec;

use crate::answer::{Answer, Ending};
use crate::exchange::{Message, exchange};
use ballot::NodeId;
use hex::encode_to_slice;
use maildrop::{Key, Name};
use ports::{Fault, OperatorPlace, read_within, say};
use script::{Instruction, LARGEST_FILE, Request, Word};
use sha2::{Digest, Sha256};
use std::alloc::Global;
use std::io::{Read, Write};
use std::net::{Net, TcpListener, TcpStream};

/// The message is stored.
const STORED: u8 = 0;

/// The words are none (EX_USAGE).
const USAGE: u8 = 64;

/// The message can't be stored, however often it is sent (EX_DATAERR).
const TOO_LARGE: u8 = 65;

/// There is no such user (EX_NOUSER).
const NO_SUCH_USER: u8 = 67;

/// The message may be sent again later (EX_TEMPFAIL).
const LATER: u8 = 75;

/// What has become of a message.
#[derive(Clone, Copy, Debug, PartialEq, Eq)]
pub enum PutOutcome {
    /// It is stored.
    Stored,
    /// There is no such user.
    NoSuchUser,
    /// It is larger than a maildrop may be.
    TooLarge,
    /// It is refused, and may be taken later.
    Later,
}

impl PutOutcome {
    /// The exit status that it brings.
    fn status(self) -> u8
        ensures status { result ≡ spec.status_of self }
        ensures statuses { spec.IsStatus result }
    {
        match self {
            PutOutcome::Stored => STORED,
            PutOutcome::NoSuchUser => NO_SUCH_USER,
            PutOutcome::TooLarge => TOO_LARGE,
            PutOutcome::Later => LATER,
        }
    }
}

fn place_of_space(bytes: &[u8]) -> Option<usize>
    ensures { result ≡ position accounts.is_space bytes.now }
{
    bytes.iter().position(|byte| *byte == b' ')
}

/// What follows the first space, if there is one.
fn after_space(bytes: &[u8]) -> Option<&[u8]>
    ensures { option_map (λ rest. rest.now) result ≡ outcomes.after_space bytes.now }
{
    match place_of_space(bytes) {
        Some(place) => Some(&bytes[place + 1..]),
        None => None,
    }
}

/// The outcome that an outcome's text names.
fn outcome_named(text: &[u8]) -> PutOutcome
    ensures { result ≡ outcomes.outcome_named text.now }
{
    if text.starts_with(b"stored ") {
        PutOutcome::Stored
    } else if text == b"no such user".as_slice() {
        PutOutcome::NoSuchUser
    } else if text == b"too large".as_slice() {
        PutOutcome::TooLarge
    } else {
        PutOutcome::Later
    }
}

/// The outcome that a line `op USER NODE/SEQ OUTCOME` names.
fn outcome_in(line: &[u8]) -> Option<PutOutcome>
    ensures { result ≡ outcomes.outcome_in line.now }
{
    if !line.starts_with(b"op ") {
        return None;
    }
    let user = after_space(line)?;
    let ticket = after_space(user)?;
    let text = after_space(ticket)?;
    Some(outcome_named(text))
}

/// What has become of a message, if a line says so.
pub(crate) fn outcome_of(line: &[u8]) -> Option<PutOutcome>
    ensures { result ≡ outcomes.outcome_of line.now }
{
    if line == b"no such user".as_slice() {
        Some(PutOutcome::NoSuchUser)
    } else {
        outcome_in(line)
    }
}

/// The exit status after an answer to the delivery of one message, or a fault if it breaks off.
pub(crate) fn status_after(answer: &Answer) -> Result<u8, Fault>
    ensures status { result ≡ spec.status_after answer.now }
    ensures statuses { IfOk result spec.IsStatus }
{
    match (answer.ending, answer.outcome) {
        (Ending::Done, Some(outcome)) => Ok(outcome.status()),
        (Ending::Broken, _) => Err(Fault::Read),
        _ => Ok(LATER),
    }
}

/// The exit status after a fault.
pub(crate) fn status_at(fault: Fault) -> u8
    ensures { result ≡ spec.status_at fault }
{
    match fault {
        Fault::Value => USAGE,
        _ => LATER,
    }
}

/// The key of a word: the word itself if it is one, or else its SHA-256 digest in 64 lower-case hexadecimal digits, which are
/// always a key.
fn key_of(word: &[u8]) -> Option<Key>
    ensures { IfSome result (λ key. key ≡ spec.key_of word.now) }
{
    if let Some(key) = Key::new(word) {
        return Some(key);
    }
    let mut digits = [0; 64];
    encode_to_slice(Sha256::digest(word), &mut digits).unwrap();
    Key::new(&digits)
}

/// The request of these parts and a message of so many bytes.
fn request_of(
    node: &Option<NodeId>,
    user: Name,
    word: &Option<Word<'_>>,
    count: u64,
) -> Result<Request, Fault> {
    let key = match word {
        None => None,
        Some(word) => match key_of(word.get()) {
            Some(key) => Some(key),
            None => return Err(Fault::Value),
        },
    };
    Ok(Request::Put {
        node: *node,
        user,
        count,
        key,
    })
}

/// Has the message of a reader delivered, prints the answer if it can, and returns the exit status that the answer brings.
pub(crate) fn put_message<R: Net<Listener = TcpListener, Stream = TcpStream>, S: Read, W: Write>(
    rt: &R,
    alloc: Global,
    reader: &mut S,
    writer: &mut W,
    place: &OperatorPlace<'_>,
    instruction: &Instruction<'_>,
) -> Result<u8, Fault>
    ensures { IfOk result spec.IsStatus }
{
    let Instruction::Put { node, user, key } = instruction else {
        return Err(Fault::Value);
    };
    let body = read_within(alloc, reader, LARGEST_FILE)?;
    let count = body.len() as u64;
    if count > LARGEST_FILE {
        let _untold = say(writer, b"too large\n");
        return Ok(TOO_LARGE);
    }
    let request = request_of(node, *user, key, count)?;
    let message = Message::new(alloc, &request, body)?;
    // Whether it can be printed changes nothing of what has become of the message.
    let heard = exchange(rt, alloc, writer, place, instruction, &message)?;
    status_after(&heard.answer)
}
