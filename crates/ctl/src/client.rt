//! `maildropd ctl`: an operator's request.
ghost use Rattle.std.specs.Prelude.{◌≡◌, ◌≤◌, true, false, is_some, map, IfOk};
ghost use Rattle.ctl.specs.Answers.{IsStatus};
ghost use Rattle.ctl.specs.Options as spec;
ghost use Rattle.ctl.specs.Puts as puts;

use crate::answer::REFUSED;
use crate::exchange::{Message, exchange};
use crate::put::{put_message, status_at};
use mboxrd::can_begin;
use ports::{Fault, OperatorPlace, ReadOn, read_file, say};
use script::{Instruction, LARGEST_FILE, Request, WordsFault, instruction_of};
use std::alloc::Global;
use std::fs;
use std::io::{Eprint, Read, Write};
use std::net::{Net, TcpListener, TcpStream};
use std::rt::Files;

/// Reads a mailbox file.
#[derive(Drop)]
struct Mailbox;

impl ReadOn for Mailbox {
    /// The service refuses a file whose first bytes can't begin a mailbox, whatever comes after them.
    fn reads_on(&mut self, bytes: &[u8]) -> bool {
        can_begin(bytes)
    }
}

/// What `maildropd ctl` was called with.
#[derive(Clone, Copy)]
pub struct CtlOptions<'a> {
    /// The port of this machine that takes the operator's requests: 1 to 65535. Either this or `socket` is given.
    pub port: Option<u64>,
    /// The path of the Unix socket that takes them.
    pub socket: Option<&'a str>,
    /// Whether the request is `stop` or `stop now`, and its verdict is waited for.
    pub waits: bool,
    /// The words of the request.
    pub words: &'a [&'a str],
}

/// Where the service is, if the options name one place.
fn place_of<'a>(options: &CtlOptions<'a>) -> Option<OperatorPlace<'a>>
    ensures { is_some result ≡ spec.is_place options.now }
{
    match (options.port, options.socket) {
        (Some(port), None) => match u16::try_from(port) {
            Ok(0) | Err(_) => None,
            Ok(port) => Some(OperatorPlace::Port(port)),
        },
        (None, Some(path)) => Some(OperatorPlace::Socket(path)),
        _ => None,
    }
}

/// Whether the words are to deliver one message.
fn is_put(words: &[&str]) -> bool
    ensures { result ≡ spec.is_put (map (λ word. word.now) words.now) }
{
    match words {
        [first, ..] => first.as_bytes() == b"put".as_slice(),
        [] => false,
    }
}

/// The words, as bytes.
fn bytes_of<'a>(alloc: Global, words: &[&'a str]) -> Result<Vec<&'a [u8]>, Fault> {
    let mut parts = Vec::new(alloc);
    for word in words {
        parts.push(word.as_bytes())?;
    }
    Ok(parts)
}

/// The bytes of a mailbox file, or only as many as show that it isn't one. Returns nothing if it has more than a request may
/// announce. Its size is looked at before it is read.
fn mailbox_of<R: Files>(rt: &R, alloc: Global, path: &str) -> Result<Option<Vec<u8>>, Fault> {
    if let Ok(metadata) = fs::metadata(rt, path) {
        if metadata.len() > LARGEST_FILE {
            return Ok(None);
        }
    }
    let body = read_file(rt, alloc, path, LARGEST_FILE, &mut Mailbox)?;
    if body.len() as u64 > LARGEST_FILE {
        return Ok(None);
    }
    Ok(Some(body))
}

/// Sends a request, with these bytes after its line, and prints the answer. Returns the exit status that it brings.
fn send<R: Net<Listener = TcpListener, Stream = TcpStream>, W: Write>(
    rt: &R,
    alloc: Global,
    writer: &mut W,
    place: &OperatorPlace<'_>,
    instruction: &Instruction<'_>,
    request: &Request,
    body: Vec<u8>,
) -> Result<u8, Fault>
    ensures { IfOk result IsStatus }
{
    let message = Message::new(alloc, request, body)?;
    let heard = exchange(rt, alloc, writer, place, instruction, &message)?;
    heard.printed?;
    heard.answer.ending.status()
}

/// Has the messages of a mailbox file delivered, and prints the answer. Returns the exit status that it brings.
fn deliver<R: Net<Listener = TcpListener, Stream = TcpStream> + Files, W: Write>(
    rt: &R,
    alloc: Global,
    writer: &mut W,
    place: &OperatorPlace<'_>,
    instruction: &Instruction<'_>,
) -> Result<u8, Fault>
    ensures { IfOk result IsStatus }
{
    let Instruction::Deliver {
        node,
        user,
        file,
        key,
    } = instruction
    else {
        return Err(Fault::Value);
    };
    let Ok(path) = std::str::from_utf8(file.get()) else {
        return Err(Fault::Read);
    };
    let Some(body) = mailbox_of(rt, alloc, path)? else {
        return refuse(writer);
    };
    let request = Request::Deliver {
        node: *node,
        user: *user,
        count: body.len() as u64,
        key: *key,
    };
    send(rt, alloc, writer, place, instruction, &request, body)
}

/// Prints what the service would answer to a request that it doesn't read. Returns the exit status that this brings.
fn refuse<W: Write>(writer: &mut W) -> Result<u8, Fault>
    ensures { IfOk result IsStatus }
{
    say(writer, b"bad request\n")?;
    Ok(REFUSED)
}

/// Makes a request of one line, and prints the answer. Returns the exit status that it brings.
fn ask<R: Net<Listener = TcpListener, Stream = TcpStream>, W: Write>(
    rt: &R,
    alloc: Global,
    writer: &mut W,
    place: &OperatorPlace<'_>,
    instruction: &Instruction<'_>,
) -> Result<u8, Fault>
    ensures { IfOk result IsStatus }
{
    let Instruction::Ask(request) = instruction else {
        return Err(Fault::Value);
    };
    send(
        rt,
        alloc,
        writer,
        place,
        instruction,
        request,
        Vec::new(alloc),
    )
}

/// The same for a request whose verdict is waited for. Only `stop` and `stop now` have one.
fn ask_for_verdict<R: Net<Listener = TcpListener, Stream = TcpStream>, W: Write>(
    rt: &R,
    alloc: Global,
    writer: &mut W,
    place: &OperatorPlace<'_>,
    instruction: &Instruction<'_>,
) -> Result<u8, Fault>
    ensures { IfOk result IsStatus }
{
    match instruction {
        Instruction::Ask(Request::Stop { now, .. }) => {
            let stop = Instruction::Ask(Request::Stop {
                now: *now,
                wait: true,
            });
            ask(rt, alloc, writer, place, &stop)
        }
        _ => Err(Fault::Value),
    }
}

/// Makes any request but `put`, and prints the answer. Returns the exit status that it brings.
fn run_words<R: Net<Listener = TcpListener, Stream = TcpStream> + Files, W: Write>(
    rt: &R,
    alloc: Global,
    writer: &mut W,
    place: &OperatorPlace<'_>,
    options: &CtlOptions<'_>,
) -> Result<u8, Fault>
    ensures { IfOk result IsStatus }
{
    let parts = bytes_of(alloc, options.words)?;
    let instruction = match instruction_of(parts.as_slice()) {
        Ok(instruction) => instruction,
        Err(WordsFault::Value) => return Err(Fault::Value),
        Err(WordsFault::Key) => return refuse(writer),
    };
    if options.waits {
        return ask_for_verdict(rt, alloc, writer, place, &instruction);
    }
    match &instruction {
        Instruction::Deliver { .. } => deliver(rt, alloc, writer, place, &instruction),
        Instruction::Put { .. } | Instruction::Ask(_) => ask(
            rt,
            alloc,
            writer,
            place,
            &instruction,
        ),
    }
}

/// Has the message of a reader delivered, and prints the answer. Returns the exit status that it brings.
fn run_put<R: Net<Listener = TcpListener, Stream = TcpStream>, S: Read, W: Write>(
    rt: &R,
    alloc: Global,
    reader: &mut S,
    writer: &mut W,
    place: &OperatorPlace<'_>,
    options: &CtlOptions<'_>,
) -> Result<u8, Fault>
    ensures { IfOk result puts.IsStatus }
{
    if options.waits {
        return Err(Fault::Value);
    }
    let parts = bytes_of(alloc, options.words)?;
    match instruction_of(parts.as_slice()) {
        Ok(instruction) => put_message(rt, alloc, reader, writer, place, &instruction),
        Err(_) => Err(Fault::Value),
    }
}

/// Reports a fault on standard error.
fn report<R: Eprint>(rt: &R, fault: Fault) {
    let _untold = eprintln!(rt; "maildropd: {fault}");
}

/// Makes an operator's request to a service on this machine, and prints its answer: `deliver NODE USER FILE`, with a key
/// after it or without, `put NODE USER`, with a key or without, for the message that the reader has, `break NODE USER`,
/// `kick USER`, `crash NODE`, `status`, `sessions`, `stats`, `locks`, `users`, `roll`, `reopen`, `stop` or `stop now`.
/// Returns the exit status. After `put` it is one of sysexits: 0 if the message is stored, 67 if there is no such user, 65
/// if it is too large, 64 for words that are none, and 75 if it may be sent again. After other requests it is 0 after a
/// whole answer, 1 after a verdict other than `audit ok` (a node in a process of its own has no verdict, but `stopped`), 3
/// if the answer is `bad request`, `bad mbox` or `down`, or begins with `roll failed: ` or `reopen failed: `, 1 if it breaks
/// off or after another fault of memory, reading, writing or the network, 2 for words that are no request. It is 2 if the
/// options name no place, or two. A fault is reported on standard error.
pub fn ctl_run<
    R: Net<Listener = TcpListener, Stream = TcpStream> + Files + Eprint,
    S: Read,
    W: Write,
>(rt: &R, alloc: Global, reader: &mut S, writer: &mut W, options: &CtlOptions<'_>) -> u8
    ensures place { spec.is_place options.now ≡ false → result ≡ 2 }
    ensures statuses { spec.is_put (map (λ word. word.now) options.now.words.now) ≡ false → result ≤ 3 }
    ensures put_statuses { spec.is_place options.now ≡ true → spec.is_put (map (λ word. word.now) options.now.words.now) ≡ true
        → puts.IsExit result }
{
    let Some(place) = place_of(options) else {
        report(rt, Fault::Value);
        return Fault::Value.status();
    };
    if is_put(options.words) {
        return match run_put(rt, alloc, reader, writer, &place, options) {
            Ok(status) => status,
            Err(fault) => {
                report(rt, fault);
                status_at(fault)
            }
        };
    }
    match run_words(rt, alloc, writer, &place, options) {
        Ok(status) => status,
        Err(fault) => {
            report(rt, fault);
            fault.status()
        }
    }
}
