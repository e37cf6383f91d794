//! What `maildropd ctl` sends to a service, and what it hears.

use crate::answer::{Answer, awaits_nodes, awaits_verdict};
use memchr::memchr;
use ports::{Connection, Fault, LONGEST_PAUSE_MS, OperatorPlace, OperatorStream, connect, say};
use script::{Instruction, Request, put_request};
use std::alloc::Global;
use std::io::{BufRead, BufReader, Write};
use std::net::{Net, Shutdown, TcpListener, TcpStream};
use std::time::Duration;

/// What a POP3 server greets with. It answers no operator.
const GREETING: &[u8] = b"+OK";

/// The most bytes of a line of an answer that `ctl` takes.
const LONGEST_ANSWER_LINE: usize = 1_000_000;

/// What is sent to the operator's port: a line, and what comes after it.
#[derive(Drop)]
pub(crate) struct Message {
    line: Vec<u8>,
    body: Vec<u8>,
}

impl Message {
    /// What is sent for a request, and what follows its line.
    pub(crate) fn new(alloc: Global, request: &Request, body: Vec<u8>) -> Result<Self, Fault> {
        let mut line = Vec::new(alloc);
        put_request(&mut line, request)?;
        Ok(Message { line, body })
    }
}

/// Sends a message. A service that refuses it early may not take all of it, and answers all the same.
fn send(stream: &OperatorStream, message: &Message) {
    let mut writer = stream;
    if writer.write_all(message.line.as_slice()).is_ok() {
        let _refused = writer.write_all(message.body.as_slice());
    }
}

/// Reads a line with its line feed, or what there is up to the end. Returns false at the end. A line that is longer than any
/// answer's counts as one for which there is no memory.
fn read_answer_line<B: BufRead>(reader: &mut B, line: &mut Vec<u8>) -> Result<bool, Fault> {
    for _ in 0..=LONGEST_ANSWER_LINE {
        let held = match reader.fill_buf() {
            Ok(held) => held,
            Err(_) => return Err(Fault::Read),
        };
        if held.is_empty() {
            return Ok(!line.is_empty());
        }
        let end = memchr(b'\n', held);
        let count = match end {
            Some(end) => end + 1,
            None => held.len(),
        };
        line.extend_from_slice(&held[..count])?;
        reader.consume(count);
        if end.is_some() {
            return Ok(true);
        }
        if line.len() > LONGEST_ANSWER_LINE {
            return Err(Fault::Memory);
        }
    }
    Err(Fault::Memory)
}

/// What a service has answered.
#[derive(Clone, Copy)]
pub(crate) struct Heard {
    pub answer: Answer,
    /// Whether all of it was printed.
    pub printed: Result<(), Fault>,
}

/// Prints the lines of the answer to an instruction, up to the first that can't be printed. Returns what all of them say. A
/// service without memory closes the connection without an answer.
fn print_answer<W: Write>(
    alloc: Global,
    stream: &OperatorStream,
    writer: &mut W,
    instruction: &Instruction<'_>,
) -> Result<Heard, Fault> {
    let Ok(mut reader) = BufReader::new(alloc, stream) else {
        return Err(Fault::Memory);
    };
    let mut line = Vec::new(alloc);
    let mut answer = Answer::new();
    let mut printed = Ok(());
    for _ in 0..u64::MAX {
        line.clear();
        if !read_answer_line(&mut reader, &mut line)? {
            return Ok(Heard { answer, printed });
        }
        if printed.is_ok() {
            printed = say(writer, line.as_slice());
        }
        match line.as_slice().strip_suffix(b"\n") {
            Some(text) => answer.hear(instruction, text),
            None => answer.break_off(),
        }
        // It would say no more before its client does.
        if line.as_slice().starts_with(GREETING) {
            return Ok(Heard { answer, printed });
        }
    }
    answer.break_off();
    Ok(Heard { answer, printed })
}

/// Sends a message for an instruction, and prints the answer. The connection stays open for both ways while nodes are waited
/// for, so that the service sees when its client has gone.
pub(crate) fn exchange<R: Net<Listener = TcpListener, Stream = TcpStream>, W: Write>(
    rt: &R,
    alloc: Global,
    writer: &mut W,
    place: &OperatorPlace<'_>,
    instruction: &Instruction<'_>,
    message: &Message,
) -> Result<Heard, Fault> {
    let stream = connect(rt, place)?;
    let awaits_nodes = awaits_nodes(instruction);
    if !awaits_nodes && !awaits_verdict(instruction) {
        stream.set_read_timeout(Duration::from_millis(LONGEST_PAUSE_MS));
    }
    send(&stream, message);
    if !awaits_nodes {
        stream.shut(Shutdown::Write);
    }
    print_answer(alloc, &stream, writer, instruction)
}
