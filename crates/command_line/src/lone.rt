//! `maildropd lone`.

use crate::arguments::{Choice, Kind, Presence, bytes_of, with_options};
use crate::mistake::{Mistake, hint};
use crate::unread::Unread;
use apop::{Accounts, Method, stamp};
use clap::{ArgMatches, Command, Error};
use maildrop::Name;
use mboxrd::can_begin;
use ports::{ReadOn, read_file};
use server::{Fault, LoneOptions, lone_run};
use std::alloc::Global;
use std::io;
use std::io::BufWriter;
use std::rt::Files;

/// How many bytes of replies are gathered at most before they are written.
const GATHERED: usize = 65_536;

/// What a message of a mailbox file begins with.
const FROM: &[u8] = b"From ";

/// What `--help` shows below the options.
const EXAMPLE: &str = "Example, which serves a mailbox file at port 1100:
  socat TCP-LISTEN:1100,bind=127.0.0.1,reuseaddr,fork EXEC:\"maildropd lone --user alice --secret s --mbox mail.mbox\"
At a terminal it answers line by line.";

/// The options of `lone`.
const OPTIONS: &[Choice] = &[
    Choice {
        name: "user",
        value: "NAME",
        kind: Kind::Text,
        presence: Presence::Required,
        help: "The user's name: 1 to 40 visible ASCII characters",
    },
    Choice {
        name: "secret",
        value: "TEXT",
        kind: Kind::Text,
        presence: Presence::Required,
        help: "The user's secret: 1 to 255 bytes, spaces included, no control characters",
    },
    Choice {
        name: "method",
        value: "METHOD",
        kind: Kind::Text,
        presence: Presence::Default("pass"),
        help: "What the user logs in by: pass (USER and PASS) or apop",
    },
    Choice {
        name: "mbox",
        value: "FILE",
        kind: Kind::Text,
        presence: Presence::Optional,
        help: "A mailbox file (mboxrd), whose messages the maildrop holds; the file itself is only read. The maildrop holds at most 10,000 messages of 50,000,000 octets together, under unique ids up to 1,000,000,000",
    },
    Choice {
        name: "nonce",
        value: "TEXT",
        kind: Kind::Text,
        presence: Presence::Default("1.1"),
        help: "What the greeting's timestamp has before its @",
    },
    Choice {
        name: "host",
        value: "NAME",
        kind: Kind::Text,
        presence: Presence::Default("localhost"),
        help: "What the greeting's timestamp has after its @",
    },
];

/// Reads a mailbox file up to first bytes that can't begin one. What was read is refused as the whole file would be.
#[derive(Drop)]
struct Mailbox;

impl ReadOn for Mailbox {
    fn reads_on(&mut self, bytes: &[u8]) -> bool {
        can_begin(bytes)
    }
}

/// The command `lone` of the command line.
pub fn lone_command<'a>(alloc: Global) -> Result<Command<'a>, Error> {
    let lone = Command::new(alloc, "lone")
        .about("Serves one POP3 session over one user's maildrop on standard input and output")
        .after_help(EXAMPLE);
    with_options(alloc, lone, OPTIONS)
}

/// Reports a fault on standard error. Returns its status.
fn tell<R: Eprint>(rt: &R, fault: Fault) -> u8 {
    let _ = eprintln!(rt; "maildropd: {fault}");
    fault.status()
}

/// A host that can stand behind every nonce.
const ANY_HOST: &[u8] = b"localhost";

/// What is wrong with the account that the options name, if that is known.
fn mistake_in_account(alloc: Global, options: &LoneOptions<'_>) -> Option<Mistake<'static>> {
    let Some(name) = Name::new(options.user) else {
        return Some(Mistake::User);
    };
    let Some(method) = Method::from_word(options.method) else {
        return Some(Mistake::Method);
    };
    match Accounts::single(alloc, name, method, options.secret) {
        Ok(None) => Some(Mistake::Secret),
        Ok(Some(_)) | Err(_) => None,
    }
}

/// What is wrong with the nonce or the host, if one of them is none.
fn mistake_in_stamp(options: &LoneOptions<'_>) -> Option<Mistake<'static>> {
    if stamp(options.nonce, ANY_HOST).is_none() {
        Some(Mistake::Nonce)
    } else if stamp(options.nonce, options.host).is_none() {
        Some(Mistake::Host)
    } else {
        None
    }
}

/// What is wrong with the mailbox file, whose path this is, if its first line doesn't begin a message.
fn mistake_in_mailbox<'a>(path: Option<&'a str>, mbox: Option<&[u8]>) -> Option<Mistake<'a>> {
    if mbox?.starts_with(FROM) {
        None
    } else {
        Some(Mistake::NoMailbox(path?))
    }
}

/// Runs `lone`, with the mailbox file's bytes, if there is one.
fn run_with<R: AllocGlobal + Input + Print + Eprint>(
    rt: &R,
    matches: &ArgMatches<'_>,
    mbox: Option<&[u8]>,
) -> u8 {
    let options = LoneOptions {
        user: bytes_of(matches, "user"),
        method: bytes_of(matches, "method"),
        secret: bytes_of(matches, "secret"),
        nonce: bytes_of(matches, "nonce"),
        host: bytes_of(matches, "host"),
        mbox,
    };
    let Ok(mut writer) = BufWriter::with_capacity(rt.alloc(), GATHERED, io::writer(rt)) else {
        return tell(rt, Fault::Memory);
    };
    let status = lone_run(rt, &mut rt.reader(), &mut writer, &options);
    if status == Fault::Value.status() {
        let mistake = mistake_in_account(rt.alloc(), &options)
            .or(mistake_in_stamp(&options))
            .or(mistake_in_mailbox(matches.get_str("mbox"), mbox));
        hint(rt, mistake);
    }
    status
}

/// Runs `lone`. Returns the exit status.
pub fn run_lone<R: AllocGlobal + Files + Input + Print + Eprint>(
    rt: &R,
    matches: &ArgMatches<'_>,
) -> u8 {
    let Some(path) = matches.get_str("mbox") else {
        return run_with(rt, matches, None);
    };
    match read_file(rt, rt.alloc(), path, u64::MAX, &mut Mailbox) {
        Ok(bytes) => run_with(rt, matches, Some(bytes.as_slice())),
        Err(ports::Fault::Memory) => tell(rt, Fault::Memory),
        Err(_) => {
            let status = tell(rt, Fault::Read);
            let cause = Unread::look(rt, path);
            hint(rt, cause.map(|cause| Mistake::CannotRead(path, cause)));
            status
        }
    }
}
