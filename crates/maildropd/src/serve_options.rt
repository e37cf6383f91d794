//! The options of `serve`, and what they may be.

use clap::{Command, Error};
use command_line::{
    Choice, Kind, LAST_PORT, Presence, Range, TWO_TO_40, TWO_TO_63, with_config, with_optional,
    with_options,
};
use service::OnFault;
use std::alloc::Global;
use store::SyncMode;

/// The ports of a service.
const PORT: Range = Range::Between(1, LAST_PORT);

/// A time that may be none.
const PAUSE: Range = Range::Between(0, 1_000_000);

/// Sessions, bytes or keys, of which there may be any number.
const AMOUNT: Range = Range::Between(0, TWO_TO_40);

/// What `--help` shows below the options.
const EXAMPLES: &str = "Examples, with a line `alice pass secret` in the file accounts:
  maildropd serve --accounts accounts --port 11000 --ctl-port 11999
  maildropd serve --accounts accounts --pop-port 11000 --ctl-socket /run/maildropd/ctl --log -
  maildropd serve --accounts accounts --port 110 --listen 192.0.2.1 --ctl-port 11999 --log /var/log/maildropd
  maildropd serve --accounts accounts --port 11000 --ctl-port 11999 --idle-seconds 1800 --no-majority-seconds 0 --delivery-bytes 268435456
After the first, POP3 connections are taken at 127.0.0.1:11000, and served at the node that leads.
`maildropd ctl --port 11999 stop` ends it. Then it prints what an audit finds: `audit ok` with the status 0, or what is wrong with the status 1.
It prints the same about each epoch that ends before, as `epoch 1: audit ok`. `maildropd ctl --port 11999 roll` ends one, and reads the accounts anew.
All mail is in memory, and is gone when the process ends, unless there is a data folder:
  maildropd begin --data mail
  maildropd serve --data mail --accounts accounts --port 11000 --ctl-port 11999
Each node in a process of its own, here node 2 of three, with a port of its own for clients and one for its operator:
  maildropd serve --accounts accounts --node 2 --peer-port 12000 --mark /var/lib/maildropd --port 11002 --ctl-port 11992
It prints `stopped` at its end.";

/// The options of `serve`: where the service is, its nodes, and the limits of each maildrop.
pub(crate) const OPTIONS: &[Choice] = &[
    Choice {
        name: "accounts",
        value: "FILE",
        kind: Kind::Text,
        presence: Presence::Required,
        help: "The accounts: a line `NAME METHOD SECRET` each, with the method pass or apop",
    },
    Choice {
        name: "port",
        value: "PORT",
        kind: Kind::Number(PORT),
        presence: Presence::Optional,
        help: "Takes POP3 connections at this port, and serves them at the node that leads",
    },
    Choice {
        name: "pop-port",
        value: "PORT",
        kind: Kind::Number(Range::BelowNodes),
        presence: Presence::Optional,
        help: "Node N takes POP3 connections at the port N above this one",
    },
    Choice {
        name: "listen",
        value: "ADDRESS",
        kind: Kind::Text,
        presence: Presence::Default("127.0.0.1"),
        help: "The address at which POP3 connections are taken",
    },
    Choice {
        name: "ctl-port",
        value: "PORT",
        kind: Kind::Number(PORT),
        presence: Presence::Optional,
        help: "The port of 127.0.0.1 that takes the operator's requests",
    },
    Choice {
        name: "ctl-socket",
        value: "PATH",
        kind: Kind::Text,
        presence: Presence::Optional,
        help: "The Unix socket that takes the operator's requests, in place of a port. Only its owner may use it",
    },
    Choice {
        name: "host",
        value: "NAME",
        kind: Kind::Text,
        presence: Presence::Default("localhost"),
        help: "What the greetings' timestamps have after their @",
    },
    Choice {
        name: "nodes",
        value: "COUNT",
        kind: Kind::Number(Range::Between(1, 9)),
        presence: Presence::Default("3"),
        help: "How many nodes there are, 1 to 9",
    },
    Choice {
        name: "peer-port",
        value: "PORT",
        kind: Kind::Number(Range::BelowNodes),
        presence: Presence::Optional,
        help: "Node N takes what other nodes send at the port of 127.0.0.1 that is N above this one",
    },
    Choice {
        name: "node",
        value: "NUMBER",
        kind: Kind::Number(Range::Nodes),
        presence: Presence::Optional,
        help: "Runs this node alone, beside processes that run the others. Needs --peer-port. No node may be started twice",
    },
    Choice {
        name: "mark",
        value: "FOLDER",
        kind: Kind::Text,
        presence: Presence::Optional,
        help: "With --node: notes in this folder that the node was started, and starts none that was started before",
    },
    Choice {
        name: "window",
        value: "COUNT",
        kind: Kind::Number(Range::Between(1, 1_000)),
        presence: Presence::Default("10"),
        help: "How many operations a node proposes at a time, 1 to 1000",
    },
    Choice {
        name: "tick-ms",
        value: "MILLISECONDS",
        kind: Kind::Number(Range::Between(1, 1_000_000)),
        presence: Presence::Default("200"),
        help: "Time between two ticks, at which a node repeats what may be lost, 1 to 1000000",
    },
    Choice {
        name: "messages",
        value: "COUNT",
        kind: Kind::Number(Range::Between(0, 999_999_999)),
        presence: Presence::Default("10000"),
        help: "How many messages a maildrop holds, at most 999999999",
    },
    Choice {
        name: "octets",
        value: "COUNT",
        kind: Kind::Number(AMOUNT),
        presence: Presence::Default("50000000"),
        help: "How many octets the messages of a maildrop have together, at most 2^40",
    },
    Choice {
        name: "ids",
        value: "COUNT",
        kind: Kind::Number(Range::Between(0, TWO_TO_63)),
        presence: Presence::Default("1000000000"),
        help: "The highest unique id that a maildrop gives, at most 2^63",
    },
    Choice {
        name: "idle-seconds",
        value: "SECONDS",
        kind: Kind::Number(PAUSE),
        presence: Presence::Default("600"),
        help: "Ends a session after this time without a whole line, at most 1000000; 0: never",
    },
    Choice {
        name: "no-majority-seconds",
        value: "SECONDS",
        kind: Kind::Number(PAUSE),
        presence: Presence::Default("30"),
        help: "Ends the epoch after this time without a majority of the nodes, at most 1000000; 0: never. All nodes are up in the next one. With --peer-port the service ends",
    },
    Choice {
        name: "delivery-bytes",
        value: "COUNT",
        kind: Kind::Number(Range::Between(1, TWO_TO_40)),
        presence: Presence::Default("1073741824"),
        help: "How many bytes the files have together that are delivered at a time, at most 2^40. What doesn't fit waits",
    },
    Choice {
        name: "epoch-sessions",
        value: "COUNT",
        kind: Kind::Number(AMOUNT),
        presence: Presence::Default("20000"),
        help: "Ends an epoch after this many sessions, once none is open, at most 2^40; 0: after any number",
    },
    Choice {
        name: "epoch-bytes",
        value: "COUNT",
        kind: Kind::Number(AMOUNT),
        presence: Presence::Default("268435456"),
        help: "Ends an epoch once about so many bytes are kept for its audit, at most 2^40; 0: after any number",
    },
    Choice {
        name: "keys",
        value: "COUNT",
        kind: Kind::Number(AMOUNT),
        presence: Presence::Default("10000"),
        help: "How many keys of deliveries are kept of a maildrop when an epoch begins, the last ones, at most 2^40",
    },
    Choice {
        name: "on-fault",
        value: "ACTION",
        kind: Kind::Text,
        presence: Presence::Default("stop"),
        help: "If an audit finds an epoch that was not in order: stop ends the service, go-on doesn't",
    },
    Choice {
        name: "data",
        value: "FOLDER",
        kind: Kind::Text,
        presence: Presence::Optional,
        help: "Keeps mail in this folder, which `maildropd begin` has made. Not with --node",
    },
    Choice {
        name: "sync",
        value: "WHEN",
        kind: Kind::Text,
        presence: Presence::DefaultWithData("disk"),
        help: "With --data: disk answers a change once it is on the disk, process once it is written, so that it outlives the process but no loss of power [default: disk]",
    },
    Choice {
        name: "keep",
        value: "COUNT",
        kind: Kind::Number(Range::Between(1, 1_000_000)),
        presence: Presence::DefaultWithData("2"),
        help: "With --data: how many segments stay in the folder, the last ones, 1 to 1000000 [default: 2]",
    },
    Choice {
        name: "log",
        value: "FILE",
        kind: Kind::Text,
        presence: Presence::Optional,
        help: "Adds a line for each event to this file; -: to standard error",
    },
];

/// The command `serve` of the command line.
pub(crate) fn serve<'a>(alloc: Global) -> Result<Command<'a>, Error> {
    let serve = Command::new(alloc, "serve")
        .about(
            "Serves POP3 over maildrops that one to nine nodes agree on, in this process or each in its own",
        )
        .after_help(EXAMPLES);
    with_config(alloc, with_options(alloc, serve, OPTIONS)?)
}

/// The same without required options and defaults, as a file may give what the command line doesn't.
pub(crate) fn serve_in_part<'a>(alloc: Global) -> Result<Command<'a>, Error> {
    let serve = Command::new(alloc, "serve");
    with_config(alloc, with_optional(alloc, serve, OPTIONS)?)
}

/// What becomes of the service after a fault, or nothing if the word is none.
pub(crate) fn on_fault_of(word: &str) -> Option<OnFault> {
    match word {
        "stop" => Some(OnFault::Stop),
        "go-on" => Some(OnFault::GoOn),
        _ => None,
    }
}

/// When a change is answered, or nothing if the word is none.
pub(crate) fn sync_of(word: &str) -> Option<SyncMode> {
    match word {
        "disk" => Some(SyncMode::Disk),
        "process" => Some(SyncMode::Process),
        _ => None,
    }
}
