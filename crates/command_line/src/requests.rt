//! The requests of `maildropd ctl`.

use crate::form::{Form, usage_of};
use crate::mistake::Mistake;
use script::{WordsFault, instruction_of};
use std::alloc::Global;

/// What `--help` shows below the options.
pub(crate) const REQUESTS: &str = "Requests:
  deliver NODE USER FILE [KEY]  Delivers the messages of a mailbox file (mboxrd); under a key of 1 to 54 visible ASCII characters, each is stored once, however often it is sent
  put NODE USER [KEY]           Delivers one message, which is read from standard input as it is; NODE 0 is any node that is up. Under a key of any characters it is stored once
  break NODE USER               Takes the user's lock from the session that has it
  kick USER                     Cuts the user's sessions, and reports how many these were
  crash NODE                    Stops a node until the epoch ends, and takes the locks from its sessions
  status                        Reports the state of each node
  sessions                      Lists the sessions that are open
  stats                         Reports what the service has done so far
  locks                         Lists the users whose maildrop is locked, and by which node's session
  users                         Lists the users, and what their maildrops have
  roll                          Ends the epoch: the next one reads the accounts anew and has all nodes up, with the same mail
  reopen                        Opens the log's file anew, after it was renamed
  stop                          Ends the service, once its sessions have ended
  stop now                      Ends the service, and cuts its sessions
After the first word of a request nothing is an option.
Without --port and --socket the environment variable MAILDROPD_CTL names the port, or the path of the socket.
The status is 0 after an answer, 3 if that is `bad request`, `bad mbox`, `down`, `roll failed` or `reopen failed`, 2 for words that are no request, else 1.
After `put` it is 0 if the message is stored, 67 if there is no such user, 65 if it is too large, 64 for words that are no request, and 75 if it may be sent again later.
After `--wait stop` it is 0 if the verdict is `audit ok`, or if a node in a process of its own has `stopped`, else 1.
Examples:
  maildropd ctl --port 11999 deliver 1 alice mail.mbox
  maildropd ctl --port 11999 put 0 alice monday-7 <message
  maildropd ctl --port 11999 break 1 alice
  maildropd ctl --port 11999 kick alice
  maildropd ctl --port 11999 crash 3
  maildropd ctl --port 11999 status
  maildropd ctl --port 11999 --wait status
  maildropd ctl --port 11999 sessions
  maildropd ctl --port 11999 stats
  maildropd ctl --port 11999 locks
  maildropd ctl --port 11999 users
  maildropd ctl --port 11999 roll
  mv log log.1 && maildropd ctl --port 11999 reopen
  maildropd ctl --port 11999 --wait stop
  maildropd ctl --socket /run/maildropd/ctl stop now";

/// The requests, with the numbers that they take, in the order of the help text.
const FORMS: &[Form] = &[
    Form {
        word: "deliver",
        usage: "deliver NODE USER FILE [KEY], NODE 1 to 9",
    },
    Form {
        word: "put",
        usage: "put NODE USER [KEY], NODE 0 to 9",
    },
    Form {
        word: "break",
        usage: "break NODE USER, NODE 1 to 9",
    },
    Form {
        word: "kick",
        usage: "kick USER",
    },
    Form {
        word: "crash",
        usage: "crash NODE, NODE 1 to 9",
    },
    Form {
        word: "status",
        usage: "status",
    },
    Form {
        word: "sessions",
        usage: "sessions",
    },
    Form {
        word: "stats",
        usage: "stats",
    },
    Form {
        word: "locks",
        usage: "locks",
    },
    Form {
        word: "users",
        usage: "users",
    },
    Form {
        word: "roll",
        usage: "roll",
    },
    Form {
        word: "reopen",
        usage: "reopen",
    },
    Form {
        word: "stop",
        usage: "stop [now]",
    },
];

/// What is wrong with words that are no request, by the first of them.
fn mistake_by(word: &str) -> Mistake<'_> {
    match usage_of(FORMS, word) {
        Some(usage) => Mistake::Usage(usage),
        None => Mistake::NoSuchRequest(word),
    }
}

/// What is wrong with the words of a request, if they are none.
pub(crate) fn mistake_in_words<'a>(alloc: Global, words: &[&'a str]) -> Option<Mistake<'a>> {
    let mut parts = Vec::new(alloc);
    for word in words {
        if parts.push(word.as_bytes()).is_err() {
            return None;
        }
    }
    let first = *words.first()?;
    match instruction_of(parts.as_slice()) {
        Err(WordsFault::Value) => Some(mistake_by(first)),
        Ok(_) | Err(WordsFault::Key) => None,
    }
}
