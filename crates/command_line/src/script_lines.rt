//! What is wrong with a line of a script.

use crate::form::{Form, usage_of};
use crate::mistake::Mistake;
use std::str::from_utf8;

/// The longest first word that is shown.
const LONGEST_WORD: usize = 40;

/// The settings, in the order of `--help`.
const SETTINGS: &[Form] = &[
    Form {
        word: "nodes",
        usage: "nodes COUNT, COUNT 1 to 9",
    },
    Form {
        word: "limits",
        usage: "limits MESSAGES OCTETS IDS",
    },
    Form {
        word: "window",
        usage: "window COUNT, COUNT 1 to 1000",
    },
    Form {
        word: "host",
        usage: "host NAME",
    },
    Form {
        word: "account",
        usage: "account NAME METHOD SECRET, METHOD pass or apop, each NAME once",
    },
];

/// The commands, in the order of `--help`.
const COMMANDS: &[Form] = &[
    Form {
        word: "mail",
        usage: "mail NODE USER TEXT",
    },
    Form {
        word: "keyed",
        usage: "keyed NODE USER KEY TEXT",
    },
    Form {
        word: "break",
        usage: "break NODE USER",
    },
    Form {
        word: "connect",
        usage: "connect S NODE NONCE, S an s and a number",
    },
    Form {
        word: "line",
        usage: "line S TEXT, S an s and a number",
    },
    Form {
        word: "hangup",
        usage: "hangup S, S an s and a number",
    },
    Form {
        word: "tick",
        usage: "tick NODE",
    },
    Form {
        word: "campaign",
        usage: "campaign NODE",
    },
    Form {
        word: "crash",
        usage: "crash NODE",
    },
    Form {
        word: "settle",
        usage: "settle LIMIT",
    },
    Form {
        word: "storm",
        usage: "storm COPIES LIMIT",
    },
    Form {
        word: "deliver",
        usage: "deliver FROM TO KIND, KIND propose, p1a, p1b, p2a, p2b, decision or ask",
    },
    Form {
        word: "lose",
        usage: "lose",
    },
    Form {
        word: "order",
        usage: "order NODE",
    },
];

/// The first word of a line, if it can be shown.
fn word_of(line: &[u8]) -> Option<&str> {
    let word = line.split(|byte| *byte == b' ').next()?;
    let is_shown = !word.is_empty()
        && word.len() <= LONGEST_WORD
        && word.iter().all(|byte| byte.is_ascii_graphic());
    if is_shown { from_utf8(word).ok() } else { None }
}

/// What is wrong with a line that a script may not have at its place, by its first word.
pub(crate) fn mistake_in_line(line: &[u8]) -> Mistake<'_> {
    let Some(word) = word_of(line) else {
        return Mistake::NoCommand;
    };
    match (usage_of(SETTINGS, word), usage_of(COMMANDS, word)) {
        (Some(usage), _) => Mistake::Setting(usage),
        (None, Some(usage)) => Mistake::Usage(usage),
        (None, None) => Mistake::NoSuchCommand(word),
    }
}
