//! What is wrong with the options of `serve`.

use crate::serve_options::{OPTIONS, on_fault_of, sync_of};
use apop::stamp;
use clap::ArgMatches;
use command_line::{
    Bound, Choice, Kind, Mistake, Range, bytes_of, number_of, optional_number_of, optional_text_of,
    text_of,
};
use std::net::IpAddr;

/// A nonce that can stand before every host.
const ANY_NONCE: &[u8] = b"1";

/// What is wrong with the number of an option, if it is out of its range. Nothing if that depends on the number of nodes, which
/// isn't given.
fn mistake_in_number(
    choice: &Choice,
    matches: &ArgMatches<'_>,
    nodes: Option<u64>,
) -> Option<Mistake<'static>> {
    let Kind::Number(range) = choice.kind else {
        return None;
    };
    let number = optional_number_of(matches, choice.name)?;
    let (low, high) = range.ends(nodes)?;
    if low <= number && number <= high {
        return None;
    }
    match (range, nodes) {
        (Range::BelowNodes, Some(nodes)) => Some(Mistake::PortsOfNodes(choice.name, high, nodes)),
        _ => Some(Mistake::OutOfRange(choice.name, low, Bound(high))),
    }
}

/// The first of the options whose number is out of its range, as far as that doesn't depend on the number of nodes, or that is given.
fn mistake_in_numbers(matches: &ArgMatches<'_>, nodes: Option<u64>) -> Option<Mistake<'static>> {
    for choice in OPTIONS {
        let mistake = mistake_in_number(choice, matches, nodes);
        if mistake.is_some() {
            return mistake;
        }
    }
    None
}

/// What is wrong with an option whose value is a word, an address or a host.
fn mistake_in_words(matches: &ArgMatches<'_>) -> Option<Mistake<'static>> {
    if text_of(matches, "listen").parse::<IpAddr>().is_err() {
        Some(Mistake::Listen)
    } else if on_fault_of(text_of(matches, "on-fault")).is_none() {
        Some(Mistake::OnFault)
    } else if optional_text_of(matches, "sync").is_some_and(|word| sync_of(word).is_none()) {
        Some(Mistake::Sync)
    } else if stamp(ANY_NONCE, bytes_of(matches, "host")).is_none() {
        Some(Mistake::Host)
    } else {
        None
    }
}

/// Whether an option with a number is given.
fn has_number(matches: &ArgMatches<'_>, name: &str) -> bool {
    optional_number_of(matches, name).is_some()
}

/// Whether an option with a text is given.
fn has_text(matches: &ArgMatches<'_>, name: &str) -> bool {
    optional_text_of(matches, name).is_some()
}

/// What is wrong with options that need one another, or can't be together.
fn mistake_in_pairs(matches: &ArgMatches<'_>) -> Option<Mistake<'static>> {
    let has_node = has_number(matches, "node");
    let has_data = has_text(matches, "data");
    if !has_number(matches, "port") && !has_number(matches, "pop-port") {
        Some(Mistake::NoPort)
    } else if has_number(matches, "ctl-port") == has_text(matches, "ctl-socket") {
        Some(Mistake::OperatorsPlaces)
    } else if has_node && !has_number(matches, "peer-port") {
        Some(Mistake::NodeWithoutPeers)
    } else if has_node && has_data {
        Some(Mistake::NodeWithData)
    } else if !has_node && has_text(matches, "mark") {
        Some(Mistake::MarkWithoutNode)
    } else if !has_data && (has_text(matches, "sync") || has_number(matches, "keep")) {
        Some(Mistake::NoData)
    } else {
        None
    }
}

/// What is wrong with the options, if anything is.
pub(crate) fn mistake_in_options(matches: &ArgMatches<'_>) -> Option<Mistake<'static>> {
    let nodes = number_of(matches, "nodes");
    mistake_in_numbers(matches, None)
        .or(mistake_in_numbers(matches, Some(nodes)))
        .or(mistake_in_words(matches))
        .or(mistake_in_pairs(matches))
}
