//! The commands of a script.

use crate::message_kind::MessageKind;
use crate::nonce::Nonce;
use crate::rest::Rest;
use ballot::NodeId;
use maildrop::{Key, Name};
use pop3_wire::Line;

/// A command of a script. The session `s7` is the number 7.
#[derive(Drop)]
pub enum Command<'a> {
    /// `mail NODE USER REST` and `keyed NODE USER KEY REST`: mail is delivered at a node. `text_of` makes the message
    /// of what is written.
    Mail {
        node: NodeId,
        user: Name,
        key: Option<Key>,
        written: Rest<'a>,
    },
    /// `break NODE USER`: the user's lock is broken.
    Break {
        node: NodeId,
        user: Name,
    },
    /// `connect S NODE NONCE`: a client connects to a node.
    Connect {
        session: u32,
        node: NodeId,
        nonce: Nonce,
    },
    /// `line S REST`: a client sends a line.
    Line {
        session: u32,
        line: Line,
    },
    /// `hangup S`: a client hangs up.
    Hangup {
        session: u32,
    },
    /// `tick NODE`: time passes at a node.
    Tick {
        node: NodeId,
    },
    /// `campaign NODE`: a node tries to become the leader.
    Campaign {
        node: NodeId,
    },
    /// `crash NODE`: a node stops for good.
    Crash {
        node: NodeId,
    },
    /// `deliver FROM TO KIND`: the first message of this kind between these nodes that never arrived arrives.
    Deliver {
        from: NodeId,
        to: NodeId,
        kind: MessageKind,
    },
    /// `settle LIMIT`: the oldest event that is due happens, at most so many times.
    Settle {
        limit: u64,
    },
    /// `storm COPIES LIMIT`: the newest message arrives, up to so many times each, at most so many events.
    Storm {
        copies: u64,
        limit: u64,
    },
    /// `lose`: what was sent so far is not looked at any more.
    Lose,
    /// `order NODE`: what a node performed is told.
    Order {
        node: NodeId,
    },
}
