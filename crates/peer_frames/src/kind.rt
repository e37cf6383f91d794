//! The kinds of messages.
ghost use Rattle.std.specs.Prelude.{◌≡◌};
ghost use Rattle.peer_frames.specs.Numbers.{kind_of, kind_number};
ghost use Rattle.peer_frames.specs.Frames.{kind_of_message};

use ballot::Message;
use maildrop::SharedCommand;
use std::alloc::Allocator;

/// The kind of a message.
#[derive(Clone, Copy, Debug, PartialEq, Eq)]
pub(crate) enum Kind {
    Propose,
    P1a,
    P1b,
    P2a,
    P2b,
    Decision,
    Ask,
}

impl Kind {
    /// The kind of this number, if there is one.
    pub(crate) fn of(number: u8) -> Option<Kind>
        ensures { result ≡ kind_of number }
    {
        match number {
            1 => Some(Kind::Propose),
            2 => Some(Kind::P1a),
            3 => Some(Kind::P1b),
            4 => Some(Kind::P2a),
            5 => Some(Kind::P2b),
            6 => Some(Kind::Decision),
            7 => Some(Kind::Ask),
            _ => None,
        }
    }
}

/// The number of a message's kind.
pub(crate) fn number_of<A: Allocator>(message: &Message<SharedCommand<A>, A>) -> u8
    ensures { result ≡ kind_number (kind_of_message message.now) }
{
    match message {
        Message::Propose(..) => 1,
        Message::P1a(_) => 2,
        Message::P1b(_) => 3,
        Message::P2a(_) => 4,
        Message::P2b(_) => 5,
        Message::Decision(..) => 6,
        Message::Ask(_) => 7,
    }
}
