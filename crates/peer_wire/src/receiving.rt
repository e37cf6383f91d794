//! Receives frames.
ghost use Rattle.std.specs.Prelude.{◌≡◌, ◌≤◌, ◌<◌, ℕ, length, drop};
ghost use lib.ListN.{get_or};
ghost use Rattle.peer_wire.specs.Streams as spec;
ghost use Rattle.peer_wire.specs.Streams.{IsHandedOn, StopsAt, IsReceived};

use crate::inbox::Inbox;
use crate::received::{End, Received};
use ballot::Envelope;
use maildrop::SharedCommand;
use peer_frames::{FrameFault, decode};
use std::alloc::Allocator;
use std::io::Read;

/// The most bytes of one read.
const PIECE: usize = 16_384;

/// The most reads of a connection.
const MOST_READS: u32 = u32::MAX;

/// The most bytes that a frame's content can have.
const LONGEST_OF_ALL: usize = 1 << 30;

/// What was handed on of some bytes.
#[derive(Clone, Copy)]
struct Handed {
    /// How many bytes the frames had.
    used: usize,
    /// How many frames there were.
    count: usize,
    /// Why no more is. None if what comes next is a part of a frame.
    end: Option<End>,
}

/// Whether the first four bytes are a length above the limit, though one that a frame can have.
fn claims(longest: usize, bytes: &[u8]) -> bool
    ensures { result ≡ spec.claims longest bytes.now }
{
    if bytes.len() < 4 {
        return false;
    }
    let len = u32::from_be_bytes([bytes[0], bytes[1], bytes[2], bytes[3]]) as usize;
    longest < len && len <= LONGEST_OF_ALL
}

/// Hands on the envelopes of all whole frames at the front, up to the first length above the limit.
fn hand_on<A: Allocator + Copy, I: Inbox<Envelope<SharedCommand<A>, A>>>(
    alloc: A,
    longest: usize,
    bytes: &[u8],
    inbox: &mut I,
) -> Handed
    ensures within { result.used ≤ length bytes.now }
    ensures few { result.count ≤ result.used }
    ensures handed { IsHandedOn longest I.hears inbox.old inbox.new bytes.now (drop result.used bytes.now) result.count }
    ensures stops { StopsAt A longest result.end (drop result.used bytes.now) }
{
    let mut used = 0;
    let mut count = 0;
    for _ in 0..=bytes.len() {
        let (_, rest) = bytes.split_at(used);
        if claims(longest, rest) {
            return Handed {
                used,
                count,
                end: Some(End::TooLong),
            };
        }
        match decode(alloc, rest) {
            Ok(Some((envelope, len))) => {
                let _taken = inbox.arrive(envelope);
                used += len;
                count += 1;
            }
            Ok(None) => {
                return Handed {
                    used,
                    count,
                    end: None,
                };
            }
            Err(fault) => {
                return Handed {
                    used,
                    count,
                    end: Some(End::Fault(fault)),
                };
            }
        }
    }
    unreachable!()
}

/// Removes so many bytes at the front.
fn cut_front<A: Allocator>(bytes: &mut Vec<u8, A>, used: usize)
    requires { used ≤ length bytes.old.items }
    ensures { bytes.new.items ≡ drop used bytes.old.items }
{
    drop(bytes.drain(..used));
}

/// Bytes are below 256.
fn are_bytes(bytes: &[u8])
    ensures { (i : ℕ) → get_or bytes.now i 0 < 256 }
{}

/// Reads frames until the reader's end, the first fault, or the first frame whose content is longer than `longest` bytes.
/// Hands each envelope to the inbox as soon as its frame is whole. Memory is taken by what has come, and not by the length
/// that a frame claims. Once a length above `longest` has come, nothing more is read.
pub fn receive<A: Allocator + Copy, S: Read, I: Inbox<Envelope<SharedCommand<A>, A>>>(
    alloc: A,
    longest: usize,
    reader: &mut S,
    inbox: &mut I,
) -> Received
    ensures { IsReceived longest I.hears inbox.old inbox.new (S.remaining reader.old) (S.remaining reader.new) result }
{
    let mut piece = [0u8; PIECE];
    let mut bytes = Vec::new(alloc);
    let mut count = 0u64;
    for _ in 0..MOST_READS {
        let len = match reader.read(&mut piece) {
            Ok(0) => {
                return Received {
                    count,
                    end: End::Ended,
                };
            }
            Ok(len) => len,
            Err(_) => {
                return Received {
                    count,
                    end: End::ReadFault,
                };
            }
        };
        let (front, _) = piece.split_at(len);
        are_bytes(front);
        let Ok(_) = bytes.extend_from_slice(front) else {
            return Received {
                count,
                end: End::Fault(FrameFault::Memory),
            };
        };
        let handed = hand_on(alloc, longest, &bytes, inbox);
        count += handed.count as u64;
        if let Some(end) = handed.end {
            return Received { count, end };
        }
        cut_front(&mut bytes, handed.used);
    }
    Received {
        count,
        end: End::ReadFault,
    }
}
