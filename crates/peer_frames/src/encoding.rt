//! Writes frames.
ghost use Rattle.std.specs.Prelude.{◌≡◌, ◌++◌, ◌+◌, ◌-◌, ◌≤◌, ◌<◌, ℕ, List, length, Ok, Some, None, take, drop, IsErrOf, OnOk, OnErr, IfOk};
ghost use Rattle.peer_frames.specs.declared.version.Version.TheVariants.{Second};
ghost use Rattle.peer_frames.specs.Numbers.{longest};
ghost use Rattle.peer_frames.specs.Fitting.{FitsEnvelope};
ghost use Rattle.peer_frames.specs.Reading.{frame_at};
ghost use Rattle.peer_frames.specs.Frames.{u32_bytes, content, frame};

use crate::content::{Content, Front};
use crate::encode_error::EncodeError;
use ballot::Envelope;
use maildrop::SharedCommand;
use std::alloc::Allocator;
use std::marker::Brand;
use std::mem;

/// The most bytes that a content has.
const LONGEST: usize = 1 << 30;

/// How many bytes the length of a content takes.
const LENGTH: usize = 4;

/// Adds the content of an envelope's frame to a buffer. After an error a part of it may stand there.
fn put_content<A: Allocator + Copy, F: Front>(
    bytes: &mut Vec<u8, A>,
    envelope: &Envelope<SharedCommand<A>, A>,
) -> Result<(), EncodeError>
    requires { bytes.old.items ≡ F.front }
    ensures ok { OnOk result (bytes.new.items ≡ bytes.old.items ++ content Second envelope.now) }
    ensures kept { take (length bytes.old.items) bytes.new.items ≡ bytes.old.items }
    ensures valid { OnOk result (FitsEnvelope Second envelope.now) }
    ensures long { IsErrOf result EncodeError.TooLong → longest < length (content Second envelope.now) }
{
    let alloc = *bytes.allocator();
    let front = mem::replace(bytes, Vec::new(alloc));
    let mut content: Content<A, F> = Content::behind(front);
    let written = content.put_envelope(envelope);
    *bytes = content.into_bytes();
    written
}

/// Writes the length of a content at its place before the content, which ends the buffer. After an error nothing has changed.
#[tactic(auto, unfolding(crate::specs::Frames::u32_bytes))]
fn set_length<A: Allocator>(bytes: &mut Vec<u8, A>, start: usize) -> Result<(), EncodeError>
    requires { start + 4 ≤ length bytes.old.items }
    ensures ok { OnOk result (bytes.new.items ≡ take start bytes.old.items ++ u32_bytes (length bytes.old.items - (start + 4)) ++ drop (start + 4) bytes.old.items) }
    ensures kept { OnErr result (bytes.new.items ≡ bytes.old.items) }
    ensures fits { OnOk result (length bytes.old.items - (start + 4) ≤ longest) }
    ensures long { IsErrOf result EncodeError.TooLong → longest < length bytes.old.items - (start + 4) }
{
    let len = bytes.len() - (start + LENGTH);
    if len > LONGEST {
        return Err(EncodeError::TooLong);
    }
    bytes[start..start + LENGTH].copy_from_slice(&(len as u32).to_be_bytes());
    Ok(())
}

/// Adds the frame of an envelope to a buffer. After an error a part of it may stand there.
fn put_frame<A: Allocator + Copy>(
    bytes: &mut Vec<u8, A>,
    envelope: &Envelope<SharedCommand<A>, A>,
) -> Result<(), EncodeError>
    ensures ok { OnOk result (bytes.new.items ≡ bytes.old.items ++ frame Second envelope.now) }
    ensures kept { take (length bytes.old.items) bytes.new.items ≡ bytes.old.items }
    ensures valid { OnOk result (FitsEnvelope Second envelope.now) }
    ensures fits { OnOk result (length (content Second envelope.now) ≤ longest) }
    ensures long { IsErrOf result EncodeError.TooLong → longest < length (content Second envelope.now) }
{
    let start = bytes.len();
    bytes.extend_from_slice(&[0; LENGTH])?;
    put_content::<A, Brand>(bytes, envelope)?;
    set_length(bytes, start)
}

/// Adds the frame of an envelope, in version 2, to a buffer. Takes no memory but what the buffer grows by. `TooLong` if the
/// content would be longer than 2^30 bytes. After an error the buffer has what it had.
pub fn append<A: Allocator + Copy>(
    frames: &mut Vec<u8, A>,
    envelope: &Envelope<SharedCommand<A>, A>,
) -> Result<(), EncodeError>
    ensures value { OnOk result (frames.new.items ≡ frames.old.items ++ frame Second envelope.now) }
    ensures kept { OnErr result (frames.new.items ≡ frames.old.items) }
    ensures valid { OnOk result (FitsEnvelope Second envelope.now) }
    ensures fits { OnOk result (length (content Second envelope.now) ≤ longest) }
    ensures long { IsErrOf result EncodeError.TooLong → longest < length (content Second envelope.now) }
{
    let start = frames.len();
    let written = put_frame(frames, envelope);
    if written.is_err() {
        frames.truncate(start);
    }
    written
}

/// Writes the frame of an envelope, in version 2. `TooLong` if its content would be longer than 2^30 bytes.
pub fn encode<A: Allocator + Copy>(
    alloc: A,
    envelope: &Envelope<SharedCommand<A>, A>,
) -> Result<Vec<u8, A>, EncodeError>
    ensures value { IfOk result (λ bytes. bytes.items ≡ frame Second envelope.now) }

    // It is read back, whatever follows it, and isn't read in part.
    ensures read_back { IfOk result (λ bytes. (rest : List ℕ) → frame_at (bytes.items ++ rest) ≡ Ok (Some (envelope.now, length bytes.items))) }
    ensures in_part { IfOk result (λ bytes. (k : ℕ) → k < length bytes.items → frame_at {A = A} (take k bytes.items) ≡ Ok None) }
    ensures fits { OnOk result (length (content Second envelope.now) ≤ longest) }
    ensures long { IsErrOf result EncodeError.TooLong → longest < length (content Second envelope.now) }
{
    let mut bytes = Vec::new(alloc);
    append(&mut bytes, envelope)?;
    Ok(bytes)
}
