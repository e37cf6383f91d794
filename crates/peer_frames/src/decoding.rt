//! Reads frames.
ghost use Rattle.std.specs.Prelude.{◌≡◌, true, IfOk, IfSome, IsErrOf};
ghost use Rattle.peer_frames.specs.Fitting.{BeginsWithFrame};
ghost use Rattle.peer_frames.specs.Reading.{Gives, FindsAs, header_has_commands, has_commands_at, header_at, envelope_in, content_at, framed_in, frame_at};

use crate::cursor::Cursor;
use crate::fault::FrameFault;
use crate::malformed::Malformed;
use ballot::Envelope;
use maildrop::SharedCommand;
use std::alloc::Allocator;

/// The fewest and the most bytes that a content has.
const SHORTEST: usize = 4;

const LONGEST: usize = 1 << 30;

/// The content of the frame at the front. None while the frame isn't whole.
#[tactic(auto, unfolding(crate::specs::Reading::content_at))]
fn content_of(bytes: &[u8]) -> Result<Option<&[u8]>, Malformed>
    ensures { FindsAs (λ content. content.now) result (content_at bytes.now) }
{
    if bytes.len() < 4 {
        return Ok(None);
    }
    let mut cursor = Cursor::new(bytes);
    let len = cursor.read_u32()? as usize;
    if len < SHORTEST || len > LONGEST {
        return Err(Malformed::Length);
    }
    if bytes.len() - 4 < len {
        return Ok(None);
    }
    Ok(Some(&bytes[4..4 + len]))
}

/// The envelope that has this content.
#[tactic(auto, unfolding(crate::specs::Reading::envelope_in))]
fn envelope_of<A: Allocator + Copy>(
    alloc: A,
    content: &[u8],
) -> Result<Envelope<SharedCommand<A>, A>, FrameFault>
    ensures value { Gives result (envelope_in content.now) }
    ensures memory { IsErrOf result FrameFault.Memory → header_has_commands (header_at content.now) ≡ true }
{
    let mut cursor = Cursor::new(content);
    let header = cursor.read_header()?;
    let message = cursor.read_message(alloc, header.version, header.kind)?;
    if !cursor.is_empty() {
        return Err(FrameFault::Length);
    }
    Ok(Envelope {
        from: header.from,
        to: header.to,
        message,
    })
}

#[tactic(auto, unfolding(crate::specs::Reading::frame_at, crate::specs::Reading::framed_in))]
fn frame_of<A: Allocator + Copy>(
    alloc: A,
    bytes: &[u8],
) -> Result<Option<(Envelope<SharedCommand<A>, A>, usize)>, FrameFault>
    ensures exact { Gives result (frame_at bytes.now) }
    ensures memory { IsErrOf result FrameFault.Memory → has_commands_at bytes.now ≡ true }
{
    let Some(content) = content_of(bytes)? else {
        return Ok(None);
    };
    let envelope = envelope_of(alloc, content)?;
    Ok(Some((envelope, 4 + content.len())))
}

/// Reads the frame at the front: returns its envelope, and how many bytes the frame has. Returns None while the frame
/// isn't whole. A frame of version 2 or 1 is read; in version 1 no delivery has a key.
///
/// The faults, in this order: a length below 4 or above 2^30 is `Length`, before the frame is whole; an unknown version
/// is `Version`, an unknown kind `Kind`; then the first field that is outside its range or breaks its rule is `Field`,
/// and one that the frame cuts off is `Length`; bytes after the last field are `Length`.
pub fn decode<A: Allocator + Copy>(
    alloc: A,
    bytes: &[u8],
) -> Result<Option<(Envelope<SharedCommand<A>, A>, usize)>, FrameFault>
    // What it returns and which fault it is, unless memory runs out.
    ensures exact { Gives result (frame_at bytes.now) }

    // The bytes of the frame are those of the envelope's frame in one of the versions.
    ensures used { IfOk result (λ found. IfSome found (λ x. BeginsWithFrame bytes.now x.0 x.1)) }

    // Only a whole frame with a good header, of a kind whose messages may have commands, takes memory.
    ensures memory { IsErrOf result FrameFault.Memory → has_commands_at bytes.now ≡ true }
{
    frame_of(alloc, bytes)
}
