//! The frames of several envelopes.
ghost use Rattle.peer_link.specs.Frames.{AreAdded};

use ballot::Envelope;
use maildrop::SharedCommand;
use peer_frames::append;

/// Adds the frames of envelopes, in their order. One that is too long for a frame, or for which there is no memory, is left
/// out.
pub(crate) fn add_frames(frames: &mut Vec<u8>, envelopes: &[Envelope<SharedCommand>])
    ensures { AreAdded envelopes.now frames.old.items frames.new.items }
{
    let mut rest = envelopes;
    while let Some((envelope, others)) = rest.split_first() {
        let _left_out = append(frames, envelope);
        rest = others;
    }
}
