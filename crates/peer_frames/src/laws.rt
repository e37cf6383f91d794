//! Laws of frames. Each is a function that does nothing: its contract is the law.
ghost use Rattle.std.specs.Prelude.{◌≡◌, ◌++◌, ◌<◌, ◌≤◌, ℕ, List, Ok, Some, None, length, take};
ghost use Rattle.ballot.specs.declared.message.Envelope.{Envelope};
ghost use Rattle.maildrop.specs.declared.command.Command.{Command};
ghost use Rattle.peer_frames.specs.declared.version.Version.{Version};
ghost use Rattle.peer_frames.specs.Fitting.{FitsEnvelope};
ghost use Rattle.peer_frames.specs.Numbers.{longest};
ghost use Rattle.peer_frames.specs.Reading.{frame_at};
ghost use Rattle.peer_frames.specs.Frames.{content, frame};

use std::alloc::Allocator;

/// A frame of either version is read back, whatever follows it.
pub fn frames_are_read_back<A: Allocator>()
    ensures { (v : Version) (e : Envelope (Command A) A) (rest : List ℕ) → FitsEnvelope v e → length (content v e) ≤ longest
        → frame_at (frame v e ++ rest) ≡ Ok (Some (e, length (frame v e))) }
{}

/// A frame of either version that is cut short is not read.
pub fn frames_are_not_read_in_part<A: Allocator>()
    ensures { (v : Version) (e : Envelope (Command A) A) (k : ℕ) → FitsEnvelope v e → length (content v e) ≤ longest
        → k < length (frame v e) → frame_at {A = A} (take k (frame v e)) ≡ Ok None }
{}
