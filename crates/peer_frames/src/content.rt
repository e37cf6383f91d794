//! The content of a frame, as it is written.
ghost use Rattle.std.specs.Prelude.{◌≡◌, ◌++◌, ◌∷◌, [], ◌<◌, ◌≤◌, ◌^◌, length, IsErrOf, OnOk};
ghost use Rattle.peer_frames.specs.Frames.{u32_bytes, u64_bytes};

use crate::encode_error::EncodeError;
use ballot::Memory;
use std::alloc::Allocator;
use std::marker::{Brand, Model, PhantomData};

/// What stands before a content in its buffer. It has no values: the call that begins a content picks it.
pub(crate) trait Front {
    ghost use Rattle.std.specs.Prelude.{ℕ, List};

    ghost front: { List ℕ };
}

impl Front for Brand {
    ghost use Rattle.std.specs.Prelude.{[]};

    ghost front = { [] };
}

/// The content of a frame, as far as it is written, after what stood in its buffer. Contracts see it as the content alone.
/// After an error nothing is said of that. What stood in the buffer stays.
#[derive(Drop)]
pub(crate) struct Content<A: Allocator, F: Front> {
    bytes: Vec<u8, A>,
    front: PhantomData<F>,
}

impl<A: Allocator, F: Front> Model for Content<A, F> {
    ghost use Rattle.std.specs.Prelude.{◌≡◌, ℕ, List, length, take, drop};

    ghost Value = { List ℕ };

    ghost view = { λ c. drop (length F.front) c.bytes.items };

    ghost invariant = { λ c. take (length F.front) c.bytes.items ≡ F.front };
}

impl<A: Allocator, F: Front> Content<A, F> {
    /// Nothing yet, after what the buffer has.
    pub(crate) fn behind(front: Vec<u8, A>) -> Self
        requires { front.items ≡ F.front }
        ensures { result ≡ [] }
    {
        Content {
            bytes: front,
            front: PhantomData,
        }
    }

    /// The buffer.
    pub(crate) fn into_bytes(self) -> Vec<u8, A>
        ensures { result.items ≡ F.front ++ self }
    {
        self.bytes
    }

    pub(crate) fn put_byte(&mut self, byte: u8) -> Result<(), Memory>
        ensures { OnOk result (self.new ≡ self.old ++ byte ∷ []) }
    {
        self.bytes.push(byte)?;
        Ok(())
    }

    pub(crate) fn put_bytes(&mut self, bytes: &[u8]) -> Result<(), Memory>
        ensures { OnOk result (self.new ≡ self.old ++ bytes.now) }
    {
        self.bytes.extend_from_slice(bytes)?;
        Ok(())
    }

    #[tactic(auto, unfolding(crate::specs::Frames::u32_bytes))]
    pub(crate) fn put_u32(&mut self, number: u32) -> Result<(), Memory>
        ensures { OnOk result (self.new ≡ self.old ++ u32_bytes number) }
    {
        self.put_bytes(&number.to_be_bytes())
    }

    #[tactic(auto, unfolding(crate::specs::Frames::u64_bytes))]
    pub(crate) fn put_u64(&mut self, number: u64) -> Result<(), Memory>
        ensures { OnOk result (self.new ≡ self.old ++ u64_bytes number) }
    {
        self.put_bytes(&number.to_be_bytes())
    }

    /// Adds a number of items or bytes. `TooLong` if it doesn't fit into four bytes.
    pub(crate) fn put_count(&mut self, count: usize) -> Result<(), EncodeError>
        ensures ok { OnOk result (self.new ≡ self.old ++ u32_bytes count) }
        ensures fits { OnOk result (count < 2 ^ 32) }
        ensures long { IsErrOf result EncodeError.TooLong → 2 ^ 32 ≤ count }
    {
        let Ok(count) = u32::try_from(count) else {
            return Err(EncodeError::TooLong);
        };
        self.put_u32(count)?;
        Ok(())
    }
}
