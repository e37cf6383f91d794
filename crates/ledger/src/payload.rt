//! A payload, as it is written.
ghost use Rattle.std.specs.Prelude.{◌≡◌, ◌++◌, ◌∷◌, [], ◌<◌, ◌^◌, OnOk};
ghost use Rattle.ledger.specs.Payloads.{u32_bytes, u64_bytes};

use ballot::Memory;
use std::alloc::Allocator;
use std::marker::{Brand, Model, PhantomData};

/// What a buffer has before a payload is added to it. It has no values: the call that begins a payload picks it.
pub(crate) trait Front {
    ghost use Rattle.std.specs.Prelude.{ℕ, List};

    ghost front: { List ℕ };
}

impl Front for Brand {
    ghost use Rattle.std.specs.Prelude.{[]};

    ghost front = { [] };
}

/// A payload, as far as it is written, after what its buffer had. Contracts see only the payload. After an error they say
/// nothing of it, but the buffer still has what it had.
#[derive(Drop)]
pub(crate) struct Payload<A: Allocator, F: Front> {
    bytes: Vec<u8, A>,
    front: PhantomData<F>,
}

impl<A: Allocator, F: Front> Model for Payload<A, F> {
    ghost use Rattle.std.specs.Prelude.{◌≡◌, ℕ, List, length, take, drop};

    ghost Value = { List ℕ };

    ghost view = { λ c. drop (length F.front) c.bytes.items };

    ghost invariant = { λ c. take (length F.front) c.bytes.items ≡ F.front };
}

impl<A: Allocator, F: Front> Payload<A, F> {
    /// No bytes yet, after what the buffer has.
    pub(crate) fn after(front: Vec<u8, A>) -> Self
        requires { front.items ≡ F.front }
        ensures { result ≡ [] }
    {
        Payload {
            bytes: front,
            front: PhantomData,
        }
    }

    /// The buffer.
    pub(crate) fn into_bytes(self) -> Vec<u8, A>
        ensures { result.items ≡ F.front ++ self }
    {
        self.bytes
    }

    pub(crate) fn put_byte(&mut self, byte: u8) -> Result<(), Memory>
        ensures { OnOk result (self.new ≡ self.old ++ byte ∷ []) }
    {
        self.bytes.push(byte)?;
        Ok(())
    }

    pub(crate) fn put_bytes(&mut self, bytes: &[u8]) -> Result<(), Memory>
        ensures { OnOk result (self.new ≡ self.old ++ bytes.now) }
    {
        self.bytes.extend_from_slice(bytes)?;
        Ok(())
    }

    #[tactic(auto, unfolding(crate::specs::Payloads::u32_bytes))]
    pub(crate) fn put_u32(&mut self, number: u32) -> Result<(), Memory>
        ensures { OnOk result (self.new ≡ self.old ++ u32_bytes number) }
    {
        self.put_bytes(&number.to_be_bytes())
    }

    #[tactic(auto, unfolding(crate::specs::Payloads::u64_bytes))]
    pub(crate) fn put_u64(&mut self, number: u64) -> Result<(), Memory>
        ensures { OnOk result (self.new ≡ self.old ++ u64_bytes number) }
    {
        self.put_bytes(&number.to_be_bytes())
    }

    /// Adds a number of items or bytes.
    pub(crate) fn put_count(&mut self, count: usize) -> Result<(), Memory>
        requires { count < 2 ^ 32 }
        ensures { OnOk result (self.new ≡ self.old ++ u32_bytes count) }
    {
        self.put_u32(count as u32)
    }
}
