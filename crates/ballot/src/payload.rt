//! What is decided: commands, which can be copied, compared, and told apart by an identity.
ghost use Rattle.std.specs.Prelude.{◌≡◌, ◌↔◌, Bool, true, IfOk};

use crate::memory::Memory;

/// A command. It has an identity, and two commands of one identity are one request.
pub trait Payload: Drop {
    /// What a command is known by.
    type Id: Copy + Ord;

    /// The identity of a command.
    ghost identity: { Self → Self.Id };

    /// Whether two commands are equal.
    ghost equal: { Self → Self → Bool };

    /// The same command again. A command that owns memory copies with its own allocator.
    fn copy(&self) -> Result<Self, Memory>
        ensures { IfOk result (λ command. command ≡ self.now) };

    /// Whether the commands are equal. Takes no memory.
    fn same(&self, other: &Self) -> bool
        ensures { result ≡ equal self.now other.now };

    /// The identity. Takes no memory.
    fn id(&self) -> Self::Id
        ensures { result ≡ identity self.now };

    /// The test of `same` is equality.
    ghost equality: { (x y : Self) → (equal x y ≡ true) ↔ (x ≡ y) };
}
