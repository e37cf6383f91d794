//! Kinds of operations, by the outcomes that they may have.
ghost use Rattle.std.specs.Prelude.{◌≡◌};
ghost use Rattle.cluster.specs.Fits as spec;

use maildrop::{Op, Outcome};

/// What is kept of an operation that was submitted.
#[derive(Clone, Copy, Debug, PartialEq, Eq)]
pub(crate) enum OpKind {
    Mail,
    Take,
    /// The lock is given back, by a Commit or a Free.
    Return,
    Break,
}

impl OpKind {
    pub(crate) fn of(op: &Op) -> Self
        ensures { result ≡ spec.kind_of op.now }
    {
        match op {
            Op::Mail { .. } => OpKind::Mail,
            Op::Take => OpKind::Take,
            Op::Commit { .. } | Op::Free { .. } => OpKind::Return,
            Op::Break => OpKind::Break,
        }
    }

    /// Whether an operation of this kind may have this outcome.
    pub(crate) fn fits(self, outcome: &Outcome) -> bool
        ensures { result ≡ spec.fits self outcome.now }
    {
        match (self, outcome) {
            (_, Outcome::NoSuchUser)
            | (
                OpKind::Mail,
                Outcome::TooLarge | Outcome::Full | Outcome::IdsUsed | Outcome::Stored(_),
            )
            | (OpKind::Take, Outcome::InUse | Outcome::Taken(_))
            | (OpKind::Return, Outcome::Done | Outcome::NotHolder)
            | (OpKind::Break, Outcome::Done) => true,
            _ => false,
        }
    }
}
