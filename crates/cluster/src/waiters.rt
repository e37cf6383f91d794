//! Those who wait for answers of a node.
ghost use Rattle.std.specs.Prelude.{◌<◌};

use maildrop::Name;
use std::array;
use std::sync::{Condvar, MutexGuard, Wait};
use std::time::{Clock, Duration};

/// How many groups the waiters of a node stand in: one for each bit of a `Groups`.
const GROUPS: usize = 64;

/// What the bytes of a name are weighed by. No two of its first 16 powers leave the same remainder by `GROUPS`, so that names which
/// differ in their digits fall into all groups.
const WEIGHT: usize = 37;

/// Groups of waiters, a bit for each.
#[derive(Clone, Copy, Debug, PartialEq, Eq)]
pub(crate) struct Groups(u64);

impl Groups {
    /// Nobody.
    pub(crate) const NONE: Groups = Groups(0);

    /// Everybody.
    pub(crate) const ALL: Groups = Groups(u64::MAX);

    /// These, and those who wait for this user's answers.
    pub(crate) fn with(self, user: &Name) -> Self {
        Groups(self.0 | 1 << group_of(user))
    }
}

/// The group in which those stand who wait for this user's answers.
fn group_of(user: &Name) -> usize
    ensures { result < 64 }
{
    let hash = |sum: usize, byte: &u8| sum.wrapping_mul(WEIGHT).wrapping_add(*byte as usize);
    user.get().iter().fold(0, hash) % GROUPS
}

/// Those who wait for answers of a node, in groups by users, so that an answer wakes few who don't wait for it.
#[derive(Drop)]
pub(crate) struct Waiters {
    groups: [Condvar; GROUPS],
}

impl Waiters {
    /// Nobody.
    pub(crate) fn new() -> Self {
        Waiters {
            groups: array::from_fn(|_| Condvar::new()),
        }
    }

    /// Lets the lock go, waits until this user's group is woken, and takes the lock again. It may also wake for nothing.
    pub(crate) fn wait<'a, R: Wait, T>(
        &self,
        rt: &R,
        user: &Name,
        guard: MutexGuard<'a, T>,
    ) -> MutexGuard<'a, T> {
        self.groups[group_of(user)].wait(rt, guard)
    }

    /// The same, but waits at most this long.
    pub(crate) fn wait_within<'a, R: Wait + Clock, T>(
        &self,
        rt: &R,
        user: &Name,
        guard: MutexGuard<'a, T>,
        time: Duration,
    ) -> MutexGuard<'a, T> {
        let (guard, _) = self.groups[group_of(user)].wait_timeout(rt, guard, time);
        guard
    }

    /// Wakes these groups.
    pub(crate) fn wake(&self, groups: Groups) {
        if groups == Groups::NONE {
            return;
        }
        for (place, group) in self.groups.iter().enumerate() {
            if groups.0 >> place & 1 == 1 {
                group.notify_all();
            }
        }
    }
}
