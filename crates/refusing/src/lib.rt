//! An allocator for tests, which refuses requests for memory.
#![tactic(auto)]

use std::alloc::{AllocError, Allocator};
use std::cell::Cell;

/// Which requests are refused. A growth is one request.
#[derive(Clone, Copy, Debug, PartialEq, Eq)]
pub enum Refusal {
    /// The one after so many others.
    One { after: u64 },
    /// All after so many.
    All { after: u64 },
}

/// Where an allocator is with what it refuses.
#[derive(Clone, Copy)]
enum Plan {
    /// Nothing is to be refused.
    Grant,
    /// This is to be refused, and nothing has been so far.
    Refuse(Refusal),
    /// All is refused.
    Refusing,
    /// Something was refused, and nothing more is to be.
    Refused,
}

/// An allocator over another one, which refuses the requests that it is told to refuse. Its blocks are the inner
/// allocator's.
pub struct Refusing<B: Allocator> {
    inner: B,
    plan: Cell<Plan>,
}

impl<B: Allocator> Refusing<B> {
    /// An allocator that refuses nothing so far.
    pub fn new(inner: B) -> Self {
        Self {
            inner,
            plan: Cell::new(Plan::Grant),
        }
    }

    /// Refuses these requests, counted from now on.
    pub fn refuse(&self, refusal: Refusal) {
        self.plan.set(Plan::Refuse(refusal));
    }

    /// Refuses nothing from now on. What was refused stays known.
    pub fn grant_all(&self) {
        self.plan.set(match self.plan.get() {
            Plan::Grant | Plan::Refuse(_) => Plan::Grant,
            Plan::Refusing | Plan::Refused => Plan::Refused,
        });
    }

    /// Whether a request has been refused since the last `refuse`.
    pub fn has_refused(&self) -> bool {
        matches!(self.plan.get(), Plan::Refusing | Plan::Refused)
    }
}

impl<B: Allocator> Drop for Refusing<B> {
    fn drop(self) {
        let Self { inner: _, plan: _ } = self;
    }
}

/// Whether the request that is made now is refused. Counts it.
fn refuses(plan: &Cell<Plan>) -> bool {
    let (is_refused, next) = match plan.get() {
        Plan::Refuse(Refusal::One { after: 0 }) => (true, Plan::Refused),
        Plan::Refuse(Refusal::All { after: 0 }) | Plan::Refusing => (true, Plan::Refusing),
        Plan::Refuse(Refusal::One { after }) => {
            (false, Plan::Refuse(Refusal::One { after: after - 1 }))
        }
        Plan::Refuse(Refusal::All { after }) => {
            (false, Plan::Refuse(Refusal::All { after: after - 1 }))
        }
        Plan::Grant => (false, Plan::Grant),
        Plan::Refused => (false, Plan::Refused),
    };
    plan.set(next);
    is_refused
}

unsafe impl<B: Allocator> Allocator for Refusing<B> {
    ghost dealloc_token = { λ heap ty ptr. B.dealloc_token heap.inner ty ptr };

    fn allocate(&self, size: usize, align: usize) -> Result<*mut u8, AllocError> {
        if refuses(&self.plan) {
            return Err(AllocError);
        }
        self.inner.allocate(size, align)
    }

    unsafe fn deallocate(&self, ptr: *mut u8, size: usize, align: usize) {
        self.inner.deallocate(ptr, size, align);
    }
}
