//! What is left of a replica without its machine.
use crate::decisions::Decisions;
use crate::performed::Performed;
use crate::state::Awaited;
use ballot::{Machine, Payload, Slot};
use std::alloc::{Allocator, Global};
use std::collections::{BTreeMap, VecDeque};

/// What is left of a replica whose machine was taken out: nothing can be asked of it. To free it takes time in proportion to
/// what was decided and performed, so whoever needs the machine at once can leave that to others.
#[derive(Drop)]
pub struct Remainder<M: Machine, A: Allocator = Global> {
    pub(crate) requests: VecDeque<M::Command, A>,
    pub(crate) proposals: BTreeMap<Slot, M::Command, A>,
    pub(crate) decisions: Decisions<M::Command, A>,
    pub(crate) performed: Performed<M::Command, A>,
    pub(crate) awaited: Awaited<<M::Command as Payload>::Id, M::Answer, A>,
}
