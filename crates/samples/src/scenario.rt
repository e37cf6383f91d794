//! Scenarios, and how their requests for memory are refused.

use refusing::{Refusal, Refusing};
use std::alloc::Global;
use std::test::Fail;

/// The allocator of a scenario.
pub type Heap<'h> = &'h Refusing<Global>;

/// Calls that are made again and again, each time with other requests refused.
pub trait Scenario {
    /// Prepares what the calls need, has requests refused, makes the calls, and checks what they answer and what they
    /// leave.
    fn run(&self, heap: Heap, refusal: Refusal) -> Result<(), Fail>;
}

/// Fails with these words, unless it holds.
pub fn check(holds: bool, what: &str) -> Result<(), Fail> {
    if holds {
        return Ok(());
    }
    Err(Fail::new(what))
}

/// Has these requests refused, if there are any.
pub fn refuse(heap: Heap, refusal: Option<Refusal>) {
    if let Some(refusal) = refusal {
        heap.refuse(refusal);
    }
}

/// Whether a request of the scenario was refused.
fn meets<S: Scenario>(alloc: Global, scenario: &S, refusal: Refusal) -> Result<bool, Fail> {
    let heap = Refusing::new(alloc);
    scenario.run(&heap, refusal)?;
    Ok(heap.has_refused())
}

/// Runs a scenario with each of its requests refused in turn, alone and with all that follow, and then with none
/// refused. Fails if it makes more than so many, and gives how many it makes.
pub fn requests<S: Scenario>(alloc: Global, scenario: &S, most: u64) -> Result<u64, Fail> {
    for after in 0..=most {
        let _ = meets(alloc, scenario, Refusal::All { after })?;
        if !meets(alloc, scenario, Refusal::One { after })? {
            return Ok(after);
        }
    }
    Err("a scenario makes more requests than it may")?
}
