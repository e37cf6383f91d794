//! Copies of performed commands.
ghost use Rattle.std.specs.Prelude.{◌≡◌, drop, IfOk};

use ballot::{Memory, Payload, Slot};
use maildrop::SharedCommand;
use std::alloc::Global;

/// Commands that a node has performed, each with its slot, in their order.
pub type Performed = Vec<(Slot, SharedCommand)>;

/// Those after the first `taken`. The commands are shared. Takes no memory if there are none.
pub(crate) fn performed_after(
    alloc: Global,
    performed: &[(Slot, SharedCommand)],
    taken: u64,
) -> Result<Performed, Memory>
    ensures { IfOk result (λ copies. copies.items ≡ drop taken performed.now) }
{
    let rest = performed.get(taken as usize..).unwrap_or_default();
    copies_of(alloc, rest)
}

fn copies_of(alloc: Global, performed: &[(Slot, SharedCommand)]) -> Result<Performed, Memory>
    ensures { IfOk result (λ copies. copies.items ≡ performed.now) }
{
    let mut copies = Vec::new(alloc);
    for one in performed {
        let command = one.1.copy()?;
        copies.push((one.0, command))?;
    }
    Ok(copies)
}
