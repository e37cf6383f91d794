//! Which transcript names a command first.
ghost use Rattle.std.specs.Prelude.{◌≡◌, OnOk, IfOk};
ghost use Rattle.std.specs.Map.{lookup};
ghost use Rattle.maildrop.specs.CommandId.{CommandId, same_id};
ghost use Rattle.audit.specs.Names as spec;

use ballot::Memory;
use indexmap::IndexMap;
use maildrop::CommandId;
use session::{Asked, Transcript};
use std::alloc::Allocator;
use std::hash::{BuildHasherDefault, FoldHasher};

/// For each command that a transcript names the place of the first such transcript, and that of its first such entry.
pub(crate) type CommandIndex<A> = IndexMap<
    CommandId,
    (usize, usize),
    BuildHasherDefault<FoldHasher>,
    A,
>;

/// Enters what a transcript names, over what others do.
fn enter<A: Allocator + Copy>(
    names: &mut CommandIndex<A>,
    session: usize,
    asked: &[Asked<A>],
) -> Result<(), Memory>
    ensures { OnOk result ((id : CommandId) → lookup (same_id id) names.new.entries ≡ spec.named_in id session 0 asked.now (lookup (same_id id) names.old.entries)) }
{
    for number in (0..asked.len()).rev() {
        let entry = &asked[number];
        if let Some(ticket) = entry.ticket {
            let _ = names.insert(CommandId::new(entry.name, ticket), (session, number))?;
        }
    }
    Ok(())
}

/// What transcripts name. The last are entered first, so that the first stand in the end.
pub(crate) fn index_of<A: Allocator + Copy>(
    alloc: A,
    transcripts: &[Transcript<A>],
) -> Result<CommandIndex<A>, Memory>
    ensures { IfOk result (λ names. (id : CommandId) → lookup (same_id id) names.entries ≡ spec.named_from id 0 transcripts.now) }
{
    let mut names = IndexMap::new(alloc);
    for session in (0..transcripts.len()).rev() {
        enter(&mut names, session, transcripts[session].asked.get())?;
    }
    Ok(names)
}
