//! Takes what records have, as far as it can come.
ghost use Rattle.std.specs.Prelude.{◌≡◌, ◌∷◌, [], true, IfOk, OnOk};
ghost use Rattle.maildrop.specs.Kept.{kept_for};
ghost use Rattle.mend.specs.Taking as spec;
ghost use Rattle.mend.specs.Taking.{HasTaken, HasTakenRecord, loses_nothing, said_in};

use ballot::Memory;
use batches::{is_content, next_payload};
use ledger::{Entry, PayloadFault, Record, read_record};
use maildrop::{Change, Kept};
use std::alloc::Global;

/// Whether nothing is lost if an entry can't come. That is so if it stores no message. It is also so if it stores one under a
/// unique id that was given before: a snapshot has the messages of the segment before it.
fn is_known(kept: &Kept, entry: &Entry) -> bool
    ensures { result ≡ spec.is_known (kept_for entry.now.name kept.now) entry.now.change }
{
    match &entry.change {
        Change::Stored { uid, .. } => *uid < kept.next_uid(&entry.name),
        Change::Removed(_) | Change::Keyed { .. } | Change::Next(_) => true,
    }
}

/// Takes an entry, if it can come. Returns false if it stores a message that can't.
fn take_entry(kept: &mut Kept, entry: &Entry) -> Result<bool, Memory>
    ensures taken { OnOk result (HasTaken (entry.now ∷ []) kept.old kept.new) }
    ensures told { IfOk result (λ nothing_lost. nothing_lost ≡ loses_nothing (kept_for entry.now.name kept.old) entry.now.change) }
{
    let can = kept.change(entry.name, &entry.change)?;
    Ok(can || is_known(kept, entry))
}

/// Takes what a payload says. Returns false if it says nothing that is known, or stores a message that can't come.
fn take_payload(alloc: Global, payload: &[u8], kept: &mut Kept) -> Result<bool, Memory>
    ensures { OnOk result (HasTaken (said_in payload.now) kept.old kept.new) }
{
    match read_record(alloc, payload) {
        Ok(Record::Entry(entry)) => take_entry(kept, &entry),
        Ok(Record::Begin(_) | Record::Opened) => Ok(true),
        Err(PayloadFault::Memory) => Err(Memory),
        Err(_) => Ok(false),
    }
}

/// Takes the payloads of a batch. Returns false if it isn't the content of one, or a payload wasn't taken.
fn take_batch(alloc: Global, content: &[u8], kept: &mut Kept) -> Result<bool, Memory>
    ensures { OnOk result (HasTakenRecord true content.now kept.old kept.new) }
{
    if !is_content(content) {
        return Ok(false);
    }
    let mut rest = content;
    let mut all = true;
    while let Some((payload, others)) = next_payload(rest) {
        if !take_payload(alloc, payload, kept)? {
            all = false;
        }
        rest = others;
    }
    Ok(all)
}

/// Takes what a record has: in a file of batches its payload is the content of one. Returns false if not all of it was taken.
pub(crate) fn take_record(
    alloc: Global,
    is_batched: bool,
    payload: &[u8],
    kept: &mut Kept,
) -> Result<bool, Memory>
    ensures { OnOk result (HasTakenRecord is_batched payload.now kept.old kept.new) }
{
    if is_batched {
        take_batch(alloc, payload, kept)
    } else {
        take_payload(alloc, payload, kept)
    }
}
