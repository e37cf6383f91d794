//! Writes payloads of records without a change.
ghost use Rattle.std.specs.Prelude.{◌≡◌, ◌++◌, Ok, length, take, OnOk, OnErr};
ghost use Rattle.ledger.specs.Payloads.{begin_payload, opened_payload};
ghost use Rattle.ledger.specs.Reading.{record_in};
ghost use Rattle.ledger.specs.declared.entry.Record.TheVariants as said;

use ballot::Memory;
use std::alloc::Allocator;

/// Adds a Begin. After an error a part of it may be there.
#[tactic(auto, unfolding(crate::specs::Payloads::u64_bytes))]
fn put_numbered<B: Allocator>(out: &mut Vec<u8, B>, number: u64) -> Result<(), Memory>
    ensures ok { OnOk result (out.new.items ≡ out.old.items ++ begin_payload number) }
    ensures kept { take (length out.old.items) out.new.items ≡ out.old.items }
{
    out.push(1)?;
    out.extend_from_slice(&number.to_be_bytes())?;
    Ok(())
}

/// Adds to `out` the payload that a segment begins with: the segment's number. After an error `out` is as it was.
#[tactic(auto, using(crate::proofs::Records::begin_again))]
pub fn put_begin<B: Allocator>(out: &mut Vec<u8, B>, number: u64) -> Result<(), Memory>
    ensures value { OnOk result (out.new.items ≡ out.old.items ++ begin_payload number) }
    ensures kept { OnErr result (out.new.items ≡ out.old.items) }

    // What is written is read back.
    ensures read_back { record_in {A = B} (begin_payload number) ≡ Ok (said.Begin number) }
{
    let start = out.len();
    let written = put_numbered(out, number);
    if written.is_err() {
        out.truncate(start);
    }
    written
}

/// Adds to `out` the payload after the last change of a segment's snapshot. After an error `out` is as it was.
#[tactic(auto, unfolding(crate::specs::Reading::record_in, crate::specs::Reading::opened_in))]
pub fn put_opened<B: Allocator>(out: &mut Vec<u8, B>) -> Result<(), Memory>
    ensures value { OnOk result (out.new.items ≡ out.old.items ++ opened_payload) }
    ensures kept { OnErr result (out.new.items ≡ out.old.items) }

    // What is written is read back.
    ensures read_back { record_in {A = B} opened_payload ≡ Ok said.Opened }
{
    out.push(6)?;
    Ok(())
}
