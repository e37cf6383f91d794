//! Reads payloads of all kinds.
ghost use Rattle.std.specs.Prelude.{◌≡◌, true, IfOk, IsErrOf};
ghost use Rattle.ledger.specs.Payloads.{record_payload};
ghost use Rattle.ledger.specs.Reading.{Gives, begin_in, opened_in, record_in, kind_at, kind_has_list};

use crate::cursor::Cursor;
use crate::entry::Record;
use crate::fault::PayloadFault;
use crate::malformed::Malformed;
use crate::payload_reading::entry_of;
use std::alloc::Allocator;

#[tactic(auto, unfolding(crate::specs::Reading::begin_in))]
fn begin_of<A: Allocator>(fields: &[u8]) -> Result<Record<A>, Malformed>
    ensures { result ≡ begin_in fields.now }
{
    let mut cursor = Cursor::new(fields);
    let number = cursor.read_u64()?;
    if !cursor.is_empty() {
        return Err(Malformed::Length);
    }
    Ok(Record::Begin(number))
}

#[tactic(auto, unfolding(crate::specs::Reading::opened_in))]
fn opened_of<A: Allocator>(fields: &[u8]) -> Result<Record<A>, Malformed>
    ensures { result ≡ opened_in fields.now }
{
    if !fields.is_empty() {
        return Err(Malformed::Length);
    }
    Ok(Record::Opened)
}

#[tactic(auto, unfolding(crate::specs::Reading::record_in))]
fn record_of<A: Allocator + Copy>(alloc: A, bytes: &[u8]) -> Result<Record<A>, PayloadFault>
    ensures value { Gives result (record_in bytes.now) }
    ensures memory { IsErrOf result PayloadFault.Memory → kind_has_list (kind_at bytes.now) ≡ true }
{
    let Some((number, fields)) = bytes.split_first() else {
        return Err(PayloadFault::Length);
    };
    match *number {
        1 => Ok(begin_of(fields)?),
        6 => Ok(opened_of(fields)?),
        _ => Ok(Record::Entry(entry_of(alloc, bytes)?)),
    }
}

/// Reads a payload.
///
/// The first fault is reported, in this order: an unknown kind is `Kind`; then a field that is outside its range or breaks
/// its rule is `Field`, and one that the payload cuts off is `Length`; bytes after the last field are `Length`.
pub fn read_record<A: Allocator + Copy>(alloc: A, bytes: &[u8]) -> Result<Record<A>, PayloadFault>
    // What it returns and which fault it is, unless memory runs out.
    ensures exact { Gives result (record_in bytes.now) }

    // The bytes are the payload of what it returns.
    ensures whole { IfOk result (λ said. bytes.now ≡ record_payload said) }

    // Only a text and a list of unique ids take memory.
    ensures memory { IsErrOf result PayloadFault.Memory → kind_has_list (kind_at bytes.now) ≡ true }
{
    record_of(alloc, bytes)
}
