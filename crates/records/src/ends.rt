//! How a file ends after its records.
ghost use Rattle.std.specs.Prelude.{◌≡◌, ◌+◌, ◌<◌, ◌≤◌, ◌^◌, length, drop, None};
ghost use Rattle.records.specs.Files.{EndsSo};
ghost use Rattle.records.specs.Readers.{IsRun};
ghost use Rattle.records.specs.Reading as spec;

use crate::ending::Ending;
use crate::place::{FRAME, is_cut, record_at};
use crate::search::resumes;

/// How many bytes the whole records have that stand one after another at the front, the first at this place.
pub(crate) fn records_end(salt: u64, at: u64, bytes: &[u8]) -> usize
    requires { at + length bytes.now < 2 ^ 64 }
    ensures within { result ≤ length bytes.now }
    ensures run { IsRun salt at bytes.now result }
    ensures none { spec.record_at salt (at + result) (drop result bytes.now) ≡ None }
{
    let mut end = 0;
    while let Some((payload, _)) = record_at(salt, at + end as u64, bytes.split_at(end).1) {
        end += FRAME + payload.len();
    }
    end
}

/// How a file ends whose last record ends at this place, if these bytes follow it.
pub(crate) fn ending_of(salt: u64, at: u64, rest: &[u8]) -> Ending
    requires few { at + length rest.now < 2 ^ 64 }
    requires none { spec.record_at salt at rest.now ≡ None }
    ensures { EndsSo result salt at rest.now }
{
    if rest.is_empty() {
        return Ending::Clean(at);
    }
    if is_cut(salt, at, rest) {
        return Ending::Cut(at);
    }
    if resumes(salt, at, rest) {
        Ending::Damaged(at)
    } else {
        Ending::Torn(at)
    }
}
