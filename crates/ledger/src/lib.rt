//! What is written of the maildrops of users, so that they outlive the process: what each command changes, but for locks
//! and limits. A snapshot is written as changes too. A `Ledger` follows the commands of an epoch, and writes their changes.
//! Nothing here opens a file.
//!
//! `put_change`, `put_begin` and `put_opened` write payloads of records, and `read_record` reads them. A payload is the
//! kind of the record in one byte, and its fields:
//!
//! | Kind | Record | Fields |
//! |---|---|---|
//! | 1 | `Begin` | number of the segment |
//! | 2 | `Stored` | unique id; number of lines, and each line after its length; length of the key, 0 if there is none, and the key |
//! | 3 | `Removed` | number of unique ids, and each of them |
//! | 4 | `Keyed` | length of the key, and the key; unique id |
//! | 5 | `Next` | unique id |
//! | 6 | `Opened` | none |
//!
//! Kinds 2 to 5 are changes. Before the fields of a change come the slot of its command and the name of the user after its
//! length. Unique ids, slots and the number of a segment have eight bytes, the lengths of names and keys one, other
//! lengths and numbers four. All are unsigned, the most significant byte first.
#![tactic(auto)]

mod cursor;
mod entry;
mod fault;
mod field_reading;
mod field_writing;
mod fitting;
mod kind;
mod laws;
mod ledger;
mod malformed;
mod payload;
mod payload_reading;
mod payload_writing;
mod record_reading;
mod record_writing;
mod text_reading;
mod text_writing;

pub use entry::{Entry, Record};
pub use fault::PayloadFault;
pub use fitting::fits;
pub use laws::{
    a_snapshot_is_the_maildrop, each_change_keeps_consistency, ids_are_given_once,
    maildrops_stay_sound, restarts_are_reopenings, what_is_taken_is_written,
    what_is_written_can_be_read, what_is_written_is_enough,
};
pub use ledger::Ledger;
pub use payload_writing::put_change;
pub use record_reading::read_record;
pub use record_writing::{put_begin, put_opened};
