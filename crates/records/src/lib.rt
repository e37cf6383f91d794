//! Files of records, as bytes: each record stands whole in the file, with sums of its length and of its payload, or it
//! isn't there. Nothing here opens a file.
//!
//! A segment is a head of 16 bytes, the magic `mdropd`, 0 and the version 1, and a salt in eight bytes. Records follow. A
//! record is the length of its payload in four bytes, the sum of these four, the payload, and its sum. A sum is eight
//! bytes of SipHash-1-3 over the salt, the record's place in the file and the bytes. Places count from the first byte of
//! the file, so the first record stands at 16. Numbers are unsigned, the most significant byte first.
//!
//! `put_head` and `append` write, and `seal`, which copies no payload. A `Reader` is given the file by pieces. It keeps the bytes that it has not
//! passed: fewer than the largest record has, once `next` has answered `None`.
//!
//! A file may end inside a record, as a write leaves it that was cut short. Such a file is cut. If a record is bad, the
//! reader itself looks at each later place for a whole one, piece by piece: then the file is damaged, and else its end is
//! torn. So damage in the last record of a file is taken for a torn end.
#![tactic(auto)]

mod ending;
mod ends;
mod head;
mod laws;
mod phase;
mod place;
mod reader;
mod search;
mod sum;
mod unread;
mod writing;

pub use ending::Ending;
pub use laws::{
    a_crash_leaves_what_was_synced, a_cut_file_is_read_to_the_cut, a_file_grows_by_records,
    a_file_is_read_back, a_file_is_read_in_one_way, damage_is_told_from_a_torn_end,
};
pub use place::{LARGEST_PAYLOAD, RECORD_HEAD};
pub use reader::Reader;
pub use writing::{append, put_head, seal};
