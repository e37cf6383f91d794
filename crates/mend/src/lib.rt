//! What can be had of a data folder that a start refuses.
//!
//! What stands before the damage is taken as a start takes it. Behind it whole records are found by their sums, which depend on the
//! salt of the segment and on their place, so that no bytes of another segment, or of a mail, pass for one. If the opening of a
//! segment is damaged, what the segment before has is taken in place of it.
//!
//! A `Mending` has the lock of the folder. It looks, and then replaces the segment by one in which what was had is kept. The next unique
//! id of each user is raised by as many messages as the bytes can hold that are dropped, and without an opening to at least the time.
#![tactic(auto)]

mod fault;
mod folder_files;
mod head;
mod mended;
mod mending;
mod names;
mod note;
mod place;
mod raising;
mod search;
mod survey;
mod taking;
mod whole;

pub use fault::MendFault;
pub use head::{Head, head_of};
pub use mending::{Condition, Mending, is_of_files, read_damaged};
pub use note::Noted;
pub use raising::{Raise, SMALLEST_STORED, most_messages, raise_all};
pub use search::{Findings, Gap, salvage};
pub use survey::{Base, Behind, Rescue, Survey, Way};
