//! What a service is started with: its options and their bounds, its accounts file, the digest of what its nodes must share, the mark
//! of a node that was started, and the limits of operators' requests.
#![tactic(auto)]

mod account_lines;
mod accounts_file;
mod mark;
mod operator_limits;
mod options;
mod settings_digest;

pub use accounts_file::{accounts_of, some_accounts_of};
pub use mark::mark_start;
pub use operator_limits::{
    BRIEF_LINE_MS, BROKEN_LOOK_MS, CUT_MS, END_LOOK_MS, ENDING_LOOK_MS, LINE_MS, LOOK_MS,
    MOST_BROKEN_LOOKS, NEXT_EPOCH_MS,
};
pub use options::{NodeOptions, OnFault, ServeOptions, Settings, node_settings_of, settings_of};
pub use settings_digest::agreement_line;
