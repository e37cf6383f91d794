//! The command line of `maildropd`: options and their ranges, what is reported of mistakes, and each command but `serve`.
#![tactic(auto)]

mod account_lines;
mod accounts;
mod arguments;
mod config;
mod ctl_place;
mod data;
mod form;
mod greeting_writer;
mod kept_reader;
mod lone;
mod mending;
mod mistake;
mod noting_runtime;
mod operator;
mod put_words;
mod range;
mod requests;
mod script_lines;
mod settings_file;
mod sim;
mod unread;

pub use account_lines::{LineRule, mistake_in_accounts};
pub use accounts::accounts_in;
pub use arguments::{
    Choice, Kind, Presence, bytes_of, number_of, optional_number_of, optional_text_of, text_of,
    with_optional, with_options,
};
pub use config::{Config, ConfigFault, config_of, with_config, words_of_serve};
pub use ctl_place::option_by_environment;
pub use data::{
    begin_command, check_command, export_command, mistake_in_folder, mistake_in_reading, refuse,
    run_begin, run_check, run_export,
};
pub use lone::{lone_command, run_lone};
pub use mending::{mend_command, run_mend};
pub use mistake::{Mistake, hint};
pub use operator::{ctl_command, run_ctl};
pub use put_words::status_without_memory;
pub use range::{Bound, LAST_PORT, Range, TWO_TO_40, TWO_TO_63};
pub use settings_file::LineMistake;
pub use sim::{run_sim, sim_command};
pub use unread::Unread;
