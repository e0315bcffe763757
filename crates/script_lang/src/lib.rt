//! The editing script: commands, replies and refusals, and their texts.
#![tactic(auto)]

mod block;
mod command;
mod corners;
mod judging;
mod laws;
mod refusal;
mod reply;
mod script;

pub use block::{LoadLines, LoadStop};
pub use command::Command;
pub use corners::Corners;
pub use judging::read_command;
pub use laws::{
    blocks_are_one_command, end_is_no_line_of_a_file, files_are_blocks, first_bad_line_stops,
    good_lines_are_loaded, open_blocks_are_one_command, pattern_files_come_back,
    plain_lines_are_judged, printed_patterns_are_loaded, printed_patterns_come_back,
    single_lines_are_judged,
};
pub use refusal::{LoadCause, Refusal, refusal_of_line, refusal_of_store};
pub use reply::{Reply, write_head};
pub use script::{Commands, is_load, read_file, read_script, read_script_behind};
