//! Crease lines as text: exact numbers, single lines and whole patterns, read and written.
#![tactic(auto)]

mod appending;
mod laws;
mod line;
mod number_reading;
mod number_writing;
mod reading;
mod samples;
mod whole_reading;
mod words;
mod writing;

pub use appending::{all_or_nothing, append_number};
pub use laws::{
    lines_end_at_feeds, lines_read_back, numbers_are_shortest, numbers_read_back,
    patterns_are_parted_by_lines, patterns_read_back, reads_by_the_grammar, reads_the_value,
    whole_numbers_read_back, words_are_parted_by_blanks,
};
pub use line::{CpLine, Ends, LONGEST_LINE, LineFault};
pub use number_reading::{NumberFault, is_digits, read_number};
pub use number_writing::write_number;
pub use reading::{read_coordinate, read_ends, read_kind, read_line, read_line_words, read_point};
pub use samples::sample;
pub use whole_reading::{read_digits, read_whole};
pub use words::{next_line, next_word};
pub use writing::{write_line, write_pattern, write_point};
