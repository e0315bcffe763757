//! The words of the program's command line: three options with one value each, `--cp FILE`, `--workers N` and
//! `--sample N`.
#![tactic(auto)]

mod form;
mod meaning;
mod options;
mod parsing;

pub use options::{Options, WordsFault, read_words};
