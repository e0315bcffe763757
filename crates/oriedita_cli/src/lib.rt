//! The top call of the editor: a script is read, its commands are answered one after another, and the replies are
//! written; and the program round it.
#![tactic(auto)]

mod errands;
mod folding;
mod helping;
mod lines;
mod opening;
mod programs;
mod reading;
mod running;
mod samples;
mod serving;
mod sessions;
mod starting;
mod tickets;
mod workers;

pub use folding::Folding;
pub use programs::{program, run_arguments};
pub use running::{Ended, run, run_alone};
pub use sessions::{sample_run, session};
