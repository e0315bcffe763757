//! The session: it answers one command after another, and keeps the record of commands and replies.
#![tactic(auto)]

mod answering;
mod editing;
mod folding;
pub mod laws;
mod session;

pub use session::{Event, Record, Session};
