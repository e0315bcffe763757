//! Parting a search into pieces, tasks for workers, their outcomes, and the state of a job that waits for them.
#![tactic(auto)]

mod answers;
mod job;
pub mod laws;
mod outcome;
mod performing;
mod piece;
mod splitting;
mod task;

pub use answers::{JobAnswer, Kept, Taken};
pub use job::JobState;
pub use outcome::{End, Outcome};
pub use performing::perform;
pub use piece::{LastTask, Piece, PieceEnd};
pub use splitting::pieces;
pub use task::Task;
