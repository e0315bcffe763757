//! All folding jobs of a session: their numbers, asks, answers and cancellations, and the budget of asks.
#![tactic(auto)]

mod folding_job;
mod jobs;
pub mod laws;
mod refusal;

pub use folding_job::{FoldAnswer, FoldingJob};
pub use jobs::{Jobs, OpenFault};
pub use refusal::JobRefusal;
