//! Where a search over sign lists stands, and the order of such positions.
#![tactic(auto)]

pub mod laws;
mod position;

pub use position::Position;
