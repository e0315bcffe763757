//! Where segments are cut by pieces, and pieces cut at points.
#![tactic(auto)]

mod cutting;
mod parting;

pub use cutting::{Cutting, SplitFault, cut_points};
pub use parting::cut_at;
