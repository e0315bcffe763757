//! Signs of pairs of faces, which say which face of a pair is above, and rules that lists of signs have to meet.
#![tactic(auto)]

pub mod laws;
mod rule;
mod rules;
mod sign;

pub use rule::Rule;
pub use rules::Rules;
pub use sign::{Order, Sign};
