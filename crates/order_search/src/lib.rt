//! The search for layer orders: it walks over sign lists that break no rule, in lexicographic order, and can stop and go
//! on anywhere.
#![tactic(auto)]

pub mod laws;
mod search;
mod step;
mod walking;

pub use search::Search;
pub use step::Step;
