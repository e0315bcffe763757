//! Records of one job, and what every legal one shows: the orders of its rules, each once and in order.
#![tactic(auto)]

pub mod laws;
