//! The board and its helpers, alone and among threads, call by call. It holds tests alone.
#![tactic(auto)]

#[cfg(test)]
mod boards;
