//! Sources and sinks that fail, interrupt and take a part. It holds tests alone.
#![tactic(auto)]

#[cfg(test)]
mod bytes;
#[cfg(test)]
mod systems;
