//! Whole runs of the editor, from the bytes of a script to the bytes of its replies, against tables worked by hand. It
//! holds tests alone.
#![tactic(auto)]

#[cfg(test)]
mod alone;
#[cfg(test)]
mod blocks;
#[cfg(test)]
mod changes;
#[cfg(test)]
mod checks;
#[cfg(test)]
mod creases;
#[cfg(test)]
mod faces;
#[cfg(test)]
mod faults;
#[cfg(test)]
mod files;
#[cfg(test)]
mod folded_shapes;
#[cfg(test)]
mod folding;
#[cfg(test)]
mod folding_limits;
#[cfg(test)]
mod helped;
#[cfg(test)]
mod limits;
#[cfg(test)]
mod lines;
#[cfg(test)]
mod posts;
#[cfg(test)]
mod rows;
#[cfg(test)]
mod runs;
#[cfg(test)]
mod stamps;
#[cfg(test)]
mod unassigned;
#[cfg(test)]
mod workers;
