//! Exact numbers, points and lines, isometries and open regions, against tables worked with numbers of any size. It holds tests alone.
#![tactic(auto)]

#[cfg(test)]
mod motions;
#[cfg(test)]
mod planes;
#[cfg(test)]
mod regions;
#[cfg(test)]
mod surds;
