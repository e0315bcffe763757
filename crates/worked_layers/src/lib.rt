//! From crease patterns to the faults of their vertices, and to their layer orders, against tables worked by hand and
//! with exact fractions. It holds tests alone.
#![tactic(auto)]

#[cfg(test)]
mod layers;
#[cfg(test)]
mod pairs;
#[cfg(test)]
mod patterns;
#[cfg(test)]
mod rows;
#[cfg(test)]
mod shapes;
#[cfg(test)]
mod stamps;
#[cfg(test)]
mod tacos;
#[cfg(test)]
mod unassigned;
#[cfg(test)]
mod vertices;
