//! Rules, searches and their pieces, against tables worked by hand. It holds tests alone.
#![tactic(auto)]

#[cfg(test)]
mod jobs;
#[cfg(test)]
mod pieces;
#[cfg(test)]
mod positions;
#[cfg(test)]
mod rules;
#[cfg(test)]
mod searches;
