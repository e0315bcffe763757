//! Sheets, and where creases are cut, against tables worked by hand. It holds tests alone.
#![tactic(auto)]

#[cfg(test)]
mod cuts;
#[cfg(test)]
mod sheets;
