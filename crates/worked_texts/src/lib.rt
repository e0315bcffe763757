//! Crease lines, scripts and words of the command line, against tables worked by hand. It holds tests alone.
#![tactic(auto)]

#[cfg(test)]
mod creases;
#[cfg(test)]
mod scripts;
#[cfg(test)]
mod words;
