//! A measure of the exact numbers at work: it does as many rounds as its one word says (1 where there is none) of sums,
//! products, signs, lines, sides and common points, and prints a checksum of all results. Other words end it with status 2.
#![tactic(auto)]

mod checksum;
mod rounds;

use checksum::Checksum;
use rounds::{points, round};
use std::process::ExitCode;
use std::rt::Env;
use std::{env, io};

/// The exit status where the words are no count of rounds.
const BAD_WORDS: u8 = 2;

/// The exit status where the checksum could not be written.
const NOT_WRITTEN: u8 = 4;

/// The exit status where memory was refused.
const NO_MEMORY: u8 = 6;

// The number that a word of digits alone stands for.
fn plain_number(word: &str) -> Option<u32> {
    for byte in word.bytes() {
        if !byte.is_ascii_digit() {
            return None;
        }
    }
    word.parse::<u32>().ok()
}

// How many rounds the words after the program's name ask for.
fn wanted<R: Env + Alloc>(rt: &R) -> Option<u32> {
    let Ok(mut arguments) = env::args(rt) else {
        return None;
    };
    let _name = arguments.next();
    let Some(word) = arguments.next() else {
        return Some(1);
    };
    if arguments.next().is_some() {
        return None;
    }
    plain_number(word.as_str())
}

fn main(rt: HostRuntime) -> ExitCode {
    let Some(count) = wanted(&rt) else {
        return ExitCode::from(BAD_WORDS);
    };
    let Ok(points) = points(rt.alloc()) else {
        return ExitCode::from(NO_MEMORY);
    };
    let mut sum = Checksum::new();
    for _ in 0..count {
        round(points.as_slice(), &mut sum);
    }
    let value = sum.value();
    match println!(rt; "{value}") {
        Ok(()) => ExitCode::SUCCESS,
        Err(_) => ExitCode::from(NOT_WRITTEN),
    }
}
