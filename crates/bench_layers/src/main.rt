//! A measure of layers: `ROUNDS` finds the pairs and the rules of a sheet folded at 127 mountains into strips that all lie on
//! one another, so many times (once where there is no word), and prints a checksum of them.
#![tactic(auto)]

use crease_model::{Kind, Pattern, Sheet};
use crease_store::add;
use layer_rules::{FacePair, Layering, instance};
use plane_geometry::Point;
use sign_rules::{Rules, Sign};
use std::alloc::{AllocError, Global};
use std::env;
use std::process::ExitCode;
use std::rt::Env;
use std::thread::Threads;
use surd_number::Surd;

/// The exit status where the checksum could not be written.
const NOT_WRITTEN: u8 = 4;

/// The exit status where the layers could not be found.
const NOT_FOUND: u8 = 6;

/// What the checksum is multiplied by at each number.
const FACTOR: u64 = 6364136223846793005;

/// The creases: two units apart, from the left side on.
const CREASES: u8 = 127;

fn fold(sum: u64, word: u64) -> u64 {
    sum.wrapping_mul(FACTOR).wrapping_add(word)
}

fn point(x: i32, y: i32) -> Point {
    Point {
        x: Surd::whole(x),
        y: Surd::whole(y),
    }
}

// The pattern that is measured.
fn strips(alloc: Global) -> Option<Pattern> {
    let mut pattern = Pattern::empty(Sheet::square(alloc).ok()?);
    for k in 0..CREASES {
        let x = -198 + 2 * (k as i32);
        let (from, to) = (point(x, -200), point(x, 200));
        pattern = add(alloc, &pattern, Kind::Mountain, &from, &to).ok()?;
    }
    Some(pattern)
}

// The sign of a pair: that of their mountain for neighbours, else by a digit of a number.
fn sign_of(pair: &FacePair, number: u64) -> Sign {
    let over = if pair.j == pair.i.saturating_add(1) {
        pair.i % 2 == 1
    } else {
        number >> 63 == 0
    };
    if over { Sign::Over } else { Sign::Under }
}

// A list of signs for the pairs, by the digits of a number.
fn list_of(alloc: Global, pairs: &[FacePair], number: u64) -> Result<Vec<Sign>, AllocError> {
    let mut signs = Vec::with_capacity(alloc, pairs.len())?;
    let mut state = number;
    for pair in pairs {
        state = fold(state, 1);
        signs.push(sign_of(pair, state))?;
    }
    Ok(signs)
}

// Takes in how many rules there are, and which one some lists break first.
fn fold_rules(
    alloc: Global,
    sum: u64,
    pairs: &[FacePair],
    rules: &Rules,
) -> Result<u64, AllocError> {
    let mut sum = fold(sum, rules.count() as u64);
    for number in 0..8 {
        let signs = list_of(alloc, pairs, number)?;
        if signs.len() <= rules.pairs() as usize {
            let broken = rules.breaks(signs.as_slice()).unwrap_or(0);
            sum = fold(sum, broken as u64);
        }
    }
    Ok(sum)
}

fn fold_layers(alloc: Global, sum: u64, layers: &Layering) -> Result<u64, AllocError> {
    let mut sum = fold(sum, layers.faces() as u64);
    for pair in layers.pairs() {
        sum = fold(fold(sum, pair.i as u64), pair.j as u64);
    }
    let rules = layers.rules()?;
    fold_rules(alloc, sum, layers.pairs(), &rules)
}

// The checksum after so many rounds.
fn measured<R: Threads + Sync>(rt: &R, alloc: Global, rounds: u32) -> Option<u64> {
    let pattern = strips(alloc)?;
    let mut sum = 0;
    for _ in 0..rounds {
        let layers = instance(rt, alloc, &pattern).ok()?;
        sum = fold_layers(alloc, sum, &layers).ok()?;
    }
    Some(sum)
}

// How many rounds the words ask for.
fn wanted<R: Env + Alloc>(rt: &R) -> u32 {
    let Ok(mut arguments) = env::args(rt) else {
        return 1;
    };
    let _name = arguments.next();
    match arguments.next() {
        Some(word) => word.parse::<u32>().unwrap_or(1),
        None => 1,
    }
}

fn main(rt: HostRuntime) -> ExitCode {
    let rounds = wanted(&rt);
    let Some(sum) = measured(&rt, rt.alloc(), rounds) else {
        return ExitCode::from(NOT_FOUND);
    };
    match println!(rt; "{sum}") {
        Ok(()) => ExitCode::SUCCESS,
        Err(_) => ExitCode::from(NOT_WRITTEN),
    }
}
