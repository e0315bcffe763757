//! Measures of open regions at work, with a checksum of all answers: `ROUNDS` tests all pairs of 16 fixed faces for a common
//! point, so many times (once where there is no word). `pairs FACES ROUNDS` finds the pairs of so many faces that have one,
//! as the pairs of a folded shape are found, and `triples FACES ROUNDS` then the threes among these pairs that have one.
#![tactic(auto)]

use open_region::Region;
use plane_geometry::{Dir, Point};
use std::alloc::{AllocError, Global};
use std::env;
use std::process::ExitCode;
use std::rt::Env;
use surd_number::Surd;

/// The exit status where the checksum could not be written.
const NOT_WRITTEN: u8 = 4;

/// The exit status where memory was refused.
const NO_MEMORY: u8 = 6;

/// What the checksum is multiplied by at each answer.
const FACTOR: u64 = 6364136223846793005;

/// The centres of the faces, their radii, and how many directions lie between their sides.
const FACES: [(i32, i32, i32, u8); 16] = [
    (0, 0, 10, 4),
    (7, 3, 11, 2),
    (-14, 6, 9, 1),
    (21, -9, 12, 4),
    (-28, 12, 10, 2),
    (5, 15, 11, 1),
    (12, -18, 9, 4),
    (-19, 21, 12, 2),
    (26, 24, 10, 1),
    (-3, -27, 11, 4),
    (10, 30, 9, 2),
    (-17, -1, 12, 1),
    (24, 4, 10, 4),
    (-1, 7, 11, 2),
    (8, -10, 9, 1),
    (-15, 13, 12, 4),
];

/// For each direction a vector to its right.
const RIGHT: [(i32, i32); 16] = [
    (0, -1),
    (1, -2),
    (1, -1),
    (2, -1),
    (1, 0),
    (2, 1),
    (1, 1),
    (1, 2),
    (0, 1),
    (-1, 2),
    (-1, 1),
    (-2, 1),
    (-1, 0),
    (-2, -1),
    (-1, -1),
    (-1, -2),
];

/// The directions of the sides of the faces of a crowd: squares, triangles and parallelograms.
const SIDES: [&[u8]; 8] = [
    &[0, 4, 8, 12],
    &[0, 6, 12],
    &[2, 6, 10, 14],
    &[0, 4, 10],
    &[0, 4, 8, 12],
    &[4, 8, 14],
    &[0, 5, 8, 13],
    &[2, 8, 12],
];

/// The greatest crowd.
const MOST_FACES: u32 = 256;

// The region of a face.
fn face(x: i32, y: i32, radius: i32, step: u8) -> Region {
    let mut region = Region::whole();
    for n in 0..16u8 {
        if let Some(d) = Dir::new(n) {
            if step != 0 && n % step == 0 {
                let (u, v) = RIGHT[n as usize];
                let p = Point {
                    x: Surd::whole(x.wrapping_add(u.wrapping_mul(radius))),
                    y: Surd::whole(y.wrapping_add(v.wrapping_mul(radius))),
                };
                region = region.cut(&p, d);
            }
        }
    }
    region
}

// Face number n of a crowd.
fn crowded(n: u32) -> Region {
    let x = (n.wrapping_mul(29) % 103) as i32;
    let y = (n
        .wrapping_mul(n)
        .wrapping_mul(7)
        .wrapping_add(n.wrapping_mul(31))
        % 101) as i32;
    let radius = 8 + (n % 5) as i32;
    let mut region = Region::whole();
    for number in SIDES[(n % 8) as usize] {
        if let Some(d) = Dir::new(*number) {
            let (u, v) = RIGHT[d.number() as usize];
            let p = Point {
                x: Surd::whole(x.wrapping_add(u.wrapping_mul(radius))),
                y: Surd::whole(y.wrapping_add(v.wrapping_mul(radius))),
            };
            region = region.cut(&p, d);
        }
    }
    region
}

fn crowd(alloc: Global, faces: u32) -> Result<Vec<Region>, AllocError> {
    let mut crowd = Vec::new(alloc);
    for n in 0..faces.min(MOST_FACES) {
        crowd.push(crowded(n))?;
    }
    Ok(crowd)
}

// Whether both have a common point.
fn meet(first: &Region, second: &Region) -> bool {
    !first.is_apart(second) && first.both(second).is_open_nonempty()
}

// Takes in the pairs of one face with each later one.
fn push_row(
    pairs: &mut Vec<(usize, usize)>,
    crowd: &[Region],
    i: usize,
    first: &Region,
) -> Result<(), AllocError> {
    for (j, second) in crowd.iter().enumerate() {
        if i < j && meet(first, second) {
            pairs.push((i, j))?;
        }
    }
    Ok(())
}

// The pairs of a crowd, in order.
fn pairs(alloc: Global, crowd: &[Region]) -> Result<Vec<(usize, usize)>, AllocError> {
    let mut pairs = Vec::new(alloc);
    for (i, first) in crowd.iter().enumerate() {
        push_row(&mut pairs, crowd, i, first)?;
    }
    Ok(pairs)
}

// Takes in the pair and each later face that both have a common point with.
fn row_of_triples(crowd: &[Region], pairs: &[(usize, usize)], p: usize, sum: u64) -> u64 {
    let Some(&(i, j)) = pairs.get(p) else {
        return sum;
    };
    let (Some(first), Some(second)) = (crowd.get(i), crowd.get(j)) else {
        return sum;
    };
    let common = first.both(second);
    let mut sum = sum;
    for (t, &(other, k)) in pairs.iter().enumerate().skip(p + 1) {
        if other != i {
            return sum;
        }
        if let Some(third) = crowd.get(k) {
            if pairs.binary_search(&(j, k)).is_ok() && common.both(third).is_open_nonempty() {
                sum = sum.wrapping_mul(FACTOR).wrapping_add(t as u64);
            }
        }
    }
    sum
}

// The checksum after a round of pairs, or of pairs and triples.
fn crowd_round(
    alloc: Global,
    crowd: &[Region],
    with_triples: bool,
    sum: u64,
) -> Result<u64, AllocError> {
    let pairs = pairs(alloc, crowd)?;
    let mut sum = sum;
    for (p, &(i, j)) in pairs.iter().enumerate() {
        sum = sum
            .wrapping_mul(FACTOR)
            .wrapping_add(i as u64)
            .wrapping_mul(FACTOR)
            .wrapping_add(j as u64);
        if with_triples {
            sum = row_of_triples(crowd, pairs.as_slice(), p, sum);
        }
    }
    Ok(sum)
}

fn faces(alloc: Global) -> Result<Vec<Region>, AllocError> {
    let mut faces = Vec::new(alloc);
    for (x, y, radius, step) in FACES {
        faces.push(face(x, y, radius, step))?;
    }
    Ok(faces)
}

// Takes in whether a face has a common point with each of the faces.
fn tests(faces: &[Region], first: &Region, sum: u64) -> u64 {
    let mut sum = sum;
    for second in faces {
        let answer = first.both(second).is_open_nonempty();
        sum = sum.wrapping_mul(FACTOR).wrapping_add(u64::from(answer));
    }
    sum
}

// The checksum after a round of all pairs.
fn round(faces: &[Region], sum: u64) -> u64 {
    let mut sum = sum;
    for first in faces {
        sum = tests(faces, first, sum);
    }
    sum
}

/// What is measured.
#[derive(Clone, Copy)]
enum Measure {
    Tests,
    Pairs,
    Triples,
}

/// What is measured, with how many faces, and how many times.
#[derive(Clone, Copy)]
struct Request {
    measure: Measure,
    faces: u32,
    rounds: u32,
}

fn number(word: &str) -> u32 {
    word.parse::<u32>().unwrap_or(1)
}

// What the words ask for.
fn wanted<R: Env + Alloc>(rt: &R) -> Request {
    let once = Request {
        measure: Measure::Tests,
        faces: 0,
        rounds: 1,
    };
    let Ok(mut arguments) = env::args(rt) else {
        return once;
    };
    let _name = arguments.next();
    let Some(word) = arguments.next() else {
        return once;
    };
    let measure = match word.as_str() {
        "pairs" => Measure::Pairs,
        "triples" => Measure::Triples,
        _ => Measure::Tests,
    };
    if let Measure::Tests = measure {
        return Request {
            measure,
            faces: 0,
            rounds: number(word.as_str()),
        };
    }
    let faces = match arguments.next() {
        Some(word) => number(word.as_str()),
        None => 1,
    };
    let rounds = match arguments.next() {
        Some(word) => number(word.as_str()),
        None => 1,
    };
    Request {
        measure,
        faces,
        rounds,
    }
}

// The checksum of what is wanted.
fn measured(alloc: Global, wanted: Request) -> Result<u64, AllocError> {
    let sixteen = faces(alloc)?;
    let crowd = crowd(alloc, wanted.faces)?;
    let mut sum = 0;
    for _ in 0..wanted.rounds {
        sum = match wanted.measure {
            Measure::Tests => round(sixteen.as_slice(), sum),
            Measure::Pairs => crowd_round(alloc, crowd.as_slice(), false, sum)?,
            Measure::Triples => crowd_round(alloc, crowd.as_slice(), true, sum)?,
        };
    }
    Ok(sum)
}

fn main(rt: HostRuntime) -> ExitCode {
    let Ok(sum) = measured(rt.alloc(), wanted(&rt)) else {
        return ExitCode::from(NO_MEMORY);
    };
    match println!(rt; "{sum}") {
        Ok(()) => ExitCode::SUCCESS,
        Err(_) => ExitCode::from(NOT_WRITTEN),
    }
}
