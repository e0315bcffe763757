//! A measure of faces and folding at work, on a pattern of 1,920 pieces and 256 faces. Its first word says what is measured,
//! its second one how many times (once where there is none), and it prints a checksum of what is found.
#![tactic(auto)]

use crease_model::{Kind, Pattern, Sheet};
use crease_store::{LoadLine, load};
use face_builder::{FaceMap, faces};
use isometry_map::Folded;
use plane_geometry::Point;
use std::alloc::Global;
use std::env;
use std::process::ExitCode;
use std::rt::Env;
use surd_number::Surd;
use wireframe_fold::fold;

/// The exit status where the checksum could not be written.
const NOT_WRITTEN: u8 = 4;

/// The exit status where memory was refused, a line was, or the pattern has no folded shape.
const NOT_MADE: u8 = 6;

/// What the checksum is multiplied by at each part of a number.
const FACTOR: u64 = 6364136223846793005;

/// What is measured.
#[derive(Clone, Copy)]
enum Measure {
    /// The faces of the pattern.
    Faces,
    /// The folded shape of its faces.
    Fold,
}

fn mix(sum: u64, word: u64) -> u64 {
    sum.wrapping_mul(FACTOR).wrapping_add(word)
}

fn mix_number(sum: u64, n: &Surd) -> u64 {
    let (a, b, k) = n.parts();
    let with_whole = mix(sum, a.wrapping_add(1 << 40) as u64);
    mix(
        mix(with_whole, b.wrapping_add(1 << 40) as u64),
        u64::from(k),
    )
}

fn mix_point(sum: u64, p: &Point) -> u64 {
    mix_number(mix_number(sum, &p.x), &p.y)
}

fn mix_points(sum: u64, points: &[Point]) -> u64 {
    let mut sum = sum;
    for point in points {
        sum = mix_point(sum, point);
    }
    sum
}

fn mix_map(sum: u64, map: &FaceMap) -> u64 {
    let mut sum = sum;
    for place in 0..map.count() {
        sum = mix_points(sum, map.corners(place.wrapping_add(1)).unwrap_or_default());
    }
    for piece in map.shared() {
        sum = mix(mix(sum, u64::from(piece.a)), u64::from(piece.b));
    }
    for step in map.walk() {
        let reached = mix(mix(sum, u64::from(step.face)), u64::from(step.from));
        sum = mix(reached, u64::from(step.piece));
    }
    sum
}

fn mix_shape(sum: u64, folded: &Folded) -> u64 {
    let mut sum = sum;
    for face in folded.faces() {
        sum = mix_points(mix(sum, u64::from(face.turned)), face.corners.as_slice());
    }
    for crease in folded.creases() {
        sum = mix_point(mix_point(sum, crease.image.from()), crease.image.to());
    }
    sum
}

// `n / 32`.
fn part(n: i32) -> Option<Surd> {
    Surd::new(i64::from(n), 0, 5).ok()
}

// The point with these coordinates, in parts of 32.
fn point(x: i32, y: i32) -> Option<Point> {
    Some(Point {
        x: part(x)?,
        y: part(y)?,
    })
}

fn line(kind: Kind, from: (i32, i32), to: (i32, i32)) -> Option<LoadLine> {
    Some(LoadLine {
        number: 0,
        kind,
        from: point(from.0, from.1)?,
        to: point(to.0, to.1)?,
    })
}

// 15 creases upwards and 15 across, each of 64 parts: 1,920 pieces and 256 faces.
fn grid(alloc: Global) -> Option<Vec<LoadLine>> {
    let mut lines = Vec::new(alloc);
    for n in 0..15i32 {
        let at = n.wrapping_mul(800).wrapping_sub(5600);
        for part in 0..64i32 {
            let from = part.wrapping_mul(200).wrapping_sub(6400);
            let to = from.wrapping_add(200);
            lines
                .push(line(Kind::Mountain, (at, from), (at, to))?)
                .ok()?;
            lines.push(line(Kind::Valley, (from, at), (to, at))?).ok()?;
        }
    }
    Some(lines)
}

fn pattern(alloc: Global) -> Option<Pattern> {
    let empty = Pattern::empty(Sheet::square(alloc).ok()?);
    load(alloc, &empty, grid(alloc)?.as_slice()).ok()
}

// The faces found as often as is asked.
fn mapped(alloc: Global, rounds: u32) -> Option<u64> {
    let pattern = pattern(alloc)?;
    let mut sum = 0;
    for _ in 0..rounds {
        sum = mix_map(sum, &faces(alloc, &pattern).ok()?);
    }
    Some(sum)
}

// The faces folded as often as is asked.
fn folded(alloc: Global, rounds: u32) -> Option<u64> {
    let map = faces(alloc, &pattern(alloc)?).ok()?;
    let mut sum = 0;
    for _ in 0..rounds {
        sum = mix_shape(sum, &fold(alloc, &map).ok()?);
    }
    Some(sum)
}

fn measured(alloc: Global, measure: Measure, rounds: u32) -> Option<u64> {
    match measure {
        Measure::Faces => mapped(alloc, rounds),
        Measure::Fold => folded(alloc, rounds),
    }
}

fn measure_of(word: &str) -> Measure {
    match word {
        "faces" => Measure::Faces,
        _ => Measure::Fold,
    }
}

// What the words ask for.
fn wanted<R: Env + Alloc>(rt: &R) -> (Measure, u32) {
    let Ok(mut arguments) = env::args(rt) else {
        return (Measure::Fold, 1);
    };
    let _name = arguments.next();
    let Some(name) = arguments.next() else {
        return (Measure::Fold, 1);
    };
    let Some(rounds) = arguments.next() else {
        return (measure_of(name.as_str()), 1);
    };
    (
        measure_of(name.as_str()),
        rounds.as_str().parse::<u32>().unwrap_or(1),
    )
}

fn main(rt: HostRuntime) -> ExitCode {
    let (measure, rounds) = wanted(&rt);
    let Some(sum) = measured(rt.alloc(), measure, rounds) else {
        return ExitCode::from(NOT_MADE);
    };
    match println!(rt; "{sum}") {
        Ok(()) => ExitCode::SUCCESS,
        Err(_) => ExitCode::from(NOT_WRITTEN),
    }
}
