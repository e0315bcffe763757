//! A measure of editing at work. Its first word says what is measured, its second one how many times (once where there is
//! none), and it prints a checksum of the pattern that is left, or of the faults that are found.
#![tactic(auto)]

use crease_model::{Kind, Pattern, Sheet};
use crease_store::{LoadLine, add, load};
use plane_geometry::Point;
use std::alloc::Global;
use std::env;
use std::process::ExitCode;
use std::rt::Env;
use surd_number::Surd;
use vertex_checks::check;

/// The exit status where the checksum could not be written.
const NOT_WRITTEN: u8 = 4;

/// The exit status where memory was refused or a line was.
const NOT_MADE: u8 = 6;

/// What the checksum is multiplied by at each part of a number.
const FACTOR: u64 = 6364136223846793005;

/// What is measured.
#[derive(Clone, Copy)]
enum Measure {
    /// A crease across 660 others, added as a valley and as a mountain in turn.
    Crossing,
    /// The same crease added again and again as a valley.
    Held,
    /// A block of 160,000 auxiliary lines, 2,000 different ones.
    Lines,
    /// A block of 2,000 creases and then an edge 190,000 times.
    Edges,
    /// The local faults at 4,000 vertices.
    Check,
    /// A block of 2,000 creases apart from one another.
    Pieces,
}

fn fold(sum: u64, word: u64) -> u64 {
    sum.wrapping_mul(FACTOR).wrapping_add(word)
}

fn fold_number(sum: u64, n: &Surd) -> u64 {
    let (a, b, k) = n.parts();
    let with_whole = fold(sum, a.wrapping_add(1 << 40) as u64);
    fold(
        fold(with_whole, b.wrapping_add(1 << 40) as u64),
        u64::from(k),
    )
}

fn fold_point(sum: u64, p: &Point) -> u64 {
    fold_number(fold_number(sum, &p.x), &p.y)
}

fn kind_number(kind: Kind) -> u64 {
    match kind {
        Kind::Edge => 1,
        Kind::Mountain => 2,
        Kind::Valley => 3,
        Kind::Aux => 4,
        Kind::Unassigned => 5,
    }
}

fn fold_pieces(sum: u64, pattern: &Pattern) -> u64 {
    let mut sum = sum;
    for piece in pattern.pieces() {
        sum = fold_point(
            fold_point(fold(sum, kind_number(piece.kind)), piece.segment.from()),
            piece.segment.to(),
        );
    }
    sum
}

fn fold_pattern(pattern: &Pattern) -> u64 {
    let mut sum = fold_pieces(0, pattern);
    for line in pattern.aux() {
        sum = fold_point(fold_point(sum, line.from()), line.to());
    }
    sum
}

// `n / 32`.
fn part(n: i32) -> Option<Surd> {
    Surd::new(i64::from(n), 0, 5).ok()
}

// The point with these coordinates, in parts of 32.
fn point(x: i32, y: i32) -> Option<Point> {
    Some(Point {
        x: part(x)?,
        y: part(y)?,
    })
}

fn line(number: u32, kind: Kind, from: (i32, i32), to: (i32, i32)) -> Option<LoadLine> {
    Some(LoadLine {
        number,
        kind,
        from: point(from.0, from.1)?,
        to: point(to.0, to.1)?,
    })
}

// 660 mountains at 45 degrees, beside one another.
fn slanted(alloc: Global) -> Option<Vec<LoadLine>> {
    let mut lines = Vec::new(alloc);
    for n in 0..660i32 {
        let x = n.wrapping_mul(15).wrapping_sub(4950);
        let from = (x.wrapping_sub(960), -960);
        let to = (x.wrapping_add(960), 960);
        lines.push(line(0, Kind::Mountain, from, to)?).ok()?;
    }
    Some(lines)
}

// 160,000 auxiliary lines, of which 2,000 are different.
fn repeated(alloc: Global) -> Option<Vec<LoadLine>> {
    let mut lines = Vec::new(alloc);
    for n in 0..160_000i32 {
        let x = (n.wrapping_mul(7) % 2000).wrapping_sub(1000);
        lines
            .push(line(0, Kind::Aux, (x, -64), (x, x.wrapping_add(1024)))?)
            .ok()?;
    }
    Some(lines)
}

// 2,000 valleys apart from one another.
fn apart(alloc: Global) -> Option<Vec<LoadLine>> {
    let mut lines = Vec::new(alloc);
    for n in 0..2000i32 {
        let x = (n.wrapping_mul(7) % 50)
            .wrapping_mul(250)
            .wrapping_sub(6200);
        let y = (n / 50).wrapping_mul(300).wrapping_sub(6000);
        let to = (x.wrapping_add(160), y.wrapping_add(160));
        lines.push(line(0, Kind::Valley, (x, y), to)?).ok()?;
    }
    Some(lines)
}

// 2,000 valleys apart from one another, and then an edge of the sheet 190,000 times.
fn bordered(alloc: Global) -> Option<Vec<LoadLine>> {
    let mut lines = apart(alloc)?;
    let edge = line(0, Kind::Edge, (-6400, -6400), (6400, -6400))?;
    for _ in 0..190_000i32 {
        lines.push(edge).ok()?;
    }
    Some(lines)
}

fn empty(alloc: Global) -> Option<Pattern> {
    Some(Pattern::empty(Sheet::square(alloc).ok()?))
}

// A crease across others added once more, as often as is asked, of the two kinds in turn.
fn crossed(alloc: Global, kind: Kind, next: Kind, rounds: u32) -> Option<u64> {
    let mut pattern = load(alloc, &empty(alloc)?, slanted(alloc)?.as_slice()).ok()?;
    let from = point(-6400, 0)?;
    let to = point(6400, 0)?;
    for n in 0..rounds {
        let kind = if n % 2 == 0 { kind } else { next };
        pattern = add(alloc, &pattern, kind, &from, &to).ok()?;
    }
    Some(fold_pattern(&pattern))
}

// The lines loaded, as often as is asked.
fn loaded(alloc: Global, lines: &[LoadLine], rounds: u32) -> Option<u64> {
    let mut pattern = empty(alloc)?;
    for _ in 0..rounds {
        pattern = load(alloc, &pattern, lines).ok()?;
    }
    Some(fold_pattern(&pattern))
}

fn checked(alloc: Global, rounds: u32) -> Option<u64> {
    let pattern = load(alloc, &empty(alloc)?, apart(alloc)?.as_slice()).ok()?;
    let mut sum = 0;
    for _ in 0..rounds {
        let faults = check(alloc, &pattern).ok()?;
        for fault in &faults {
            sum = fold_point(sum, &fault.vertex);
        }
    }
    Some(sum)
}

fn measured(alloc: Global, measure: Measure, rounds: u32) -> Option<u64> {
    match measure {
        Measure::Crossing => crossed(alloc, Kind::Valley, Kind::Mountain, rounds),
        Measure::Held => crossed(alloc, Kind::Valley, Kind::Valley, rounds),
        Measure::Edges => loaded(alloc, bordered(alloc)?.as_slice(), rounds),
        Measure::Lines => loaded(alloc, repeated(alloc)?.as_slice(), rounds),
        Measure::Check => checked(alloc, rounds),
        Measure::Pieces => loaded(alloc, apart(alloc)?.as_slice(), rounds),
    }
}

fn measure_of(word: &str) -> Measure {
    match word {
        "crossing" => Measure::Crossing,
        "held" => Measure::Held,
        "edges" => Measure::Edges,
        "lines" => Measure::Lines,
        "check" => Measure::Check,
        _ => Measure::Pieces,
    }
}

// What the words ask for.
fn wanted<R: Env + Alloc>(rt: &R) -> (Measure, u32) {
    let Ok(mut arguments) = env::args(rt) else {
        return (Measure::Pieces, 1);
    };
    let _name = arguments.next();
    let Some(name) = arguments.next() else {
        return (Measure::Pieces, 1);
    };
    let Some(rounds) = arguments.next() else {
        return (measure_of(name.as_str()), 1);
    };
    (
        measure_of(name.as_str()),
        rounds.as_str().parse::<u32>().unwrap_or(1),
    )
}

fn main(rt: HostRuntime) -> ExitCode {
    let (measure, rounds) = wanted(&rt);
    let Some(sum) = measured(rt.alloc(), measure, rounds) else {
        return ExitCode::from(NOT_MADE);
    };
    match println!(rt; "{sum}") {
        Ok(()) => ExitCode::SUCCESS,
        Err(_) => ExitCode::from(NOT_WRITTEN),
    }
}
