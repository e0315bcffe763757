//! The work of a round, over a fixed list of points.

use crate::checksum::Checksum;
use plane_geometry::{Dir, Line, Point, meet, side};
use std::alloc::{AllocError, Global};
use surd_number::Surd;

/// The coordinates of the points, as triples `(a, b, k)` for `(a + b * sqrt 2) / 2^k`.
const COORDINATES: [((i64, i64, u8), (i64, i64, u8)); 6] = [
    ((3, -2, 1), (-600, 400, 0)),
    ((50, -1, 2), (0, 3, 0)),
    ((1, 0, 16), (-7, 5, 3)),
    ((68719476735, -12345, 4), (-1, -1, 16)),
    ((0, 0, 0), (200, 0, 0)),
    ((-34359738369, 68719476736, 9), (99, 70, 5)),
];

/// The points that each round goes over.
pub fn points(alloc: Global) -> Result<Vec<Point>, AllocError> {
    let mut points = Vec::new(alloc);
    for ((a, b, k), (c, d, j)) in COORDINATES {
        if let (Ok(x), Ok(y)) = (Surd::new(a, b, k), Surd::new(c, d, j)) {
            points.push(Point { x, y })?;
        }
    }
    Ok(points)
}

// The sum and the product of two numbers.
fn combine(m: &Surd, n: &Surd, sum: &mut Checksum) {
    sum.fold_number(m.add(n));
    sum.fold_number(m.mul(n));
}

// The sums and products of the coordinates of two points.
fn combine_points(p: &Point, q: &Point, sum: &mut Checksum) {
    combine(&p.x, &q.x, sum);
    combine(&p.x, &q.y, sum);
    combine(&p.y, &q.x, sum);
    combine(&p.y, &q.y, sum);
}

// The line through a point in a direction, on which side of it each point is, and where lines through the points in
// another direction meet it.
fn sides(points: &[Point], p: &Point, dir: Dir, other: Dir, sum: &mut Checksum) {
    let line = Line::through(p, dir);
    sum.fold_line(&line);
    for q in points {
        sum.fold_sign(side(&line, q));
        sum.fold_meeting(meet(&line, &Line::through(q, other)));
    }
}

// The lines through a point in all 16 directions.
fn lines(points: &[Point], p: &Point, sum: &mut Checksum) {
    for number in 0..16 {
        if let (Some(dir), Some(other)) = (Dir::new(number), Dir::new((3 * number + 1) % 16)) {
            sides(points, p, dir, other, sum);
        }
    }
}

/// A round: sums and products of all pairs of coordinates, lines through all points, sides of them
/// and common points of them.
pub fn round(points: &[Point], sum: &mut Checksum) {
    for p in points {
        for q in points {
            combine_points(p, q, sum);
        }
        lines(points, p, sum);
    }
}
