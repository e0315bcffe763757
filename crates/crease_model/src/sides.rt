//! Sides of a sheet: what is known of them, and where points and segments lie to them.

ghost use Rattle.std.specs.Prelude.{◌≡◌, IfOk, IsTrue, MatchOption};
ghost use Rattle.std.specs.Bool.{IsFalse};
ghost use Rattle.std.specs.List.{list_any};
ghost use Rattle.plane_geometry.specs.Position.{position_of};
ghost use Rattle.plane_geometry.specs.SegmentView.{stretch_of};
ghost use Rattle.plane_geometry.specs.Polygon.{has_direction, have_directions};
ghost use Rattle.crease_model.specs.KnownSide.{facts_of, known_facts, known_sign, place_to, known_holds, AreSides};

use crate::Place;
use plane_geometry::{Dir, Point, Segment, direction, next_corner, on_segment, side_from};
use std::alloc::{AllocError, Global};
use surd_number::Sgn;

/// What a sheet knows of a side: the corner where it begins, its direction, and the segment to the next corner.
#[derive(Clone, Copy)]
pub struct KnownSide {
    start: Point,
    dir: Dir,
    segment: Segment,
}

impl KnownSide {
    // The side from one corner to another, if it has one of the 16 directions.
    fn between(start: &Point, end: &Point) -> Option<KnownSide>
        ensures { MatchOption result
            (IsFalse (has_direction (record { start = start.now; end = end.now })))
            (λ side. known_facts side ≡ facts_of (record { start = start.now; end = end.now })) }
    {
        let dir = direction(start, end)?;
        let segment = Segment::new(start, end).ok()?;
        Some(KnownSide {
            start: *start,
            dir,
            segment,
        })
    }

    // On which side of it a point is.
    fn sign(&self, p: &Point) -> Sgn
        ensures { result ≡ known_sign (position_of p.now) self.now }
    {
        side_from(&self.start, self.dir, p)
    }

    // Whether both ends of a segment are on it.
    fn holds(&self, s: &Segment) -> bool
        ensures { result ≡ known_holds (stretch_of s.now) self.now }
    {
        on_segment(s.from(), &self.segment) && on_segment(s.to(), &self.segment)
    }
}

/// The sides between these corners.
pub fn known_sides(alloc: Global, corners: &[Point]) -> Result<Vec<KnownSide>, AllocError>
    requires { IsTrue (have_directions corners.now) }
    ensures { IfOk result (λ sides. AreSides corners.now sides.items) }
{
    let mut sides = Vec::with_capacity(alloc, corners.len())?;
    for (i, start) in corners.iter().enumerate() {
        if let Some(side) = KnownSide::between(start, next_corner(corners, i)) {
            sides.push(side)?;
        }
    }
    Ok(sides)
}

/// Where a point lies to these sides.
pub fn place_among(sides: &[KnownSide], p: &Point) -> Place
    ensures { result ≡ place_to sides.now (position_of p.now) }
{
    let mut inside = true;
    for side in sides {
        match side.sign(p) {
            Sgn::Neg => return Place::Outside,
            Sgn::Zero => inside = false,
            Sgn::Pos => {}
        }
    }
    if inside { Place::Inside } else { Place::Border }
}

/// Whether a segment is within one of these sides.
pub fn within_side(sides: &[KnownSide], s: &Segment) -> bool
    ensures { result ≡ list_any (known_holds (stretch_of s.now)) sides.now }
{
    sides.iter().any(|side| side.holds(s))
}
