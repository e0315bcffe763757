//! Points, segments and lines of the plane, with coordinates `(a + b * sqrt 2) / 2^k` and directions in steps of 22.5
//! degrees.
#![tactic(auto)]

mod directions;
pub mod laws;
mod lines;
mod meeting;
mod polygon;
mod segments;
mod sides;

ghost use Rattle.std.specs.Prelude.{◌≡◌, ◌≤◌, ◌<◌, ◌↔◌, IsNone, IfSome, IfOk, MatchResult, IsTrue};
ghost use Rattle.std.specs.Result.{result_ok};
ghost use Rattle.plane_geometry.specs.Position.{position_of};
ghost use Rattle.plane_geometry.specs.Stored.{IsStretch};
ghost use Rattle.plane_geometry.specs.LineStored.{PassesThroughPoint};

pub use directions::direction;
pub use lines::side;
pub use meeting::{MeetFault, common_point, cross_unit, meet};
pub use polygon::{have_directions, next_corner};
pub use segments::{between_ends, meets_at_ends, on_segment, overlaps, parallel, share_point};
pub use sides::side_from;
use sides::{cross_at, is_before};
use std::cmp::Ordering;
use surd_number::{Surd, Wide};
use thiserror::Error;

/// A point of the plane, ordered by x, then y. Coordinates are in sheet units.
#[derive(Clone, Copy, Debug, PartialEq, Eq, PartialOrd, Ord, Hash)]
pub struct Point {
    pub x: Surd,
    pub y: Surd,
}

/// One of the 16 directions in steps of 22.5 degrees, counterclockwise from the x axis.
#[derive(Clone, Copy, Debug, PartialEq, Eq, PartialOrd, Ord, Hash)]
pub struct Dir {
    number: u8,
    pub ghost in_range: { number ≤ 15 },
}

/// A straight segment in one of the 16 directions, from its lesser end to its greater one. Segments are ordered by `from`,
/// then `to`.
#[derive(Clone, Copy, Debug, PartialEq, Eq, Hash)]
pub struct Segment {
    from: Point,
    to: Point,
    dir: Dir,
    pub ghost stretch: { IsStretch (record { from = position_of from; to = position_of to; dir = dir.number }) },
}

/// A line of the plane: a direction from 0 to 7, and the cross product of that direction with any point of the line.
/// Lines are ordered by direction, then by the triple of the offset.
#[derive(Clone, Copy, Debug, PartialEq, Eq, Hash)]
pub struct Line {
    direction: u8,
    offset: Wide,
    pub ghost in_range: { direction ≤ 7 },
    pub ghost passes: { ∥ PassesThroughPoint direction offset ∥₁ },
}

/// Why two points have no segment between them.
#[derive(Clone, Copy, Debug, PartialEq, Eq, Error)]
pub enum SegmentFault {
    /// Both are the same point.
    #[error("both ends are equal")]
    ZeroLength,
    /// They lie in none of the 16 directions from each other.
    #[error("the ends have none of the 16 directions")]
    BadDirection,
}

impl Dir {
    ghost use Rattle.plane_geometry.specs.DirView.{dir_number, dir_of};
    ghost use Rattle.plane_geometry.specs.Polygon.{turn_of};

    /// The direction of this number, `22.5 * n` degrees; None from 16 on.
    pub fn new(n: u8) -> Option<Dir>
        ensures none { IsNone result ↔ (15 < n) }
        ensures number { IfSome result (λ d. dir_number d ≡ n) }
    {
        if n > 15 {
            None
        } else {
            Some(Dir { number: n })
        }
    }

    /// The direction of this number, modulo 16.
    pub fn modulo(n: u8) -> Dir
        ensures { result ≡ dir_of n }
    {
        Dir { number: n % 16 }
    }

    /// The number, 0 to 15.
    pub fn number(&self) -> u8
        ensures { result ≡ dir_number self.now }
    {
        self.number
    }

    /// The turn from this direction to the next, counterclockwise, in steps of 22.5 degrees.
    pub fn turn_to(self, next: Dir) -> u8
        ensures { result ≡ turn_of (dir_number self) (dir_number next) }
    {
        (next.number + 16 - self.number) % 16
    }
}

impl Segment {
    ghost use Rattle.plane_geometry.specs.DirView.{dir_number};
    ghost use Rattle.plane_geometry.specs.Position.{ComesBefore};
    ghost use Rattle.plane_geometry.specs.Ends.{lesser_of, greater_of, HasEnds, HasNoDirection, HaveBadDirection, GoesAlong};
    ghost use Rattle.plane_geometry.specs.SegmentView.{lesser_end, greater_end, direction_number, stretch_of};
    ghost use Rattle.plane_geometry.specs.Stretch.{is_on};
    ghost use Rattle.plane_geometry.specs.SegmentOf.{segment_from, segment_of};

    /// The segment between two points, the lesser one first.
    pub fn new(p: &Point, q: &Point) -> Result<Segment, SegmentFault>
        ensures ends { IfOk result (λ s. HasEnds s (lesser_of p.now q.now) (greater_of p.now q.now)) }
        ensures zero_length { (result ≡ Err SegmentFault.ZeroLength) ↔ (p.now ≡ q.now) }
        ensures bad_direction { (result ≡ Err SegmentFault.BadDirection) ↔ HaveBadDirection p.now q.now }
        ensures value { result_ok result ≡ segment_of p.now q.now }
    {
        if is_before(p, q) {
            Segment::in_order(p, q)
        } else if is_before(q, p) {
            Segment::in_order(q, p)
        } else {
            Err(SegmentFault::ZeroLength)
        }
    }

    /// The segment from a point to a later one.
    fn in_order(from: &Point, to: &Point) -> Result<Segment, SegmentFault>
        requires { ComesBefore from.now to.now }
        ensures ends { MatchResult result (λ s. HasEnds s from.now to.now)
            (λ e. (e ≡ SegmentFault.BadDirection)
            × HasNoDirection (position_of from.now) (position_of to.now)) }
        ensures value { result_ok result ≡ segment_from from.now to.now }
    {
        match direction(from, to) {
            Some(dir) => Ok(Segment {
                from: *from,
                to: *to,
                dir,
            }),
            None => Err(SegmentFault::BadDirection),
        }
    }

    /// The lesser end.
    pub fn from(&self) -> &Point
        ensures value { result.now ≡ lesser_end self.now }
        ensures first { ComesBefore result.now (greater_end self.now) }
    {
        &self.from
    }

    /// The greater end.
    pub fn to(&self) -> &Point
        ensures { result.now ≡ greater_end self.now }
    {
        &self.to
    }

    /// The part of the segment from one of its points to a later one. It has the segment's direction, so none is searched.
    pub fn part(&self, from: &Point, to: &Point) -> Segment
        requires from_on { IsTrue (is_on (position_of from.now) (stretch_of self.now)) }
        requires to_on { IsTrue (is_on (position_of to.now) (stretch_of self.now)) }
        requires order { ComesBefore from.now to.now }
        ensures ends { HasEnds result from.now to.now }
        ensures direction { direction_number result ≡ direction_number self.now }
        ensures value { segment_of from.now to.now ≡ Some result }
    {
        Segment {
            from: *from,
            to: *to,
            dir: self.dir,
        }
    }

    /// The direction from the lesser end to the greater one.
    pub fn dir(&self) -> Dir
        ensures value { dir_number result ≡ direction_number self.now }
        ensures along { GoesAlong (dir_number result) (lesser_end self.now) (greater_end self.now) }
    {
        self.dir
    }
}

impl Ord for Segment {
    ghost use Rattle.std.specs.Prelude.{refl};
    ghost use Rattle.plane_geometry.specs.Order.{compare_segments};
    ghost use Rattle.plane_geometry.specs.OrderLaws.{compare_segments_total, segment_eq_is};

    ghost cmp = { compare_segments };

    ghost total = { compare_segments_total };

    ghost matches_partial_cmp = { λ _ _. refl };

    ghost matches_eq = { segment_eq_is };

    fn cmp(&self, other: &Segment) -> Ordering {
        match self.from.cmp(&other.from) {
            Ordering::Equal => self.to.cmp(&other.to),
            decided => decided,
        }
    }
}

impl PartialOrd for Segment {
    ghost use Rattle.std.specs.Ordering.{as_partial_cmp};
    ghost use Rattle.std.specs.Prelude.{refl};
    ghost use Rattle.std.specs.Cmp.{partial_order_from_agreeing_total};
    ghost use Rattle.plane_geometry.specs.Order.{compare_segments};
    ghost use Rattle.plane_geometry.specs.OrderLaws.{compare_segments_total, segment_eq_is};

    ghost partial_cmp = { as_partial_cmp compare_segments };

    ghost laws = { partial_order_from_agreeing_total compare_segments compare_segments_total
        (λ _ _. refl) segment_eq_is };

    fn partial_cmp(&self, other: &Segment) -> Option<Ordering> {
        Some(self.cmp(other))
    }
}

impl Line {
    ghost use Rattle.std.specs.Prelude.{◌%◌, ◌*◌, ◌^◌};
    ghost use Rattle.surd_number.specs.Number.{FitsOver};
    ghost use Rattle.surd_number.specs.Value.{wide_number_of};
    ghost use Rattle.plane_geometry.specs.Position.{Position};
    ghost use Rattle.plane_geometry.specs.LineStored.{IsOffsetAt};
    ghost use Rattle.plane_geometry.specs.Direction.{side_of};
    ghost use Rattle.plane_geometry.specs.DirView.{dir_number};
    ghost use Rattle.plane_geometry.specs.LineView.{line_number, line_offset, side_of_line};

    /// The line through a point in a direction, taken modulo 8.
    pub fn through(p: &Point, d: Dir) -> Line
        ensures number { line_number result ≡ dir_number d % 8 }
        ensures offset { IsOffsetAt (line_number result) (line_offset result) p.now }
        ensures sides { (q : Position) →
            side_of_line result q ≡ side_of (position_of p.now) (line_number result) q }
    {
        let dir = Dir {
            number: d.number % 8,
        };
        Line {
            direction: dir.number,
            offset: cross_at(dir, p),
        }
    }

    /// The direction, 0 to 7.
    pub fn number(&self) -> u8
        ensures { result ≡ line_number self.now }
    {
        self.direction
    }

    /// The cross product of the direction with any point of the line.
    pub fn offset(&self) -> Wide
        ensures value { result ≡ line_offset self.now }
        ensures fits { FitsOver (6 * 2 ^ 52) 16 (wide_number_of result) }
    {
        self.offset
    }

    /// The direction.
    pub(crate) fn dir(&self) -> Dir
        ensures { dir_number result ≡ line_number self.now }
    {
        Dir {
            number: self.direction,
        }
    }
}

impl Ord for Line {
    ghost use Rattle.std.specs.Prelude.{refl};
    ghost use Rattle.plane_geometry.specs.Order.{compare_lines};
    ghost use Rattle.plane_geometry.specs.OrderLaws.{compare_lines_total, line_eq_is};

    ghost cmp = { compare_lines };

    ghost total = { compare_lines_total };

    ghost matches_partial_cmp = { λ _ _. refl };

    ghost matches_eq = { line_eq_is };

    fn cmp(&self, other: &Line) -> Ordering {
        self.direction
            .cmp(&other.direction)
            .then(self.offset.cmp(&other.offset))
    }
}

impl PartialOrd for Line {
    ghost use Rattle.std.specs.Ordering.{as_partial_cmp};
    ghost use Rattle.std.specs.Prelude.{refl};
    ghost use Rattle.std.specs.Cmp.{partial_order_from_agreeing_total};
    ghost use Rattle.plane_geometry.specs.Order.{compare_lines};
    ghost use Rattle.plane_geometry.specs.OrderLaws.{compare_lines_total, line_eq_is};

    ghost partial_cmp = { as_partial_cmp compare_lines };

    ghost laws = { partial_order_from_agreeing_total compare_lines compare_lines_total
        (λ _ _. refl) line_eq_is };

    fn partial_cmp(&self, other: &Line) -> Option<Ordering> {
        Some(self.cmp(other))
    }
}
