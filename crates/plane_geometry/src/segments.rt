//! Which points are on a segment, and what two segments have in common.

ghost use Rattle.std.specs.Prelude.{◌≡◌, ◌↔◌, IsTrue};
ghost use Rattle.plane_geometry.specs.Position.{position_of};
ghost use Rattle.plane_geometry.specs.Stretch.{is_apart, is_between, is_end, is_on, is_parted, is_crossing, is_touching, ends_at_ends, has_same_ends, meets_at_ends, is_overlapping, ShareAPoint, MeetAtEnds, ShareTwoPoints};
ghost use Rattle.plane_geometry.specs.Common.{is_parallel};
ghost use Rattle.plane_geometry.specs.SegmentView.{stretch_of};

use crate::sides::{is_before, is_same, on_line, side_from, to_left, to_right};
use crate::{Point, Segment};

/// Whether the point is an end of the segment.
fn at_end(p: &Point, s: &Segment) -> bool
    ensures { result ≡ is_end (position_of p.now) (stretch_of s.now) }
{
    is_same(p, &s.from) || is_same(p, &s.to)
}

/// Whether the point is strictly between the ends of the segment.
pub fn between_ends(p: &Point, s: &Segment) -> bool
    ensures { result ≡ is_between (position_of p.now) (stretch_of s.now) }
{
    on_line(side_from(&s.from, s.dir, p)) && (is_before(&s.from, p) && is_before(p, &s.to))
}

/// Whether the point is on the segment: strictly between the ends, or an end.
pub fn on_segment(p: &Point, s: &Segment) -> bool
    ensures { result ≡ is_on (position_of p.now) (stretch_of s.now) }
{
    at_end(p, s) || between_ends(p, s)
}

/// Whether the segments have the same direction, or opposite ones.
pub fn parallel(s: &Segment, u: &Segment) -> bool
    ensures { result ≡ is_parallel (stretch_of s.now) (stretch_of u.now) }
{
    s.dir.number % 8 == u.dir.number % 8
}

/// Whether `p` and `q` are strictly on different sides of the line of the segment.
fn parted(p: &Point, q: &Point, s: &Segment) -> bool
    ensures { result ≡ is_parted (position_of p.now) (position_of q.now) (stretch_of s.now) }
{
    let p_side = side_from(&s.from, s.dir, p);
    let q_side = side_from(&s.from, s.dir, q);
    (to_left(p_side) && to_right(q_side)) || (to_right(p_side) && to_left(q_side))
}

/// Whether each of the segments passes from one side of the other to its other side.
fn crossing(s: &Segment, u: &Segment) -> bool
    ensures { result ≡ is_crossing (stretch_of s.now) (stretch_of u.now) }
{
    parted(&u.from, &u.to, s) && parted(&s.from, &s.to, u)
}

/// Whether one segment ends before the other begins, in the order of points.
fn apart(s: &Segment, u: &Segment) -> bool
    ensures { result ≡ is_apart (stretch_of s.now) (stretch_of u.now) }
{
    is_before(&s.to, &u.from) || is_before(&u.to, &s.from)
}

/// Whether an end of one segment is on the other, or they cross.
fn touching(s: &Segment, u: &Segment) -> bool
    ensures { result ≡ is_touching (stretch_of s.now) (stretch_of u.now) }
{
    // Most pairs are told by this alone, without a side.
    if apart(s, u) {
        return false;
    }
    (on_segment(&s.from, u) || on_segment(&s.to, u))
        || ((on_segment(&u.from, s) || on_segment(&u.to, s)) || crossing(s, u))
}

/// Whether some point of the plane is on both segments.
pub fn share_point(s: &Segment, u: &Segment) -> bool
    ensures value { result ≡ is_touching (stretch_of s.now) (stretch_of u.now) }
    ensures common { IsTrue result ↔ ShareAPoint (stretch_of s.now) (stretch_of u.now) }
{
    touching(s, u)
}

/// Whether an end of `s` that is on `u` is an end of `u`.
fn ends_on_ends(s: &Segment, u: &Segment) -> bool
    ensures { result ≡ ends_at_ends (stretch_of s.now) (stretch_of u.now) }
{
    (!on_segment(&s.from, u) || at_end(&s.from, u)) && (!on_segment(&s.to, u) || at_end(&s.to, u))
}

/// Whether both ends of `s` are ends of `u`.
fn same_ends(s: &Segment, u: &Segment) -> bool
    ensures { result ≡ has_same_ends (stretch_of s.now) (stretch_of u.now) }
{
    at_end(&s.from, u) && at_end(&s.to, u)
}

/// Whether the segments neither cross nor have the same ends, and an end of one that is on the other is an end of it.
fn apart_but_ends(s: &Segment, u: &Segment) -> bool
    ensures { result ≡ meets_at_ends (stretch_of s.now) (stretch_of u.now) }
{
    !crossing(s, u) && (!same_ends(s, u) && (ends_on_ends(s, u) && ends_on_ends(u, s)))
}

/// Whether each point of the plane that is on both segments is an end of both.
pub fn meets_at_ends(s: &Segment, u: &Segment) -> bool
    ensures value { result ≡ meets_at_ends (stretch_of s.now) (stretch_of u.now) }
    ensures common { IsTrue result ↔ MeetAtEnds (stretch_of s.now) (stretch_of u.now) }
{
    apart_but_ends(s, u)
}

/// Whether the segments are on one line, and each begins before the other ends.
fn overlapping(s: &Segment, u: &Segment) -> bool
    ensures { result ≡ is_overlapping (stretch_of s.now) (stretch_of u.now) }
{
    (on_line(side_from(&s.from, s.dir, &u.from)) && on_line(side_from(&s.from, s.dir, &u.to)))
        && (is_before(&s.from, &u.to) && is_before(&u.from, &s.to))
}

/// Whether the segments have a part of positive length in common: two different points of the plane are on both.
pub fn overlaps(s: &Segment, u: &Segment) -> bool
    ensures value { result ≡ is_overlapping (stretch_of s.now) (stretch_of u.now) }
    ensures common { IsTrue result ↔ ShareTwoPoints (stretch_of s.now) (stretch_of u.now) }
{
    overlapping(s, u)
}
