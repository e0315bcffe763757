//! Lines that bound a region, each kept with what a test of pairs multiplies.

ghost use Rattle.std.specs.Prelude.{◌≡◌, ◌↔◌, ◌*◌, ◌%◌, ◌^◌, ◌<◌, ◌≤◌, IsTrue};
ghost use Rattle.surd_number.specs.Number.{IsLess, product_of, FitsOver};
ghost use Rattle.surd_number.specs.Exact.{IsWideOf};
ghost use Rattle.surd_number.specs.Value.{wide_number_of};
ghost use Rattle.plane_geometry.specs.Position.{position_of};
ghost use Rattle.plane_geometry.specs.Direction.{direction_vector};
ghost use Rattle.plane_geometry.specs.DirView.{dir_number};
ghost use Rattle.open_region.specs.Stored.{IsEdge};

use plane_geometry::{Dir, Line, Point};
use surd_number::{Sgn, Wide};

/// The line of an edge: the cross product of its direction, 0 to 7, with its points, and that times
/// `sqrt 2 - 1`, which a test of pairs would multiply else.
#[derive(Clone, Copy, Debug)]
pub(crate) struct Edge {
    offset: Wide,
    scaled: Wide,
    ghost sound: { ∥ IsEdge (wide_number_of offset) (wide_number_of scaled) ∥₁ },
}

/// Whether `m` is less than `n`.
pub(crate) fn is_less(m: &Wide, n: &Wide) -> bool
    requires m_fits { FitsOver (2 ^ 62) 19 (wide_number_of m.now) }
    requires n_fits { FitsOver (2 ^ 62) 19 (wide_number_of n.now) }
    ensures { IsTrue result ↔ IsLess (wide_number_of m.now) (wide_number_of n.now) }
{
    match m.minus(n).sgn() {
        Sgn::Neg => true,
        Sgn::Zero => false,
        Sgn::Pos => false,
    }
}

/// The direction of this number.
pub(crate) fn numbered(n: u8) -> Dir
    requires { n < 16 }
    ensures { dir_number result ≡ n }
{
    match Dir::new(n) {
        Some(d) => d,
        None => unreachable!(),
    }
}

impl Edge {
    ghost use Rattle.open_region.specs.EdgeView.{line_offset_of};
    ghost use Rattle.open_region.specs.Region.{IsLeftOfEdge, IsTighter, IsOffsetFrom};

    /// The edge of the line through `p` in direction `d`.
    pub(crate) fn through(d: Dir, p: &Point) -> Edge
        ensures { IsOffsetFrom (dir_number d) result (position_of p.now) }
    {
        let offset = Line::through(p, d).offset();
        Edge {
            offset,
            scaled: offset.times_unit(1, 0),
        }
    }

    /// The cross product of the line's direction, 0 to 7, with its points.
    pub(crate) fn offset(&self) -> &Wide
        ensures value { wide_number_of result.now ≡ line_offset_of self.now }
        ensures fits { FitsOver (6 * 2 ^ 52) 16 (wide_number_of result.now) }
    {
        &self.offset
    }

    /// The offset times the second coordinate of direction `k`.
    pub(crate) fn risen(&self, k: u8) -> &Wide
        requires rises { 1 ≤ k }
        requires few { k < 8 }
        ensures value { IsWideOf result.now (product_of (direction_vector k).y (line_offset_of self.now)) }
        ensures fits { FitsOver (18 * 2 ^ 52) 16 (wide_number_of result.now) }
    {
        // Only the directions 1 and 7 rise by less than they would at 45 degrees.
        if k < 2 {
            &self.scaled
        } else if k < 7 {
            &self.offset
        } else {
            &self.scaled
        }
    }

    /// Whether less is strictly left of this line than of the other, both taken in direction `n`.
    pub(crate) fn is_tighter(&self, n: u8, other: &Edge) -> bool
        ensures { IsTrue result ↔ IsTighter n self.now other.now }
    {
        if n < 8 {
            is_less(&other.offset, &self.offset)
        } else {
            is_less(&self.offset, &other.offset)
        }
    }

    /// Whether something is strictly left of this line and strictly right of the other, in one direction 0 to 7.
    pub(crate) fn leaves_room(&self, other: &Edge) -> bool
        ensures { IsTrue result ↔ IsLess (line_offset_of self.now) (line_offset_of other.now) }
    {
        is_less(&self.offset, &other.offset)
    }

    /// Whether the point is strictly left of the line, taken in direction `n`.
    pub(crate) fn admits(&self, n: u8, p: &Point) -> bool
        requires { n < 16 }
        ensures { IsTrue result ↔ IsLeftOfEdge (position_of p.now) n self.now }
    {
        Edge::through(numbered(n), p).is_tighter(n, self)
    }
}
