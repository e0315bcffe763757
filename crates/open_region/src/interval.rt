//! The numbers strictly between two limits, and how bounds narrow them.

ghost use Rattle.std.specs.Prelude.{◌≡◌, ◌↔◌, ◌+◌, ◌*◌, ◌%◌, ◌^◌, ◌<◌, ◌≤◌, IsTrue};
ghost use Rattle.surd_number.specs.Number.{Number, IsSame, IsLess, difference_of, product_of, unit_inverse_of, FitsOver};
ghost use Rattle.surd_number.specs.Value.{wide_number_of};
ghost use Rattle.plane_geometry.specs.Position.{position_of, cross_of};
ghost use Rattle.plane_geometry.specs.Direction.{direction_vector};
ghost use Rattle.open_region.specs.Stored.{IsLimit};
ghost use Rattle.open_region.specs.Bound.{HoldsAt, turn_bound};

use crate::edge::{Edge, is_less, numbered};
use plane_geometry::{Point, Segment, cross_unit};
use surd_number::Wide;

/// An end of an interval.
#[derive(Clone, Copy)]
pub(crate) struct Limit {
    value: Wide,
    ghost fits: { ∥ IsLimit (wide_number_of value) ∥₁ },
}

/// The numbers above the lower limit and below the upper one, where they are there; none where it is closed.
#[derive(Clone, Copy)]
pub(crate) struct Interval {
    lower: Option<Limit>,
    upper: Option<Limit>,
    closed: bool,
}

impl Limit {
    ghost use Rattle.open_region.specs.EdgeView.{limit_of};

    /// `(m - n) / (t^i * (sqrt 2)^j)`, where t is `sqrt 2 - 1`.
    fn quotient(m: &Wide, n: &Wide, i: u8, j: u8) -> Limit
        requires m_fits { FitsOver (18 * 2 ^ 52) 16 (wide_number_of m.now) }
        requires n_fits { FitsOver (18 * 2 ^ 52) 16 (wide_number_of n.now) }
        requires few { i ≤ 1 }
        requires few_roots { j ≤ 3 }
        ensures { IsSame (limit_of result)
            (product_of (difference_of (wide_number_of m.now) (wide_number_of n.now)) (unit_inverse_of i j)) }
    {
        Limit {
            value: m.minus(n).over_unit(i, j),
        }
    }

    /// Whether this limit is less than the other.
    fn is_below(&self, other: &Limit) -> bool
        ensures { IsTrue result ↔ IsLess (limit_of self.now) (limit_of other.now) }
    {
        is_less(&self.value, &other.value)
    }

    /// The greater of two limits.
    fn greater(self, other: Limit) -> Limit
        ensures { (y : Number) → IsLess (limit_of result) y ↔
            (IsLess (limit_of self) y × IsLess (limit_of other) y) }
    {
        if self.is_below(&other) { other } else { self }
    }

    /// The lesser of two limits.
    fn lesser(self, other: Limit) -> Limit
        ensures { (y : Number) → IsLess y (limit_of result) ↔
            (IsLess y (limit_of self) × IsLess y (limit_of other)) }
    {
        if self.is_below(&other) { self } else { other }
    }
}

impl Interval {
    ghost use Rattle.open_region.specs.EdgeView.{limit_of};
    ghost use Rattle.open_region.specs.Interval.{IsInInterval};
    ghost use Rattle.open_region.specs.Region.{IsLeftOfEdge};
    ghost use Rattle.open_region.specs.Strip.{point_along, IsBetweenEnds};

    /// All numbers.
    pub(crate) fn whole() -> Interval
        ensures { (y : Number) → IsInInterval y result }
    {
        Interval {
            lower: None,
            upper: None,
            closed: false,
        }
    }

    /// Whether some number is in it.
    pub(crate) fn has_number(&self) -> bool
        ensures { IsTrue result ↔ ((y : Number) × IsInInterval y self.now) }
    {
        if self.closed {
            return false;
        }
        match &self.lower {
            None => true,
            Some(lower) => match &self.upper {
                None => true,
                Some(upper) => lower.is_below(upper),
            },
        }
    }

    /// Its part above a limit.
    fn above(self, limit: Limit) -> Interval
        ensures { (y : Number) → IsInInterval y result ↔ (IsInInterval y self × IsLess (limit_of limit) y) }
    {
        let lower = match self.lower {
            None => limit,
            Some(lower) => lower.greater(limit),
        };
        Interval {
            lower: Some(lower),
            upper: self.upper,
            closed: self.closed,
        }
    }

    /// Its part below a limit.
    fn below(self, limit: Limit) -> Interval
        ensures { (y : Number) → IsInInterval y result ↔ (IsInInterval y self × IsLess y (limit_of limit)) }
    {
        let upper = match self.upper {
            None => limit,
            Some(upper) => upper.lesser(limit),
        };
        Interval {
            lower: self.lower,
            upper: Some(upper),
            closed: self.closed,
        }
    }

    /// The whole of it, or nothing.
    fn kept(self, keep: bool) -> Interval
        ensures { (y : Number) → IsInInterval y result ↔ (IsInInterval y self × IsTrue keep) }
    {
        Interval {
            lower: self.lower,
            upper: self.upper,
            closed: self.closed || !keep,
        }
    }

    /// Its part where `first - second` is less than `y` times the cross product of directions `m` and `n`.
    pub(crate) fn narrowed(self, m: u8, n: u8, first: &Wide, second: &Wide) -> Interval
        requires few { m < 8 }
        requires few_others { n < 8 }
        requires first_fits { FitsOver (18 * 2 ^ 52) 16 (wide_number_of first.now) }
        requires second_fits { FitsOver (18 * 2 ^ 52) 16 (wide_number_of second.now) }
        ensures { (y : Number) → IsInInterval y result ↔
            (IsInInterval y self
            × HoldsAt y (turn_bound m n (wide_number_of first.now) (wide_number_of second.now))) }
    {
        if m < n {
            let (i, j) = cross_unit(m, n);
            self.above(Limit::quotient(first, second, i, j))
        } else if n < m {
            let (i, j) = cross_unit(n, m);
            self.below(Limit::quotient(second, first, i, j))
        } else {
            self.kept(is_less(first, second))
        }
    }

    /// Those `z` for which the point `q + z * e` is strictly left of the line of the edge, taken in direction
    /// `n`, for direction `along` as e.
    pub(crate) fn cut(self, n: u8, edge: &Edge, along: u8, q: &Point) -> Interval
        requires few { n < 16 }
        requires few_along { along < 8 }
        ensures { (z : Number) → IsInInterval z result ↔
            (IsInInterval z self × IsLeftOfEdge (point_along (position_of q.now) along z) n edge.now) }
    {
        let through = Edge::through(numbered(n), q);
        if n < 8 {
            self.narrowed(n, along, edge.offset(), through.offset())
        } else {
            self.narrowed(along, n - 8, through.offset(), edge.offset())
        }
    }

    /// Those `z` for which the point `from + z * e` is strictly between the ends of the segment, for its direction
    /// modulo 8 as e.
    pub(crate) fn between_ends(s: &Segment) -> Interval
        ensures { (z : Number) → IsInInterval z result ↔ IsBetweenEnds s.now z }
    {
        let number = s.dir().number();
        let along = number % 8;
        let right = (number + 12) % 16;
        let left = (number + 4) % 16;
        Interval::whole()
            .cut(
                right,
                &Edge::through(numbered(right), s.from()),
                along,
                s.from(),
            )
            .cut(
                left,
                &Edge::through(numbered(left), s.to()),
                along,
                s.from(),
            )
    }
}
