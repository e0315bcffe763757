//! Open regions of the plane: what is strictly left of lines in the 16 directions, and whether any point is.
#![tactic(auto)]

mod edge;
mod interval;
pub mod laws;

ghost use Rattle.std.specs.Prelude.{◌≡◌, ◌↔◌, ◌<◌, ◌≤◌, MatchOption, IsTrue};
ghost use Rattle.plane_geometry.specs.Position.{Position, position_of};
ghost use Rattle.plane_geometry.specs.DirView.{dir_number};
ghost use Rattle.plane_geometry.specs.Polygon.{has_direction, have_directions, is_left_of, is_in_polygon};

use edge::Edge;
use interval::Interval;
use plane_geometry::{Dir, Point, Segment, direction, next_corner};
use surd_number::Surd;

/// For each of the 16 directions at most one line. It means the points strictly left of all its lines.
#[derive(Clone, Copy, Debug)]
pub struct Region {
    edges: [Option<Edge>; 16],
}

/// The direction of the y axis.
const UPWARDS: u8 = 4;

impl Region {
    ghost use Rattle.surd_number.specs.Number.{Number};
    ghost use Rattle.open_region.specs.EdgeView.{line_offset_of};
    ghost use Rattle.open_region.specs.Interval.{IsInInterval};
    ghost use Rattle.open_region.specs.Region.{edge_at, IsLeftOf, IsLeftOfEdge, IsLeftOfLine, IsTighter, IsInRegion, HasPoint, HasPointBetween, IsHeight, LeavesNothing, LeaveNothing, AreApart};
    ghost use Rattle.open_region.specs.Strip.{point_along, IsLevel, IsCrossed, HoldsAcross, HoldsAcrossAll};

    /// The whole plane.
    pub fn whole() -> Region
        ensures { (q : Position) → IsInRegion q result }
    {
        Region { edges: [None; 16] }
    }

    /// What is strictly inside a convex polygon, given by its corners counterclockwise.
    pub fn of_polygon(corners: &[Point]) -> Region
        requires { IsTrue (have_directions corners.now) }
        ensures { (q : Position) → IsInRegion q result ↔ IsTrue (is_in_polygon corners.now q) }
    {
        let mut region = Region::whole();
        for (i, corner) in corners.iter().enumerate() {
            region.narrow_to_side(corner, next_corner(corners, i));
        }
        region
    }

    /// The part strictly left of the line through `p` in direction `d`.
    pub fn cut(&self, p: &Point, d: Dir) -> Region
        ensures { (q : Position) → IsInRegion q result ↔
            (IsInRegion q self.now × IsLeftOf q (position_of p.now) (dir_number d)) }
    {
        let mut region = *self;
        region.narrow_to_line(p, d);
        region
    }

    /// What both have in common.
    pub fn both(&self, other: &Region) -> Region
        ensures { (q : Position) → IsInRegion q result ↔ (IsInRegion q self.now × IsInRegion q other.now) }
    {
        let mut region = *self;
        for n in 0..16 {
            region.narrow_by(n, other);
        }
        region
    }

    /// Whether some point of the plane is in the region.
    pub fn is_open_nonempty(&self) -> bool
        ensures { IsTrue result ↔ HasPoint self.now }
    {
        self.heights().has_number()
    }

    /// Whether in some direction a line of one region and the opposite line of the other leave nothing between them, so
    /// that no point is in both. It compares offsets alone; regions without a common point need not have such lines.
    pub fn is_apart(&self, other: &Region) -> bool
        ensures lines { IsTrue result ↔ AreApart self.now other.now }
        ensures apart { IsTrue result → (q : Position) → IsInRegion q self.now → ¬ IsInRegion q other.now }
    {
        for n in 0..8 {
            if self.leaves_nothing(n, other) || other.leaves_nothing(n, self) {
                return true;
            }
        }
        false
    }

    /// Whether the point is in the region.
    pub fn holds(&self, p: &Point) -> bool
        ensures { IsTrue result ↔ IsInRegion (position_of p.now) self.now }
    {
        for n in 0..16 {
            if !self.admits(n, p) {
                return false;
            }
        }
        true
    }

    /// Whether some point strictly between the ends of the segment is in the region.
    pub fn segment_enters(&self, s: &Segment) -> bool
        ensures { IsTrue result ↔ HasPointBetween self.now s.now }
    {
        self.along(Interval::between_ends(s), s.from(), s.dir().number() % 8)
            .has_number()
    }

    /// Keeps what is strictly left of the line in direction `n` of the edge.
    fn narrow(&mut self, n: u8, edge: &Edge)
        requires { n < 16 }
        ensures { (q : Position) → IsInRegion q self.new ↔
            (IsInRegion q self.old × IsLeftOfEdge q n edge.now) }
    {
        if self.is_tightened(n, edge) {
            self.edges[n as usize] = Some(*edge);
        }
    }

    /// Whether the region has no line in direction `n`, or the edge leaves less.
    fn is_tightened(&self, n: u8, edge: &Edge) -> bool
        requires { n < 16 }
        ensures { MatchOption (edge_at self.now n) (IsTrue result)
            (λ old. IsTrue result ↔ IsTighter n edge.now old) }
    {
        match &self.edges[n as usize] {
            None => true,
            Some(old) => edge.is_tighter(n, old),
        }
    }

    /// Keeps what is strictly left of the line through `p` in direction `d`.
    fn narrow_to_line(&mut self, p: &Point, d: Dir)
        ensures { (q : Position) → IsInRegion q self.new ↔
            (IsInRegion q self.old × IsLeftOf q (position_of p.now) (dir_number d)) }
    {
        self.narrow(d.number(), &Edge::through(d, p));
    }

    /// Keeps what is strictly left of a side of a polygon.
    fn narrow_to_side(&mut self, start: &Point, end: &Point)
        requires { IsTrue (has_direction (record { start = start.now; end = end.now })) }
        ensures { (q : Position) → IsInRegion q self.new ↔
            (IsInRegion q self.old × IsTrue (is_left_of q (record { start = start.now; end = end.now }))) }
    {
        match direction(start, end) {
            Some(d) => self.narrow_to_line(start, d),
            None => unreachable!(),
        }
    }

    /// Keeps what is strictly left of the line in direction `n` of the other region, if it has one.
    fn narrow_by(&mut self, n: u8, other: &Region)
        requires { n < 16 }
        ensures { (q : Position) → IsInRegion q self.new ↔
            (IsInRegion q self.old × IsLeftOfLine q other.now n) }
    {
        match &other.edges[n as usize] {
            None => {}
            Some(edge) => self.narrow(n, edge),
        }
    }

    /// Whether the line in direction `n` and the other region's opposite line leave nothing between them.
    fn leaves_nothing(&self, n: u8, other: &Region) -> bool
        requires { n < 8 }
        ensures { IsTrue result ↔ LeaveNothing self.now other.now n }
    {
        match &self.edges[n as usize] {
            None => false,
            Some(right) => other.ends_before(n, right),
        }
    }

    /// Whether the line opposite to direction `n` leaves nothing beside an edge in direction `n`.
    fn ends_before(&self, n: u8, right: &Edge) -> bool
        requires { n < 8 }
        ensures { IsTrue result ↔ LeavesNothing self.now n right.now }
    {
        match &self.edges[(n + 8) as usize] {
            None => false,
            Some(left) => !right.leaves_room(left),
        }
    }

    /// Whether the point is strictly left of the line in direction `n`, if there is one.
    fn admits(&self, n: u8, p: &Point) -> bool
        requires { n < 16 }
        ensures { IsTrue result ↔ IsLeftOfLine (position_of p.now) self.now n }
    {
        match &self.edges[n as usize] {
            None => true,
            Some(edge) => edge.admits(n, p),
        }
    }

    /// Those `z` of the interval for which the point `q + z * e` is in the region, for direction `along` as e.
    fn along(&self, interval: Interval, q: &Point, along: u8) -> Interval
        requires { along < 8 }
        ensures { (z : Number) → IsInInterval z result ↔
            (IsInInterval z interval × IsInRegion (point_along (position_of q.now) along z) self.now) }
    {
        let mut interval = interval;
        for n in 0..16 {
            interval = self.along_edge(interval, n, q, along);
        }
        interval
    }

    /// The same for the line in direction `n` alone.
    fn along_edge(&self, interval: Interval, n: u8, q: &Point, along: u8) -> Interval
        requires few { n < 16 }
        requires few_along { along < 8 }
        ensures { (z : Number) → IsInInterval z result ↔
            (IsInInterval z interval × IsLeftOfLine (point_along (position_of q.now) along z) self.now n) }
    {
        match &self.edges[n as usize] {
            None => interval,
            Some(edge) => interval.cut(n, edge, along, q),
        }
    }

    /// The heights of the points of the region.
    fn heights(&self) -> Interval
        ensures { (y : Number) → IsInInterval y result ↔ IsHeight self.now y }
    {
        let mut heights = self.level();
        for n in 1..8 {
            heights = self.crossed(heights, n);
        }
        heights
    }

    /// The heights between the horizontal lines.
    fn level(&self) -> Interval
        ensures { (y : Number) → IsInInterval y result ↔ IsLevel self.now y }
    {
        let origin = Point {
            x: Surd::whole(0),
            y: Surd::whole(0),
        };
        let above = self.along_edge(Interval::whole(), 0, &origin, UPWARDS);
        self.along_edge(above, 8, &origin, UPWARDS)
    }

    /// Those heights at which the line in direction `n` leaves room for each in directions 9 to 15.
    fn crossed(&self, heights: Interval, n: u8) -> Interval
        requires rises { 1 ≤ n }
        requires few { n < 8 }
        ensures { (y : Number) → IsInInterval y result ↔ (IsInInterval y heights × IsCrossed self.now n y) }
    {
        match &self.edges[n as usize] {
            None => heights,
            Some(right) => self.crossed_by(heights, n, right),
        }
    }

    /// The same for an edge in direction `n`.
    fn crossed_by(&self, heights: Interval, n: u8, right: &Edge) -> Interval
        requires rises { 1 ≤ n }
        requires few { n < 8 }
        ensures { (y : Number) → IsInInterval y result ↔
            (IsInInterval y heights × HoldsAcrossAll self.now n (line_offset_of right.now) y) }
    {
        let mut heights = heights;
        for k in 1..8 {
            heights = self.crossed_at(heights, n, right, k);
        }
        heights
    }

    /// The same for the line in direction `k + 8` alone.
    fn crossed_at(&self, heights: Interval, n: u8, right: &Edge, k: u8) -> Interval
        requires rises { 1 ≤ n }
        requires few { n < 8 }
        requires falls { 1 ≤ k }
        requires few_falls { k < 8 }
        ensures { (y : Number) → IsInInterval y result ↔
            (IsInInterval y heights × HoldsAcross self.now n (line_offset_of right.now) k y) }
    {
        match &self.edges[(k + 8) as usize] {
            None => heights,
            Some(left) => heights.narrowed(n, k, right.risen(k), left.risen(n)),
        }
    }
}
