//! Laws of the definitions that the other contracts cite. Each is the contract of a function that does nothing.

ghost use Rattle.std.specs.Prelude.{◌≡◌, ℕ, ◌+◌, ◌<◌, ◌↔◌, IsTrue};
ghost use Rattle.std.specs.declared.cmp.Ordering.TheVariants.{Equal};
ghost use Rattle.surd_number.specs.Number.{IsSame, unit_of};
ghost use Rattle.plane_geometry.specs.declared.Point.{Point};
ghost use Rattle.plane_geometry.specs.declared.Line.{Line};
ghost use Rattle.plane_geometry.specs.declared.Segment.{Segment};
ghost use Rattle.plane_geometry.specs.Position.{Position, position_of, is_same_position, opposite_of, cross_of};
ghost use Rattle.plane_geometry.specs.Direction.{direction_vector, is_along};
ghost use Rattle.plane_geometry.specs.CrossTable.{cross_tangents, cross_roots};
ghost use Rattle.plane_geometry.specs.LineView.{HaveSamePoints};
ghost use Rattle.plane_geometry.specs.Multiple.{IsPositiveMultiple};
ghost use Rattle.plane_geometry.specs.Order.{compare_segments, compare_lines};
ghost use Rattle.plane_geometry.specs.Ends.{HasEnds};
ghost use Rattle.plane_geometry.specs.SegmentView.{lesser_end, greater_end};

/// From one point to another it goes in a direction exactly where their difference is a positive multiple of it.
pub fn directions_are_positive_multiples()
    ensures { (n : ℕ) (p q : Position) → IsTrue (is_along n p q) ↔ IsPositiveMultiple n p q }
{}

/// Direction `n + 8` is opposite to direction n.
pub fn directions_have_opposites()
    ensures { (n : ℕ) → n < 8 → direction_vector (n + 8) ≡ opposite_of (direction_vector n) }
{}

/// Of the 16 directions, it goes in one at most from one point to another.
pub fn directions_are_unique()
    ensures { (m n : ℕ) (p q : Position) → m < 16 → n < 16 →
        IsTrue (is_along m p q) → IsTrue (is_along n p q) → m ≡ n }
{}

/// The cross product of a direction below 8 with a later one is a power of `sqrt 2 - 1` times a power of `sqrt 2`.
pub fn cross_products_are_units()
    ensures { (m n : ℕ) → m < n → n < 8 →
        IsSame (cross_of (direction_vector m) (direction_vector n)) (unit_of (cross_tangents m n) (cross_roots m n)) }
{}

/// Lines are equal, and their order ties them, exactly where they have the same points of the plane.
pub fn lines_are_their_points()
    ensures equal { (l m : Line) → (l ≡ m) ↔ HaveSamePoints l m }
    ensures tied { (l m : Line) → (compare_lines l m ≡ Equal) ↔ HaveSamePoints l m }
{}

/// Points are equal exactly where they are one place of the plane, by x and by y.
pub fn points_are_their_places()
    ensures { (p q : Point) → (p ≡ q) ↔ IsTrue (is_same_position (position_of p) (position_of q)) }
{}

/// Segments are equal, and their order ties them, exactly where they have the same ends.
pub fn segments_are_their_ends()
    ensures equal { (s u : Segment) → (s ≡ u) ↔ HasEnds s (lesser_end u) (greater_end u) }
    ensures tied { (s u : Segment)
        → (compare_segments s u ≡ Equal) ↔ HasEnds s (lesser_end u) (greater_end u) }
{}
