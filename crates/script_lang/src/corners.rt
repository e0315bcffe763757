//! The corners of a sheet to make.

ghost use Rattle.std.specs.Prelude.{◌≡◌, ◌≤◌, length};

use plane_geometry::Point;
use std::marker::Model;

/// The corners of a sheet to make, 3 to 16, seen as a list of points.
#[derive(Debug, Drop)]
pub struct Corners {
    list: Vec<Point>,
}

impl Model for Corners {
    ghost use Rattle.std.specs.Prelude.{List, ◌≤◌, length};
    ghost use Rattle.plane_geometry.specs.declared.Point.{Point};

    ghost Value = { List Point };

    ghost view = { λ c. c.list.items };

    ghost invariant = { λ c. (3 ≤ length c.list.items) × (length c.list.items ≤ 16) };
}

impl Corners {
    pub fn of(points: Vec<Point>) -> Corners
        requires least { 3 ≤ length points.items }
        requires most { length points.items ≤ 16 }
        ensures { result ≡ points.items }
    {
        Corners { list: points }
    }

    pub fn as_slice(&self) -> &[Point]
        ensures points { result.now ≡ self.now }
        ensures least { 3 ≤ length self.now }
        ensures most { length self.now ≤ 16 }
    {
        self.list.as_slice()
    }
}
