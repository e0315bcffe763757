//! Sides of lines.

ghost use Rattle.std.specs.Prelude.{◌≡◌};
ghost use Rattle.plane_geometry.specs.Position.{position_of};
ghost use Rattle.plane_geometry.specs.LineView.{side_of_line};

use crate::sides::cross_at;
use crate::{Line, Point};
use surd_number::Sgn;

/// On which side of the line the point is: Pos is strictly left, seen in the line's direction.
pub fn side(line: &Line, p: &Point) -> Sgn
    ensures { result ≡ side_of_line line.now (position_of p.now) }
{
    cross_at(line.dir(), p).minus(&line.offset).sgn()
}
