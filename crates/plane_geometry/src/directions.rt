//! The direction from one point to another.

ghost use Rattle.std.specs.Prelude.{◌≡◌, ◌<◌, ◌↔◌, IsNone, MatchOption};
ghost use Rattle.std.specs.Option.{option_map};
ghost use Rattle.plane_geometry.specs.declared.Dir.{Dir};
ghost use Rattle.plane_geometry.specs.Position.{position_of};
ghost use Rattle.plane_geometry.specs.Direction.{direction_of};
ghost use Rattle.plane_geometry.specs.Ends.{GoesAlong, HasNoDirection};
ghost use Rattle.plane_geometry.specs.DirView.{dir_number};

use crate::sides::goes_along;
use crate::{Dir, Point};

/// The first of the 16 directions in which it goes from `p` to `q`.
fn first_direction(p: &Point, q: &Point) -> Option<Dir>
    ensures found { MatchOption result (HasNoDirection (position_of p.now) (position_of q.now))
        (λ d. GoesAlong (dir_number d) p.now q.now) }
    ensures value { option_map dir_number result ≡ direction_of (position_of p.now) (position_of q.now) }
{
    for number in 0..16 {
        let dir = Dir { number };
        if goes_along(dir, p, q) {
            return Some(dir);
        }
    }
    None
}

/// The direction from `p` to `q`, where their difference is a positive multiple of one of the 16 directions.
pub fn direction(p: &Point, q: &Point) -> Option<Dir>
    ensures exact { (d : Dir) → (result ≡ Some d) ↔ GoesAlong (dir_number d) p.now q.now }
    ensures none { IsNone result ↔ HasNoDirection (position_of p.now) (position_of q.now) }
    ensures value { option_map dir_number result ≡ direction_of (position_of p.now) (position_of q.now) }
{
    first_direction(p, q)
}
