//! The sides of a polygon, given by its corners in order.

ghost use Rattle.std.specs.Prelude.{◌≡◌, ◌<◌, length};
ghost use Rattle.plane_geometry.specs.Polygon.{have_directions, next_corner_of};

use crate::{Point, direction};

/// The corner after the i-th: the next one, or the first after the last.
pub fn next_corner(corners: &[Point], i: usize) -> &Point
    requires { i < length corners.now }
    ensures { result.now ≡ next_corner_of corners.now i result.now }
{
    if i + 1 < corners.len() {
        &corners[i + 1]
    } else {
        &corners[0]
    }
}

/// Whether each side runs in one of the 16 directions.
pub fn have_directions(corners: &[Point]) -> bool
    ensures { result ≡ have_directions corners.now }
{
    for (i, start) in corners.iter().enumerate() {
        if direction(start, next_corner(corners, i)).is_none() {
            return false;
        }
    }
    true
}
