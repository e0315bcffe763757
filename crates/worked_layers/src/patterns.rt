//! Patterns for tests, of creases between points with whole coordinates.

use crease_model::{Kind, Pattern, Sheet};
use crease_store::add;
use plane_geometry::Point;
use std::alloc::Global;
use std::test::Fail;
use surd_number::Surd;

/// A crease: its kind, and the coordinates of its ends.
pub(crate) type Crease = (Kind, (i32, i32), (i32, i32));

fn point(place: (i32, i32)) -> Point {
    Point {
        x: Surd::whole(place.0),
        y: Surd::whole(place.1),
    }
}

/// A pattern with one crease more.
fn with(alloc: Global, pattern: &Pattern, crease: Crease) -> Result<Pattern, Fail> {
    let (kind, from, to) = crease;
    let next = add(alloc, pattern, kind, &point(from), &point(to))?;
    Ok(next)
}

/// The creases on the square.
pub(crate) fn on_square(alloc: Global, creases: &[Crease]) -> Result<Pattern, Fail> {
    let mut pattern = Pattern::empty(Sheet::square(alloc)?);
    for crease in creases {
        pattern = with(alloc, &pattern, *crease)?;
    }
    Ok(pattern)
}

/// So many mountains from side to side of the square, two units apart, from the left side on.
pub(crate) fn close_strips(alloc: Global, creases: u8) -> Result<Pattern, Fail> {
    let mut pattern = Pattern::empty(Sheet::square(alloc)?);
    for k in 0..creases {
        let x = -198 + 2 * (k as i32);
        pattern = with(alloc, &pattern, (Kind::Mountain, (x, -200), (x, 200)))?;
    }
    Ok(pattern)
}

/// So many strips of one width of ten units, by mountains from side to side of the square.
pub(crate) fn equal_strips(alloc: Global, strips: u8) -> Result<Pattern, Fail> {
    let mut pattern = Pattern::empty(Sheet::square(alloc)?);
    for k in 1..strips {
        let x = -200 + 10 * (k as i32);
        pattern = with(alloc, &pattern, (Kind::Mountain, (x, -200), (x, 200)))?;
    }
    Ok(pattern)
}

/// So many mountains from side to side of the square, each strip wider by 1/128 than the one before it.
pub(crate) fn wider_strips(alloc: Global, creases: u8) -> Result<Pattern, Fail> {
    let mut pattern = Pattern::empty(Sheet::square(alloc)?);
    for k in 1..=creases {
        let steps = (k as i64) * (k as i64 + 1);
        let x = Surd::new(-200 * 256 + steps, 0, 8)?;
        let from = Point {
            x,
            y: Surd::whole(-200),
        };
        let to = Point {
            x,
            y: Surd::whole(200),
        };
        pattern = add(alloc, &pattern, Kind::Mountain, &from, &to)?;
    }
    Ok(pattern)
}

/// The points that lie from the middle of the square in the 16 directions, on its border.
pub(crate) fn round_the_middle() -> Result<[Point; 16], Fail> {
    let far = Surd::whole(200);
    let near = Surd::new(-200, 200, 0)?;
    let none = Surd::whole(0);
    let at = |x: Surd, y: Surd| -> Point { Point { x, y } };
    Ok([
        at(far, none),
        at(far, near),
        at(far, far),
        at(near, far),
        at(none, far),
        at(near.neg(), far),
        at(far.neg(), far),
        at(far.neg(), near),
        at(far.neg(), none),
        at(far.neg(), near.neg()),
        at(far.neg(), far.neg()),
        at(near.neg(), far.neg()),
        at(none, far.neg()),
        at(near, far.neg()),
        at(far, far.neg()),
        at(far, near.neg()),
    ])
}

/// A strip of stamps, ten units wide and high, with a crease of these kinds between each and the next.
pub(crate) fn strip(alloc: Global, kinds: &[Kind]) -> Result<Pattern, Fail> {
    let mut right = 10;
    for _ in kinds {
        right = i32::saturating_add(right, 10);
    }
    let corners = [
        point((0, 0)),
        point((right, 0)),
        point((right, 10)),
        point((0, 10)),
    ];
    let mut pattern = Pattern::empty(Sheet::new(alloc, &corners)?);
    let mut x = 0i32;
    for kind in kinds {
        x = x.saturating_add(10);
        pattern = with(alloc, &pattern, (*kind, (x, 0), (x, 10)))?;
    }
    Ok(pattern)
}
