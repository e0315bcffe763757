//! A table of the corners of new sheets, worked by hand.

use crease_model::{Sheet, SheetFault};
use plane_geometry::{Point, direction, side};
use std::alloc::{AllocError, Global};
use std::test::Fail;
use surd_number::Surd;

type Corners<'a> = &'a [(i32, i32)];

fn points(alloc: Global, corners: Corners<'_>) -> Result<Vec<Point>, AllocError> {
    let mut points = Vec::new(alloc);
    for (x, y) in corners {
        points.push(Point {
            x: Surd::whole(*x),
            y: Surd::whole(*y),
        })?;
    }
    Ok(points)
}

// The sheet with these corners, of which there are 3 to 16.
fn made(alloc: Global, corners: Corners<'_>) -> Result<Sheet, SheetFault> {
    match points(alloc, corners) {
        Ok(points) if points.len() >= 3 && points.len() <= 16 => Sheet::new(alloc, &points),
        _ => Err(SheetFault::Memory),
    }
}

#[test]
fn makes_sheets_from_their_least_corner(rt: HostRuntime) -> Result<(), Fail> {
    let rows: [(Corners<'_>, Corners<'_>); 3] = [
        (&[(0, 0), (100, 0), (0, 100)], &[(0, 0), (100, 0), (0, 100)]),
        (
            &[(5, 5), (-5, 5), (-5, -5), (5, -5)],
            &[(-5, -5), (5, -5), (5, 5), (-5, 5)],
        ),
        (
            &[
                (2, 0),
                (3, 1),
                (3, 2),
                (2, 3),
                (1, 3),
                (0, 2),
                (0, 1),
                (1, 0),
            ],
            &[
                (0, 1),
                (1, 0),
                (2, 0),
                (3, 1),
                (3, 2),
                (2, 3),
                (1, 3),
                (0, 2),
            ],
        ),
    ];
    for (given, wanted) in rows {
        let sheet = made(rt.alloc(), given)?;
        assert_eq!(rt; sheet.corners(), points(rt.alloc(), wanted)?.as_slice());
    }
    Ok(())
}

#[test]
fn tells_the_first_bad_corner(rt: HostRuntime) -> Result<(), Fail> {
    let rows: [(Corners<'_>, u32); 9] = [
        // clockwise
        (&[(0, 0), (0, 100), (100, 0)], 1),
        // a corner twice
        (&[(0, 0), (0, 0), (100, 0), (0, 100)], 1),
        (&[(0, 0), (100, 0), (0, 100), (0, 100)], 3),
        // a side in none of the directions
        (&[(0, 0), (100, 0), (130, 70), (0, 100)], 2),
        // straight on, straight back
        (&[(0, 0), (50, 0), (100, 0), (0, 100)], 2),
        (&[(0, 0), (100, 0), (50, 0), (0, 100)], 2),
        // to the right
        (&[(0, 0), (100, 0), (50, 50), (100, 100), (0, 100)], 3),
        // the side before the first corner has no direction, so the last corner is bad
        (&[(0, 0), (100, 0), (100, 100), (30, 100)], 4),
        // twice round
        (&[(0, 0), (100, 0), (0, 100), (0, 0), (100, 0), (0, 100)], 0),
    ];
    for (given, corner) in rows {
        assert_eq!(rt;
            made(rt.alloc(), given).err(),
            Some(SheetFault::BadSheet { corner }),
            "{given:?}"
        );
    }
    Ok(())
}
