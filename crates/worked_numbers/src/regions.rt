//! Tables of regions, polygons and segments, worked with exact fractions in another language.

use open_region::Region;
use plane_geometry::{Dir, Point, Segment, direction, have_directions};
use std::test::Fail;
use surd_number::{OutOfRange, Surd};

type Parts = (i64, i64, u8);

/// A point by the triples of its coordinates.
type Place = (Parts, Parts);

/// A direction, and a point of the line.
type Cut = (u8, Parts, Parts);

const NOUGHT: Parts = (0, 0, 0);

const ONE: Parts = (1, 0, 0);

const LEAST: Parts = (1, 0, 16);
// about 0.005 / 2^16
const SLIVER: Parts = (99, -70, 16);

fn point(place: Place) -> Result<Point, OutOfRange> {
    let (x, y) = place;
    let x = Surd::new(x.0, x.1, x.2)?;
    let y = Surd::new(y.0, y.1, y.2)?;
    Ok(Point { x, y })
}

fn region(cuts: &[Cut]) -> Result<Region, OutOfRange> {
    let mut region = Region::whole();
    for (n, x, y) in cuts {
        if let Some(d) = Dir::new(*n) {
            region = region.cut(&point((*x, *y))?, d);
        }
    }
    Ok(region)
}

// What is inside a triangle with these corners, if its sides have directions.
fn triangle(a: Place, b: Place, c: Place) -> Result<Option<Region>, OutOfRange> {
    let corners = [point(a)?, point(b)?, point(c)?];
    if have_directions(&corners) {
        Ok(Some(Region::of_polygon(&corners)))
    } else {
        Ok(None)
    }
}

fn share_a_point(first: &Option<Region>, second: &Option<Region>) -> bool {
    match (first, second) {
        (Some(first), Some(second)) => first.both(second).is_open_nonempty(),
        _ => false,
    }
}

fn enters(region: &Region, from: Place, to: Place) -> Result<Option<bool>, OutOfRange> {
    let segment = Segment::new(&point(from)?, &point(to)?);
    Ok(segment.ok().map(|s| region.segment_enters(&s)))
}

#[test]
fn tells_empty_regions(rt: HostRuntime) -> Result<(), Fail> {
    let rows: [(&[Cut], bool); 13] = [
        (&[], true),
        (&[(3, LEAST, NOUGHT)], true),
        // x > 0, y > 0, and x + y < 0 or x + y < 1
        (
            &[
                (12, NOUGHT, NOUGHT),
                (0, NOUGHT, NOUGHT),
                (6, NOUGHT, NOUGHT),
            ],
            false,
        ),
        (
            &[(12, NOUGHT, NOUGHT), (0, NOUGHT, NOUGHT), (6, ONE, NOUGHT)],
            true,
        ),
        (
            &[
                (12, NOUGHT, NOUGHT),
                (0, NOUGHT, NOUGHT),
                (6, LEAST, NOUGHT),
            ],
            true,
        ),
        // thin strips
        (&[(0, NOUGHT, NOUGHT), (8, NOUGHT, NOUGHT)], false),
        (&[(0, NOUGHT, NOUGHT), (8, NOUGHT, LEAST)], true),
        (&[(0, NOUGHT, LEAST), (8, NOUGHT, NOUGHT)], false),
        (&[(1, NOUGHT, SLIVER), (9, NOUGHT, NOUGHT)], false),
        (&[(1, NOUGHT, NOUGHT), (9, NOUGHT, SLIVER)], true),
        // three lines through one point, and one of them moved a little
        (&[(1, ONE, ONE), (7, ONE, ONE), (12, ONE, ONE)], false),
        (&[(5, ONE, ONE), (11, ONE, ONE), (0, ONE, ONE)], false),
        (
            &[(5, ONE, ONE), (11, ONE, ONE), (0, ONE, (65535, 0, 16))],
            true,
        ),
    ];
    for (cuts, wanted) in rows {
        assert_eq!(rt; region(cuts)?.is_open_nonempty(), wanted, "{cuts:?}");
    }
    Ok(())
}

#[test]
fn tells_polygons_that_overlap(rt: HostRuntime) -> Result<(), Fail> {
    let lower = triangle((NOUGHT, NOUGHT), (ONE, NOUGHT), (NOUGHT, ONE))?;
    let upper = triangle((ONE, NOUGHT), (ONE, ONE), (NOUGHT, ONE))?;
    let moved = triangle(
        ((65535, 0, 16), NOUGHT),
        ((65535, 0, 16), ONE),
        ((-1, 0, 16), ONE),
    )?;
    let corner = triangle((ONE, NOUGHT), ((2, 0, 0), NOUGHT), (ONE, ONE))?;
    assert!(rt; share_a_point(&lower, &lower));
    assert!(rt; !share_a_point(&lower, &upper));
    assert!(rt; share_a_point(&lower, &moved));
    assert!(rt; !share_a_point(&lower, &corner));
    assert!(rt; triangle((NOUGHT, NOUGHT), ((2, 0, 0), ONE), (NOUGHT, ONE))?.is_none());
    Ok(())
}

#[test]
fn tells_regions_apart_by_opposite_lines(rt: HostRuntime) -> Result<(), Fail> {
    let left = triangle((NOUGHT, NOUGHT), (ONE, NOUGHT), (ONE, ONE))?;
    let touching = triangle((ONE, NOUGHT), ((2, 0, 0), NOUGHT), (ONE, ONE))?;
    let across = triangle((NOUGHT, NOUGHT), (ONE, ONE), (NOUGHT, ONE))?;
    let beyond = triangle(((2, 0, 0), ONE), ((3, 0, 0), ONE), ((3, 0, 0), (2, 0, 0)))?;
    // (first, second, whether lines alone tell that they have no common point)
    for (first, second, expected) in [
        (&left, &touching, true),
        (&left, &across, true),
        (&left, &left, false),
        (&touching, &across, false),
        (&left, &beyond, false),
    ] {
        if let (Some(first), Some(second)) = (first, second) {
            assert_eq!(rt; first.is_apart(second), expected);
            assert_eq!(rt; second.is_apart(first), expected);
        }
    }
    Ok(())
}

#[test]
fn tells_segments_that_enter(rt: HostRuntime) -> Result<(), Fail> {
    let square = region(&[
        (0, NOUGHT, NOUGHT),
        (4, ONE, NOUGHT),
        (8, ONE, ONE),
        (12, NOUGHT, ONE),
    ])?;
    let two = (2, 0, 0);
    let half = (1, 0, 1);
    let minus = (-1, 0, 0);
    let rows = [
        ((minus, half), (two, half), Some(true)),
        ((NOUGHT, half), (LEAST, half), Some(true)),
        ((minus, half), (NOUGHT, half), Some(false)),
        ((minus, half), (LEAST, half), Some(true)),
        ((NOUGHT, NOUGHT), (ONE, NOUGHT), Some(false)),
        ((NOUGHT, LEAST), (ONE, LEAST), Some(true)),
        ((NOUGHT, NOUGHT), (ONE, ONE), Some(true)),
        ((minus, ONE), (ONE, minus), Some(false)),
        ((ONE, ONE), (two, two), Some(false)),
        ((half, NOUGHT), (half, minus), Some(false)),
        ((half, NOUGHT), (half, ONE), Some(true)),
        ((half, half), (half, half), None),
    ];
    for (from, to, wanted) in rows {
        assert_eq!(rt; enters(&square, from, to)?, wanted, "{from:?} {to:?}");
    }
    assert!(rt; square.holds(&point((half, LEAST))?));
    assert!(rt; !square.holds(&point((half, NOUGHT))?));
    Ok(())
}

#[test]
fn agrees_with_exact_fractions(rt: HostRuntime) -> Result<(), Fail> {
    // lines, the ends of a segment, a point; whether the region has a point, is entered by the segment, holds the point
    let rows: [(&[Cut], Place, Place, Place, [bool; 3]); 7] = [
        (
            &[
                (12, (-4, 1, 0), (-4, 0, 0)),
                (5, (4, 0, 0), (-2, -1, 0)),
                (7, (4, 0, 0), (-2, -1, 0)),
                (14, (-4, 1, 0), (-4, 0, 0)),
                (7, (2, 0, 0), (3, 2, 0)),
            ],
            ((-4, 1, 0), (-4, 0, 0)),
            ((-2, 3, 0), (-4, 0, 0)),
            ((2, 0, 0), (3, 2, 0)),
            [true, true, false],
        ),
        (
            &[
                (6, (-4, 0, 0), (-3, -1, 0)),
                (9, (-2, 0, 0), (4, 0, 0)),
                (15, (-2, 0, 0), (4, 0, 0)),
                (11, (-4, 0, 0), (-3, -1, 0)),
                (12, (-2, 0, 0), (4, 0, 0)),
            ],
            ((-2, 0, 0), (4, 0, 0)),
            ((-5, 3, 0), (1, 0, 0)),
            ((-4, 1, 0), (-4, 0, 0)),
            [false, false, false],
        ),
        (
            &[
                (9, (0, -1, 0), (3, 1, 0)),
                (10, (0, -1, 0), (3, 1, 0)),
                (7, (0, -1, 0), (3, 1, 0)),
            ],
            ((2, 2, 0), (1, 0, 0)),
            ((5, 0, 0), (-2, 2, 0)),
            ((-2, 0, 0), (1, 0, 0)),
            [true, true, true],
        ),
        (
            &[
                (12, (13, -10, 2), (-16, 3, 0)),
                (14, (11, 5, 0), (-13, 3, 0)),
                (2, (13, -10, 2), (-16, 3, 0)),
            ],
            ((13, -10, 2), (-16, 3, 0)),
            ((-135, -14, 2), (21, 4, 0)),
            ((11, 5, 0), (-13, 3, 0)),
            [true, false, false],
        ),
        (
            &[
                (10, (-4, 0, 0), (-1, 0, 0)),
                (11, (0, 2, 0), (0, 1, 0)),
                (11, (-4, 0, 0), (-1, 0, 0)),
            ],
            ((-4, 0, 0), (-1, 0, 0)),
            ((-4, 0, 0), (3, 0, 0)),
            ((-1, 2, 0), (-4, 0, 0)),
            [true, false, true],
        ),
        (
            &[
                (13, (9, 32, 2), (-5, 3, 1)),
                (3, (17, 4, 0), (-5, 2, 0)),
                (2, (17, 4, 0), (-5, 2, 0)),
            ],
            ((17, 4, 0), (-5, 2, 0)),
            ((31, 8, 2), (-5, 2, 0)),
            ((9, 32, 2), (-5, 3, 1)),
            [true, true, false],
        ),
        (
            &[
                (5, (39, 0, 0), (9, -10, 1)),
                (10, (-3, -16, 1), (5, 36, 2)),
                (6, (39, 0, 0), (9, -10, 1)),
                (8, (-3, -16, 1), (5, 36, 2)),
                (7, (39, 0, 0), (9, -10, 1)),
            ],
            ((39, 0, 0), (9, -10, 1)),
            ((47, -1, 1), (19, -20, 0)),
            ((47, -1, 1), (19, -20, 0)),
            [true, true, true],
        ),
    ];
    for (cuts, from, to, place, wanted) in rows {
        let region = region(cuts)?;
        assert_eq!(rt; region.is_open_nonempty(), wanted[0], "{cuts:?}");
        assert_eq!(rt; enters(&region, from, to)?, Some(wanted[1]), "{cuts:?}");
        assert_eq!(rt; region.holds(&point(place)?), wanted[2], "{cuts:?}");
    }
    Ok(())
}
