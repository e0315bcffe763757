//! Tables of directions, sides and common points, worked with exact fractions in another language.

use plane_geometry::{
    Dir, Line, MeetFault, Point, Segment, SegmentFault, direction, meet, meets_at_ends, on_segment,
    overlaps, parallel, share_point, side,
};
use std::test::Fail;
use surd_number::{OutOfRange, Sgn, Surd};

type Parts = (i64, i64, u8);

/// A point by the triples of its coordinates.
fn point(x: Parts, y: Parts) -> Result<Point, OutOfRange> {
    let x = Surd::new(x.0, x.1, x.2)?;
    let y = Surd::new(y.0, y.1, y.2)?;
    Ok(Point { x, y })
}

/// A point of whole numbers.
fn whole(x: i64, y: i64) -> Result<Point, OutOfRange> {
    point((x, 0, 0), (y, 0, 0))
}

fn number_of(dir: Option<Dir>) -> Option<u8> {
    dir.map(|d| d.number())
}

#[test]
fn tells_directions(rt: HostRuntime) -> Result<(), Fail> {
    let rows = [
        ((12, 8, 0), (0, 0, 0), Some(0)),
        ((12, 8, 0), (4, 4, 0), Some(1)),
        ((12, 8, 0), (12, 8, 0), Some(2)),
        ((4, 4, 0), (12, 8, 0), Some(3)),
        ((0, 0, 0), (12, 8, 0), Some(4)),
        ((-4, -4, 0), (12, 8, 0), Some(5)),
        ((-12, -8, 0), (12, 8, 0), Some(6)),
        ((-12, -8, 0), (4, 4, 0), Some(7)),
        ((-12, -8, 0), (0, 0, 0), Some(8)),
        ((-12, -8, 0), (-4, -4, 0), Some(9)),
        ((-12, -8, 0), (-12, -8, 0), Some(10)),
        ((-4, -4, 0), (-12, -8, 0), Some(11)),
        ((0, 0, 0), (-12, -8, 0), Some(12)),
        ((4, 4, 0), (-12, -8, 0), Some(13)),
        ((12, 8, 0), (-12, -8, 0), Some(14)),
        ((12, 8, 0), (-4, -4, 0), Some(15)),
        ((0, 0, 0), (0, 0, 0), None),
        ((2, 0, 0), (1, 0, 0), None),
        ((1, 0, 0), (27145, 0, 16), None),
    ];
    let origin = whole(0, 0)?;
    for (x, y, wanted) in rows {
        assert_eq!(rt;
            number_of(direction(&origin, &point(x, y)?)),
            wanted,
            "{x:?} {y:?}"
        );
    }
    Ok(())
}

#[test]
fn puts_the_lesser_end_first(rt: HostRuntime) -> Result<(), Fail> {
    let rows = [
        ((0, 0), (8, 8), Ok(((0, 0), (8, 8), 2))),
        ((8, 8), (0, 0), Ok(((0, 0), (8, 8), 2))),
        ((0, 0), (0, -5), Ok(((0, -5), (0, 0), 4))),
        ((3, 3), (0, 6), Ok(((0, 6), (3, 3), 14))),
        ((7, 7), (7, 7), Err(SegmentFault::ZeroLength)),
        ((0, 0), (100, 50), Err(SegmentFault::BadDirection)),
        ((100, 50), (0, 0), Err(SegmentFault::BadDirection)),
    ];
    for ((a, b), (c, d), wanted) in rows {
        let made = Segment::new(&whole(a, b)?, &whole(c, d)?);
        match (made, wanted) {
            (Ok(s), Ok(((e, f), (g, h), n))) => {
                assert_eq!(rt; *s.from(), whole(e, f)?);
                assert_eq!(rt; *s.to(), whole(g, h)?);
                assert_eq!(rt; s.dir().number(), n);
            }
            (Err(fault), Err(wanted)) => assert_eq!(rt; fault, wanted),
            _ => assert!(rt; false, "{a} {b} {c} {d}"),
        }
    }
    Ok(())
}

#[test]
fn tells_sides(rt: HostRuntime) -> Result<(), Fail> {
    let rows = [
        (
            ((0, 0, 0), (0, 0, 0)),
            1,
            ((1, 0, 0), (-1, 1, 0)),
            Sgn::Zero,
        ),
        (
            ((0, 0, 0), (0, 0, 0)),
            1,
            ((1, 0, 0), (13573, 0, 15)),
            Sgn::Pos,
        ),
        (
            ((0, 0, 0), (0, 0, 0)),
            9,
            ((1, 0, 0), (27145, 0, 16)),
            Sgn::Neg,
        ),
        (((1, 0, 0), (1, 0, 0)), 4, ((0, 0, 0), (9, 0, 0)), Sgn::Pos),
        (((1, 0, 0), (1, 0, 0)), 12, ((2, 0, 0), (9, 0, 0)), Sgn::Neg),
        (((0, 1, 0), (0, 0, 0)), 5, ((0, 0, 0), (2, 1, 0)), Sgn::Zero),
        (((0, 1, 0), (0, 0, 0)), 5, ((0, 0, 0), (1, 1, 0)), Sgn::Pos),
    ];
    for ((a, b), n, (c, d), wanted) in rows {
        let dir = Dir::new(n).ok_or("a direction")?;
        let line = Line::through(&point(a, b)?, dir);
        assert_eq!(rt;
            side(&line, &point(c, d)?),
            wanted,
            "{a:?} {b:?} {n} {c:?} {d:?}"
        );
    }
    Ok(())
}

/// The line through a point in the direction of a number.
fn line(p: (Parts, Parts), n: u8) -> Result<Line, Fail> {
    Ok(Line::through(&point(p.0, p.1)?, Dir::new(n).ok_or("a direction")?))
}

#[test]
fn meets_exactly(rt: HostRuntime) -> Result<(), Fail> {
    let rows = [
        (
            ((-100, 0, 0), (6553601, 0, 16)),
            14,
            ((-100, 0, 0), (-100, 0, 0)),
            2,
            Err(MeetFault::OutOfRange),
        ),
        (
            ((-100, 0, 0), (3276801, 0, 15)),
            6,
            ((-100, 0, 0), (-100, 0, 0)),
            2,
            Ok(((1, 0, 16), (1, 0, 16))),
        ),
        (
            ((-200, 0, 0), (-200, 0, 0)),
            1,
            ((0, 0, 0), (-200, 0, 0)),
            4,
            Ok(((0, 0, 0), (-400, 200, 0))),
        ),
        (
            ((0, 0, 0), (0, 0, 0)),
            1,
            ((1, 0, 0), (0, 0, 0)),
            5,
            Ok(((2, 1, 2), (0, 1, 2))),
        ),
        (
            ((0, 0, 0), (0, 0, 0)),
            3,
            ((5, 0, 0), (1, 0, 0)),
            15,
            Ok(((5, -2, 1), (1, 3, 1))),
        ),
        (
            ((0, 0, 0), (0, 0, 0)),
            7,
            ((3, 0, 0), (1, 0, 2)),
            1,
            Ok(((11, -1, 3), (13, -12, 3))),
        ),
        (
            ((1, 1, 0), (0, 0, 0)),
            13,
            ((0, 1, 3), (7, -3, 0)),
            11,
            Ok(((112, -71, 4), (78, -9, 4))),
        ),
        (
            ((0, 0, 0), (0, 0, 0)),
            6,
            ((3, 0, 0), (7, 0, 0)),
            5,
            Ok(((3, 5, 0), (-3, -5, 0))),
        ),
        (
            ((0, 0, 0), (0, 0, 0)),
            1,
            ((0, 0, 0), (1 << 36, 0, 0)),
            0,
            Ok(((1 << 36, 1 << 36, 0), (1 << 36, 0, 0))),
        ),
        (
            ((0, 0, 0), (0, 0, 0)),
            1,
            ((0, 0, 0), (1 << 36, 1 << 36, 0)),
            0,
            Err(MeetFault::OutOfRange),
        ),
        (
            ((0, 0, 0), (0, 0, 0)),
            0,
            ((3, 0, 0), (4, 0, 0)),
            8,
            Err(MeetFault::Parallel),
        ),
    ];
    for (p, m, q, n, wanted) in rows {
        let met = meet(&line(p, m)?, &line(q, n)?);
        match (met, wanted) {
            (Ok(r), Ok((x, y))) => assert_eq!(rt; r, point(x, y)?, "{p:?} {m} {q:?} {n}"),
            (Err(fault), Err(wanted)) => assert_eq!(rt; fault, wanted, "{p:?} {m} {q:?} {n}"),
            _ => assert!(rt; false, "{p:?} {m} {q:?} {n}"),
        }
    }
    Ok(())
}

/// The segment between two points of whole numbers.
fn segment(ends: (i64, i64, i64, i64)) -> Result<Segment, Fail> {
    Ok(Segment::new(&whole(ends.0, ends.1)?, &whole(ends.2, ends.3)?)?)
}

#[test]
fn tells_common_points(rt: HostRuntime) -> Result<(), Fail> {
    let rows = [
        ((-1, -1, 1, 1), (-1, 1, 1, -1), (true, false, false)),
        ((0, 0, 2, 0), (1, 0, 1, 5), (true, false, false)),
        ((0, 0, 2, 0), (2, 0, 2, 2), (true, true, false)),
        ((0, 0, 1, 0), (0, 1, 1, 1), (false, true, false)),
        ((0, 0, 2, 0), (1, 0, 3, 0), (true, false, true)),
        ((0, 0, 1, 0), (1, 0, 2, 0), (true, true, false)),
        ((0, 0, 2, 2), (2, 2, 0, 0), (true, false, true)),
        ((0, 0, 0, 4), (0, 1, 0, 2), (true, false, true)),
        ((0, 0, 1, 0), (2, 0, 3, 0), (false, true, false)),
        ((0, 0, 4, 4), (3, 0, 3, 2), (false, true, false)),
        ((0, 0, 4, 4), (2, 0, 4, 2), (false, true, false)),
        ((0, 0, 4, 4), (3, 0, 3, 3), (true, false, false)),
        ((0, 0, 4, 4), (0, 0, 0, 9), (true, true, false)),
    ];
    for (a, b, wanted) in rows {
        let s = segment(a)?;
        let u = segment(b)?;
        assert_eq!(rt;
            (share_point(&s, &u), meets_at_ends(&s, &u), overlaps(&s, &u)),
            wanted,
            "{a:?} {b:?}"
        );
        assert_eq!(rt;
            (share_point(&u, &s), meets_at_ends(&u, &s), overlaps(&u, &s)),
            wanted,
            "{b:?} {a:?}"
        );
    }
    Ok(())
}

#[test]
fn tells_points_of_a_segment(rt: HostRuntime) -> Result<(), Fail> {
    let s = segment((0, 0, 4, 4))?;
    let rows = [
        ((0, 0), true),
        ((4, 4), true),
        ((2, 2), true),
        ((5, 5), false),
        ((-1, -1), false),
        ((2, 1), false),
    ];
    for ((x, y), wanted) in rows {
        assert_eq!(rt; on_segment(&whole(x, y)?, &s), wanted, "{x} {y}");
    }
    Ok(())
}

#[test]
fn takes_parts_of_a_segment(rt: HostRuntime) -> Result<(), Fail> {
    let s = segment((0, 4, 4, 0))?;
    let from = whole(1, 3)?;
    let to = whole(4, 0)?;
    assert!(rt; on_segment(&from, &s) && on_segment(&to, &s) && from.cmp(&to).is_lt());
    assert_eq!(rt; s.part(&from, &to), segment((4, 0, 1, 3))?);
    Ok(())
}

#[test]
fn shows_faults(rt: HostRuntime) -> Result<(), Fail> {
    let zero_length = SegmentFault::ZeroLength;
    let bad_direction = SegmentFault::BadDirection;
    let parallel = MeetFault::Parallel;
    let out_of_range = MeetFault::OutOfRange;
    assert_eq!(rt;
        format!(in rt.alloc(); "{zero_length}")?.as_str(),
        "both ends are equal"
    );
    assert_eq!(rt;
        format!(in rt.alloc(); "{bad_direction}")?.as_str(),
        "the ends have none of the 16 directions"
    );
    assert_eq!(rt;
        format!(in rt.alloc(); "{parallel}")?.as_str(),
        "the lines are parallel"
    );
    assert_eq!(rt;
        format!(in rt.alloc(); "{out_of_range}")?.as_str(),
        "the common point is out of range"
    );
    Ok(())
}
