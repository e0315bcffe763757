//! Tables of exact numbers, worked with whole numbers of any size.

ghost use Rattle.std.specs.Prelude.{◌≤◌};

use std::cmp::Ordering;
use std::test::Fail;
use surd_number::{OutOfRange, Sgn, Surd, Wide};

type Parts = (i64, i64, u8);

const LIMIT: i64 = 1 << 36;

fn parts_of(number: Result<Surd, OutOfRange>) -> Option<Parts> {
    number.ok().map(|s| s.parts())
}

fn surd(parts: Parts) -> Result<Surd, OutOfRange> {
    Surd::new(parts.0, parts.1, parts.2)
}

#[test]
fn brings_to_the_least_power(rt: HostRuntime) {
    let rows = [
        ((-600, 400, 0), Some((-600, 400, 0))),
        ((100, -2, 3), Some((50, -1, 2))),
        ((0, 0, 9), Some((0, 0, 0))),
        ((8, 0, 4), Some((1, 0, 1))),
        ((1, 0, 16), Some((1, 0, 16))),
        ((LIMIT, -LIMIT, 0), Some((LIMIT, -LIMIT, 0))),
        ((LIMIT + 1, 0, 0), None),
        ((0, -LIMIT - 1, 0), None),
        ((2 * LIMIT, 0, 1), Some((LIMIT, 0, 0))),
        ((6, 0, 17), Some((3, 0, 16))),
        ((3, 0, 17), None),
        ((i64::MIN, 0, 63), Some((-1, 0, 0))),
        ((i64::MIN, 1 << 62, 255), None),
    ];
    for (given, wanted) in rows {
        assert_eq!(rt; parts_of(surd(given)), wanted, "{given:?}");
    }
}

#[test]
fn adds_subtracts_and_multiplies(rt: HostRuntime) -> Result<(), Fail> {
    let rows = [
        (
            (-600, 400, 0),
            (50, -1, 2),
            Some((-2350, 1599, 2)),
            Some((-2450, 1601, 2)),
            Some((-7700, 5150, 0)),
        ),
        (
            (1, 0, 1),
            (1, 0, 1),
            Some((1, 0, 0)),
            Some((0, 0, 0)),
            Some((1, 0, 2)),
        ),
        (
            (1, 0, 16),
            (-1, 0, 16),
            Some((0, 0, 0)),
            Some((1, 0, 15)),
            None,
        ),
        (
            (LIMIT, 0, 0),
            (-1, 0, 0),
            Some((LIMIT - 1, 0, 0)),
            None,
            Some((-LIMIT, 0, 0)),
        ),
        ((LIMIT, 0, 0), (1, 0, 16), None, None, Some((1048576, 0, 0))),
        ((1, 0, 8), (1, 0, 9), Some((3, 0, 9)), Some((1, 0, 9)), None),
        (
            (3, -2, 0),
            (3, 2, 0),
            Some((6, 0, 0)),
            Some((0, -4, 0)),
            Some((1, 0, 0)),
        ),
        (
            (262144, 0, 0),
            (262144, 1, 0),
            Some((524288, 1, 0)),
            Some((0, -1, 0)),
            Some((LIMIT, 262144, 0)),
        ),
    ];
    for (first, second, sum, difference, product) in rows {
        let x = surd(first)?;
        let y = surd(second)?;
        assert_eq!(rt; parts_of(x.add(&y)), sum, "{first:?} + {second:?}");
        assert_eq!(rt; parts_of(x.sub(&y)), difference, "{first:?} - {second:?}");
        assert_eq!(rt; parts_of(x.mul(&y)), product, "{first:?} * {second:?}");
    }
    Ok(())
}

#[test]
fn halves(rt: HostRuntime) -> Result<(), Fail> {
    let rows = [
        ((1, 0, 15), Some((1, 0, 16))),
        ((1, 0, 16), None),
        ((2, 4, 0), Some((1, 2, 0))),
        ((0, 0, 0), Some((0, 0, 0))),
    ];
    for (given, wanted) in rows {
        assert_eq!(rt; parts_of(surd(given)?.half()), wanted, "{given:?}");
    }
    assert_eq!(rt; surd((50, -1, 2))?.neg().parts(), (-50, 1, 2));
    Ok(())
}

#[test]
fn divides_by_units(rt: HostRuntime) -> Result<(), Fail> {
    let rows = [
        (0, 0, Some((-600, 400, 0)), Some((3, 1, 15))),
        (0, 1, Some((400, -300, 0)), Some((2, 3, 16))),
        (0, 2, Some((-300, 200, 0)), Some((3, 1, 16))),
        (0, 3, Some((200, -150, 0)), None),
        (1, 0, Some((200, -200, 0)), Some((5, 4, 15))),
        (1, 1, Some((-200, 100, 0)), Some((8, 5, 16))),
        (1, 2, Some((100, -100, 0)), Some((5, 4, 16))),
        (1, 3, Some((-100, 50, 0)), None),
    ];
    let near = surd((-600, 400, 0))?;
    let fine = surd((3, 1, 15))?;
    for (i, j, quotient, fine_quotient) in rows {
        if i <= 1 && j <= 3 {
            assert_eq!(rt; parts_of(near.div_unit(i, j)), quotient, "{i} {j}");
            assert_eq!(rt; parts_of(fine.div_unit(i, j)), fine_quotient, "{i} {j}");
        }
    }
    Ok(())
}

#[test]
fn tells_signs(rt: HostRuntime) -> Result<(), Fail> {
    let rows = [
        ((0, 0, 0), Sgn::Zero),
        ((7, -5, 0), Sgn::Neg),
        ((3, -2, 4), Sgn::Pos),
        ((-3, 2, 0), Sgn::Neg),
        ((-99, 70, 3), Sgn::Neg),
        ((-41, 29, 0), Sgn::Pos),
        ((0, -1, 16), Sgn::Neg),
        ((63018038201, -44560482149, 0), Sgn::Neg),
        ((-63018038201, 44560482149, 0), Sgn::Pos),
    ];
    for (given, sign) in rows {
        assert_eq!(rt; surd(given)?.sgn(), sign, "{given:?}");
    }
    Ok(())
}

#[test]
fn orders_by_value(rt: HostRuntime) -> Result<(), Fail> {
    // each is less than the next
    let rows = [
        (-1, 0, 0),
        (7, -5, 0),
        (0, 0, 0),
        (1, 0, 16),
        (3, -2, 0),
        (-1, 1, 0),
        (1, 0, 1),
        (0, 1, 1),
        (1, 0, 0),
    ];
    let mut last = surd((-LIMIT, -LIMIT, 0))?;
    for row in rows {
        let next = surd(row)?;
        assert!(rt; last < next, "{row:?}");
        assert_eq!(rt; next.cmp(&last), Ordering::Greater, "{row:?}");
        last = next;
    }
    assert_eq!(rt; surd((2, 4, 1))?, surd((1, 2, 0))?);
    Ok(())
}

// ((x + y) * t^i * (sqrt 2)^j - x) * sqrt 2 / 2
fn combined(x: &Surd, y: &Surd, i: u8, j: u8) -> Wide
    requires few { i ≤ 1 }
    requires few_roots { j ≤ 3 }
{
    let x = Wide::of(x);
    x.plus(&Wide::of(y)).times_unit(i, j).minus(&x).half_root()
}

#[test]
fn computes_in_wide_numbers(rt: HostRuntime) -> Result<(), Fail> {
    let rows = [
        ((1, 0, 0), (2, 0, 0), 0, 0, Some((0, 1, 0))),
        ((1, 0, 0), (2, 0, 0), 1, 0, Some((3, -2, 0))),
        ((-600, 400, 0), (50, -1, 2), 1, 3, Some((4748, -3349, 1))),
        ((50, -1, 2), (1, 0, 1), 0, 3, Some((105, -27, 2))),
        ((1, 0, 16), (0, 0, 0), 1, 0, Some((1, -1, 16))),
        ((1, 0, 16), (0, 0, 0), 0, 1, None),
        ((LIMIT, 0, 0), (LIMIT, 0, 0), 0, 2, None),
    ];
    for (first, second, i, j, wanted) in rows {
        if i <= 1 && j <= 3 {
            let result = combined(&surd(first)?, &surd(second)?, i, j);
            assert_eq!(rt;
                parts_of(result.narrow()),
                wanted,
                "{first:?} {second:?} {i} {j}"
            );
        }
    }
    Ok(())
}

#[test]
fn tells_signs_of_wide_numbers(rt: HostRuntime) -> Result<(), Fail> {
    let small = Wide::of(&surd((99, -70, 16))?);
    assert_eq!(rt; small.sgn(), Sgn::Pos);
    assert_eq!(rt; small.parts(), (99, -70, 16));
    Ok(())
}
