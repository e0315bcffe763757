//! Reflections and chains of them, worked with exact fractions in another language.

ghost use Rattle.std.specs.Prelude.{◌*◌, ◌^◌, ◌≤◌};
ghost use Rattle.isometry_map.specs.IsometryView.{motion_of};
ghost use Rattle.isometry_map.specs.Motion.{IsReflection, IsShiftWithin};

use isometry_map::{Isometry, Linear};
use plane_geometry::{Dir, Line, Point};
use std::test::Fail;
use surd_number::Surd;

fn whole_point(x: i32, y: i32) -> Point {
    Point {
        x: Surd::whole(x),
        y: Surd::whole(y),
    }
}

// The line through a point of whole numbers in this direction, modulo 16.
fn line(x: i32, y: i32, direction: u8) -> Line {
    Line::through(&whole_point(x, y), Dir::new(direction % 16).unwrap())
}

// The reflection in such a line.
fn mirror(x: i32, y: i32, direction: u8) -> Isometry
    ensures fits { IsShiftWithin (2 ^ 57) (motion_of result) }
    ensures mirror { IsReflection (motion_of result) }
{
    Isometry::reflection(&line(x, y, direction))
}

// The image of (3, 5) by a reflection.
fn image(x: i32, y: i32, direction: u8) -> ((i128, i128, u8), (i128, i128, u8)) {
    let image = mirror(x, y, direction).apply(&whole_point(3, 5));
    (image.x.parts(), image.y.parts())
}

// So many reflections one after another, in one line and another by turns.
fn zigzag(count: u16, even: &Line, odd: &Line) -> Isometry
    requires { count ≤ 32768 }
    ensures { IsShiftWithin (32768 * 2 ^ 57) (motion_of result) }
{
    let mut chain = Isometry::identity();
    for i in 0..count {
        let line = if i % 2 == 0 { even } else { odd };
        chain = chain.after(&Isometry::reflection(line));
    }
    chain
}

#[test]
fn opposite_directions_have_one_reflection(rt: HostRuntime) -> Result<(), Fail> {
    let there = Linear::reflection(Dir::new(3).ok_or("3")?);
    let back = Linear::reflection(Dir::new(11).ok_or("11")?);
    assert_eq!(rt; there.number(), 11);
    assert_eq!(rt; there, back);
    assert_eq!(rt; there.turned(), true);
    assert_eq!(rt; there.after(back), Linear::identity());
    assert_eq!(rt; Linear::identity().turned(), false);
    Ok(())
}

#[test]
fn reflections_in_each_direction(rt: HostRuntime) {
    assert_eq!(rt; image(0, 7, 0), ((3, 0, 0), (9, 0, 0)));
    assert_eq!(rt; image(100, 0, 1), ((100, -46, 0), (0, -51, 0)));
    assert_eq!(rt; image(0, 0, 2), ((5, 0, 0), (3, 0, 0)));
    assert_eq!(rt; image(-40, 20, 3), ((-40, -29, 0), (20, 14, 0)));
    assert_eq!(rt; image(10, 0, 4), ((17, 0, 0), (5, 0, 0)));
    assert_eq!(rt; image(5, 5, 5), ((5, 1, 0), (5, 1, 0)));
    assert_eq!(rt; image(6, 1, 6), ((2, 0, 0), (4, 0, 0)));
    assert_eq!(rt; image(0, -8, 7), ((0, -5, 0), (-8, -8, 0)));
    // opposite directions, one line
    assert_eq!(rt; image(0, -8, 15), image(0, -8, 7));
}

#[test]
fn the_first_comes_first(rt: HostRuntime) {
    let across = mirror(0, 0, 4);
    let slanted = mirror(100, 0, 1);
    let turned = slanted.after(&across).apply(&whole_point(3, 5));
    assert_eq!(rt; turned.x.parts(), (100, -49, 0));
    assert_eq!(rt; turned.y.parts(), (0, -54, 0));
    let turned = across.after(&slanted).apply(&whole_point(3, 5));
    assert_eq!(rt; turned.x.parts(), (-100, 46, 0));
    assert_eq!(rt; turned.y.parts(), (0, -51, 0));
    assert_eq!(rt; across.turned(), true);
    assert_eq!(rt; across.after(&slanted).turned(), false);
    assert_eq!(rt; across.after(&across), Isometry::identity());
}

#[test]
fn a_chain_of_256_reflections(rt: HostRuntime) {
    let far = 2147483647;
    let chain = zigzag(256, &line(far, 0, 4), &line(-far, 0, 4));
    let end = chain.apply(&whole_point(1, 2));
    assert_eq!(rt; end.x.parts(), (1099511627265, 0, 0));
    assert_eq!(rt; end.y.parts(), (2, 0, 0));
    // in two lines at a right angle four reflections are the identity
    assert_eq!(rt;
        zigzag(256, &line(far, -far, 1), &line(-far, far, 5)),
        Isometry::identity()
    );
    let chain = zigzag(255, &line(far, -far, 1), &line(-far, far, 5));
    assert_eq!(rt; chain.turned(), true);
    let end = chain.apply(&whole_point(1, 2));
    assert_eq!(rt; end.x.parts(), (-4294967294, -3, 1));
    assert_eq!(rt; end.y.parts(), (4294967294, -4294967293, 1));
    let end = zigzag(256, &line(far, -far, 1), &line(-far, far, 9)).apply(&whole_point(1, 2));
    assert_eq!(rt; end.x.parts(), (549755813633, 0, 0));
    assert_eq!(rt; end.y.parts(), (-549755813630, -549755813632, 0));
}

// As many reflections as may be composed but one, in lines at the edge of the numbers: a shift of more than a third
// of the widest.
#[test]
fn a_wide_shift(rt: HostRuntime) -> Result<(), Fail> {
    let limit = 1i64 << 36;
    let edge = Surd::new(limit, -limit, 0)?;
    let opposite = Surd::new(-limit, limit, 0)?;
    let slanted = Dir::new(1).ok_or("1")?;
    let chain = zigzag(
        32767,
        &Line::through(&Point { x: edge, y: edge }, slanted),
        &Line::through(
            &Point {
                x: opposite,
                y: opposite,
            },
            slanted,
        ),
    );
    let end = chain.apply(&Point {
        x: Surd::new(limit, limit, 0)?,
        y: Surd::new(-limit, limit - 1, 16)?,
    });
    assert_eq!(rt;
        end.x.parts(),
        (442712850638493974527, -295136646214644137984, 16)
    );
    assert_eq!(rt;
        end.y.parts(),
        (147573952520956936193, -147567197155875618816, 16)
    );
    Ok(())
}
