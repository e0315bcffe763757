//! Folded shapes, against tables that a model gives which reflects points and shares nothing with the editor.

use crate::faces::{pattern_of, put_point, strips};
use crease_model::{Kind, Pattern, Sheet};
use crease_store::add;
use face_builder::faces;
use isometry_map::{Folded, FoldedFace};
use plane_geometry::Point;
use std::alloc::{AllocError, Global};
use std::test::Fail;
use surd_number::Surd;
use wireframe_fold::{WireFault, fold};

/// The lines of a pattern on the square, and its folded shape: of each face whether it is turned, and its corners; of each
/// shared piece its faces, and where it comes to lie; or why it has none.
type Row = (&'static str, &'static str);

const SHAPES: [Row; 12] = [
    // Nothing on the square.
    (
        "",
        "folded \
         | f -200 -200, 200 -200, 200 200, -200 200, \
         ;",
    ),
    // One crease.
    (
        "2 0 -200 0 200",
        "folded \
         | f -200 -200, 0 -200, 0 200, -200 200, \
         | t 0 -200, -200 -200, -200 200, 0 200, \
         ; 1:1:2 0 -200 0 200,",
    ),
    // Two creases side by side: the third face comes to lie left of the sheet.
    (
        "3 -100 -200 -100 200\n\
         3 100 -200 100 200",
        "folded \
         | f -200 -200, -100 -200, -100 200, -200 200, \
         | t -100 -200, -300 -200, -300 200, -100 200, \
         | f -300 -200, -200 -200, -200 200, -300 200, \
         ; 1:1:2 -100 -200 -100 200, 2:2:3 -300 -200 -300 200,",
    ),
    // A cross: each face comes to lie on the first.
    (
        "2 0 -200 0 200\n\
         2 -200 0 0 0\n\
         3 0 0 200 0",
        "folded \
         | f -200 -200, 0 -200, 0 0, -200 0, \
         | t -200 0, 0 0, 0 -200, -200 -200, \
         | t 0 -200, -200 -200, -200 0, 0 0, \
         | f 0 0, -200 0, -200 -200, 0 -200, \
         ; 1:1:2 -200 0 0 0, 2:1:3 0 -200 0 0, 3:2:4 0 -200 0 0, 4:3:4 -200 0 0 0,",
    ),
    // The waterbomb base.
    (
        "3 -200 -200 200 200\n\
         3 -200 200 200 -200\n\
         2 -200 0 200 0",
        "folded \
         | f -200 -200, 200 -200, 0 0, \
         | t -200 -200, 0 0, 0 -200, \
         | f 0 -200, 0 0, -200 -200, \
         | t -200 -200, 0 0, 200 -200, \
         | f 0 0, 0 -200, 200 -200, \
         | t 0 0, 200 -200, 0 -200, \
         ; 1:1:2 -200 -200 0 0, 2:2:3 0 -200 0 0, 3:3:4 -200 -200 0 0, 4:1:6 0 0 200 -200, \
         5:5:6 0 -200 0 0, 6:4:5 0 0 200 -200,",
    ),
    // A flat-foldable vertex with sectors of 45, 90, 135 and 90 degrees.
    (
        "2 0 0 200 0\n\
         2 0 0 200 200\n\
         2 0 0 -200 200\n\
         3 0 0 0 -200",
        "folded \
         | f -200 -200, 0 -200, 0 0, -200 200, \
         | t -200 200, 0 0, -200 -200, \
         | t 0 -200, -200 -200, -200 0, 0 0, \
         | f 0 0, -200 0, -200 -200, \
         ; 1:1:2 -200 200 0 0, 2:1:3 0 -200 0 0, 3:3:4 -200 0 0 0, 4:2:4 -200 -200 0 0,",
    ),
    // Two corners folded in.
    (
        "2 -200 0 0 200\n\
         2 0 -200 200 0",
        "folded \
         | f -200 -200, 0 -200, 200 0, 200 200, 0 200, -200 0, \
         | t -200 0, 0 200, 0 0, \
         | t 0 -200, 0 0, 200 0, \
         ; 1:1:2 -200 0 0 200, 2:1:3 0 -200 200 0,",
    ),
    // The bisector at a corner.
    (
        "2 -200 -200 200 -600+400r2",
        "folded \
         | f -200 -200, 200 -200, 200 -600+400r2, \
         | t -200 -200, 200 -600+400r2, -200+400r2 -200, -200+200r2 -200-200r2, \
         ; 1:1:2 -200 -200 200 -600+400r2,",
    ),
    // The bird base.
    (
        "3 -200 0 200 0\n\
         3 0 -200 0 200\n\
         2 -200 -200 200 200\n\
         2 -200 200 200 -200\n\
         2 -200 -200 0 -400+200r2\n\
         2 200 -200 0 -400+200r2\n\
         2 200 -200 400-200r2 0\n\
         2 200 200 400-200r2 0\n\
         2 200 200 0 400-200r2\n\
         2 -200 200 0 400-200r2\n\
         2 -200 200 -400+200r2 0\n\
         2 -200 -200 -400+200r2 0\n\
         3 0 -400+200r2 400-200r2 0\n\
         3 400-200r2 0 0 400-200r2\n\
         3 0 400-200r2 -400+200r2 0\n\
         3 -400+200r2 0 0 -400+200r2",
        "folded \
         | f -200 -200, 0 -200, 0 -400+200r2, \
         | t -200 -200, 0 -400+200r2, 0 -200, \
         | f -200 -200, 0 -200, 0 -400+200r2, \
         | t -200 -200, 0 -400+200r2, 0 -200, \
         | f 0 -200, 0 -400+200r2, -200 -200, \
         | t -200 -200, 0 -400+200r2, 0 -200, \
         | f -200 -200, 0 -200, 0 -400+200r2, \
         | t -200 -200, 0 -400+200r2, 0 -200, \
         | f 0 -400+200r2, 200-200r2 -200, 0 -200, \
         | t 0 -400+200r2, 0 -200, 200-200r2 -200, \
         | f 0 -200, 0 -400+200r2, 200-200r2 -200, \
         | t 0 -200, 200-200r2 -200, 0 -400+200r2, \
         | t 0 -200, -200 -200, 0 -400+200r2, \
         | t 0 -400+200r2, 0 -200, 200-200r2 -200, \
         | f 0 -400+200r2, -200 -200, 0 -200, \
         | t 200-200r2 -200, 0 -400+200r2, 0 -200, \
         | f 200-200r2 -200, 0 -200, 0 -400+200r2, \
         | f 200-200r2 -200, 0 -200, 0 -400+200r2, \
         | f 0 -400+200r2, -200 -200, 0 -200, \
         | t 0 -400+200r2, 0 -200, -200 -200, \
         | t 0 -200, -200 -200, 0 -400+200r2, \
         | f 0 -200, 0 -400+200r2, -200 -200, \
         | t 0 -400+200r2, 0 -200, -200 -200, \
         | f 0 -400+200r2, -200 -200, 0 -200, \
         ; 1:3:4 -200 -200 0 -400+200r2, 2:2:3 -200 -200 0 -200, 3:1:2 -200 -200 0 -400+200r2, \
         4:4:5 0 -200 0 -400+200r2, 5:5:6 -200 -200 0 -400+200r2, 6:6:7 -200 -200 0 -200, \
         7:7:8 -200 -200 0 -400+200r2, 8:3:10 0 -200 0 -400+200r2, 9:6:9 0 -200 0 -400+200r2, \
         10:9:10 200-200r2 -200 0 -400+200r2, 11:2:11 0 -200 0 -400+200r2, \
         12:10:11 200-200r2 -200 0 -200, 13:9:12 200-200r2 -200 0 -200, \
         14:7:12 0 -200 0 -400+200r2, 15:1:13 0 -200 0 -400+200r2, \
         16:11:14 200-200r2 -200 0 -400+200r2, 17:14:15 0 -200 0 -400+200r2, \
         18:13:15 -200 -200 0 -400+200r2, 19:12:17 200-200r2 -200 0 -400+200r2, \
         20:14:18 200-200r2 -200 0 -200, 21:16:17 200-200r2 -200 0 -200, \
         22:16:18 200-200r2 -200 0 -400+200r2, 23:8:19 0 -200 0 -400+200r2, \
         24:17:20 0 -200 0 -400+200r2, 25:19:20 -200 -200 0 -400+200r2, \
         26:18:21 0 -200 0 -400+200r2, 27:15:21 -200 -200 0 -200, 28:16:22 0 -200 0 -400+200r2, \
         29:20:22 -200 -200 0 -200, 30:21:24 -200 -200 0 -400+200r2, 31:23:24 0 -200 0 -400+200r2, \
         32:22:23 -200 -200 0 -400+200r2,",
    ),
    // Three creases at a vertex.
    (
        "2 -200 0 200 0\n\
         2 0 -200 0 0",
        "doesnotclose 3",
    ),
    // Two vertices where the sectors don't alternate to half a turn.
    (
        "3 -200 -50 200 -50\n\
         2 -200 -200 200 200\n\
         3 100 -200 100 200",
        "doesnotclose 2",
    ),
    // A corner that would want more digits than a number has.
    (
        "2 -200 -199.9999847412109375 200 -599.9999847412109375+400r2",
        "foldrange 2",
    ),
];

fn put_face(out: &mut Vec<u8>, face: &FoldedFace) -> Result<(), AllocError> {
    out.extend_from_slice(if face.turned { b" | t" } else { b" | f" })?;
    for p in face.corners.as_slice() {
        put_point(out, p)?;
        out.push(b',')?;
    }
    Ok(())
}

fn put_shape(alloc: Global, out: &mut Vec<u8>, shape: &Folded) -> Result<(), AllocError> {
    out.extend_from_slice(b"folded")?;
    for face in shape.faces() {
        put_face(out, face)?;
    }
    out.extend_from_slice(b" ;")?;
    for crease in shape.creases() {
        let text = format!(in alloc; " {}:{}:{}", crease.piece, crease.a, crease.b)?;
        out.extend_from_slice(text.as_bytes())?;
        put_point(out, crease.image.from())?;
        put_point(out, crease.image.to())?;
        out.push(b',')?;
    }
    Ok(())
}

fn put_fault(alloc: Global, out: &mut Vec<u8>, fault: WireFault) -> Result<(), AllocError> {
    let text = match fault {
        WireFault::DoesNotClose { piece } => format!(in alloc; "doesnotclose {piece}")?,
        WireFault::FoldRange { face } => format!(in alloc; "foldrange {face}")?,
        WireFault::TooManyLines { lines } => format!(in alloc; "toomanylines {lines}")?,
        WireFault::Memory => format!(in alloc; "memory")?,
    };
    out.extend_from_slice(text.as_bytes())?;
    Ok(())
}

fn shape_text(alloc: Global, pattern: &Pattern) -> Result<Vec<u8>, Fail> {
    let map = faces(alloc, pattern)?;
    let mut out = Vec::new(alloc);
    match fold(alloc, &map) {
        Ok(shape) => put_shape(alloc, &mut out, &shape)?,
        Err(fault) => put_fault(alloc, &mut out, fault)?,
    }
    Ok(out)
}

#[test]
fn shapes_are_those_of_the_table(rt: HostRuntime) -> Result<(), Fail> {
    let alloc = rt.alloc();
    for (lines, wanted) in SHAPES {
        let pattern = pattern_of(alloc, Sheet::square(alloc)?, lines.as_bytes())?;
        let text = shape_text(alloc, &pattern)?;
        assert_eq!(rt; text.as_slice(), wanted.as_bytes(), "{lines}");
    }
    Ok(())
}

fn upright(x: Surd, low: Surd, high: Surd) -> (Point, Point) {
    (Point { x, y: low }, Point { x, y: high })
}

/// Mountains from side to side at x = -200 + k (k + 1) / 128, for k from 1 to 200.
fn uneven_strips(alloc: Global) -> Result<Pattern, Fail> {
    let mut pattern = Pattern::empty(Sheet::square(alloc)?);
    for k in 1..201i64 {
        let x = Surd::new(
            k.saturating_mul(k.saturating_add(1)).saturating_sub(25600),
            0,
            7,
        )?;
        let (from, to) = upright(x, Surd::whole(-200), Surd::whole(200));
        pattern = add(alloc, &pattern, Kind::Mountain, &from, &to)?;
    }
    Ok(pattern)
}

#[test]
fn there_are_200_lines_at_most(rt: HostRuntime) -> Result<(), Fail> {
    let alloc = rt.alloc();
    let text = shape_text(alloc, &uneven_strips(alloc)?)?;
    assert_eq!(rt; text.as_slice(), b"toomanylines 204".as_slice());
    Ok(())
}

/// 255 creases a unit apart: all faces but the last lie on the first, the last one sticks out to the left.
#[test]
fn a_chain_of_256_faces_folds(rt: HostRuntime) -> Result<(), Fail> {
    let alloc = rt.alloc();
    let map = faces(alloc, &strips(alloc, 255)?)?;
    let shape = fold(alloc, &map)?;
    assert_eq!(rt; shape.faces().len(), 256);
    assert_eq!(rt; shape.creases().len(), 255);
    let mut turned = false;
    for face in shape.faces() {
        assert_eq!(rt; face.turned, turned);
        turned = !turned;
    }
    if let Some(last) = shape.faces().last() {
        let mut text = Vec::new(alloc);
        put_face(&mut text, last)?;
        assert_eq!(rt;
            text.as_slice(),
            b" | t -199 -200, -344 -200, -344 200, -199 200,".as_slice()
        );
    }
    Ok(())
}

/// The greatest sheet, folded along a crease.
fn folded_greatest(alloc: Global, crease: (Point, Point)) -> Result<Vec<u8>, Fail> {
    let (left, right) = (
        upright_on_greatest(-(1 << 36))?,
        upright_on_greatest(1 << 36)?,
    );
    let corners = [left.0, right.0, right.1, left.1];
    let empty = Pattern::empty(Sheet::new(alloc, &corners)?);
    let (from, to) = crease;
    shape_text(alloc, &add(alloc, &empty, Kind::Valley, &from, &to)?)
}

/// The ends of the upright line at x on the greatest sheet.
fn upright_on_greatest(x: i64) -> Result<(Point, Point), Fail> {
    let greatest = Surd::new(1 << 36, 0, 0)?;
    let least = Surd::new(-(1 << 36), 0, 0)?;
    Ok(upright(Surd::new(x, 0, 0)?, least, greatest))
}

/// The greatest coordinates of the image are those of the greatest whole numbers.
#[test]
fn folded_corners_reach_the_greatest_numbers(rt: HostRuntime) -> Result<(), Fail> {
    let alloc = rt.alloc();
    let wide = folded_greatest(alloc, upright_on_greatest(0)?)?;
    assert_eq!(rt;
        wide.as_slice(),
        b"folded \
         | f -68719476736 -68719476736, 0 -68719476736, 0 68719476736, -68719476736 68719476736, \
         | t 0 -68719476736, -68719476736 -68719476736, -68719476736 68719476736, 0 68719476736, \
         ; 1:1:2 0 -68719476736 0 68719476736,"
            .as_slice()
    );
    let wider = folded_greatest(alloc, upright_on_greatest(-1)?)?;
    assert_eq!(rt; wider.as_slice(), b"foldrange 2".as_slice());
    Ok(())
}

/// A shift may be greater than any coordinate. A fold along the right side is by 2^37 - 2; one of the corner below along
/// the direction of 67.5 degrees is by more still, (1 + r2) 2^36 or so.
#[test]
fn shifts_reach_past_the_greatest_numbers(rt: HostRuntime) -> Result<(), Fail> {
    let alloc = rt.alloc();
    let side = folded_greatest(alloc, upright_on_greatest((1 << 36) - 1)?)?;
    assert_eq!(rt;
        side.as_slice(),
        b"folded \
         | f -68719476736 -68719476736, 68719476735 -68719476736, 68719476735 68719476736, -68719476736 68719476736, \
         | t 68719476735 -68719476736, 68719476734 -68719476736, 68719476734 68719476736, 68719476735 68719476736, \
         ; 1:1:2 68719476735 -68719476736 68719476735 68719476736,"
            .as_slice()
    );
    let steep = (
        Point {
            x: Surd::new((1 << 36) - 2, 0, 0)?,
            y: Surd::new(-(1 << 36), 0, 0)?,
        },
        Point {
            x: Surd::new(1 << 36, 0, 0)?,
            y: Surd::new(2 - (1 << 36), 2, 0)?,
        },
    );
    let corner = folded_greatest(alloc, steep)?;
    assert_eq!(rt;
        corner.as_slice(),
        b"folded \
         | f -68719476736 -68719476736, 68719476734 -68719476736, 68719476736 -68719476734+2r2, \
         68719476736 68719476736, -68719476736 68719476736, \
         | t 68719476734 -68719476736, 68719476734-1r2 -68719476736+1r2, 68719476736 -68719476734+2r2, \
         ; 1:1:2 68719476734 -68719476736 68719476736 -68719476734+2r2,"
            .as_slice()
    );
    Ok(())
}
