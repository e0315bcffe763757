//! The faces of patterns, against tables worked by hand or given by a model that shares nothing with the editor.

use cp_text::{LineFault, next_line, next_word, read_line_words, read_point, write_number};
use crease_model::{Kind, Pattern, Sheet};
use crease_store::add;
use face_builder::{FaceFault, FaceMap, faces};
use plane_geometry::Point;
use std::alloc::{AllocError, Global};
use std::test::Fail;
use surd_number::Surd;

/// The corners of a sheet, a line each (none: the square), the lines of a pattern, and its faces: the corners of each,
/// the pieces with the faces that share them, and the faces in the order of the walk; or why it has none.
type Row = (&'static str, &'static str, &'static str);

const FACES: [Row; 15] = [
    // Nothing on the square.
    (
        "",
        "",
        "ok \
         | -200 -200, 200 -200, 200 200, -200 200, \
         ; \
         ; 1",
    ),
    // A cross: four squares.
    (
        "",
        "2 0 -200 0 200\n\
         2 -200 0 0 0\n\
         3 0 0 200 0",
        "ok \
         | -200 -200, 0 -200, 0 0, -200 0, \
         | -200 0, 0 0, 0 200, -200 200, \
         | 0 -200, 200 -200, 200 0, 0 0, \
         | 0 0, 200 0, 200 200, 0 200, \
         ; 1:1:2 2:1:3 3:2:4 4:3:4 \
         ; 1 3 2 4",
    ),
    // A crease that ends inside the sheet.
    ("", "2 0 -200 0 0", "notconvex 0 -200 4"),
    // A crease that touches the border at one end, and another crease at the other.
    (
        "",
        "2 -200 0 200 0\n\
         2 0 -200 0 0",
        "ok \
         | -200 -200, 0 -200, 0 0, -200 0, \
         | -200 0, 0 0, 200 0, 200 200, -200 200, \
         | 0 -200, 200 -200, 200 0, 0 0, \
         ; 1:1:2 2:1:3 3:2:3 \
         ; 1 3 2",
    ),
    // A crease with both ends inside.
    ("", "2 -50 0 50 0", "notconvex -50 0 0"),
    // The waterbomb base.
    (
        "",
        "3 -200 -200 200 200\n\
         3 -200 200 200 -200\n\
         2 -200 0 200 0",
        "ok \
         | -200 -200, 200 -200, 0 0, \
         | -200 -200, 0 0, -200 0, \
         | -200 0, 0 0, -200 200, \
         | -200 200, 0 0, 200 200, \
         | 0 0, 200 0, 200 200, \
         | 0 0, 200 -200, 200 0, \
         ; 1:1:2 2:2:3 3:3:4 4:1:6 5:5:6 6:4:5 \
         ; 1 6 2 5 3 4",
    ),
    // Two corners cut off.
    (
        "",
        "2 -200 0 0 200\n\
         2 0 -200 200 0",
        "ok \
         | -200 -200, 0 -200, 200 0, 200 200, 0 200, -200 0, \
         | -200 0, 0 200, -200 200, \
         | 0 -200, 200 -200, 200 0, \
         ; 1:1:2 2:1:3 \
         ; 1 3 2",
    ),
    // A ring that touches nothing.
    (
        "",
        "2 -100 -100 100 -100\n\
         2 100 -100 100 100\n\
         2 -100 100 100 100\n\
         2 -100 -100 -100 100",
        "notconvex -100 -100 4",
    ),
    // A sheet of 3 sides.
    (
        "0 0\n\
         100 0\n\
         0 100",
        "2 0 0 50 50",
        "ok \
         | 0 0, 100 0, 50 50, \
         | 0 0, 50 50, 0 100, \
         ; 1:1:2 \
         ; 1 2",
    ),
    // A sheet of 5 sides.
    (
        "0 0\n\
         100 0\n\
         100 50\n\
         50 100\n\
         0 100",
        "2 0 0 75 75\n\
         3 100 0 0 100",
        "ok \
         | 0 0, 100 0, 50 50, \
         | 0 0, 50 50, 0 100, \
         | 0 100, 50 50, 75 75, 50 100, \
         | 50 50, 100 0, 100 50, 75 75, \
         ; 1:1:2 2:2:3 3:3:4 4:1:4 \
         ; 1 4 2 3",
    ),
    // A sheet of 16 sides.
    (
        "0 0\n\
         10 0\n\
         20 -10+10r2\n\
         30 10r2\n\
         20+10r2 10+10r2\n\
         20+10r2 20+10r2\n\
         30 30+10r2\n\
         20 40+10r2\n\
         10 30+20r2\n\
         0 30+20r2\n\
         -10 40+10r2\n\
         -20 30+10r2\n\
         -10-10r2 20+10r2\n\
         -10-10r2 10+10r2\n\
         -20 10r2\n\
         -10 -10+10r2",
        "2 0 0 0 30+20r2",
        "ok \
         | -10-10r2 10+10r2, -20 10r2, -10 -10+10r2, 0 0, 0 30+20r2, -10 40+10r2, -20 30+10r2, -10-10r2 20+10r2, \
         | 0 0, 10 0, 20 -10+10r2, 30 10r2, 20+10r2 10+10r2, 20+10r2 20+10r2, 30 30+10r2, 20 40+10r2, 10 30+20r2, 0 30+20r2, \
         ; 1:1:2 \
         ; 1 2",
    ),
    // A point where three creases meet, two of which end at the border.
    (
        "",
        "3 200 100 -100 -200\n\
         3 200 0 -200 400-400r2",
        "ok \
         | -200 -200, -100 -200, 100-50r2 -50r2, -200 400-400r2, \
         | -200 400-400r2, 100-50r2 -50r2, 200 100, 200 200, -200 200, \
         | -100 -200, 200 -200, 200 0, 100-50r2 -50r2, \
         | 100-50r2 -50r2, 200 0, 200 100, \
         ; 1:1:2 2:1:3 3:3:4 4:2:4 \
         ; 1 3 2 4",
    ),
    // Nine faces; a face goes straight on where a crease ends at its side.
    (
        "",
        "3 -200 -50 200 -50\n\
         3 100 100 200 100\n\
         2 -200 -200 200 200\n\
         3 0 -200 -400+400r2 200",
        "ok \
         | -200 -200, 0 -200, -150+150r2 -50, -50 -50, \
         | -200 -200, -50 -50, -200 -50, \
         | -200 -50, -50 -50, 100 100, 100r2 100r2, -400+400r2 200, -200 200, \
         | -50 -50, -150+150r2 -50, -300+300r2 100, 100 100, \
         | 0 -200, 200 -200, 200 -50, -150+150r2 -50, \
         | -150+150r2 -50, 200 -50, 200 100, -300+300r2 100, \
         | 100 100, -300+300r2 100, 100r2 100r2, \
         | -300+300r2 100, 200 100, 200 200, 100r2 100r2, \
         | 100r2 100r2, 200 200, -400+400r2 200, \
         ; 1:1:2 2:2:3 3:1:4 4:3:4 5:1:5 6:4:6 7:5:6 8:4:7 9:3:7 10:7:8 11:6:8 12:3:9 13:8:9 \
         ; 1 5 4 2 6 7 3 8 9",
    ),
    // Creases that end at creases.
    (
        "",
        "3 0 200 -200 0\n\
         2 -200 0 200 0\n\
         2 200 150 -150 -200",
        "ok \
         | -200 -200, -150 -200, 50 0, -200 0, \
         | -200 0, 50 0, 200 150, 200 200, 0 200, \
         | -200 0, 0 200, -200 200, \
         | -150 -200, 200 -200, 200 0, 50 0, \
         | 50 0, 200 0, 200 150, \
         ; 1:2:3 2:1:2 3:1:4 4:4:5 5:2:5 \
         ; 1 4 2 5 3",
    ),
    // Six faces.
    (
        "",
        "3 50 -200 -200 50\n\
         2 200 100 -100 -200\n\
         3 50 -200 50 200\n\
         2 50 -200 50 200",
        "ok \
         | -200 -200, -100 -200, -25 -125, -200 50, \
         | -200 50, -25 -125, 50 -50, 50 200, -200 200, \
         | -100 -200, 50 -200, -25 -125, \
         | -25 -125, 50 -200, 50 -50, \
         | 50 -200, 200 -200, 200 100, 50 -50, \
         | 50 -50, 200 100, 200 200, 50 200, \
         ; 1:1:2 2:1:3 3:3:4 4:2:4 5:4:5 6:2:6 7:5:6 \
         ; 1 3 2 4 6 5",
    ),
];

fn corner_of(line: &[u8]) -> Result<Point, LineFault> {
    match next_word(line) {
        Some((x, rest)) => match next_word(rest) {
            Some((y, _)) => read_point(1, x, y),
            None => Err(LineFault::WrongCount),
        },
        None => Err(LineFault::WrongCount),
    }
}

fn sheet_of(alloc: Global, text: &[u8]) -> Result<Sheet, Fail> {
    let mut corners = Vec::new(alloc);
    let mut rest = text;
    // no text has more lines than bytes
    for _ in 0..text.len() {
        if let Some((line, later)) = next_line(rest) {
            corners.push(corner_of(line)?)?;
            rest = later;
        }
    }
    if corners.len() < 3 || corners.len() > 16 {
        return Ok(Sheet::square(alloc)?);
    }
    Ok(Sheet::new(alloc, corners.as_slice())?)
}

fn with_line(alloc: Global, pattern: Pattern, line: &[u8]) -> Result<Pattern, Fail> {
    match next_word(line) {
        None => Ok(pattern),
        Some((word, words)) => {
            let crease = read_line_words(line, word, words)?;
            let new = add(alloc, &pattern, crease.kind, &crease.from, &crease.to)?;
            Ok(new)
        }
    }
}

pub(crate) fn pattern_of(alloc: Global, sheet: Sheet, text: &[u8]) -> Result<Pattern, Fail> {
    let mut pattern = Pattern::empty(sheet);
    let mut rest = text;
    for _ in 0..text.len() {
        if let Some((line, later)) = next_line(rest) {
            pattern = with_line(alloc, pattern, line)?;
            rest = later;
        }
    }
    Ok(pattern)
}

pub(crate) fn put_point(out: &mut Vec<u8>, p: &Point) -> Result<(), AllocError> {
    out.push(b' ')?;
    write_number(out, &p.x)?;
    out.push(b' ')?;
    write_number(out, &p.y)?;
    Ok(())
}

fn put_corners(out: &mut Vec<u8>, map: &FaceMap) -> Result<(), AllocError> {
    for i in 0..map.count() {
        out.extend_from_slice(b" |")?;
        if let Some(corners) = map.corners(i + 1) {
            for p in corners {
                put_point(out, p)?;
                out.push(b',')?;
            }
        }
    }
    Ok(())
}

fn put_map(alloc: Global, out: &mut Vec<u8>, map: &FaceMap) -> Result<(), AllocError> {
    out.extend_from_slice(b"ok")?;
    put_corners(out, map)?;
    out.extend_from_slice(b" ;")?;
    for s in map.shared() {
        let text = format!(in alloc; " {}:{}:{}", s.piece, s.a, s.b)?;
        out.extend_from_slice(text.as_bytes())?;
    }
    out.extend_from_slice(b" ; 1")?;
    for step in map.walk() {
        let text = format!(in alloc; " {}", step.face)?;
        out.extend_from_slice(text.as_bytes())?;
    }
    Ok(())
}

fn put_fault(alloc: Global, out: &mut Vec<u8>, fault: FaceFault) -> Result<(), AllocError> {
    let text = match fault {
        FaceFault::NotConvex { at, direction } => {
            out.extend_from_slice(b"notconvex")?;
            put_point(out, &at)?;
            format!(in alloc; " {}", direction.number())?
        }
        FaceFault::TooManyFaces { faces } => format!(in alloc; "toomanyfaces {faces}")?,
        FaceFault::Unreached { face } => format!(in alloc; "unreached {face}")?,
        FaceFault::Memory => format!(in alloc; "memory")?,
    };
    out.extend_from_slice(text.as_bytes())?;
    Ok(())
}

fn faces_text(alloc: Global, pattern: &Pattern) -> Result<Vec<u8>, AllocError> {
    let mut out = Vec::new(alloc);
    match faces(alloc, pattern) {
        Ok(map) => put_map(alloc, &mut out, &map)?,
        Err(fault) => put_fault(alloc, &mut out, fault)?,
    }
    Ok(out)
}

#[test]
fn faces_are_those_of_the_tables(rt: HostRuntime) -> Result<(), Fail> {
    let alloc = rt.alloc();
    for (corners, lines, wanted) in FACES {
        let sheet = sheet_of(alloc, corners.as_bytes())?;
        let pattern = pattern_of(alloc, sheet, lines.as_bytes())?;
        let text = faces_text(alloc, &pattern)?;
        assert_eq!(rt; text.as_slice(), wanted.as_bytes(), "{lines}");
    }
    Ok(())
}

/// The square with this many creases from side to side, a unit apart.
pub(crate) fn strips(alloc: Global, count: i32) -> Result<Pattern, Fail> {
    let mut pattern = Pattern::empty(Sheet::square(alloc)?);
    for k in 0..count {
        let x = Surd::whole(k.saturating_sub(199));
        let from = Point {
            x,
            y: Surd::whole(-200),
        };
        let to = Point {
            x,
            y: Surd::whole(200),
        };
        pattern = add(alloc, &pattern, Kind::Mountain, &from, &to)?;
    }
    Ok(pattern)
}

#[test]
fn there_are_256_faces_at_most(rt: HostRuntime) -> Result<(), Fail> {
    let alloc = rt.alloc();
    let many = faces(alloc, &strips(alloc, 255)?)?;
    assert_eq!(rt; many.count(), 256);
    let text = faces_text(alloc, &strips(alloc, 256)?)?;
    assert_eq!(rt; text.as_slice(), b"toomanyfaces 257".as_slice());
    Ok(())
}
