//! Crease lines and patterns written as text.

ghost use Rattle.std.specs.Prelude.{◌≡◌, ◌++◌, ◌∷◌, OnOk, OnErr, map};
ghost use Rattle.surd_number.specs.Value.{number_of};
ghost use Rattle.plane_geometry.specs.Polygon.{sides_of};
ghost use Rattle.crease_model.specs.OwnLines.{side_line, segment_line, piece_line, auxiliary_line};
ghost use Rattle.cp_text.specs.LineText.{kind_digit, coordinate_text, point_text, bare_point_text, line_body};
ghost use Rattle.cp_text.specs.LineText.{line_text, crease_line, lines_text, pattern_text};
ghost use Rattle.cp_text.specs.Growth.{KeepsFront};

use crate::appending::all_or_nothing;
use crate::line::CpLine;
use crate::number_writing::put_number;
use crease_model::{Kind, Pattern, Piece};
use plane_geometry::{Point, Segment, next_corner};
use std::alloc::AllocError;
use surd_number::Surd;

fn kind_digit(kind: Kind) -> u8
    ensures { result ≡ kind_digit kind }
{
    match kind {
        Kind::Edge => b'1',
        Kind::Mountain => b'2',
        Kind::Valley => b'3',
        Kind::Aux => b'4',
        Kind::Unassigned => b'5',
    }
}

#[tactic(auto, using(crate::proofs::Fronts::fronts))]
fn put_coordinate(out: &mut Vec<u8>, n: &Surd) -> Result<(), AllocError>
    ensures ok { OnOk result (out.new.items ≡ out.old.items ++ coordinate_text n.now) }
    ensures err { OnErr result (KeepsFront out.old.items out.new.items) }
{
    out.push(b' ')?;
    put_number(out, n)
}

#[tactic(auto, using(crate::proofs::Fronts::fronts))]
fn put_point(out: &mut Vec<u8>, point: &Point) -> Result<(), AllocError>
    ensures ok { OnOk result (out.new.items ≡ out.old.items ++ point_text point.now) }
    ensures err { OnErr result (KeepsFront out.old.items out.new.items) }
{
    put_coordinate(out, &point.x)?;
    put_coordinate(out, &point.y)
}

#[tactic(auto, using(crate::proofs::Fronts::fronts))]
fn put_bare_point(out: &mut Vec<u8>, point: &Point) -> Result<(), AllocError>
    ensures ok { OnOk result (out.new.items ≡ out.old.items ++ bare_point_text point.now) }
    ensures err { OnErr result (KeepsFront out.old.items out.new.items) }
{
    put_number(out, &point.x)?;
    out.extend_from_slice(b" ")?;
    put_number(out, &point.y)
}

/// Appends the two coordinates of a point, parted by a space. Want of memory leaves the output as it was.
pub fn write_point(out: &mut Vec<u8>, point: &Point) -> Result<(), AllocError>
    ensures ok { OnOk result (out.new.items ≡ out.old.items ++ bare_point_text point.now) }
    ensures err { OnErr result (out.new.items ≡ out.old.items) }
{
    let before = out.len();
    let written = put_bare_point(out, point);
    all_or_nothing(out, before, written)
}

#[tactic(auto, using(crate::proofs::Fronts::fronts))]
fn put_body(out: &mut Vec<u8>, line: &CpLine) -> Result<(), AllocError>
    ensures ok { OnOk result (out.new.items ≡ out.old.items ++ line_body line.now) }
    ensures err { OnErr result (KeepsFront out.old.items out.new.items) }
{
    out.push(kind_digit(line.kind))?;
    put_point(out, &line.from)?;
    put_point(out, &line.to)
}

// The line, or a part of it before memory ran out.
#[tactic(auto, using(crate::proofs::Fronts::fronts), unfolding(crate::specs::LineText::line_text))]
fn put_line(out: &mut Vec<u8>, line: &CpLine) -> Result<(), AllocError>
    ensures ok { OnOk result (out.new.items ≡ out.old.items ++ line_text line.now) }
    ensures err { OnErr result (KeepsFront out.old.items out.new.items) }
{
    put_body(out, line)?;
    out.push(b'\n')?;
    Ok(())
}

/// Appends a line: the digit of its kind and four coordinates, parted by single spaces, and a line feed. Want of
/// memory leaves the output as it was.
pub fn write_line(out: &mut Vec<u8>, line: &CpLine) -> Result<(), AllocError>
    ensures ok { OnOk result (out.new.items ≡ out.old.items ++ line_text line.now) }
    ensures err { OnErr result (out.new.items ≡ out.old.items) }
{
    let before = out.len();
    let written = put_line(out, line);
    all_or_nothing(out, before, written)
}

#[tactic(auto, using(crate::proofs::Fronts::fronts))]
fn put_sides(out: &mut Vec<u8>, corners: &[Point]) -> Result<(), AllocError>
    ensures ok { OnOk result
        (out.new.items ≡ out.old.items ++ lines_text (map crease_line (map side_line (sides_of corners.now)))) }
    ensures err { OnErr result (KeepsFront out.old.items out.new.items) }
{
    for (i, from) in corners.iter().enumerate() {
        let side = CpLine {
            kind: Kind::Edge,
            from: *from,
            to: *next_corner(corners, i),
        };
        put_line(out, &side)?;
    }
    Ok(())
}

fn put_segment(out: &mut Vec<u8>, kind: Kind, segment: &Segment) -> Result<(), AllocError>
    ensures ok { OnOk result (out.new.items ≡ out.old.items ++ line_text (crease_line (segment_line kind segment.now))) }
    ensures err { OnErr result (KeepsFront out.old.items out.new.items) }
{
    let line = CpLine {
        kind,
        from: *segment.from(),
        to: *segment.to(),
    };
    put_line(out, &line)
}

#[tactic(auto, using(crate::proofs::Fronts::fronts))]
fn put_pieces(out: &mut Vec<u8>, pieces: &[Piece]) -> Result<(), AllocError>
    ensures ok { OnOk result
        (out.new.items ≡ out.old.items ++ lines_text (map crease_line (map piece_line pieces.now))) }
    ensures err { OnErr result (KeepsFront out.old.items out.new.items) }
{
    for piece in pieces {
        put_segment(out, piece.kind, &piece.segment)?;
    }
    Ok(())
}

#[tactic(auto, using(crate::proofs::Fronts::fronts))]
fn put_auxiliary(out: &mut Vec<u8>, lines: &[Segment]) -> Result<(), AllocError>
    ensures ok { OnOk result
        (out.new.items ≡ out.old.items ++ lines_text (map crease_line (map auxiliary_line lines.now))) }
    ensures err { OnErr result (KeepsFront out.old.items out.new.items) }
{
    for line in lines {
        put_segment(out, Kind::Aux, line)?;
    }
    Ok(())
}

// The pattern, or a part of it before memory ran out.
#[tactic(auto, using(crate::proofs::Fronts::fronts))]
fn put_pattern(out: &mut Vec<u8>, pattern: &Pattern) -> Result<(), AllocError>
    ensures ok { OnOk result (out.new.items ≡ out.old.items ++ pattern_text pattern.now) }
    ensures err { OnErr result (KeepsFront out.old.items out.new.items) }
{
    put_sides(out, pattern.sheet().corners())?;
    put_pieces(out, pattern.pieces())?;
    put_auxiliary(out, pattern.aux())
}

/// Appends a pattern: the sides of its sheet as edges, counterclockwise from the least corner, then its pieces and
/// then its auxiliary lines, each in order and from the lesser end to the greater. Want of memory leaves the output
/// as it was.
pub fn write_pattern(out: &mut Vec<u8>, pattern: &Pattern) -> Result<(), AllocError>
    ensures ok { OnOk result (out.new.items ≡ out.old.items ++ pattern_text pattern.now) }
    ensures err { OnErr result (out.new.items ≡ out.old.items) }
{
    let before = out.len();
    let written = put_pattern(out, pattern);
    all_or_nothing(out, before, written)
}
