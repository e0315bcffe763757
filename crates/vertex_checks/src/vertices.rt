//! The vertices that are checked.

ghost use Rattle.std.specs.Prelude.{◌≡◌, ◌++◌, IfOk, OnOk};
ghost use Rattle.vertex_checks.specs.Vertices.{inner_point, inner_ends, inner_ends_of, vertices_of};

use crease_model::{Pattern, Piece, Place, Sheet};
use plane_geometry::Point;
use std::alloc::{AllocError, Global};

fn push_inner(points: &mut Vec<Point>, sheet: &Sheet, v: &Point) -> Result<(), AllocError>
    ensures { OnOk result (points.new.items ≡ points.old.items ++ inner_point sheet.now v.now) }
{
    if let Place::Inside = sheet.place(v) {
        points.push(*v)?;
    }
    Ok(())
}

fn push_inner_ends(points: &mut Vec<Point>, sheet: &Sheet, piece: &Piece) -> Result<(), AllocError>
    ensures { OnOk result (points.new.items ≡ points.old.items ++ inner_ends sheet.now piece.now) }
{
    push_inner(points, sheet, piece.segment.from())?;
    push_inner(points, sheet, piece.segment.to())
}

fn all_inner_ends(alloc: Global, pattern: &Pattern) -> Result<Vec<Point>, AllocError>
    ensures { IfOk result (λ points. points.items ≡ inner_ends_of pattern.now) }
{
    let sheet = pattern.sheet();
    let mut points = Vec::new(alloc);
    for piece in pattern.pieces() {
        push_inner_ends(&mut points, sheet, piece)?;
    }
    Ok(points)
}

/// The ends of pieces strictly inside the sheet, ascending.
pub fn vertices(alloc: Global, pattern: &Pattern) -> Result<Vec<Point>, AllocError>
    ensures { IfOk result (λ points. points.items ≡ vertices_of pattern.now) }
{
    let mut points = all_inner_ends(alloc, pattern)?;
    points.sort_unstable();
    points.dedup();
    Ok(points)
}
