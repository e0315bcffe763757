//! The lines through folded sides.

ghost use Rattle.std.specs.Prelude.{◌↔◌, ◌⊎◌, ◌+◌, ◌*◌, ◌≤◌, length, IfOk, OnOk};
ghost use Rattle.std.specs.List.{All, Contains};
ghost use Rattle.std.specs.List.Sorted.{IsPermutation, IsSorted};
ghost use Rattle.plane_geometry.specs.declared.Line.{Line};
ghost use Rattle.plane_geometry.specs.Order.{compare_lines};
ghost use Rattle.plane_geometry.specs.Polygon.{sides_of};
ghost use Rattle.face_builder.specs.MapRules.{most_corners};
ghost use Rattle.wireframe_fold.specs.Lines.{IsLineThrough, IsThrough, HasDifferent, HasFewCorners, HasLines};

use isometry_map::FoldedFace;
use plane_geometry::{Line, Point, direction, next_corner};
use std::alloc::{AllocError, Global};

/// Appends the line through a side, if the side has a direction.
fn push_line(lines: &mut Vec<Line>, start: &Point, end: &Point) -> Result<(), AllocError>
    ensures lines { OnOk result ((l : Line) → Contains lines.new.items l
        ↔ (Contains lines.old.items l ⊎ IsLineThrough (record { start = start.now; end = end.now }) l)) }
    ensures few { OnOk result (length lines.new.items ≤ length lines.old.items + 1) }
{
    match direction(start, end) {
        Some(dir) => {
            lines.push(Line::through(start, dir))?;
            Ok(())
        }
        None => Ok(()),
    }
}

/// Appends the lines through the sides of a polygon.
fn push_lines(lines: &mut Vec<Line>, corners: &[Point]) -> Result<(), AllocError>
    ensures lines { OnOk result ((l : Line) → Contains lines.new.items l
        ↔ (Contains lines.old.items l ⊎ IsThrough (sides_of corners.now) l)) }
    ensures few { OnOk result (length lines.new.items ≤ length lines.old.items + length corners.now) }
{
    for (i, start) in corners.iter().enumerate() {
        push_line(lines, start, next_corner(corners, i))?;
    }
    Ok(())
}

/// The lines in order.
fn sorted(mut lines: Vec<Line>) -> Vec<Line>
    ensures same { IsPermutation lines.items result.items }
    ensures order { IsSorted compare_lines result.items }
{
    lines.sort_unstable();
    lines
}

/// How many different lines there are.
fn count_different(lines: Vec<Line>) -> usize
    ensures different { HasDifferent (Contains lines.items) result }
    ensures few { result ≤ length lines.items }
{
    let mut lines = sorted(lines);
    lines.dedup();
    lines.len()
}

/// How many different lines pass through folded sides.
pub fn count_lines(alloc: Global, faces: &[FoldedFace]) -> Result<usize, AllocError>
    requires { All HasFewCorners faces.now }
    ensures count { IfOk result (λ n. HasLines faces.now n) }
    ensures few { IfOk result (λ n. n ≤ length faces.now * most_corners) }
{
    let mut lines = Vec::new(alloc);
    for face in faces {
        push_lines(&mut lines, face.corners.as_slice())?;
    }
    Ok(count_different(lines))
}
