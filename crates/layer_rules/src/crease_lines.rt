//! Creases by the lines that their images lie on.

ghost use Rattle.std.specs.Prelude.{◌≡◌, ◌↔◌, ◌≤◌, length, IfOk};
ghost use Rattle.std.specs.List.{AllZip, Contains};
ghost use Rattle.std.specs.List.Sorted.{IsSorted};
ghost use Rattle.layer_rules.specs.CreaseLines.{IsLineThrough, IsWithLine, compare_by_line, AreByLine};

use isometry_map::CreaseImage;
use plane_geometry::{Line, Segment};
use std::alloc::{AllocError, Global};

/// A crease, and the line that its image lies on.
#[derive(Clone, Copy)]
pub(crate) struct LinedCrease {
    pub line: Line,
    pub crease: CreaseImage,
}

/// The line that a segment lies on.
pub(crate) fn line_of(s: &Segment) -> Line
    ensures { IsLineThrough s.now result }
{
    Line::through(s.from(), s.dir())
}

/// The crease with the line of its image.
fn with_line(crease: &CreaseImage) -> LinedCrease
    ensures { IsWithLine crease.now result }
{
    LinedCrease {
        line: line_of(&crease.image),
        crease: *crease,
    }
}

/// The creases with their lines, in the order of the creases.
fn with_lines(alloc: Global, creases: &[CreaseImage]) -> Result<Vec<LinedCrease>, AllocError>
    ensures { IfOk result (λ v. AllZip IsWithLine creases.now v.items) }
{
    let mut lined = Vec::with_capacity(alloc, creases.len())?;
    for crease in creases {
        lined.push(with_line(crease))?;
    }
    Ok(lined)
}

/// The creases with their lines, those on one line together. These keep their order, so that rules are found almost
/// sorted, which their last sort is quickest at.
pub(crate) fn by_line(
    alloc: Global,
    creases: &[CreaseImage],
) -> Result<Vec<LinedCrease>, AllocError>
    ensures lined { IfOk result (λ v. AreByLine creases.now v.items) }
    ensures count { IfOk result (λ v. length v.items ≡ length creases.now) }
{
    let mut lined = with_lines(alloc, creases)?;
    lined.sort_by_key(|x| x.line)?;
    Ok(lined)
}

/// Those on the line, of creases that are sorted by their lines.
pub(crate) fn on_line<'a>(lined: &'a [LinedCrease], line: &Line) -> &'a [LinedCrease]
    requires { IsSorted compare_by_line lined.now }
    ensures lined { (x : LinedCrease) → Contains result.now x ↔ (Contains lined.now x × (x.line ≡ line.now)) }
    ensures few { length result.now ≤ length lined.now }
{
    let start = lined.partition_point(|x| x.line.cmp(line).is_lt());
    let (_before, rest) = lined.split_at(start);
    let end = rest.partition_point(|x| x.line.cmp(line).is_le());
    let (found, _after) = rest.split_at(end);
    found
}
