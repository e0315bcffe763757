//! Half-edges: pieces in their two directions, and the parts of the border counterclockwise.

ghost use Rattle.std.specs.Prelude.{◌≡◌, ◌+◌, ◌∷◌, ◌++◌, ◌<◌, length, IfOk, OnOk};
ghost use Rattle.std.specs.List.{flat_map};
ghost use Rattle.plane_geometry.specs.Polygon.{sides_from, side_number};
ghost use Rattle.face_builder.specs.HalfEdge.{forward, backward, both_ways, parts_from, side_parts, border_parts, half_edges_of};
ghost use Rattle.plane_geometry.specs.DirView.{dir_of};

use crate::vertices::vertices_along;
use crease_model::{Pattern, Piece};
use plane_geometry::{Dir, Point, direction};
use std::alloc::{AllocError, Global};

/// A piece in one of its two directions, or a part of the border between neighbouring vertices,
/// counterclockwise. Half-edges are ordered by `start`, then by `dir`, then by the rest.
#[derive(Clone, Copy, Debug, PartialEq, Eq, PartialOrd, Ord)]
pub struct HalfEdge {
    pub start: Point,
    pub dir: Dir,
    pub end: Point,
    /// The number of the piece, from 1; None on the border.
    pub piece: Option<u32>,
}

/// The piece of this number from its lesser end to its greater one.
pub fn forward(number: u32, piece: &Piece) -> HalfEdge
    ensures { result ≡ forward number piece.now }
{
    HalfEdge {
        start: *piece.segment.from(),
        dir: Dir::modulo(piece.segment.dir().number()),
        end: *piece.segment.to(),
        piece: Some(number),
    }
}

/// The piece of this number from its greater end to its lesser one.
pub fn backward(number: u32, piece: &Piece) -> HalfEdge
    ensures { result ≡ backward number piece.now }
{
    HalfEdge {
        start: *piece.segment.to(),
        dir: Dir::modulo(piece.segment.dir().number() + 8),
        end: *piece.segment.from(),
        piece: Some(number),
    }
}

// Appends the pieces both ways.
fn push_both_ways(half_edges: &mut Vec<HalfEdge>, pieces: &[Piece]) -> Result<(), AllocError>
    requires { length pieces.now < 4294967295 }
    ensures { OnOk result (half_edges.new.items ≡ half_edges.old.items ++ both_ways 1 pieces.now) }
{
    for (i, piece) in pieces.iter().enumerate() {
        let number = i as u32 + 1;
        half_edges.push(forward(number, piece))?;
        half_edges.push(backward(number, piece))?;
    }
    Ok(())
}

// Appends the parts of the border from a point to each of these in turn.
fn push_parts_from(
    half_edges: &mut Vec<HalfEdge>,
    dir: Dir,
    first: Point,
    rest: &[Point],
) -> Result<(), AllocError>
    ensures { OnOk result (half_edges.new.items ≡ half_edges.old.items ++ parts_from dir first rest.now) }
{
    let mut start = first;
    for end in rest {
        half_edges.push(HalfEdge {
            start,
            dir,
            end: *end,
            piece: None,
        })?;
        start = *end;
    }
    Ok(())
}

// The direction of a side, 0 where it has none.
fn side_dir(start: &Point, end: &Point) -> Dir
    ensures { result ≡ dir_of (side_number (record { start = start.now; end = end.now })) }
{
    match direction(start, end) {
        Some(dir) => Dir::modulo(dir.number()),
        None => Dir::modulo(0),
    }
}

// Appends the parts of the side from one corner to the next.
fn push_side(
    half_edges: &mut Vec<HalfEdge>,
    start: &Point,
    end: &Point,
    pieces: &[Piece],
) -> Result<(), AllocError>
    ensures { OnOk result (half_edges.new.items ≡ half_edges.old.items
        ++ side_parts pieces.now (record { start = start.now; end = end.now })) }
{
    let mut points = vertices_along(*half_edges.allocator(), start, end, pieces)?;
    points.push(*end)?;
    push_parts_from(half_edges, side_dir(start, end), *start, points.as_slice())
}

// Appends the parts of the border, from one corner to each of the others in turn and back.
fn push_border_from(
    half_edges: &mut Vec<HalfEdge>,
    first: &Point,
    rest: &[Point],
    pieces: &[Piece],
) -> Result<(), AllocError>
    ensures { OnOk result (half_edges.new.items ≡ half_edges.old.items
        ++ flat_map (side_parts pieces.now) (sides_from first.now (first.now ∷ rest.now))) }
{
    let mut start = first;
    for end in rest {
        push_side(half_edges, start, end, pieces)?;
        start = end;
    }
    push_side(half_edges, start, first, pieces)
}

// Appends the parts of the border.
fn push_border(
    half_edges: &mut Vec<HalfEdge>,
    corners: &[Point],
    pieces: &[Piece],
) -> Result<(), AllocError>
    ensures { OnOk result (half_edges.new.items ≡ half_edges.old.items
        ++ border_parts corners.now pieces.now) }
{
    match corners {
        [first, rest @ ..] => push_border_from(half_edges, first, rest, pieces),
        [] => Ok(()),
    }
}

/// The half-edges of a pattern, by start, then direction.
pub fn half_edges_of(alloc: Global, pattern: &Pattern) -> Result<Vec<HalfEdge>, AllocError>
    ensures value { IfOk result (λ half_edges. half_edges.items ≡ half_edges_of pattern.now) }
    ensures bound { IfOk result (λ half_edges. length half_edges.items < 4294967295) }
{
    let pieces = pattern.pieces();
    let mut half_edges = Vec::with_capacity(alloc, 2 * pieces.len())?;
    push_both_ways(&mut half_edges, pieces)?;
    push_border(&mut half_edges, pattern.sheet().corners(), pieces)?;
    half_edges.sort_unstable();
    Ok(half_edges)
}
