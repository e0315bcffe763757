//! The faces on the two sides of each piece.

ghost use Rattle.std.specs.Prelude.{◌≡◌, ℕ, ◌+◌, ◌<◌, length, not, IfOk, slice_index_or};
ghost use Rattle.face_builder.specs.Shared.{is_upward, left_face, right_face, shared_from};
ghost use Rattle.face_builder.specs.declared.shared.Sides.{Sides};
ghost use Rattle.face_builder.specs.SideFill.{first_number, sides_with, sides_along, sides_among, half_edges_of_each};

use crate::half_edges::HalfEdge;
use crease_model::Piece;
use plane_geometry::Segment;
use std::alloc::{AllocError, Global};

/// A piece with the faces on its two sides, `a` before `b`. Faces and pieces count from 1.
#[derive(Clone, Copy, Debug, PartialEq, Eq)]
pub struct SharedPiece {
    pub piece: u32,
    pub a: u32,
    pub b: u32,
    pub segment: Segment,
}

/// The numbers of the faces on the left and on the right of a piece, seen from its lesser end; 0 where none
/// was found.
#[derive(Clone, Copy, Debug, PartialEq, Eq)]
pub struct Sides {
    pub left: u32,
    pub right: u32,
}

fn is_upward(half_edge: &HalfEdge) -> bool
    ensures { result ≡ is_upward half_edge.now }
{
    half_edge.start < half_edge.end
}

// The sides of a piece once one of its half-edges was seen at a face.
fn with_side(sides: Sides, face: u32, rising: bool) -> Sides
    ensures { result
        ≡ record {
          left = first_number sides.left rising face;
          right = first_number sides.right (not rising) face;
        } }
{
    let mut sides = sides;
    if rising && sides.left == 0 {
        sides.left = face;
    }
    if !rising && sides.right == 0 {
        sides.right = face;
    }
    sides
}

// Notes the face of a half-edge at its piece.
fn put_half_edge(sides: &mut Vec<Sides>, face: u32, half_edge: &HalfEdge)
    ensures count { length sides.new.items ≡ length sides.old.items }
    ensures value { (k : ℕ) (d : Sides) → k < length sides.old.items
        → slice_index_or sides.new.items k d
        ≡ sides_with (k + 1) face half_edge.now (slice_index_or sides.old.items k d) }
{
    if let Some(piece) = half_edge.piece {
        let place = piece as usize;
        if 0 < place && place <= sides.len() {
            sides[place - 1] = with_side(sides[place - 1], face, is_upward(half_edge));
        }
    }
}

// Notes a face at the pieces of its half-edges.
fn put_face(sides: &mut Vec<Sides>, face: u32, half_edges: &[HalfEdge])
    ensures count { length sides.new.items ≡ length sides.old.items }
    ensures value { (k : ℕ) (d : Sides) → k < length sides.old.items
        → slice_index_or sides.new.items k d
        ≡ sides_along (k + 1) face half_edges.now (slice_index_or sides.old.items k d) }
{
    for half_edge in half_edges {
        put_half_edge(sides, face, half_edge);
    }
}

// Notes all faces at their pieces.
fn put_faces(sides: &mut Vec<Sides>, faces: &[Vec<HalfEdge>])
    requires { length faces.now < 4294967295 }
    ensures count { length sides.new.items ≡ length sides.old.items }
    ensures value { (k : ℕ) (d : Sides) → k < length sides.old.items
        → slice_index_or sides.new.items k d
        ≡ sides_among (k + 1) 1 (half_edges_of_each faces.now) (slice_index_or sides.old.items k d) }
{
    for (i, face) in faces.iter().enumerate() {
        put_face(sides, i as u32 + 1, face.as_slice());
    }
}

// The sides of each piece, by the numbers of the pieces.
fn sides_of(alloc: Global, faces: &[Vec<HalfEdge>], pieces: usize) -> Result<Vec<Sides>, AllocError>
    requires { length faces.now < 4294967295 }
    ensures count { IfOk result (λ sides. length sides.items ≡ pieces) }
    ensures value { IfOk result (λ sides. (k : ℕ) (d : Sides) → k < pieces
        → slice_index_or sides.items k d
        ≡ record {
          left = left_face (half_edges_of_each faces.now) (k + 1);
          right = right_face (half_edges_of_each faces.now) (k + 1);
        }) }
{
    let nothing = Sides { left: 0, right: 0 };
    let mut sides = vec![in alloc; nothing; pieces]?;
    put_faces(&mut sides, faces);
    Ok(sides)
}

/// The pieces with the faces on their sides.
pub fn shared_of(
    alloc: Global,
    faces: &[Vec<HalfEdge>],
    pieces: &[Piece],
) -> Result<Vec<SharedPiece>, AllocError>
    requires faces { length faces.now < 4294967295 }
    requires pieces { length pieces.now < 4294967295 }
    ensures { IfOk result (λ shared. shared.items ≡ shared_from (half_edges_of_each faces.now) 1 pieces.now) }
{
    let sides = sides_of(alloc, faces, pieces.len())?;
    let mut shared = Vec::with_capacity(alloc, pieces.len())?;
    for (i, piece) in pieces.iter().enumerate() {
        let found = sides[i];
        shared.push(SharedPiece {
            piece: i as u32 + 1,
            a: found.left.min(found.right),
            b: found.left.max(found.right),
            segment: piece.segment,
        })?;
    }
    Ok(shared)
}
