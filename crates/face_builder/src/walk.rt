//! The walk over faces: from face 1, each face reached leads to those across its pieces that were not reached
//! before.

ghost use Rattle.std.specs.Prelude.{◌≡◌, ◌+◌, ◌-◌, ◌<◌, [], length, slice_get, IfOk, OnOk};
ghost use Rattle.face_builder.specs.SideFill.{half_edges_of_each};
ghost use Rattle.face_builder.specs.Walk.{has_step_to, is_reached, other_face, face_across, with_step, with_side, with_neighbours, walked_face, face_half_edges, walk_from, walk_of, first_unreached};

use crate::half_edges::HalfEdge;
use crate::shared::SharedPiece;
use std::alloc::{AllocError, Global};

/// A face that the walk reaches across a piece, from a face reached before. Faces and pieces count from 1.
#[derive(Clone, Copy, Debug, PartialEq, Eq)]
pub struct Step {
    pub face: u32,
    pub from: u32,
    pub piece: u32,
}

fn has_step_to(steps: &[Step], face: u32) -> bool
    ensures { result ≡ has_step_to steps.now face }
{
    steps.iter().any(|step| step.face == face)
}

/// Whether the walk has reached the face.
pub fn is_reached(steps: &[Step], face: u32) -> bool
    ensures { result ≡ is_reached steps.now face }
{
    face == 1 || has_step_to(steps, face)
}

// The face on the other side of a piece.
fn other_face(shared: &SharedPiece, face: u32) -> u32
    ensures { result ≡ other_face shared.now face }
{
    if shared.a == face { shared.b } else { shared.a }
}

// The piece of this number, if there is one.
fn shared_at(shared: &[SharedPiece], piece: u32) -> Option<SharedPiece>
    ensures { result ≡ slice_get shared.now (piece - 1) }
{
    shared.get((piece as usize).saturating_sub(1)).copied()
}

// The face on the other side of the piece of this number.
fn face_across(shared: &[SharedPiece], piece: u32, face: u32) -> u32
    ensures { result ≡ face_across shared.now piece face }
{
    match shared_at(shared, piece) {
        Some(found) => other_face(&found, face),
        None => face,
    }
}

// Appends the step, if its face was not reached before.
fn push_step(steps: &mut Vec<Step>, step: Step) -> Result<(), AllocError>
    ensures { OnOk result (steps.new.items ≡ with_step steps.old.items step) }
{
    if !is_reached(steps.as_slice(), step.face) {
        steps.push(step)?;
    }
    Ok(())
}

// Appends the step across a half-edge of a face, if it is of a piece.
fn push_side(
    steps: &mut Vec<Step>,
    shared: &[SharedPiece],
    from: u32,
    half_edge: &HalfEdge,
) -> Result<(), AllocError>
    ensures { OnOk result (steps.new.items ≡ with_side shared.now from steps.old.items half_edge.now.piece) }
{
    match half_edge.piece {
        Some(piece) => {
            let face = face_across(shared, piece, from);
            push_step(steps, Step { face, from, piece })
        }
        None => Ok(()),
    }
}

// Appends the steps from one face, along its half-edges.
fn push_neighbours(
    steps: &mut Vec<Step>,
    shared: &[SharedPiece],
    from: u32,
    half_edges: &[HalfEdge],
) -> Result<(), AllocError>
    ensures { OnOk result (steps.new.items ≡ with_neighbours shared.now from steps.old.items half_edges.now) }
{
    for half_edge in half_edges {
        push_side(steps, shared, from, half_edge)?;
    }
    Ok(())
}

// The face of this place in the walk.
fn walked_face(steps: &[Step], place: usize) -> Option<u32>
    ensures { result ≡ walked_face steps.now place }
{
    if place == 0 {
        return Some(1);
    }
    steps.get(place - 1).map(|step| step.face)
}

// Appends the steps from the face of this number.
fn push_from(
    steps: &mut Vec<Step>,
    shared: &[SharedPiece],
    faces: &[Vec<HalfEdge>],
    face: u32,
) -> Result<(), AllocError>
    ensures { OnOk result (steps.new.items
        ≡ with_neighbours shared.now face steps.old.items
        (face_half_edges (half_edges_of_each faces.now) face)) }
{
    match faces.get((face as usize).saturating_sub(1)) {
        Some(half_edges) => push_neighbours(steps, shared, face, half_edges.as_slice()),
        None => Ok(()),
    }
}

/// The faces that are reached from face 1, in the order of the walk, without face 1.
#[tactic(auto, unfolding(crate::specs::Walk::walk_of))]
pub fn walk_of(
    alloc: Global,
    shared: &[SharedPiece],
    faces: &[Vec<HalfEdge>],
) -> Result<Vec<Step>, AllocError>
    ensures { IfOk result (λ steps. steps.items ≡ walk_of shared.now (half_edges_of_each faces.now)) }
{
    let mut steps = Vec::new(alloc);
    for (i, turn) in faces.iter().enumerate() {
        let _turn = turn;
        match walked_face(steps.as_slice(), i) {
            Some(face) => push_from(&mut steps, shared, faces, face)?,
            None => return Ok(steps),
        }
    }
    Ok(steps)
}

/// The least face that the walk has not reached, if there is one.
pub fn first_unreached(steps: &[Step], faces: usize) -> Option<u32>
    requires { faces < 4294967295 }
    ensures { result ≡ first_unreached steps.now 1 faces }
{
    for i in 0..faces {
        let face = i as u32 + 1;
        if !is_reached(steps, face) {
            return Some(face);
        }
    }
    None
}
