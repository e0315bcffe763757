//! The isometries of the faces.

ghost use Rattle.std.specs.Prelude.{◌≡◌, ℕ, ◌+◌, ◌-◌, ◌*◌, ◌^◌, ◌<◌, ◌≤◌, ◌↔◌, length, Some, slice_get, IfOk, IsTrue, MatchOption};
ghost use Rattle.std.specs.List.{All};
ghost use Rattle.isometry_map.specs.Motion.{IsComposition, IsReflection, IsSameMap, IsShiftWithin};
ghost use Rattle.isometry_map.specs.IsometryView.{motion_of};
ghost use Rattle.face_builder.specs.Faces.{most_faces};
ghost use Rattle.face_builder.specs.MapRules.{AreFaces};
ghost use Rattle.wireframe_fold.specs.Folding.{motions_of, motion_at, mirror_in, AreWithin, IsStepTo, HasPlaces, IsStepWithin, IsClosedAt, AreAlongWalk, IsLeastOpen};

use face_builder::{FaceMap, SharedPiece, Step};
use isometry_map::Isometry;
use plane_geometry::{Line, Segment};
use std::alloc::{AllocError, Global};

/// The reflection in a crease.
fn mirror(crease: &Segment) -> Isometry
    ensures mirror { IsReflection (motion_of result) }
    ensures same { IsSameMap (motion_of result) (mirror_in crease.now) }
{
    Isometry::reflection(&Line::through(crease.from(), crease.dir()))
}

/// An isometry after the reflection in a crease.
fn across(motion: &Isometry, crease: &Segment) -> Isometry
    requires { IsShiftWithin (2 ^ 72) (motion_of motion.now) }
    ensures across { IsComposition (motion_of result) (motion_of motion.now) (mirror_in crease.now) }
    ensures within { (most : ℕ) →
        IsShiftWithin most (motion_of motion.now) → IsShiftWithin (most + 2 ^ 57) (motion_of result) }
{
    motion.after(&mirror(crease))
}

/// The isometry of the face of this number.
pub fn face_motion(motions: &[Isometry], face: u32) -> &Isometry
    requires least { 1 ≤ face }
    requires most { face ≤ length motions.now }
    ensures value { motion_of result.now ≡ motion_at (motions_of motions.now) face }
    ensures within { (most : ℕ) → AreWithin most motions.now → IsShiftWithin most (motion_of result.now) }
{
    &motions[face as usize - 1]
}

/// Whether both are one map of points.
fn is_same(s: &Isometry, t: &Isometry) -> bool
    ensures { IsTrue result ↔ IsSameMap (motion_of s.now) (motion_of t.now) }
{
    s == t
}

/// The piece of this number.
fn piece_at(shared: &[SharedPiece], piece: u32) -> &SharedPiece
    requires least { 1 ≤ piece }
    requires most { piece ≤ length shared.now }
    ensures { slice_get shared.now (piece - 1) ≡ Some result.now }
{
    &shared[piece as usize - 1]
}

/// What the rules of faces say of numbers of faces and pieces.
pub fn tell_places(faces: &FaceMap)
    ensures rules { AreFaces faces.now }
    ensures steps { All (IsStepWithin faces.now) faces.now.walk }
    ensures shared { All (HasPlaces (length faces.now.faces)) faces.now.shared }
    ensures short { length faces.now.walk < most_faces }
{
    // tells the rules of the faces
    let _ = faces.count();
}

/// The isometry of the face that a step leads to.
fn step_motion(motions: &[Isometry], shared: &[SharedPiece], step: &Step) -> Isometry
    requires from { 1 ≤ step.now.from }
    requires from_most { step.now.from ≤ length motions.now }
    requires piece { 1 ≤ step.now.piece }
    requires piece_most { step.now.piece ≤ length shared.now }
    requires within { AreWithin (2 ^ 72) motions.now }
    ensures value { IsStepTo shared.now (motions_of motions.now) step.now (motion_of result) }
    ensures within { (most : ℕ) →
        AreWithin most motions.now → IsShiftWithin (most + 2 ^ 57) (motion_of result) }
{
    let piece = piece_at(shared, step.piece);
    across(face_motion(motions, step.from), &piece.segment)
}

/// The isometries of the faces along the walk: face 1 stays.
pub fn along_walk(alloc: Global, faces: &FaceMap) -> Result<Vec<Isometry>, AllocError>
    ensures along { IfOk result (λ v. AreAlongWalk faces.now (motions_of v.items)) }
    ensures count { IfOk result (λ v. length v.items ≡ length faces.now.faces) }
    ensures within { IfOk result (λ v. AreWithin (2 ^ 65) v.items) }
{
    tell_places(faces);
    let mut motions = vec![in alloc; Isometry::identity(); faces.count() as usize]?;
    let shared = faces.shared();
    for step in faces.walk() {
        let motion = step_motion(motions.as_slice(), shared, step);
        motions[step.face as usize - 1] = motion;
    }
    Ok(motions)
}

/// Whether the isometries on the two sides of a piece differ by the reflection in it.
fn is_closed(motions: &[Isometry], shared: &SharedPiece) -> bool
    requires places { HasPlaces (length motions.now) shared.now }
    requires within { AreWithin (2 ^ 65) motions.now }
    ensures { IsTrue result ↔ IsClosedAt (motions_of motions.now) shared.now }
{
    let there = across(face_motion(motions, shared.a), &shared.segment);
    is_same(face_motion(motions, shared.b), &there)
}

/// The least piece whose faces do not differ by the reflection in it.
pub fn first_open(motions: &[Isometry], shared: &[SharedPiece]) -> Option<u32>
    requires places { All (HasPlaces (length motions.now)) shared.now }
    requires within { AreWithin (2 ^ 65) motions.now }
    ensures { MatchOption result (All (IsClosedAt (motions_of motions.now)) shared.now)
        (λ c. IsLeastOpen (motions_of motions.now) shared.now c) }
{
    for piece in shared {
        if !is_closed(motions, piece) {
            return Some(piece.piece);
        }
    }
    None
}
