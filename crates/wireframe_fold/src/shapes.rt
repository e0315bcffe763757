//! Folded faces.

ghost use Rattle.std.specs.Prelude.{◌≡◌, ◌-◌, ◌^◌, ◌≤◌, ◌∷◌, ◌++◌, [], length, slice_index_or, IfOk, OnOk, MatchOption, MatchResult};
ghost use Rattle.isometry_map.specs.Motion.{IsShiftWithin};
ghost use Rattle.isometry_map.specs.IsometryView.{motion_of};
ghost use Rattle.isometry_map.specs.Folded.{IsImage, AreImages};
ghost use Rattle.wireframe_fold.specs.Folding.{motions_of, AreWithin};
ghost use Rattle.wireframe_fold.specs.Shape.{HasNoImage, HasPointOut, IsFoldedFace, AreFoldedFaces, IsRangeFault};

use crate::faults::WireFault;
use face_builder::FaceMap;
use isometry_map::{FoldedFace, Isometry, PointList};
use plane_geometry::Point;
use std::alloc::{AllocError, Global};

/// The point that a point becomes, if it is of two `Surd`s.
pub(crate) fn folded_point(motion: &Isometry, p: &Point) -> Option<Point>
    requires { IsShiftWithin (2 ^ 72) (motion_of motion.now) }
    ensures { MatchOption result (HasNoImage (motion_of motion.now) p.now)
        (λ q. IsImage (motion_of motion.now) p.now q) }
{
    let image = motion.apply(p);
    match (image.x.narrow(), image.y.narrow()) {
        (Ok(x), Ok(y)) => Some(Point { x, y }),
        (Err(_), _) => None,
        (_, Err(_)) => None,
    }
}

/// The points that these become, if each is of two `Surd`s.
fn folded_points(
    alloc: Global,
    motion: &Isometry,
    points: &[Point],
) -> Result<Option<Vec<Point>>, AllocError>
    requires { IsShiftWithin (2 ^ 72) (motion_of motion.now) }
    ensures { IfOk result (λ o. MatchOption o (HasPointOut (motion_of motion.now) points.now)
        (λ v. AreImages (motion_of motion.now) points.now v.items)) }
{
    let mut folded = Vec::with_capacity(alloc, points.len())?;
    for point in points {
        match folded_point(motion, point) {
            Some(image) => folded.push(image)?,
            None => return Ok(None),
        }
    }
    Ok(Some(folded))
}

/// The folded face with these corners, if each image is of two `Surd`s.
fn folded_face(
    alloc: Global,
    motion: &Isometry,
    corners: &[Point],
) -> Result<Option<FoldedFace>, AllocError>
    requires { IsShiftWithin (2 ^ 72) (motion_of motion.now) }
    ensures { IfOk result (λ o. MatchOption o (HasPointOut (motion_of motion.now) corners.now)
        (λ f. IsFoldedFace (motion_of motion.now) corners.now f)) }
{
    match folded_points(alloc, motion, corners)? {
        Some(points) => Ok(Some(FoldedFace {
            corners: PointList::of(points),
            turned: motion.turned(),
        })),
        None => Ok(None),
    }
}

/// The corners of the face of this number.
fn corners_of(faces: &FaceMap, face: u32) -> &[Point]
    requires least { 1 ≤ face }
    requires most { face ≤ length faces.now.faces }
    ensures { result.now ≡ slice_index_or faces.now.faces (face - 1) [] }
{
    match faces.corners(face) {
        Some(corners) => corners,
        None => unreachable!(),
    }
}

/// Appends a face.
fn push_face(folded: &mut Vec<FoldedFace>, face: FoldedFace) -> Result<(), AllocError>
    ensures { OnOk result (folded.new.items ≡ folded.old.items ++ face ∷ []) }
{
    folded.push(face)?;
    Ok(())
}

/// The folded faces, or the least one with a corner out of range.
pub fn folded_faces(
    alloc: Global,
    faces: &FaceMap,
    motions: &[Isometry],
) -> Result<Vec<FoldedFace>, WireFault>
    requires count { length motions.now ≡ length faces.now.faces }
    requires within { AreWithin (2 ^ 65) motions.now }
    ensures { MatchResult result
        (λ v. AreFoldedFaces (motions_of motions.now) faces.now.faces v.items)
        (λ fault. IsRangeFault (motions_of motions.now) faces.now.faces fault) }
{
    let count = faces.count();
    let mut folded = Vec::with_capacity(alloc, motions.len())?;
    for (i, motion) in motions.iter().enumerate() {
        prove!(i < count as usize);
        let face = i as u32 + 1;
        match folded_face(alloc, motion, corners_of(faces, face))? {
            Some(shape) => push_face(&mut folded, shape)?,
            None => return Err(WireFault::FoldRange { face }),
        }
    }
    Ok(folded)
}
