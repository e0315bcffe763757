//! The images of creases.

ghost use Rattle.std.specs.Prelude.{◌^◌, length, IfOk};
ghost use Rattle.std.specs.List.{All};
ghost use Rattle.plane_geometry.specs.SegmentView.{lesser_end, greater_end};
ghost use Rattle.isometry_map.specs.Motion.{IsShiftWithin};
ghost use Rattle.isometry_map.specs.IsometryView.{motion_of};
ghost use Rattle.isometry_map.specs.Folded.{IsImage};
ghost use Rattle.wireframe_fold.specs.Folding.{motions_of, AreWithin, HasPlaces, IsClosedAt};
ghost use Rattle.wireframe_fold.specs.Crease.{HasImage, HasEndImages, HasSharedEnds, IsCreaseImage, IsSharedImage, AreSharedImages};

use crate::motions::face_motion;
use crate::shapes::folded_point;
use face_builder::SharedPiece;
use isometry_map::{CreaseImage, Isometry};
use plane_geometry::{Point, Segment};
use std::alloc::{AllocError, Global};

/// The point that a point becomes, which is of two `Surd`s.
fn image_of(motion: &Isometry, p: &Point) -> Point
    requires within { IsShiftWithin (2 ^ 72) (motion_of motion.now) }
    requires image { HasImage (motion_of motion.now) p.now }
    ensures { IsImage (motion_of motion.now) p.now result }
{
    match folded_point(motion, p) {
        Some(image) => image,
        None => unreachable!(),
    }
}

/// Where a crease comes to lie.
fn folded_crease(motion: &Isometry, crease: &Segment) -> Segment
    requires within { IsShiftWithin (2 ^ 72) (motion_of motion.now) }
    requires images { HasEndImages (motion_of motion.now) crease.now }
    ensures { IsCreaseImage (motion_of motion.now) crease.now result }
{
    let from = image_of(motion, crease.from());
    let to = image_of(motion, crease.to());
    match Segment::new(&from, &to) {
        Ok(image) => image,
        Err(_) => unreachable!(),
    }
}

/// Where a shared piece comes to lie: the isometry of its second face would give the same.
fn shared_image(motions: &[Isometry], shared: &SharedPiece) -> CreaseImage
    requires places { HasPlaces (length motions.now) shared.now }
    requires within { AreWithin (2 ^ 65) motions.now }
    requires closed { IsClosedAt (motions_of motions.now) shared.now }
    requires images { HasSharedEnds (motions_of motions.now) shared.now }
    ensures { IsSharedImage (motions_of motions.now) shared.now result }
{
    CreaseImage {
        piece: shared.piece,
        a: shared.a,
        b: shared.b,
        image: folded_crease(face_motion(motions, shared.a), &shared.segment),
    }
}

/// Where the shared pieces come to lie.
pub fn shared_images(
    alloc: Global,
    motions: &[Isometry],
    shared: &[SharedPiece],
) -> Result<Vec<CreaseImage>, AllocError>
    requires places { All (HasPlaces (length motions.now)) shared.now }
    requires within { AreWithin (2 ^ 65) motions.now }
    requires closed { All (IsClosedAt (motions_of motions.now)) shared.now }
    requires images { All (HasSharedEnds (motions_of motions.now)) shared.now }
    ensures { IfOk result (λ v. AreSharedImages (motions_of motions.now) shared.now v.items) }
{
    let mut images = Vec::with_capacity(alloc, shared.len())?;
    for piece in shared {
        images.push(shared_image(motions, piece))?;
    }
    Ok(images)
}
