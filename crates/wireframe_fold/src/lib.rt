//! The flat folding of the faces of a crease pattern: face 1 stays, and each neighbour is reflected in the crease
//! that it shares.
#![tactic(auto)]

ghost use Rattle.std.specs.Prelude.{◌≡◌, ◌↔◌, ◌^◌, ◌≤◌, ℕ, length, Ok, MatchResult, IfOk, IsErrOf, IsTrue};
ghost use Rattle.crease_model.specs.Rules.{most_pieces};
ghost use Rattle.isometry_map.specs.Folded.{FoldedView, are_convex_faces};
ghost use Rattle.wireframe_fold.specs.Folding.{motions_of, AreWithin, IsFolding};
ghost use Rattle.wireframe_fold.specs.Fold.{IsShapeBy, IsShapeFault, IsShape, IsWireFault, HasMemory, HasNoFolding, IsOpenAt, IsOutAt, AreTooManyLines, KeepsSides};
ghost use Rattle.wireframe_fold.specs.Inside.{KeepsInsides};
ghost use Rattle.wireframe_fold.specs.declared.faults.WireFault.TheVariants.{DoesNotClose, FoldRange, TooManyLines};

mod creases;
mod faults;
pub mod laws;
mod lines;
mod motions;
mod shapes;

use crate::creases::shared_images;
use crate::laws::inside_is_image;
use crate::lines::count_lines;
use crate::motions::{along_walk, first_open, tell_places};
use crate::shapes::folded_faces;
use face_builder::FaceMap;
pub use faults::WireFault;
use isometry_map::{Folded, Isometry};
use std::alloc::Global;

/// The most lines through folded sides.
pub const MOST_LINES: usize = 200;

// The shape by the isometries of the folding.
fn shape_by(alloc: Global, faces: &FaceMap, motions: &[Isometry]) -> Result<Folded, WireFault>
    requires folding { IsFolding faces.now (motions_of motions.now) }
    requires within { AreWithin (2 ^ 65) motions.now }
    ensures { MatchResult result (IsShapeBy faces.now (motions_of motions.now))
        (IsShapeFault faces.now (motions_of motions.now)) }
{
    tell_places(faces);
    let folded = folded_faces(alloc, faces, motions)?;
    let lines = count_lines(alloc, folded.as_slice())?;
    if lines > MOST_LINES {
        return Err(WireFault::TooManyLines {
            lines: lines as u32,
        });
    }
    let creases = shared_images(alloc, motions, faces.shared())?;
    Ok(Folded::new(folded, creases))
}

// The folded shape, or why there is none.
fn fold_of(alloc: Global, faces: &FaceMap) -> Result<Folded, WireFault>
    ensures { MatchResult result (IsShape faces.now) (IsWireFault faces.now) }
{
    tell_places(faces);
    let motions = along_walk(alloc, faces)?;
    match first_open(motions.as_slice(), faces.shared()) {
        Some(piece) => Err(WireFault::DoesNotClose { piece }),
        None => shape_by(alloc, faces, motions.as_slice()),
    }
}

/// The flat folding of the faces: face 1 stays, and the isometries of two faces differ by the reflection in each
/// piece that they share.
pub fn fold(alloc: Global, faces: &FaceMap) -> Result<Folded, WireFault>
    ensures does_not_close { (piece : ℕ) → IsErrOf result (DoesNotClose piece)
        ↔ (HasMemory result × IsOpenAt faces.now piece) }
    ensures no_folding { ((piece : ℕ) × IsErrOf result (DoesNotClose piece))
        ↔ (HasMemory result × HasNoFolding faces.now) }
    ensures fold_range { (face : ℕ) → IsErrOf result (FoldRange face)
        ↔ (HasMemory result × IsOutAt faces.now face) }
    ensures too_many_lines { (lines : ℕ) → IsErrOf result (TooManyLines lines)
        ↔ (HasMemory result × AreTooManyLines faces.now lines) }
    ensures shape { (f : FoldedView) → (result ≡ Ok f) ↔ (HasMemory result × IsShape faces.now f) }
    ensures inside { IfOk result (KeepsInsides faces.now) }
    ensures count { IfOk result (λ f. length f.faces ≡ length faces.now.faces) }
    ensures creases { IfOk result (λ f. length f.creases ≤ most_pieces) }
    ensures convex { IfOk result (λ f. IsTrue (are_convex_faces f.faces)) }
    ensures sides { IfOk result (KeepsSides faces.now) }
    ensures exact { MatchResult result (IsShape faces.now) (IsWireFault faces.now) }
{
    tell_places(faces);
    inside_is_image();
    fold_of(alloc, faces)
}
