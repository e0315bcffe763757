//! What is strictly inside the folded faces of a shape, as regions of the plane.

ghost use Rattle.std.specs.Prelude.{◌≡◌, ◌↔◌, ◌-◌, ◌≤◌, length, Some, slice_get, IfOk, IsTrue};
ghost use Rattle.plane_geometry.specs.Position.{Position};
ghost use Rattle.open_region.specs.Region.{IsInRegion};
ghost use Rattle.isometry_map.specs.Folded.{is_convex_face, are_convex_faces};
ghost use Rattle.layer_rules.specs.Faces.{IsInside};
ghost use Rattle.layer_rules.specs.Insides.{IsInsideOf, AreInsides};

use isometry_map::{CreaseImage, Folded, FoldedFace};
use open_region::Region;
use std::alloc::{AllocError, Global};
use std::marker::Model;

/// What is strictly inside a folded face.
fn inside(alloc: Global, face: &FoldedFace) -> Result<Region, AllocError>
    requires { IsTrue (is_convex_face face.now) }
    ensures { IfOk result (λ region. IsInsideOf face.now region) }
{
    if !face.turned {
        return Ok(Region::of_polygon(face.corners.as_slice()));
    }
    let mut corners = Vec::new(alloc);
    corners.extend_from_slice(face.corners.as_slice())?;
    corners.reverse();
    Ok(Region::of_polygon(corners.as_slice()))
}

/// What is strictly inside each folded face, in the order of the faces.
fn regions_of(alloc: Global, faces: &[FoldedFace]) -> Result<Vec<Region>, AllocError>
    requires { IsTrue (are_convex_faces faces.now) }
    ensures { IfOk result (λ v. AreInsides faces.now v.items) }
{
    let mut regions = Vec::with_capacity(alloc, faces.len())?;
    for face in faces {
        regions.push(inside(alloc, face)?)?;
    }
    Ok(regions)
}

/// The region of the face of this number.
fn region_of(regions: &[Region], face: u32) -> &Region
    requires first { 1 ≤ face }
    requires last { face ≤ length regions.now }
    ensures { slice_get regions.now (face - 1) ≡ Some result.now }
{
    &regions[face as usize - 1]
}

/// A folded shape with the region strictly inside each of its faces. It is seen as the shape.
#[derive(Drop)]
pub struct Insides {
    folded: Folded,
    regions: Vec<Region>,
}

impl Model for Insides {
    ghost use Rattle.isometry_map.specs.Folded.{FoldedView};
    ghost use Rattle.layer_rules.specs.Insides.{AreInsides};

    ghost Value = { FoldedView };

    ghost view = { λ s. s.folded };

    ghost invariant = { λ s. AreInsides s.folded.faces s.regions.items };
}

impl Insides {
    /// The shape with the regions of its faces.
    pub fn of(alloc: Global, folded: Folded) -> Result<Insides, AllocError>
        ensures { IfOk result (λ shape. shape ≡ folded) }
    {
        let regions = regions_of(alloc, folded.faces())?;
        Ok(Insides { folded, regions })
    }

    /// The folded shape.
    pub fn folded(&self) -> &Folded
        ensures { result.now ≡ self.now }
    {
        &self.folded
    }

    /// The folded shape, without the regions.
    pub fn into_folded(self) -> Folded
        ensures { result ≡ self }
    {
        self.folded
    }

    /// The images of the shared pieces.
    pub(crate) fn creases(&self) -> &[CreaseImage]
        ensures { result.now ≡ self.now.creases }
    {
        self.folded.creases()
    }

    /// The number of faces.
    pub(crate) fn count(&self) -> usize
        ensures { result ≡ length self.now.faces }
    {
        self.folded.faces().len()
    }

    /// What is strictly inside the face of this number.
    pub(crate) fn region(&self, face: u32) -> &Region
        requires first { 1 ≤ face }
        requires last { face ≤ length self.now.faces }
        ensures { (p : Position) → IsInRegion p result.now ↔ IsInside self.now face p }
    {
        region_of(self.regions.as_slice(), face)
    }
}

/// Whether some point of the plane is in both regions. Where opposite lines of the two leave nothing between them, their
/// offsets alone show that there is none.
pub(crate) fn overlap(first: &Region, second: &Region) -> bool
    ensures { IsTrue result ↔
        ((p : Position) × IsInRegion p first.now × IsInRegion p second.now) }
{
    if first.is_apart(second) {
        return false;
    }
    have_common_point(first, second)
}

/// Whether some point of the plane is in both regions, with no look at their offsets before.
pub(crate) fn have_common_point(first: &Region, second: &Region) -> bool
    ensures { IsTrue result ↔
        ((p : Position) × IsInRegion p first.now × IsInRegion p second.now) }
{
    first.both(second).is_open_nonempty()
}
