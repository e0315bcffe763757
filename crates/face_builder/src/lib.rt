//! The faces of a crease pattern.
#![tactic(auto)]

ghost use Rattle.std.specs.Prelude.{◌≡◌, ◌↔◌, ℕ, ◌<◌, length, None, Contains, MatchResult, IfOk, IsErrOf};
ghost use Rattle.std.specs.Option.{option_map};
ghost use Rattle.face_builder.specs.Cycle.{ArePermuted};
ghost use Rattle.face_builder.specs.Fan.{nexts_of};
ghost use Rattle.face_builder.specs.SideFill.{half_edges_of_each};
ghost use Rattle.face_builder.specs.HalfEdge.{half_edges_of};
ghost use Rattle.face_builder.specs.HalfEdgeKinds.{IsHalfEdge};
ghost use Rattle.face_builder.specs.declared.half_edges.HalfEdge.{HalfEdge};
ghost use Rattle.face_builder.specs.MapRules.{AreFaces};
ghost use Rattle.face_builder.specs.Round.{AreParted};
ghost use Rattle.face_builder.specs.View.{corners_at};
ghost use Rattle.face_builder.specs.WalkOrder.{IsWalkOf};
ghost use Rattle.face_builder.specs.Faces.{bad_half_edge, faces_among, convex_refusal, size_refusal, map_among, face_refusal, face_map_of, IsNotConvexAt, AreTooMany, IsUnreached, HasMemory, IsFaceMap, IsFaceFault};
ghost use Rattle.face_builder.specs.declared.faults.FaceFault.TheVariants.{NotConvex, TooManyFaces, Unreached};
ghost use Rattle.plane_geometry.specs.declared.Point.{Point};
ghost use Rattle.plane_geometry.specs.declared.Dir.{Dir};

mod convexity;
mod cycles;
mod fans;
mod faults;
mod half_edges;
mod outlines;
mod shared;
mod vertices;
mod walk;

use crate::convexity::{first_reflex, first_twisted};
use crate::fans::nexts_of;
use crate::half_edges::{HalfEdge, half_edges_of};
use crate::outlines::{corners_at, corners_of_each, led_faces};
use crate::shared::shared_of;
use crate::walk::{first_unreached, walk_of};
use crease_model::{Pattern, Piece};
pub use faults::FaceFault;
use plane_geometry::Point;
pub use shared::SharedPiece;
use std::alloc::{AllocError, Global};
use std::marker::Model;
pub use walk::Step;

/// The most faces.
pub const MOST_FACES: usize = 256;

/// The numbered faces of a pattern, seen as the corners of each face, the pieces that faces share, and the
/// walk.
#[derive(Drop)]
pub struct FaceMap {
    corners: Vec<Vec<Point>>,
    shared: Vec<SharedPiece>,
    walk: Vec<Step>,
}

impl Model for FaceMap {
    ghost use Rattle.std.specs.Prelude.{map};
    ghost use Rattle.face_builder.specs.View.{FaceMapView};
    ghost use Rattle.face_builder.specs.MapRules.{AreFaces};

    ghost Value = { FaceMapView };

    ghost view = { λ m. record {
      faces = map (λ c. c.items) m.corners.items;
      shared = m.shared.items;
      walk = m.walk.items;
    } };

    ghost invariant = { λ m. AreFaces (record {
      faces = map (λ c. c.items) m.corners.items;
      shared = m.shared.items;
      walk = m.walk.items;
    }) };
}

fn not_convex(half_edge: HalfEdge) -> FaceFault
    ensures { result ≡ NotConvex half_edge.start half_edge.dir }
{
    FaceFault::NotConvex {
        at: half_edge.start,
        direction: half_edge.dir,
    }
}

// The faces as their half-edges, where each is convex.
#[tactic(auto, unfolding(crate::specs::Faces::faces_among))]
fn convex_faces(alloc: Global, half_edges: &[HalfEdge]) -> Result<Vec<Vec<HalfEdge>>, FaceFault>
    requires bound { length half_edges.now < 4294967295 }
    requires permuted { ArePermuted (nexts_of half_edges.now) }
    ensures value { MatchResult result
        (λ faces. (convex_refusal half_edges.now ≡ None)
        × (half_edges_of_each faces.items ≡ faces_among half_edges.now))
        (λ fault. IsFaceFault fault (convex_refusal half_edges.now)) }
    ensures bound { IfOk result (λ faces. length faces.items < 4294967295) }
{
    let nexts = nexts_of(alloc, half_edges)?;
    if let Some(half_edge) = first_reflex(half_edges, nexts.as_slice()) {
        return Err(not_convex(half_edge));
    }
    let faces = led_faces(alloc, half_edges, nexts.as_slice())?;
    match first_twisted(faces.as_slice()) {
        Some(half_edge) => Err(not_convex(half_edge)),
        None => Ok(faces),
    }
}

// The map of these faces, where they are not too many, and each is reached.
fn map_among(alloc: Global, faces: &[Vec<HalfEdge>], pieces: &[Piece]) -> Result<FaceMap, FaceFault>
    requires faces { length faces.now < 4294967295 }
    requires pieces { length pieces.now < 4294967295 }
    requires rules { size_refusal (half_edges_of_each faces.now) pieces.now ≡ None
        → AreFaces (map_among (half_edges_of_each faces.now) pieces.now) }
    ensures { MatchResult result
        (λ m. (size_refusal (half_edges_of_each faces.now) pieces.now ≡ None)
        × (m ≡ map_among (half_edges_of_each faces.now) pieces.now))
        (λ fault. IsFaceFault fault (size_refusal (half_edges_of_each faces.now) pieces.now)) }
{
    if faces.len() > MOST_FACES {
        return Err(FaceFault::TooManyFaces {
            faces: faces.len() as u32,
        });
    }
    let shared = shared_of(alloc, faces, pieces)?;
    let walk = walk_of(alloc, shared.as_slice(), faces)?;
    match first_unreached(walk.as_slice(), faces.len()) {
        Some(face) => Err(FaceFault::Unreached { face }),
        None => Ok(FaceMap {
            corners: corners_of_each(alloc, faces)?,
            shared,
            walk,
        }),
    }
}

// The map of a pattern.
#[tactic(auto, unfolding(crate::specs::Faces::face_refusal, crate::specs::Faces::face_map_of))]
fn map_of(alloc: Global, pattern: &Pattern) -> Result<FaceMap, FaceFault>
    ensures { MatchResult result (λ m. IsFaceMap m pattern.now)
        (λ fault. IsFaceFault fault (face_refusal pattern.now)) }
{
    // tells the rules of the sheet
    let _ = pattern.sheet();
    let pieces = pattern.pieces();
    let half_edges = half_edges_of(alloc, pattern)?;
    let faces = convex_faces(alloc, half_edges.as_slice())?;
    map_among(alloc, faces.as_slice(), pieces)
}

/// The faces of a pattern.
pub fn faces(alloc: Global, pattern: &Pattern) -> Result<FaceMap, FaceFault>
    ensures rules { IfOk result (λ m. AreFaces m) }
    ensures half_edges { (h : HalfEdge) → Contains (half_edges_of pattern.now) h ↔ IsHalfEdge pattern.now h }

    // How half-edges follow one another, the faces, and the walk, also where the pattern is refused.
    ensures parted { AreParted pattern.now }
    ensures walk { bad_half_edge (half_edges_of pattern.now) ≡ None → IsWalkOf pattern.now }

    ensures not_convex { (at : Point) (direction : Dir) → IsErrOf result (NotConvex at direction)
        ↔ (HasMemory result × IsNotConvexAt pattern.now at direction) }
    ensures too_many { (n : ℕ) → IsErrOf result (TooManyFaces n)
        ↔ (HasMemory result × AreTooMany pattern.now n) }
    ensures unreached { (face : ℕ) → IsErrOf result (Unreached face)
        ↔ (HasMemory result × IsUnreached pattern.now face) }
    ensures exact { MatchResult result (λ m. IsFaceMap m pattern.now)
        (λ fault. IsFaceFault fault (face_refusal pattern.now)) }
{
    // tells the rules of the sheet and of the pieces
    let _ = pattern.sheet();
    let _ = pattern.pieces();
    map_of(alloc, pattern)
}

impl FaceMap {
    /// How many faces there are.
    pub fn count(&self) -> u32
        ensures value { result ≡ length self.now.faces }
        ensures rules { AreFaces self.now }
    {
        self.corners.len() as u32
    }

    /// The corners of the face of this number, from 1, counterclockwise from the least one.
    pub fn corners(&self, face: u32) -> Option<&[Point]>
        ensures { option_map (λ c. c.now) result ≡ corners_at self.now.faces face }
    {
        corners_at(self.corners.as_slice(), face)
    }

    /// The pieces, with the faces that share them.
    pub fn shared(&self) -> &[SharedPiece]
        ensures value { result.now ≡ self.now.shared }
        ensures rules { AreFaces self.now }
    {
        self.shared.as_slice()
    }

    /// The faces that are reached from face 1, in the order in which they are reached, without face 1.
    pub fn walk(&self) -> &[Step]
        ensures value { result.now ≡ self.now.walk }
        ensures rules { AreFaces self.now }
    {
        self.walk.as_slice()
    }
}
