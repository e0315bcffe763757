//! Whether the faces are convex.

ghost use Rattle.std.specs.Prelude.{◌≡◌, ◌∷◌, ◌<◌, length, find, nat_eq, slice_index_or};
ghost use Rattle.std.specs.List.{sum};
ghost use Rattle.plane_geometry.specs.DirView.{dir_number};
ghost use Rattle.plane_geometry.specs.Polygon.{turn_of, turns_of};
ghost use Rattle.face_builder.specs.Fan.{nexts_of};
ghost use Rattle.face_builder.specs.Faces.{turns_off, is_reflex, directions_round, is_twisted, first_of};
ghost use Rattle.face_builder.specs.SideFill.{half_edges_of_each};

use crate::cycles::next_of;
use crate::half_edges::HalfEdge;

// Whether a face turns off between a half-edge and the one in the next place.
fn turns_off(half_edges: &[HalfEdge], half_edge: &HalfEdge, next: u32) -> bool
    ensures { result ≡ turns_off half_edge.now (slice_index_or half_edges.now next half_edge.now) }
{
    let after = match half_edges.get(next as usize) {
        Some(after) => after.dir,
        None => half_edge.dir,
    };
    half_edge.dir.turn_to(after) > 7
}

/// The first half-edge after which its face turns off.
#[tactic(auto, unfolding(crate::specs::Fan::nexts_of))]
pub fn first_reflex(half_edges: &[HalfEdge], nexts: &[u32]) -> Option<HalfEdge>
    requires bound { length half_edges.now < 4294967295 }
    requires nexts { nexts.now ≡ nexts_of half_edges.now }
    ensures { result ≡ find (is_reflex half_edges.now) half_edges.now }
{
    for (i, half_edge) in half_edges.iter().enumerate() {
        if turns_off(half_edges, half_edge, next_of(nexts, i as u32)) {
            return Some(*half_edge);
        }
    }
    None
}

// Whether the turns of a face add to 16 steps.
fn turns_round(first: &HalfEdge, rest: &[HalfEdge]) -> bool
    ensures { result ≡ nat_eq (sum (turns_of (directions_round (first.now ∷ rest.now)))) 16 }
{
    let mut before = first.dir;
    let mut turns = 0;
    for half_edge in rest {
        turns += before.turn_to(half_edge.dir);
        if turns > 16 {
            return false;
        }
        before = half_edge.dir;
    }
    turns + before.turn_to(first.dir) == 16
}

fn is_twisted(face: &[HalfEdge]) -> bool
    ensures { result ≡ is_twisted face.now }
{
    match face {
        [first, rest @ ..] => !turns_round(first, rest),
        [] => true,
    }
}

/// The first half-edge of the first face whose turns don't add to 16 steps.
pub fn first_twisted(faces: &[Vec<HalfEdge>]) -> Option<HalfEdge>
    ensures { result ≡ first_of (find is_twisted (half_edges_of_each faces.now)) }
{
    for face in faces {
        if is_twisted(face.as_slice()) {
            return face.as_slice().first().copied();
        }
    }
    None
}
