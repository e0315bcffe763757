//! Faces as the lists of their half-edges, and their corners.

ghost use Rattle.std.specs.Prelude.{◌≡◌, ◌≤◌, ◌<◌, ◌++◌, length, map, slice_get, slice_index_or, IfOk, OnOk};
ghost use Rattle.std.specs.Option.{option_map};
ghost use Rattle.face_builder.specs.Cycle.{ArePermuted};
ghost use Rattle.face_builder.specs.View.{corners_at};
ghost use Rattle.face_builder.specs.Faces.{half_edge_in, half_edges_at, led_face, led_faces, corners_of};
ghost use Rattle.face_builder.specs.SideFill.{half_edges_of_each};

use crate::cycles::{cycle_from, leaders};
use crate::half_edges::HalfEdge;
use plane_geometry::Point;
use std::alloc::{AllocError, Global};

fn half_edge_at(half_edges: &[HalfEdge], place: u32) -> Option<HalfEdge>
    ensures { result ≡ slice_get half_edges.now place }
{
    half_edges.get(place as usize).copied()
}

// Appends the half-edge in this place, if there is one.
fn push_at(found: &mut Vec<HalfEdge>, half_edges: &[HalfEdge], place: u32) -> Result<(), AllocError>
    ensures { OnOk result (found.new.items ≡ found.old.items
        ++ half_edge_in (slice_get half_edges.now place)) }
{
    if let Some(half_edge) = half_edge_at(half_edges, place) {
        found.push(half_edge)?;
    }
    Ok(())
}

// The half-edges in these places.
fn half_edges_at(
    alloc: Global,
    half_edges: &[HalfEdge],
    places: &[u32],
) -> Result<Vec<HalfEdge>, AllocError>
    ensures { IfOk result (λ found. found.items ≡ half_edges_at half_edges.now places.now) }
{
    let mut found = Vec::with_capacity(alloc, places.len())?;
    for place in places {
        push_at(&mut found, half_edges, *place)?;
    }
    Ok(found)
}

// The face that the half-edge in this place leads.
fn led_face(
    alloc: Global,
    half_edges: &[HalfEdge],
    nexts: &[u32],
    place: u32,
) -> Result<Vec<HalfEdge>, AllocError>
    ensures { IfOk result (λ face. face.items ≡ led_face half_edges.now nexts.now place) }
{
    let cycle = cycle_from(alloc, nexts, place)?;
    half_edges_at(alloc, half_edges, cycle.as_slice())
}

// The faces that the half-edges in these places lead.
fn faces_led_by(
    alloc: Global,
    half_edges: &[HalfEdge],
    nexts: &[u32],
    leaders: &[u32],
) -> Result<Vec<Vec<HalfEdge>>, AllocError>
    ensures { IfOk result (λ faces. half_edges_of_each faces.items
        ≡ map (led_face half_edges.now nexts.now) leaders.now) }
{
    let mut faces = Vec::new(alloc);
    for leader in leaders {
        faces.push(led_face(alloc, half_edges, nexts, *leader)?)?;
    }
    Ok(faces)
}

/// The faces, by their least half-edges.
pub fn led_faces(
    alloc: Global,
    half_edges: &[HalfEdge],
    nexts: &[u32],
) -> Result<Vec<Vec<HalfEdge>>, AllocError>
    requires bound { length nexts.now < 4294967295 }
    requires permuted { ArePermuted nexts.now }
    ensures value { IfOk result
        (λ faces. half_edges_of_each faces.items ≡ led_faces half_edges.now nexts.now) }
    ensures bound { IfOk result (λ faces. length faces.items < 4294967295) }
{
    let leaders = leaders(alloc, nexts)?;
    let faces = faces_led_by(alloc, half_edges, nexts, leaders.as_slice())?;
    Ok(faces)
}

// The corners of a face.
fn corners_of(alloc: Global, face: &[HalfEdge]) -> Result<Vec<Point>, AllocError>
    ensures { IfOk result (λ corners. corners.items ≡ corners_of face.now) }
{
    let mut corners = Vec::with_capacity(alloc, face.len())?;
    for half_edge in face {
        corners.push(half_edge.start)?;
    }
    Ok(corners)
}

/// The corners of the face of this number, from 1.
pub fn corners_at(corners: &[Vec<Point>], face: u32) -> Option<&[Point]>
    ensures { option_map (λ c. c.now) result ≡ corners_at (map (λ c. c.items) corners.now) face }
{
    match face {
        0 => None,
        _ => match corners.get(face as usize - 1) {
            Some(found) => Some(found.as_slice()),
            None => None,
        },
    }
}

/// The corners of each face.
pub fn corners_of_each(
    alloc: Global,
    faces: &[Vec<HalfEdge>],
) -> Result<Vec<Vec<Point>>, AllocError>
    ensures { IfOk result (λ corners. map (λ c. c.items) corners.items
        ≡ map corners_of (half_edges_of_each faces.now)) }
{
    let mut corners = Vec::new(alloc);
    for face in faces {
        corners.push(corners_of(alloc, face.as_slice())?)?;
    }
    Ok(corners)
}
