//! The half-edges that leave a vertex, and the one that goes on round a face.

ghost use Rattle.std.specs.Prelude.{◌≡◌, ◌∷◌, ◌++◌, ◌<◌, [], length, IfOk, OnOk};
ghost use Rattle.plane_geometry.specs.DirView.{dir_number};
ghost use Rattle.plane_geometry.specs.declared.Point.{Point};
ghost use Rattle.face_builder.specs.Fan.{interior_angle, nearest_from, nearest_place, exits_at, next_place, nexts_of};
ghost use Rattle.face_builder.specs.FanMap.{exits_in, exits_after};

use crate::half_edges::HalfEdge;
use indexmap::IndexMap;
use plane_geometry::{Dir, Point};
use smallvec::SmallVec;
use std::alloc::{AllocError, Global};

/// A half-edge that leaves a vertex: its place among all, and its direction.
#[derive(Clone, Copy, Debug, PartialEq, Eq)]
pub struct Exit {
    pub place: u32,
    pub dir: Dir,
}

impl Default for Exit {
    fn default() -> Exit {
        Exit {
            place: 0,
            dir: Dir::new(0).unwrap(),
        }
    }
}

/// The interior angle of a face that comes in by one direction and goes on by another, in steps of 22.5
/// degrees.
pub fn interior_angle(arrival: Dir, departure: Dir) -> u8
    ensures { result ≡ interior_angle (dir_number arrival) (dir_number departure) }
{
    (arrival.number() + 23 - departure.number()) % 16 + 1
}

// The nearest exit clockwise from the way back, this one or one of the others.
fn nearest(arrival: Dir, first: Exit, others: &[Exit]) -> Exit
    ensures { result ≡ nearest_from (dir_number arrival) first others.now }
{
    let mut best = first;
    for exit in others {
        if interior_angle(arrival, exit.dir) < interior_angle(arrival, best.dir) {
            best = *exit;
        }
    }
    best
}

// The place of the first exit clockwise from the way back.
fn nearest_place(arrival: Dir, exits: &[Exit]) -> u32
    ensures { result ≡ nearest_place (dir_number arrival) exits.now }
{
    match exits {
        [first, others @ ..] => nearest(arrival, *first, others).place,
        [] => 0,
    }
}

/// The half-edges that leave each vertex.
pub type Fans = IndexMap<Point, SmallVec<Exit, 16>>;

// The half-edges that leave a vertex, with one more.
fn fan_with(
    alloc: Global,
    fans: &Fans,
    v: &Point,
    exit: Exit,
) -> Result<SmallVec<Exit, 16>, AllocError>
    ensures { IfOk result (λ fan. fan.items ≡ exits_in v.now fans.now ++ exit ∷ []) }
{
    let mut fan = match fans.get(v) {
        Some(fan) => SmallVec::from_slice(alloc, fan.as_slice())?,
        None => SmallVec::new(alloc),
    };
    fan.push(exit)?;
    Ok(fan)
}

fn put_exit(alloc: Global, fans: &mut Fans, v: &Point, exit: Exit) -> Result<(), AllocError>
    ensures { OnOk result ((u : Point) → exits_in u fans.new ≡ exits_after u fans.old v.now exit) }
{
    let fan = fan_with(alloc, fans, v, exit)?;
    fans.insert(*v, fan)?;
    Ok(())
}

/// The half-edges that leave each vertex, by their places.
#[tactic(auto, unfolding(crate::specs::Fan::exits_at))]
fn fans_of(alloc: Global, half_edges: &[HalfEdge]) -> Result<Fans, AllocError>
    requires { length half_edges.now < 4294967295 }
    ensures { IfOk result (λ fans. (u : Point) → exits_in u fans ≡ exits_at u half_edges.now) }
{
    let mut fans = IndexMap::new(alloc);
    for (i, half_edge) in half_edges.iter().enumerate() {
        let exit = Exit {
            place: i as u32,
            dir: half_edge.dir,
        };
        put_exit(alloc, &mut fans, &half_edge.start, exit)?;
    }
    Ok(fans)
}

// The place of the half-edge that goes on from this one.
fn next_place(fans: &Fans, half_edge: &HalfEdge) -> u32
    ensures { result ≡ nearest_place (dir_number half_edge.now.dir) (exits_in half_edge.now.end fans.now) }
{
    match fans.get(&half_edge.end) {
        Some(fan) => nearest_place(half_edge.dir, fan.as_slice()),
        None => 0,
    }
}

/// The place of the half-edge that goes on from each one round its face.
#[tactic(auto, unfolding(crate::specs::Fan::nexts_of))]
pub fn nexts_of(alloc: Global, half_edges: &[HalfEdge]) -> Result<Vec<u32>, AllocError>
    requires { length half_edges.now < 4294967295 }
    ensures value { IfOk result (λ nexts. nexts.items ≡ nexts_of half_edges.now) }
    ensures bound { IfOk result (λ nexts. length nexts.items < 4294967295) }
{
    let fans = fans_of(alloc, half_edges)?;
    let mut nexts = Vec::with_capacity(alloc, half_edges.len())?;
    for half_edge in half_edges {
        nexts.push(next_place(&fans, half_edge))?;
    }
    Ok(nexts)
}
