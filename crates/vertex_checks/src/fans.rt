//! The creases that leave each vertex.

ghost use Rattle.std.specs.Prelude.{◌≡◌, ◌+◌, ◌≤◌, ◌<◌, length, ◌++◌, ◌∷◌, take, drop, IfOk, IsOk, OnOk, if◌then◌else◌};
ghost use Rattle.plane_geometry.specs.declared.Point.{Point};
ghost use Rattle.plane_geometry.specs.DirView.{dir_number, dir_of};
ghost use Rattle.vertex_checks.specs.Fan.{most_rays, ray_of, ray_at, with_ray, with_ray_if, fan_from, fan_of};
ghost use Rattle.vertex_checks.specs.FanMap.{kept_fan};
ghost use Rattle.line_split.specs.Points.{equal_points};

use crease_model::{Kind, Piece};
use indexmap::IndexMap;
use plane_geometry::{Dir, Point};
use smallvec::SmallVec;
use std::alloc::{AllocError, Global};

/// A crease that leaves a vertex: its direction from there, and its kind.
#[derive(Clone, Copy, Debug, PartialEq, Eq)]
pub struct Ray {
    pub dir: Dir,
    pub kind: Kind,
}

impl Default for Ray {
    // the free places of a small vector hold it
    fn default() -> Ray {
        Ray {
            dir: Dir::modulo(0),
            kind: Kind::Edge,
        }
    }
}

/// The creases at each end of a piece, by their directions: at most one in each of the 16.
pub(crate) type Fans = IndexMap<Point, SmallVec<Ray, 16>>;

fn ray_to(piece: &Piece, number: u8) -> Ray
    ensures { result ≡ ray_of piece.now number }
{
    Ray {
        dir: Dir::modulo(number),
        kind: piece.kind,
    }
}

// Where a ray goes among rays by their directions.
fn place_for(rays: &[Ray], ray: &Ray) -> usize
    ensures bound { result ≤ length rays.now }
    ensures value { with_ray rays.now ray.now ≡ take result rays.now ++ ray.now ∷ drop result rays.now }
{
    for (i, other) in rays.iter().enumerate() {
        if ray.dir.number() < other.dir.number() {
            return i;
        }
    }
    rays.len()
}

/// The creases that leave a point, by their directions.
pub(crate) fn fan_in<'a>(fans: &'a Fans, v: &Point) -> &'a [Ray]
    ensures { result.now ≡ kept_fan fans.now v.now }
{
    match fans.get(v) {
        Some(fan) => fan.as_slice(),
        None => &[],
    }
}

// The rays with one more. As long as they are fewer than the directions, there is room for it.
fn fan_with(alloc: Global, rays: &[Ray], ray: Ray) -> Result<SmallVec<Ray, 16>, AllocError>
    ensures value { IfOk result (λ fan. fan.items ≡ with_ray rays.now ray) }
    ensures room { length rays.now < most_rays → IsOk result }
{
    let mut fan = SmallVec::from_slice(alloc, rays)?;
    let place = place_for(fan.as_slice(), &ray);
    fan.insert(place, ray)?;
    Ok(fan)
}

fn add_ray(alloc: Global, fans: &mut Fans, v: &Point, ray: Ray) -> Result<(), AllocError>
    ensures { OnOk result
        ((q : Point) → kept_fan fans.new q
        ≡ (if equal_points v.now q then with_ray (kept_fan fans.old v.now) ray else kept_fan fans.old q)) }
{
    let fan = fan_with(alloc, fan_in(fans, v), ray)?;
    fans.insert(*v, fan)?;
    Ok(())
}

fn add_piece(alloc: Global, fans: &mut Fans, piece: &Piece) -> Result<(), AllocError>
    ensures { OnOk result
        ((q : Point) → kept_fan fans.new q ≡ with_ray_if (kept_fan fans.old q) (ray_at q piece.now)) }
{
    let number = piece.segment.dir().number();
    add_ray(alloc, fans, piece.segment.from(), ray_to(piece, number))?;
    add_ray(alloc, fans, piece.segment.to(), ray_to(piece, number + 8))
}

/// The creases that leave each point.
#[tactic(auto, unfolding(crate::specs::Fan::fan_of))]
pub(crate) fn fans_of(alloc: Global, pieces: &[Piece]) -> Result<Fans, AllocError>
    ensures { IfOk result (λ fans. (q : Point) → kept_fan fans q ≡ fan_of q pieces.now) }
{
    let mut fans = IndexMap::new(alloc);
    for piece in pieces {
        add_piece(alloc, &mut fans, piece)?;
    }
    Ok(fans)
}
