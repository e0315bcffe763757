//! All faults of a pattern.

ghost use Rattle.std.specs.Prelude.{◌≡◌, ◌+◌, ◌*◌, ◌<◌, ◌≤◌, ◌↔◌, ◌∷◌, ◌++◌, [], length, Contains, IfOk, OnOk};
ghost use Rattle.crease_model.specs.Rules.{most_pieces};
ghost use Rattle.isometry_map.specs.LinearView.{linear_number};
ghost use Rattle.plane_geometry.specs.declared.Point.{Point};
ghost use Rattle.vertex_checks.specs.Fan.{fan_of};
ghost use Rattle.vertex_checks.specs.FanMap.{kept_fan};
ghost use Rattle.vertex_checks.specs.Sectors.{count_of_kind};
ghost use Rattle.vertex_checks.specs.Faults.{IsFault, KawasakiIsByAngles, IsInOrder, comes_round, kawasaki_faults, differ_by_two, can_balance, maekawa_faults, fan_faults, vertex_fault, vertex_faults, faults_at, faults_of};

use crate::fans::{Fans, Ray, fan_in, fans_of};
use crate::faults::{LocalFault, VertexFault};
use crate::sectors::push_little_faults;
use crate::vertices::vertices;
use crease_model::{Kind, Pattern, Piece};
use isometry_map::Linear;
use plane_geometry::Point;
use std::alloc::{AllocError, Global};

// Whether the reflections in the creases, one after the other, give the identity.
fn comes_round(fan: &[Ray]) -> bool
    ensures { result ≡ comes_round fan.now }
{
    let mut done = Linear::identity();
    for ray in fan {
        done = Linear::reflection(ray.dir).after(done);
    }
    done == Linear::identity()
}

fn count_of_kind(kind: Kind, fan: &[Ray]) -> u32
    requires { length fan.now ≤ most_pieces }
    ensures value { result ≡ count_of_kind kind fan.now }
    ensures few { result ≤ most_pieces }
{
    let mut count = 0;
    for ray in fan {
        if ray.kind.same(kind) {
            count += 1;
        }
    }
    count
}

pub(crate) fn push_fault(
    faults: &mut Vec<VertexFault>,
    v: &Point,
    fault: LocalFault,
) -> Result<(), AllocError>
    ensures { OnOk result (faults.new.items ≡ faults.old.items ++ vertex_fault v.now fault ∷ []) }
{
    faults.push(VertexFault { vertex: *v, fault })?;
    Ok(())
}

fn push_kawasaki(faults: &mut Vec<VertexFault>, v: &Point, fan: &[Ray]) -> Result<(), AllocError>
    ensures { OnOk result
        (faults.new.items ≡ faults.old.items ++ vertex_faults v.now (kawasaki_faults fan.now)) }
{
    if !comes_round(fan) {
        push_fault(faults, v, LocalFault::Kawasaki)?;
    }
    Ok(())
}

fn differ_by_two(m: u32, v: u32) -> bool
    requires { m + v ≤ 3 * most_pieces }
    ensures { result ≡ differ_by_two m v }
{
    m == v + 2 || v == m + 2
}

// Whether mountains and valleys differ by two for some number of the unassigned creases that fold as mountains.
fn can_balance(m: u32, v: u32, u: u32) -> bool
    requires { m + v + u ≤ 3 * most_pieces }
    ensures { result ≡ can_balance m v u }
{
    for x in 0..u + 1 {
        if differ_by_two(m + x, v + (u - x)) {
            return true;
        }
    }
    false
}

fn push_maekawa(faults: &mut Vec<VertexFault>, v: &Point, fan: &[Ray]) -> Result<(), AllocError>
    requires { length fan.now ≤ most_pieces }
    ensures { OnOk result
        (faults.new.items ≡ faults.old.items ++ vertex_faults v.now (maekawa_faults fan.now)) }
{
    let m = count_of_kind(Kind::Mountain, fan);
    let other = count_of_kind(Kind::Valley, fan);
    let u = count_of_kind(Kind::Unassigned, fan);
    if !can_balance(m, other, u) {
        push_fault(faults, v, LocalFault::Maekawa { m, v: other, u })?;
    }
    Ok(())
}

fn push_fan(faults: &mut Vec<VertexFault>, v: &Point, fan: &[Ray]) -> Result<(), AllocError>
    requires { length fan.now ≤ most_pieces }
    ensures { OnOk result (faults.new.items ≡ faults.old.items ++ vertex_faults v.now (fan_faults fan.now)) }
{
    push_kawasaki(faults, v, fan)?;
    push_maekawa(faults, v, fan)?;
    push_little_faults(faults, v, fan)
}

fn push_vertex(
    faults: &mut Vec<VertexFault>,
    pieces: &[Piece],
    fans: &Fans,
    v: &Point,
) -> Result<(), AllocError>
    requires few { length pieces.now ≤ most_pieces }
    requires kept { (q : Point) → kept_fan fans.now q ≡ fan_of q pieces.now }
    ensures { OnOk result
        (faults.new.items ≡ faults.old.items ++ vertex_faults v.now (fan_faults (fan_of v.now pieces.now))) }
{
    push_fan(faults, v, fan_in(fans, v))
}

#[tactic(auto, unfolding(crate::specs::Faults::faults_of))]
fn all_faults(alloc: Global, pattern: &Pattern) -> Result<Vec<VertexFault>, AllocError>
    ensures { IfOk result (λ faults. faults.items ≡ faults_of pattern.now) }
{
    let pieces = pattern.pieces();
    let fans = fans_of(alloc, pieces)?;
    let mut faults = Vec::new(alloc);
    for v in vertices(alloc, pattern)?.as_slice() {
        push_vertex(&mut faults, pieces, &fans, v)?;
    }
    Ok(faults)
}

/// All faults of a pattern: those of Kawasaki's and Maekawa's theorems and of the big-little-big lemma, at each vertex
/// strictly inside the sheet. They stand by vertex, then in the order of the variants, then by direction.
pub fn check(alloc: Global, pattern: &Pattern) -> Result<Vec<VertexFault>, AllocError>
    ensures found { IfOk result (λ list. (f : VertexFault) → Contains list.items f ↔ IsFault pattern.now f) }
    ensures angles { IfOk result (λ faults. KawasakiIsByAngles pattern.now faults.items) }
    ensures order { IfOk result (λ faults. IsInOrder faults.items) }
    ensures value { IfOk result (λ faults. faults.items ≡ faults_of pattern.now) }
    ensures few { IfOk result (λ faults. length faults.items < 4294967296) }
{
    // for the rules of patterns, on which all but the value rests
    let _pieces = pattern.pieces();
    let faults = all_faults(alloc, pattern)?;
    Ok(faults)
}
