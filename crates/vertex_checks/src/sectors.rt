//! The big-little-big lemma: sectors smaller than both beside them.

ghost use Rattle.std.specs.Prelude.{◌≡◌, ◌<◌, ◌≤◌, ◌++◌, length, OnOk};
ghost use Rattle.crease_model.specs.Rules.{most_pieces};
ghost use Rattle.vertex_checks.specs.Sectors.{sector, around, sector_at, fold_one_way};
ghost use Rattle.vertex_checks.specs.Faults.{is_small_sector, little_fault_at, little_faults, vertex_faults};

use crate::checking::push_fault;
use crate::fans::Ray;
use crate::faults::{LocalFault, VertexFault};
use crease_model::Kind;
use plane_geometry::Point;
use std::alloc::AllocError;

// How far it is from one ray to the next, counterclockwise.
fn sector(q: Ray, r: Ray) -> u8
    ensures { result ≡ sector q r }
{
    (r.dir.number() + 16 - q.dir.number()) % 16
}

// The k-th ray from the first, round and round.
fn around(fan: &[Ray], k: usize) -> Ray
    requires { 0 < length fan.now }
    ensures { result ≡ around fan.now k }
{
    fan[k % fan.len()]
}

// The sector from the k-th ray to the next.
fn sector_at(fan: &[Ray], k: usize) -> u8
    requires some { 0 < length fan.now }
    requires few { k ≤ 4000 }
    ensures { result ≡ sector_at fan.now k }
{
    sector(around(fan, k), around(fan, k + 1))
}

// Whether both are mountains, or both are valleys.
fn fold_one_way(one: Kind, other: Kind) -> bool
    ensures { result ≡ fold_one_way one other }
{
    (one.same(Kind::Mountain) && other.same(Kind::Mountain))
        || (one.same(Kind::Valley) && other.same(Kind::Valley))
}

// Whether the sector from the k-th ray is smaller than both beside it, and its two creases fold one way.
fn is_small_sector(fan: &[Ray], k: usize) -> bool
    requires inside { k < length fan.now }
    requires few { length fan.now ≤ most_pieces }
    ensures { result ≡ is_small_sector fan.now k }
{
    let size = sector_at(fan, k);
    size < sector_at(fan, k + fan.len() - 1)
        && size < sector_at(fan, k + 1)
        && fold_one_way(around(fan, k).kind, around(fan, k + 1).kind)
}

fn push_little_fault(
    faults: &mut Vec<VertexFault>,
    v: &Point,
    fan: &[Ray],
    k: usize,
) -> Result<(), AllocError>
    requires inside { k < length fan.now }
    requires few { length fan.now ≤ most_pieces }
    ensures { OnOk result
        (faults.new.items ≡ faults.old.items ++ vertex_faults v.now (little_fault_at fan.now k)) }
{
    if is_small_sector(fan, k) {
        let direction = fan[k].dir;
        push_fault(faults, v, LocalFault::BigLittleBig { direction })?;
    }
    Ok(())
}

/// Adds the sectors around a vertex that are smaller than both beside them and whose two creases fold one way.
pub(crate) fn push_little_faults(
    faults: &mut Vec<VertexFault>,
    v: &Point,
    fan: &[Ray],
) -> Result<(), AllocError>
    requires { length fan.now ≤ most_pieces }
    ensures { OnOk result
        (faults.new.items ≡ faults.old.items ++ vertex_faults v.now (little_faults fan.now)) }
{
    if fan.len() < 4 {
        return Ok(());
    }
    for k in 0..fan.len() {
        push_little_fault(faults, v, fan, k)?;
    }
    Ok(())
}
