//! Transitivity as rules: three folded faces with a point in common are not above each other in a circle.

ghost use Rattle.std.specs.Prelude.{◌≡◌, ◌↔◌, ◌+◌, ◌*◌, ◌<◌, ◌≤◌, List, Some, length, IfOk, OnOk, IsTrue};
ghost use Rattle.std.specs.List.{list_any, slice_get};
ghost use Rattle.sign_rules.specs.declared.sign.Sign.{Sign};
ghost use Rattle.sign_rules.specs.Rules.{are_rules_on, is_broken};
ghost use Rattle.layer_rules.specs.declared.face_pairs.FacePair.{FacePair};
ghost use Rattle.layer_rules.specs.FacePairs.{IsPairList, most_pairs};
ghost use Rattle.layer_rules.specs.Transitivity.{BreaksTransitivity};
ghost use Rattle.layer_rules.specs.RuleLists.{AreDifferent};
ghost use Rattle.layer_rules.specs.Circles.{IsCommon, AreOrdered, AreCirclesBefore};

use crate::face_pairs::FacePair;
use crate::places::place;
use crate::regions::{Insides, have_common_point};
use open_region::Region;
use sign_rules::Rule;
use std::alloc::{AllocError, Global};

/// The rules of transitivity for the pairs of a folded shape: one for each three faces with a point in common, sorted by
/// the places of the pairs of the first face with the second and with the third.
pub fn transitivity_rules(
    alloc: Global,
    shape: &Insides,
    pairs: &[FacePair],
) -> Result<Vec<Rule>, AllocError>
    requires pairs { IsPairList shape.now pairs.now }
    requires few { length pairs.now ≤ most_pairs }

    // A sign list breaks one of them that it decides exactly where it breaks an instance of transitivity.
    ensures meaning { IfOk result (λ v. (signs : List Sign) → IsTrue (list_any (is_broken signs) v.items)
        ↔ BreaksTransitivity shape.now pairs.now signs) }
    ensures rules { IfOk result (λ v. IsTrue (are_rules_on (length pairs.now) v.items)) }
    ensures different { IfOk result (λ v. AreDifferent v.items) }
    ensures few { IfOk result (λ v. length v.items ≤ length pairs.now * length pairs.now) }
{
    circles(alloc, shape, pairs)
}

/// The rules of all circles.
fn circles(alloc: Global, shape: &Insides, pairs: &[FacePair]) -> Result<Vec<Rule>, AllocError>
    requires pairs { AreOrdered (length shape.now.faces) pairs.now }
    requires few { length pairs.now ≤ most_pairs }
    ensures { IfOk result (λ v. AreCirclesBefore shape.now pairs.now (length pairs.now) 0 v.items) }
{
    let mut rules = Vec::new(alloc);
    for p in 0..pairs.len() {
        push_circles(&mut rules, shape, pairs, p)?;
    }
    Ok(rules)
}

/// Those of the pair at place `p` with each later face.
fn push_circles(
    rules: &mut Vec<Rule>,
    shape: &Insides,
    pairs: &[FacePair],
    p: usize,
) -> Result<(), AllocError>
    requires pairs { AreOrdered (length shape.now.faces) pairs.now }
    requires few { length pairs.now ≤ most_pairs }
    requires there { p < length pairs.now }
    requires before { AreCirclesBefore shape.now pairs.now p 0 rules.old.items }
    ensures { OnOk result (AreCirclesBefore shape.now pairs.now (p + 1) 0 rules.new.items) }
{
    let pair = pair_at(pairs, p);
    let common = common(shape, pair);
    for t in p + 1..pairs.len() {
        let other = pair_at(pairs, t);
        if other.i != pair.i {
            return Ok(());
        }
        push_circle(rules, shape, pairs, &common, p, t)?;
    }
    Ok(())
}

/// What both faces have in common.
fn common(shape: &Insides, pair: &FacePair) -> Region
    requires first { 1 ≤ pair.now.i }
    requires second { 1 ≤ pair.now.j }
    requires first_there { pair.now.i ≤ length shape.now.faces }
    requires second_there { pair.now.j ≤ length shape.now.faces }
    ensures { IsCommon shape.now pair.now result }
{
    shape.region(pair.i).both(shape.region(pair.j))
}

/// That of the pair at place `p` with the second face of the one at place `t`, if there is one.
fn push_circle(
    rules: &mut Vec<Rule>,
    shape: &Insides,
    pairs: &[FacePair],
    common: &Region,
    p: usize,
    t: usize,
) -> Result<(), AllocError>
    requires pairs { AreOrdered (length shape.now.faces) pairs.now }
    requires few { length pairs.now ≤ most_pairs }
    requires later { p < t }
    requires there { t < length pairs.now }
    requires common { (pair : FacePair) → slice_get pairs.now p ≡ Some pair →
        IsCommon shape.now pair common.now }
    requires one_face { (pair other : FacePair) → slice_get pairs.now p ≡ Some pair →
        slice_get pairs.now t ≡ Some other → other.i ≡ pair.i }
    requires before { AreCirclesBefore shape.now pairs.now p t rules.old.items }
    ensures { OnOk result (AreCirclesBefore shape.now pairs.now p (t + 1) rules.new.items) }
{
    let pair = pair_at(pairs, p);
    let other = pair_at(pairs, t);
    let Some(q) = place(pairs, pair.j, other.j) else {
        return Ok(());
    };
    if !have_common_point(common, shape.region(other.j)) {
        return Ok(());
    }
    rules.push(Rule::NotCyclic {
        ij: p as u32,
        jk: q as u32,
        ik: t as u32,
    })?;
    Ok(())
}

/// The pair at this place.
fn pair_at(pairs: &[FacePair], n: usize) -> &FacePair
    requires { n < length pairs.now }
    ensures { slice_get pairs.now n ≡ Some result.now }
{
    &pairs[n]
}
