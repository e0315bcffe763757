//! Taco-tortilla as rules: a face that a folded crease runs into is above both faces of the crease, or below both.

ghost use Rattle.std.specs.Prelude.{◌≡◌, ◌↔◌, ◌+◌, ◌*◌, ◌<◌, ◌≤◌, List, length, IfOk, OnOk, IsTrue};
ghost use Rattle.std.specs.List.{list_any};
ghost use Rattle.open_region.specs.Region.{HasPointBetween};
ghost use Rattle.sign_rules.specs.declared.sign.Sign.{Sign};
ghost use Rattle.sign_rules.specs.Rules.{are_rules_on, is_broken};
ghost use Rattle.layer_rules.specs.FacePairs.{IsPairList, most_pairs, most_folded_faces};
ghost use Rattle.layer_rules.specs.RuleMeaning.{MakesRule, MakesRules, ForSomeBelow};
ghost use Rattle.layer_rules.specs.TacoTortilla.{BreaksTacoTortilla, BreaksTacoTortillaAt};

use crate::face_pairs::FacePair;
use crate::face_places::place_of;
use crate::regions::Insides;
use crate::rule_lists::push_rule;
use isometry_map::CreaseImage;
use open_region::Region;
use sign_rules::Rule;
use std::alloc::{AllocError, Global};

/// The rules of taco-tortilla for the pairs of a folded shape: one for each crease and each face that it runs into.
pub fn tortilla_rules(
    alloc: Global,
    shape: &Insides,
    pairs: &[FacePair],
) -> Result<Vec<Rule>, AllocError>
    requires faces { length shape.now.faces ≤ most_folded_faces }
    requires pairs { IsPairList shape.now pairs.now }
    requires few { length pairs.now ≤ most_pairs }

    // A sign list breaks one of them that it decides exactly where it breaks an instance of taco-tortilla.
    ensures meaning { IfOk result (λ v. (signs : List Sign) → IsTrue (list_any (is_broken signs) v.items)
        ↔ BreaksTacoTortilla shape.now pairs.now signs) }
    ensures rules { IfOk result (λ v. IsTrue (are_rules_on (length pairs.now) v.items)) }
    ensures few { IfOk result (λ v. length v.items ≤ length shape.now.creases * length shape.now.faces) }
{
    let mut rules = Vec::new(alloc);
    for crease in shape.creases() {
        push_tortillas(&mut rules, shape, pairs, crease)?;
    }
    Ok(rules)
}

/// Those of one crease.
fn push_tortillas(
    rules: &mut Vec<Rule>,
    shape: &Insides,
    pairs: &[FacePair],
    crease: &CreaseImage,
) -> Result<(), AllocError>
    requires faces { length shape.now.faces ≤ most_folded_faces }
    requires pairs { IsPairList shape.now pairs.now }
    requires few { length pairs.now ≤ most_pairs }
    ensures { OnOk result (MakesRules (length pairs.now) (length shape.now.faces)
        (ForSomeBelow (λ n. BreaksTacoTortillaAt shape.now pairs.now crease.now (n + 1))
        (length shape.now.faces)) rules.old.items rules.new.items) }
{
    for u in 0..shape.count() {
        push_rule(rules, tortilla(shape, pairs, crease, u))?;
    }
    Ok(())
}

/// The rule of a crease and the face after the first `u` faces, if the crease runs into it and both pairs are there.
fn tortilla(shape: &Insides, pairs: &[FacePair], crease: &CreaseImage, u: usize) -> Option<Rule>
    requires faces { length shape.now.faces ≤ most_folded_faces }
    requires pairs { IsPairList shape.now pairs.now }
    requires few { length pairs.now ≤ most_pairs }
    requires there { u < length shape.now.faces }
    ensures { MakesRule (length pairs.now) (BreaksTacoTortillaAt shape.now pairs.now crease.now (u + 1)) result }
{
    if crease.a == crease.b {
        return None;
    }
    let face = u as u32 + 1;
    let Some(p) = place_of(pairs, crease.a, face) else {
        return None;
    };
    let Some(q) = place_of(pairs, crease.b, face) else {
        return None;
    };
    if !runs_into(shape.region(face), crease) {
        return None;
    }
    Some(Rule::Equal {
        p,
        q,
        same: (crease.a < face) == (crease.b < face),
    })
}

/// Whether the crease runs into the region.
fn runs_into(region: &Region, crease: &CreaseImage) -> bool
    ensures { IsTrue result ↔ HasPointBetween region.now crease.now.image }
{
    region.segment_enters(&crease.image)
}
