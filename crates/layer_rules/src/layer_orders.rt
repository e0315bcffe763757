//! The rules that sign lists of layer orders meet.

ghost use Rattle.std.specs.Prelude.{◌≡◌, ◌↔◌, ◌<◌, ◌≤◌, List, length, IfOk, IsTrue};
ghost use Rattle.std.specs.List.Sorted.{IsStrictlySortedBy};
ghost use Rattle.sign_rules.specs.declared.sign.Sign.{Sign};
ghost use Rattle.sign_rules.specs.Rules.{are_rules_on, is_consistent};
ghost use Rattle.layer_rules.specs.FacePairs.{IsPairList, most_pairs, most_folded_faces};
ghost use Rattle.crease_model.specs.Rules.{most_pieces};
ghost use Rattle.layer_rules.specs.Layering.{most_rules};
ghost use Rattle.layer_rules.specs.LayerOrder.{IsConsistent};
ghost use Rattle.layer_rules.specs.RuleOrder.{compare_rules};

use crate::circles::transitivity_rules;
use crate::creases::crease_rules;
use crate::face_pairs::FacePair;
use crate::regions::Insides;
use crate::rule_order::in_order;
use crate::tacos::taco_rules;
use crate::tortillas::tortilla_rules;
use crease_model::Kind;
use sign_rules::Rule;
use std::alloc::{AllocError, Global};

/// The rules of all four conditions for the pairs of a folded shape, given the kinds of its pieces: those of creases, of
/// taco-tortilla, of taco-taco and of transitivity, in this order and each once.
pub fn order_rules(
    alloc: Global,
    shape: &Insides,
    kinds: &[Kind],
    pairs: &[FacePair],
) -> Result<Vec<Rule>, AllocError>
    requires faces { length shape.now.faces ≤ most_folded_faces }
    requires pairs { IsPairList shape.now pairs.now }
    requires few { length pairs.now ≤ most_pairs }
    requires creases { length shape.now.creases ≤ most_pieces }

    // A sign list with at most one sign a pair breaks no rule that it decides exactly where it breaks no condition.
    ensures meaning { IfOk result (λ v. (signs : List Sign) →
        IsTrue (is_consistent (record { pairs = length pairs.now; rules = v.items }) signs)
        ↔ IsConsistent shape.now kinds.now pairs.now signs) }
    ensures rules { IfOk result (λ v. IsTrue (are_rules_on (length pairs.now) v.items)) }
    ensures order { IfOk result (λ v. IsStrictlySortedBy compare_rules v.items) }
    ensures few { IfOk result (λ v. length v.items < most_rules) }
{
    let rules = gathered(alloc, shape, kinds, pairs)?;
    Ok(in_order(rules))
}

/// These rules as they come, condition by condition. Two creases of the same faces on one line give a rule twice.
fn gathered(
    alloc: Global,
    shape: &Insides,
    kinds: &[Kind],
    pairs: &[FacePair],
) -> Result<Vec<Rule>, AllocError>
    requires faces { length shape.now.faces ≤ most_folded_faces }
    requires pairs { IsPairList shape.now pairs.now }
    requires few { length pairs.now ≤ most_pairs }
    requires creases { length shape.now.creases ≤ most_pieces }

    // A sign list with at most one sign a pair breaks no rule that it decides exactly where it breaks no condition.
    ensures meaning { IfOk result (λ v. (signs : List Sign) →
        IsTrue (is_consistent (record { pairs = length pairs.now; rules = v.items }) signs)
        ↔ IsConsistent shape.now kinds.now pairs.now signs) }
    ensures rules { IfOk result (λ v. IsTrue (are_rules_on (length pairs.now) v.items)) }
    ensures few { IfOk result (λ v. length v.items < most_rules) }
{
    let mut rules = crease_rules(alloc, shape.folded(), kinds, pairs)?;
    let tortillas = tortilla_rules(alloc, shape, pairs)?;
    let tacos = taco_rules(alloc, shape, pairs)?;
    let circles = transitivity_rules(alloc, shape, pairs)?;
    rules.extend_from_slice(tortillas.as_slice())?;
    rules.extend_from_slice(tacos.as_slice())?;
    rules.extend_from_slice(circles.as_slice())?;
    Ok(rules)
}
