//! The crease condition as rules: a face with its front up is above the one across a mountain, below that across a valley.
//! An unassigned crease makes no rule.

ghost use Rattle.std.specs.Prelude.{◌≡◌, ◌↔◌, ◌*◌, ◌≤◌, ◌++◌, List, length, IfOk, OnOk, IsTrue};
ghost use Rattle.std.specs.List.{list_any};
ghost use Rattle.sign_rules.specs.declared.sign.Sign.{Sign};
ghost use Rattle.sign_rules.specs.Rules.{are_rules_on, is_broken};
ghost use Rattle.layer_rules.specs.Faces.{numbered, turned_at};
ghost use Rattle.layer_rules.specs.FacePairs.{IsPairList, most_pairs};
ghost use Rattle.layer_rules.specs.CreaseCondition.{BreaksCreaseCondition};
ghost use Rattle.layer_rules.specs.FixedRules.{front_sign, sign_turned, sign_for, sign_across, is_given, is_wanted, fixed_rule, fixed_rules};
ghost use Rattle.layer_rules.specs.RuleLists.{AreDifferent};

use crate::face_pairs::{FacePair, is_shared};
use crease_model::Kind;
use isometry_map::{CreaseImage, Folded, FoldedFace};
use sign_rules::{Rule, Sign};
use std::alloc::{AllocError, Global};

/// The rules of the crease condition for the pairs of a folded shape, given the kinds of its pieces. Each pair has at most
/// two: one for mountains and valleys that want it one way, and one for those that want it the other way.
pub fn crease_rules(
    alloc: Global,
    folded: &Folded,
    kinds: &[Kind],
    pairs: &[FacePair],
) -> Result<Vec<Rule>, AllocError>
    requires pairs { IsPairList folded.now pairs.now }
    requires few { length pairs.now ≤ most_pairs }

    // A sign list breaks one of them that it decides exactly where it breaks the crease condition.
    ensures meaning { IfOk result (λ v. (signs : List Sign) → IsTrue (list_any (is_broken signs) v.items)
        ↔ BreaksCreaseCondition folded.now kinds.now pairs.now signs) }
    ensures rules { IfOk result (λ v. IsTrue (are_rules_on (length pairs.now) v.items)) }
    ensures different { IfOk result (λ v. AreDifferent v.items) }
    ensures few { IfOk result (λ v. length v.items ≤ 2 * length pairs.now) }
{
    let mut rules = Vec::new(alloc);
    for (p, pair) in pairs.iter().enumerate() {
        push_fixed(&mut rules, folded, kinds, p as u32, pair)?;
    }
    Ok(rules)
}

/// The rules of one pair.
fn push_fixed(
    rules: &mut Vec<Rule>,
    folded: &Folded,
    kinds: &[Kind],
    p: u32,
    pair: &FacePair,
) -> Result<(), AllocError>
    ensures { OnOk result (rules.new.items ≡ rules.old.items ++ fixed_rules folded.now kinds.now p pair.now) }
{
    push_if(
        rules,
        is_wanted(folded, kinds, pair, Sign::Over),
        p,
        Sign::Over,
    )?;
    push_if(
        rules,
        is_wanted(folded, kinds, pair, Sign::Under),
        p,
        Sign::Under,
    )?;
    Ok(())
}

/// The rule that the pair has the sign, where it is wanted.
fn push_if(rules: &mut Vec<Rule>, wanted: bool, p: u32, sign: Sign) -> Result<(), AllocError>
    ensures { OnOk result (rules.new.items ≡ rules.old.items ++ fixed_rule wanted p sign) }
{
    if wanted {
        rules.push(Rule::Fixed { p, sign })?;
    }
    Ok(())
}

/// Whether some crease between the two faces gives their pair this sign.
fn is_wanted(folded: &Folded, kinds: &[Kind], pair: &FacePair, sign: Sign) -> bool
    ensures { result ≡ is_wanted folded.now kinds.now pair.now sign }
{
    folded.creases().iter().any(|crease| is_given(
        sign_across(folded.faces(), kinds, pair, crease),
        sign,
    ))
}

/// Whether the sign is there, and is this one.
fn is_given(given: Option<Sign>, sign: Sign) -> bool
    ensures { result ≡ is_given given sign }
{
    match (given, sign) {
        (Some(Sign::Over), Sign::Over) => true,
        (Some(Sign::Under), Sign::Under) => true,
        _ => false,
    }
}

/// The sign that a crease between the two faces gives their pair, if it is a mountain or a valley and just one face is
/// turned.
fn sign_across(
    faces: &[FoldedFace],
    kinds: &[Kind],
    pair: &FacePair,
    crease: &CreaseImage,
) -> Option<Sign>
    ensures { result ≡ sign_across faces.now kinds.now pair.now crease.now }
{
    if !is_shared(crease, pair) {
        return None;
    }
    sign_for(
        turned_at(faces, pair.i),
        turned_at(faces, pair.j),
        kind_at(kinds, crease.piece),
    )
}

/// The sign of a face with its front up and the turned one across a crease of this kind.
fn front_sign(kind: Kind) -> Option<Sign>
    ensures { result ≡ front_sign kind }
{
    match kind {
        Kind::Mountain => Some(Sign::Over),
        Kind::Valley => Some(Sign::Under),
        Kind::Edge | Kind::Aux | Kind::Unassigned => None,
    }
}

/// The sign of two faces in the other order.
fn sign_turned(sign: Option<Sign>) -> Option<Sign>
    ensures { result ≡ sign_turned sign }
{
    match sign {
        Some(Sign::Over) => Some(Sign::Under),
        Some(Sign::Under) => Some(Sign::Over),
        None => None,
    }
}

/// The sign of a pair with a crease of this kind, by which of its faces are turned.
fn sign_for(first: Option<bool>, second: Option<bool>, kind: Option<Kind>) -> Option<Sign>
    ensures { result ≡ sign_for first second kind }
{
    match (first, second, kind) {
        (Some(false), Some(true), Some(kind)) => front_sign(kind),
        (Some(true), Some(false), Some(kind)) => sign_turned(front_sign(kind)),
        _ => None,
    }
}

/// Whether the face of this number is turned, if it is there.
fn turned_at(faces: &[FoldedFace], f: u32) -> Option<bool>
    ensures { result ≡ turned_at faces.now f }
{
    if f == 0 {
        return None;
    }
    match faces.get(f as usize - 1) {
        Some(face) => Some(face.turned),
        None => None,
    }
}

/// The kind of the piece of this number, if it is there.
fn kind_at(kinds: &[Kind], piece: u32) -> Option<Kind>
    ensures { result ≡ numbered kinds.now piece }
{
    if piece == 0 {
        return None;
    }
    kinds.get(piece as usize - 1).copied()
}
