//! Taco-taco as rules: of two folded creases that lie on one another, with all four faces on one side, neither has just one
//! face between those of the other.

ghost use Rattle.std.specs.Prelude.{◌≡◌, ◌↔◌, ◌*◌, ◌≤◌, List, length, IfOk, OnOk, IsTrue};
ghost use Rattle.std.specs.List.{Contains, list_any};
ghost use Rattle.plane_geometry.specs.Position.{position_of};
ghost use Rattle.plane_geometry.specs.DirView.{dir_number};
ghost use Rattle.plane_geometry.specs.Direction.{opposite_number};
ghost use Rattle.plane_geometry.specs.SegmentView.{stretch_of};
ghost use Rattle.plane_geometry.specs.Stretch.{ShareTwoPoints};
ghost use Rattle.sign_rules.specs.declared.sign.Sign.{Sign};
ghost use Rattle.sign_rules.specs.Rules.{are_rules_on, is_broken};
ghost use Rattle.layer_rules.specs.CreaseLines.{AreByLine};
ghost use Rattle.layer_rules.specs.FacePairs.{IsPairList, most_pairs};
ghost use Rattle.layer_rules.specs.RuleMeaning.{MakesRule, MakesRules};
ghost use Rattle.layer_rules.specs.TacoTaco.{HasNothingLeftOf, HaveNothingLeftOf, LieOnOneSide, BreaksTacoTacoAt, BreaksTacoTacoWith, BreaksTacoTaco};
ghost use Rattle.layer_rules.specs.TacoTurns.{is_turned_oddly};

use crate::crease_lines::{LinedCrease, by_line, line_of, on_line};
use crate::face_pairs::FacePair;
use crate::face_places::place_of;
use crate::regions::Insides;
use crate::rule_lists::push_rule;
use isometry_map::CreaseImage;
use plane_geometry::{Dir, Point, overlaps};
use sign_rules::Rule;
use std::alloc::{AllocError, Global};

/// The rules of taco-taco for the pairs of a folded shape: one for each two creases that lie on one another.
pub fn taco_rules(
    alloc: Global,
    shape: &Insides,
    pairs: &[FacePair],
) -> Result<Vec<Rule>, AllocError>
    requires pairs { IsPairList shape.now pairs.now }
    requires few { length pairs.now ≤ most_pairs }

    // A sign list breaks one of them that it decides exactly where it breaks an instance of taco-taco.
    ensures meaning { IfOk result (λ v. (signs : List Sign) → IsTrue (list_any (is_broken signs) v.items)
        ↔ BreaksTacoTaco shape.now pairs.now signs) }
    ensures rules { IfOk result (λ v. IsTrue (are_rules_on (length pairs.now) v.items)) }
    ensures few { IfOk result (λ v. length v.items ≤ length shape.now.creases * length shape.now.creases) }
{
    let lined = by_line(alloc, shape.creases())?;
    let mut rules = Vec::new(alloc);
    for crease in shape.creases() {
        push_tacos(&mut rules, shape, pairs, lined.as_slice(), crease)?;
    }
    Ok(rules)
}

/// Those of one crease, with each whose first face comes after its own. Only images on one line have a part in common.
fn push_tacos(
    rules: &mut Vec<Rule>,
    shape: &Insides,
    pairs: &[FacePair],
    lined: &[LinedCrease],
    first: &CreaseImage,
) -> Result<(), AllocError>
    requires pairs { IsPairList shape.now pairs.now }
    requires few { length pairs.now ≤ most_pairs }
    requires lined { AreByLine shape.now.creases lined.now }
    ensures { OnOk result (MakesRules (length pairs.now) (length lined.now)
        (BreaksTacoTacoWith shape.now pairs.now first.now) rules.old.items rules.new.items) }
{
    let line = line_of(&first.image);
    let near = on_line(lined, &line);
    for second in near {
        push_rule(rules, taco(shape, pairs, first, &second.crease))?;
    }
    Ok(())
}

/// The rule of two creases, if they lie on one another with all faces on one side, and all pairs are there.
fn taco(shape: &Insides, pairs: &[FacePair], c: &CreaseImage, d: &CreaseImage) -> Option<Rule>
    requires pairs { IsPairList shape.now pairs.now }
    requires few { length pairs.now ≤ most_pairs }
    ensures { MakesRule (length pairs.now) (BreaksTacoTacoAt shape.now pairs.now c.now d.now) result }
{
    if d.a <= c.a {
        return None;
    }
    if !lie_together(c, d) {
        return None;
    }
    let Some(p) = place_of(pairs, c.a, d.a) else {
        return None;
    };
    let Some(q) = place_of(pairs, c.b, d.a) else {
        return None;
    };
    let Some(r) = place_of(pairs, c.a, d.b) else {
        return None;
    };
    let Some(s) = place_of(pairs, c.b, d.b) else {
        return None;
    };
    let Some(_first) = place_of(pairs, c.a, c.b) else {
        return None;
    };
    let Some(_second) = place_of(pairs, d.a, d.b) else {
        return None;
    };
    if !lie_on_one_side(shape, c, d) {
        return None;
    }
    Some(Rule::Even {
        p,
        q,
        r,
        s,
        odd: is_turned_oddly(c, d),
    })
}

/// Whether the images of the creases have a part of positive length in common.
fn lie_together(c: &CreaseImage, d: &CreaseImage) -> bool
    ensures { IsTrue result ↔ ShareTwoPoints (stretch_of c.now.image) (stretch_of d.now.image) }
{
    overlaps(&c.image, &d.image)
}

/// Whether of an odd number of the four pairs the second crease's face is the lesser one.
fn is_turned_oddly(c: &CreaseImage, d: &CreaseImage) -> bool
    ensures { result ≡ is_turned_oddly c.now d.now }
{
    ((c.a < d.a) == (c.b < d.a)) != ((c.a < d.b) == (c.b < d.b))
}

/// Whether the faces of both creases lie on one side of the first one.
fn lie_on_one_side(shape: &Insides, c: &CreaseImage, d: &CreaseImage) -> bool
    ensures { IsTrue result ↔ LieOnOneSide shape.now (stretch_of c.now.image) c.now d.now }
{
    let q = c.image.from();
    let dir = c.image.dir();
    lie_beside(shape, c, d, q, dir) || lie_beside(shape, c, d, q, opposite(dir))
}

/// Whether the faces of both creases have nothing left of the line.
fn lie_beside(shape: &Insides, c: &CreaseImage, d: &CreaseImage, q: &Point, dir: Dir) -> bool
    ensures { IsTrue result ↔ (HaveNothingLeftOf shape.now (position_of q.now) (dir_number dir) c.now
        × HaveNothingLeftOf shape.now (position_of q.now) (dir_number dir) d.now) }
{
    have_nothing_left(shape, c, q, dir) && have_nothing_left(shape, d, q, dir)
}

/// Whether the faces of the crease have nothing left of the line.
fn have_nothing_left(shape: &Insides, c: &CreaseImage, q: &Point, dir: Dir) -> bool
    ensures { IsTrue result ↔ HaveNothingLeftOf shape.now (position_of q.now) (dir_number dir) c.now }
{
    has_nothing_left(shape, c.a, q, dir) && has_nothing_left(shape, c.b, q, dir)
}

/// Whether no point strictly inside the face is left of the line.
fn has_nothing_left(shape: &Insides, f: u32, q: &Point, dir: Dir) -> bool
    ensures { IsTrue result ↔ HasNothingLeftOf shape.now (position_of q.now) (dir_number dir) f }
{
    if f == 0 {
        return true;
    }
    if shape.count() < f as usize {
        return true;
    }
    !shape.region(f).cut(q, dir).is_open_nonempty()
}

/// The opposite direction.
fn opposite(dir: Dir) -> Dir
    ensures { dir_number result ≡ opposite_number (dir_number dir) }
{
    match Dir::new((dir.number() + 8) % 16) {
        Some(opposite) => opposite,
        None => unreachable!(),
    }
}
