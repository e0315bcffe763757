//! The layers of a crease pattern: its faces folded flat, the pairs that lie on one another, and the rules of its orders.

ghost use Rattle.std.specs.Prelude.{◌≡◌, ◌↔◌, ◌<◌, ◌≤◌, ℕ, List, length, map, Ok, IfOk, IsErrOf, IsTrue, MatchResult};
ghost use Rattle.std.specs.Arc.{arc_value};
ghost use Rattle.std.specs.List.Sorted.{IsStrictlySortedBy};
ghost use Rattle.crease_model.specs.declared.Kind.{Kind};
ghost use Rattle.crease_model.specs.Rules.{most_pieces};
ghost use Rattle.face_builder.specs.Faces.{most_faces};
ghost use Rattle.isometry_map.specs.Folded.{FoldedView};
ghost use Rattle.sign_rules.specs.declared.sign.Sign.{Sign};
ghost use Rattle.sign_rules.specs.Rules.{RulesView, are_rules_on, is_broken, is_consistent};
ghost use Rattle.layer_rules.specs.FacePairs.{IsPairList, HasPairCount, most_pairs};
ghost use Rattle.layer_rules.specs.LayerOrder.{IsConsistent};
ghost use Rattle.layer_rules.specs.RuleOrder.{compare_rules};
ghost use Rattle.layer_rules.specs.Layering.{IsLayering, IsInstanceFault, IsShapeOf, IsFaultBeforePairs, AreTooManyPairs, HasMemory, KeepsInsidesOf, kinds_of, most_rules};
ghost use Rattle.layer_rules.specs.declared.layering.InstanceFault.TheVariants.{TooManyPairs};

use crate::face_pairs::{FacePair, PairsFault, pairs};
use crate::layer_orders::order_rules;
use crate::regions::Insides;
use crease_model::{Kind, Pattern, Piece};
use face_builder::{FaceFault, faces};
use isometry_map::Folded;
use plane_geometry::{Dir, Point};
use sign_rules::{Rule, Rules};
use std::alloc::{AllocError, Global};
use std::marker::Model;
use std::sync::Arc;
use std::thread::Threads;
use thiserror::Error;
use wireframe_fold::{WireFault, fold};

/// Why a pattern has no layers that can be searched.
#[derive(Clone, Copy, Debug, PartialEq, Eq, Error)]
pub enum InstanceFault {
    /// See [`FaceFault::NotConvex`].
    #[error("a face is not convex: {direction:?} from {at:?}")]
    NotConvex { at: Point, direction: Dir },
    /// There are more than 256 faces.
    #[error("there are {faces} faces")]
    TooManyFaces { faces: u32 },
    /// See [`FaceFault::Unreached`].
    #[error("face {face} is not reached from face 1")]
    Unreached { face: u32 },
    /// See [`WireFault::DoesNotClose`].
    #[error("the faces at piece {piece} don't fold together")]
    DoesNotClose { piece: u32 },
    /// See [`WireFault::FoldRange`].
    #[error("a corner of folded face {face} is out of range")]
    FoldRange { face: u32 },
    /// There are more than 200 different lines through folded sides.
    #[error("there are {lines} lines through folded sides")]
    TooManyLines { lines: u32 },
    /// There are more than 8192 pairs.
    #[error("{pairs} pairs of faces lie on one another")]
    TooManyPairs { pairs: u32 },
    /// Memory ran out.
    #[error("out of memory")]
    Memory,
}

impl From<AllocError> for InstanceFault {
    ghost use Rattle.std.specs.Prelude.{◌≡◌};
    ghost use Rattle.layer_rules.specs.declared.layering.InstanceFault.TheVariants.{Memory};

    ghost from_gives = { λ _ e. e ≡ Memory };

    fn from(_e: AllocError) -> InstanceFault {
        InstanceFault::Memory
    }
}

impl From<FaceFault> for InstanceFault {
    ghost use Rattle.std.specs.Prelude.{◌≡◌};
    ghost use Rattle.layer_rules.specs.Layering.{fault_of_faces};

    ghost from_gives = { λ fault e. e ≡ fault_of_faces fault };

    fn from(fault: FaceFault) -> InstanceFault {
        match fault {
            FaceFault::NotConvex { at, direction } => InstanceFault::NotConvex { at, direction },
            FaceFault::TooManyFaces { faces } => InstanceFault::TooManyFaces { faces },
            FaceFault::Unreached { face } => InstanceFault::Unreached { face },
            FaceFault::Memory => InstanceFault::Memory,
        }
    }
}

impl From<WireFault> for InstanceFault {
    ghost use Rattle.std.specs.Prelude.{◌≡◌};
    ghost use Rattle.layer_rules.specs.Layering.{fault_of_folding};

    ghost from_gives = { λ fault e. e ≡ fault_of_folding fault };

    fn from(fault: WireFault) -> InstanceFault {
        match fault {
            WireFault::DoesNotClose { piece } => InstanceFault::DoesNotClose { piece },
            WireFault::FoldRange { face } => InstanceFault::FoldRange { face },
            WireFault::TooManyLines { lines } => InstanceFault::TooManyLines { lines },
            WireFault::Memory => InstanceFault::Memory,
        }
    }
}

impl From<PairsFault> for InstanceFault {
    ghost use Rattle.std.specs.Prelude.{◌≡◌};
    ghost use Rattle.layer_rules.specs.Layering.{fault_of_pairs};

    ghost from_gives = { λ fault e. e ≡ fault_of_pairs fault };

    fn from(fault: PairsFault) -> InstanceFault {
        match fault {
            PairsFault::TooManyPairs(pairs) => InstanceFault::TooManyPairs { pairs },
            PairsFault::Memory => InstanceFault::Memory,
        }
    }
}

/// The layers of a pattern: the folded shape, the pairs of its faces, and the rules of its layer orders.
#[derive(Drop)]
pub struct Layering {
    folded: Folded,
    pairs: Vec<FacePair>,
    rules: Arc<Rules>,
}

impl Model for Layering {
    ghost use Rattle.std.specs.Prelude.{◌≤◌, length};
    ghost use Rattle.std.specs.Arc.{arc_value};
    ghost use Rattle.face_builder.specs.Faces.{most_faces};
    ghost use Rattle.layer_rules.specs.FacePairs.{most_pairs};
    ghost use Rattle.layer_rules.specs.Layering.{LayeringView};

    ghost Value = { LayeringView };

    ghost view = { λ l. record { shape = l.folded; pairs = l.pairs.items; rules = arc_value l.rules } };

    ghost invariant = { λ l. (length l.folded.faces ≤ most_faces) × (length l.pairs.items ≤ most_pairs) };
}

impl Layering {
    /// The number of faces.
    pub fn faces(&self) -> u32
        ensures count { result ≡ length self.now.shape.faces }
        ensures few { result ≤ most_faces }
    {
        self.folded.faces().len() as u32
    }

    /// The pairs, by the first face, then by the second.
    pub fn pairs(&self) -> &[FacePair]
        ensures value { result.now ≡ self.now.pairs }
        ensures few { length result.now ≤ most_pairs }
    {
        self.pairs.as_slice()
    }

    /// The folded shape.
    pub fn folded(&self) -> &Folded
        ensures { result.now ≡ self.now.shape }
    {
        &self.folded
    }

    /// The rules, shared.
    pub fn rules(&self) -> Result<Arc<Rules>, AllocError>
        ensures { IfOk result (λ rules. arc_value rules ≡ self.now.rules) }
    {
        self.rules.clone()
    }
}

/// The kinds of pieces.
fn kinds_of(alloc: Global, pieces: &[Piece]) -> Result<Vec<Kind>, AllocError>
    ensures { IfOk result (λ v. v.items ≡ kinds_of pieces.now) }
{
    let mut kinds = Vec::with_capacity(alloc, pieces.len())?;
    for piece in pieces {
        kinds.push(piece.kind)?;
    }
    Ok(kinds)
}

/// The rules on a number of pairs.
fn rules_on(alloc: Global, pairs: usize, rules: Vec<Rule>) -> Result<Arc<Rules>, AllocError>
    requires few { pairs ≤ most_pairs }
    requires rules { IsTrue (are_rules_on pairs rules.items) }
    requires numbers { length rules.items < most_rules }
    ensures { IfOk result (λ r. arc_value r ≡ record { pairs = pairs; rules = rules.items }) }
{
    let rules = Rules::new(alloc, pairs as u32, rules)?;
    let rules = Arc::new(alloc, rules)?;
    Ok(rules)
}

/// The folded shape of a pattern, or why it has none.
fn shape_of(alloc: Global, pattern: &Pattern) -> Result<Folded, InstanceFault>
    ensures exact { MatchResult result (IsShapeOf pattern.now) (IsFaultBeforePairs pattern.now) }
    ensures shape { (shape : FoldedView) → (result ≡ Ok shape)
        ↔ (HasMemory result × IsShapeOf pattern.now shape) }
    ensures inside { IfOk result (KeepsInsidesOf pattern.now) }
    ensures few { IfOk result (λ shape. length shape.faces ≤ most_faces) }
    ensures creases { IfOk result (λ shape. length shape.creases ≤ most_pieces) }
{
    let map = faces(alloc, pattern)?;
    let folded = fold(alloc, &map)?;
    Ok(folded)
}

/// The layers of a pattern with this shape and these pairs.
fn layering_with(
    alloc: Global,
    pattern: &Pattern,
    shape: Insides,
    pairs: Vec<FacePair>,
) -> Result<Layering, AllocError>
    requires shape { IsShapeOf pattern.now shape }
    requires faces { length shape.faces ≤ most_faces }
    requires creases { length shape.creases ≤ most_pieces }
    requires pairs { IsPairList shape pairs.items }
    requires few { length pairs.items ≤ most_pairs }
    ensures layering { IfOk result (IsLayering pattern.now) }
    ensures shape { IfOk result (λ l. l.shape ≡ shape) }
    ensures meaning { IfOk result (λ l. (signs : List Sign) → IsTrue (is_consistent l.rules signs)
        ↔ IsConsistent l.shape (kinds_of pattern.now.pieces) l.pairs signs) }
    ensures order { IfOk result (λ l. IsStrictlySortedBy compare_rules l.rules.rules) }
{
    let kinds = kinds_of(alloc, pattern.pieces())?;
    let rules = order_rules(alloc, &shape, kinds.as_slice(), pairs.as_slice())?;
    let rules = rules_on(alloc, pairs.len(), rules)?;
    Ok(Layering {
        folded: shape.into_folded(),
        pairs,
        rules,
    })
}

/// The pairs of a folded shape of the pattern, and the rules on them.
fn layering_of<R: Threads + Sync>(
    rt: &R,
    alloc: Global,
    pattern: &Pattern,
    folded: Folded,
) -> Result<Layering, InstanceFault>
    requires shape { IsShapeOf pattern.now folded }
    requires few { length folded.faces ≤ most_faces }
    requires creases { length folded.creases ≤ most_pieces }
    ensures exact { MatchResult result (IsLayering pattern.now) (IsInstanceFault pattern.now) }
    ensures shape { IfOk result (λ l. l.shape ≡ folded) }
    ensures too_many_pairs { (n : ℕ) → IsErrOf result (TooManyPairs n)
        ↔ (HasMemory result × (most_pairs < n) × HasPairCount folded n) }
    ensures meaning { IfOk result (λ l. (signs : List Sign) → IsTrue (is_consistent l.rules signs)
        ↔ IsConsistent l.shape (kinds_of pattern.now.pieces) l.pairs signs) }
    ensures order { IfOk result (λ l. IsStrictlySortedBy compare_rules l.rules.rules) }
{
    let shape = Insides::of(alloc, folded)?;
    let pairs = pairs(rt, alloc, &shape)?;
    let layering = layering_with(alloc, pattern, shape, pairs)?;
    Ok(layering)
}

/// The layers of a pattern: its faces folded flat, the pairs of faces, and the rules that its layer orders meet.
pub fn instance<R: Threads + Sync>(
    rt: &R,
    alloc: Global,
    pattern: &Pattern,
) -> Result<Layering, InstanceFault>
    // Its folded shape and its pairs, or the first refusal.
    ensures exact { MatchResult result (IsLayering pattern.now) (IsInstanceFault pattern.now) }

    // Too many pairs are refused exactly with their number: a pattern has one folded shape at most.
    ensures too_many_pairs { (n : ℕ) → IsErrOf result (TooManyPairs n)
        ↔ (HasMemory result × AreTooManyPairs pattern.now n) }

    // What is strictly inside its folded faces, on which pairs and conditions rest.
    ensures inside { IfOk result (λ l. KeepsInsidesOf pattern.now l.shape) }

    // A sign list breaks no rule that it decides exactly where it breaks no condition all of whose pairs it decides.
    ensures meaning { IfOk result (λ l. (signs : List Sign) → IsTrue (is_consistent l.rules signs)
        ↔ IsConsistent l.shape (kinds_of pattern.now.pieces) l.pairs signs) }

    // There are few faces; that there are few pairs is part of the layering.
    ensures few { IfOk result (λ l. length l.shape.faces ≤ most_faces) }

    // The rules are in order, each once.
    ensures order { IfOk result (λ l. IsStrictlySortedBy compare_rules l.rules.rules) }
{
    let folded = shape_of(alloc, pattern)?;
    layering_of(rt, alloc, pattern, folded)
}
