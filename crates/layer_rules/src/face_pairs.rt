//! The pairs of faces that lie on one another.

ghost use Rattle.std.specs.Prelude.{◌≡◌, ◌↔◌, ◌+◌, ◌^◌, ◌<◌, ◌≤◌, ℕ, length, IfOk, OnOk, IsErrOf, IsTrue};
ghost use Rattle.std.specs.List.{list_any};
ghost use Rattle.layer_rules.specs.Faces.{is_shared_by};
ghost use Rattle.layer_rules.specs.FacePairs.{IsFacePair, IsPairList, HasPairCount, most_pairs, most_folded_faces};
ghost use Rattle.layer_rules.specs.Candidates.{AreBefore, AreCandidates};
ghost use Rattle.layer_rules.specs.Answer.{HasMemory};
ghost use Rattle.layer_rules.specs.declared.face_pairs.PairsFault.TheVariants.{TooManyPairs};

use crate::regions::{Insides, overlap};
use isometry_map::CreaseImage;
use rayon::prelude::*;
use std::alloc::{AllocError, Global};
use std::thread::Threads;
use thiserror::Error;

/// Two faces, `i` before `j`, by their numbers from 1.
#[derive(Clone, Copy, Debug, PartialEq, Eq)]
pub struct FacePair {
    pub i: u32,
    pub j: u32,
}

/// Why a folded shape has no list of pairs.
#[derive(Clone, Copy, Debug, PartialEq, Eq, Error)]
pub enum PairsFault {
    #[error("{0} pairs of faces lie on one another, more than 8192")]
    TooManyPairs(u32),
    #[error("out of memory")]
    Memory,
}

impl From<AllocError> for PairsFault {
    ghost use Rattle.layer_rules.specs.declared.face_pairs.PairsFault.TheVariants.{Memory};

    ghost from_gives = { λ _ e. e ≡ Memory };

    fn from(_e: AllocError) -> PairsFault {
        PairsFault::Memory
    }
}

/// The greatest number of pairs.
const MOST_PAIRS: usize = 8192;

/// The pairs of a folded shape, sorted by the first face, then by the second. The tests run in as many threads as there
/// are processors.
pub fn pairs<R: Threads + Sync>(
    rt: &R,
    alloc: Global,
    shape: &Insides,
) -> Result<Vec<FacePair>, PairsFault>
    requires { length shape.now.faces ≤ most_folded_faces }
    ensures pairs { IfOk result (λ v. IsPairList shape.now v.items) }
    ensures few { IfOk result (λ v. length v.items ≤ most_pairs) }
    ensures too_many { (n : ℕ) → IsErrOf result (TooManyPairs n) ↔
        (HasMemory result × (most_pairs < n) × HasPairCount shape.now n) }
{
    let candidates = candidates(alloc, shape.count() as u32)?;
    let pairs = meeting(rt, alloc, shape, candidates.as_slice())?;
    if pairs.len() > MOST_PAIRS {
        return Err(PairsFault::TooManyPairs(pairs.len() as u32));
    }
    Ok(pairs)
}

/// All pairs of so many faces, in order.
fn candidates(alloc: Global, faces: u32) -> Result<Vec<FacePair>, AllocError>
    requires { faces ≤ most_folded_faces }
    ensures { IfOk result (λ v. AreCandidates faces v.items) }
{
    let mut candidates = Vec::new(alloc);
    for i in 1..faces {
        push_row(&mut candidates, i, faces)?;
    }
    Ok(candidates)
}

/// Those of a first face with each later one.
fn push_row(candidates: &mut Vec<FacePair>, i: u32, faces: u32) -> Result<(), AllocError>
    requires within { faces ≤ most_folded_faces }
    requires first { 1 ≤ i }
    requires last { i < faces }
    requires before { AreBefore faces i candidates.old.items }
    ensures before { OnOk result (AreBefore faces (i + 1) candidates.new.items) }
    ensures few { OnOk result (length candidates.new.items ≤ length candidates.old.items + faces) }
{
    for j in i..faces {
        candidates.push(FacePair { i, j: j + 1 })?;
    }
    Ok(())
}

/// Those candidates that are pairs of the shape.
fn meeting<R: Threads + Sync>(
    rt: &R,
    alloc: Global,
    shape: &Insides,
    candidates: &[FacePair],
) -> Result<Vec<FacePair>, AllocError>
    requires { AreCandidates (length shape.now.faces) candidates.now }
    ensures { IfOk result (λ v. IsPairList shape.now v.items × (length v.items < 2 ^ 32)) }
{
    candidates
        .par_iter()
        .copied()
        .filter(
            |pair: &FacePair| -> bool
                ensures { IsTrue result ↔ IsFacePair shape.entry.now pair.now }
            { meets(shape, pair) },
        )
        .collect(rt, alloc)
}

/// Whether the two are a pair of the shape.
fn meets(shape: &Insides, pair: &FacePair) -> bool
    ensures { IsTrue result ↔ IsFacePair shape.now pair.now }
{
    let (i, j) = (pair.i, pair.j);
    if i < 1 || j <= i || shape.count() < j as usize {
        return false;
    }
    overlap(shape.region(i), shape.region(j)) || have_a_piece(shape.creases(), pair)
}

/// Whether some crease has the two faces on its sides.
fn have_a_piece(creases: &[CreaseImage], pair: &FacePair) -> bool
    ensures { result ≡ list_any (is_shared_by pair.now.i pair.now.j) creases.now }
{
    creases.iter().any(|crease| is_shared(crease, pair))
}

/// Whether the crease has the two faces on its sides.
pub(crate) fn is_shared(crease: &CreaseImage, pair: &FacePair) -> bool
    ensures { result ≡ is_shared_by pair.now.i pair.now.j crease.now }
{
    (crease.a == pair.i && crease.b == pair.j) || (crease.a == pair.j && crease.b == pair.i)
}
