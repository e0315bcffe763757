//! Where the pair of two faces stands in the list of pairs.

ghost use Rattle.std.specs.Prelude.{◌≡◌, Some, MatchOption};
ghost use Rattle.std.specs.List.{AllPairs, Contains, slice_get};
ghost use Rattle.layer_rules.specs.FacePairs.{Precedes};

use crate::face_pairs::FacePair;

/// The place of a pair, counted from 0, if it is there.
pub(crate) fn place(pairs: &[FacePair], i: u32, j: u32) -> Option<usize>
    requires { AllPairs Precedes pairs.now }
    ensures { MatchOption result (¬ Contains pairs.now (record { i = i; j = j }))
        (λ n. slice_get pairs.now n ≡ Some (record { i = i; j = j })) }
{
    let n = only_place(pairs, i, j);
    let found = pairs.get(n)?;
    if *found != (FacePair { i, j }) {
        return None;
    }
    Some(n)
}

/// The one place where the pair may be: behind all that come before it.
fn only_place(pairs: &[FacePair], i: u32, j: u32) -> usize
    requires { AllPairs Precedes pairs.now }
    ensures { Contains pairs.now (record { i = i; j = j })
        → slice_get pairs.now result ≡ Some (record { i = i; j = j }) }
{
    pairs.partition_point(|pair| pair.i < i || (pair.i == i && pair.j < j))
}
