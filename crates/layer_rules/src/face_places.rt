//! Where the pair of two faces stands in the list of pairs, whichever of them is the lesser.

ghost use Rattle.std.specs.Prelude.{◌≡◌, ◌≤◌, length};
ghost use Rattle.std.specs.List.{AllPairs};
ghost use Rattle.layer_rules.specs.FacePairs.{Precedes, most_pairs};
ghost use Rattle.layer_rules.specs.FacePlaces.{lesser_first, IsPlace};

use crate::face_pairs::FacePair;
use crate::places::place;

/// The place of the pair of two faces, if it is there.
pub(crate) fn place_of(pairs: &[FacePair], f: u32, g: u32) -> Option<u32>
    requires ascending { AllPairs Precedes pairs.now }
    requires few { length pairs.now ≤ most_pairs }
    ensures { IsPlace pairs.now f g result }
{
    let pair = lesser_first(f, g);
    match place(pairs, pair.i, pair.j) {
        Some(p) => Some(p as u32),
        None => None,
    }
}

/// The pair of the two faces, the lesser one first.
fn lesser_first(f: u32, g: u32) -> FacePair
    ensures { result ≡ lesser_first f g }
{
    if f < g {
        FacePair { i: f, j: g }
    } else {
        FacePair { i: g, j: f }
    }
}
