//! What adding and loading give. These functions do nothing: each contract is a law of the patterns.

ghost use Rattle.crease_store.specs.Laws.{AddedMeet, AddedIsOne};
ghost use Rattle.crease_store.specs.OwnLines.{OwnLinesAreLoaded};

/// Once a segment is added, the pieces meet at ends alone again, whatever it cuts.
#[tactic(auto, using(crate::proofs::AddLaws::added_meet))]
pub fn added_meet()
    ensures { AddedMeet }
{}

/// At most one pattern is another one with a segment added.
#[tactic(auto, using(crate::proofs::AddLaws::added_is_one))]
pub fn added_is_one()
    ensures { AddedIsOne }
{}

/// The lines of a pattern, put to load where its sheet is in force, give that pattern again.
pub fn own_lines_are_loaded()
    ensures { OwnLinesAreLoaded }
{}
