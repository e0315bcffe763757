//! What loose vertices and merged patterns are. These functions do nothing: each contract is a law of the
//! patterns.

ghost use Rattle.crease_store.specs.MergedLaws.{LooseIsTwo, MergedIsOne};

/// A vertex is loose exactly where two pieces end at it and no more, in opposite directions and of one kind.
pub fn loose_is_two()
    ensures { LooseIsTwo }
{}

/// At most one pattern is another one merged.
pub fn merged_is_one()
    ensures { MergedIsOne }
{}
