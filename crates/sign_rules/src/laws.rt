ghost use Rattle.sign_rules.specs.Laws.{FrontsAreConsistent};

/// A front of a list that breaks no rule breaks none.
pub fn fronts_are_consistent()
    ensures { FrontsAreConsistent }
{}
