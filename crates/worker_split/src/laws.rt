//! Laws of tasks and outcomes.

ghost use Rattle.worker_split.specs.Laws.{RightOutcomesAreOneFact};

/// That an outcome is right for a task is one fact.
pub fn right_outcomes_are_one_fact()
    ensures { RightOutcomesAreOneFact }
{}
