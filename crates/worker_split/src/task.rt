ghost use Rattle.std.specs.Prelude.{◌≡◌, ◌≤◌, IsTrue, ◌↔◌};
ghost use Rattle.std.specs.Arc.{arc_value};
ghost use Rattle.sign_rules.specs.Rules.{is_consistent};
ghost use Rattle.order_search.specs.Invariant.{IsConsistentWithin};

use search_cursor::Position;
use sign_rules::{Order, Rules};
use std::sync::Arc;

/// To search a piece of a job from a position on, for at most so many open lists.
#[derive(Drop)]
pub struct Task {
    pub job: u32,
    pub version: u32,
    /// Pieces count from 1.
    pub piece: u32,
    pub rules: Arc<Rules>,
    pub prefix: Order,
    pub position: Position,
    pub budget: u64,
    pub ghost consistent: { IsTrue (is_consistent (arc_value rules) prefix.list) },
    pub ghost within: { IsConsistentWithin (arc_value rules) prefix.list position.signs.list },
    pub ghost some_budget: { 1 ≤ budget },
}

impl Task {
    ghost use Rattle.worker_split.specs.Tasks.{task_of};

    /// Whether the two are the same task: the same numbers, the same lists and the same rules.
    pub fn same(&self, other: &Task) -> bool
        ensures { IsTrue result ↔ (task_of self.now ≡ task_of other.now) }
    {
        self.job == other.job
            && self.version == other.version
            && self.piece == other.piece
            && self.budget == other.budget
            && self.prefix.same(&other.prefix)
            && self.position.same(&other.position)
            && self.rules.same(&other.rules)
    }
}
