//! What stands beside a ticket.
ghost use Rattle.std.specs.Arc.{arc_value};
ghost use Rattle.std.specs.Prelude.{◌≡◌};

use crate::work::Work;
use std::sync::Arc;

/// A task with its outcome, which is right for it.
#[derive(Drop)]
pub struct Answer<W: Work> {
    pub task: Arc<W::Task>,
    pub outcome: W::Outcome,
    ghost right: { ∥ W.right (W.stands (arc_value task)) outcome ∥₁ },
}

/// What stands beside a ticket.
#[derive(Drop)]
pub enum Content<W: Work> {
    Nothing,
    Task(Arc<W::Task>),
    Answer(Answer<W>),
}
