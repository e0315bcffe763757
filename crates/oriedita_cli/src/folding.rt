//! The tasks of folding jobs.

use std::alloc::{AllocError, Global};
use std::marker::Model;
use task_board::Work;
use worker_split::{Outcome, Task, perform};

/// What a task says. No value of it is made.
#[derive(Drop)]
pub struct TaskWords {
    task: Task,
}

impl Model for TaskWords {
    ghost use Rattle.std.specs.Prelude.{⊤};
    ghost use Rattle.worker_split.specs.Tasks.{TaskView, task_of};

    ghost Value = { TaskView };

    ghost view = { λ s. task_of s.task };

    ghost invariant = { λ s. ⊤ };
}

/// The searches of folding jobs.
#[derive(Clone, Copy, Drop)]
pub struct Folding;

impl Work for Folding {
    ghost use Rattle.worker_split.specs.Tasks.{task_of, IsRightOutcome};

    type Task = Task;

    type Outcome = Outcome;

    type Stands = TaskWords;

    ghost stands = { λ task. task_of task };

    ghost right = { λ words outcome. IsRightOutcome words outcome };

    fn perform(&self, alloc: Global, task: &Task) -> Result<Outcome, AllocError> {
        perform(alloc, task)
    }

    fn same(&self, a: &Task, b: &Task) -> bool {
        a.same(b)
    }
}
