//! What is worked on.
ghost use Rattle.std.specs.Prelude.{◌≡◌, ◌↔◌, IsTrue, IfOk};

use std::alloc::{AllocError, Global};

/// Tasks, and how they are performed.
pub trait Work {
    type Task: Drop;

    type Outcome: Drop;
    /// The plain numbers and lists of a task. No value of it is made.
    type Stands;

    /// What the task says.
    ghost stands: { Self.Task → Self.Stands };

    /// Whether the outcome is right for a task that says this.
    ghost right: { Self.Stands → Self.Outcome → Type 0 };

    /// Performs the task.
    fn perform(&self, alloc: Global, task: &Self::Task) -> Result<Self::Outcome, AllocError>
        ensures { IfOk result (λ outcome. right (stands task.now) outcome) };

    /// Whether the two tasks say the same.
    fn same(&self, a: &Self::Task, b: &Self::Task) -> bool
        ensures { IsTrue result ↔ (stands a.now ≡ stands b.now) };
}
