//! Who performs tasks for their owner.
ghost use Rattle.std.specs.Prelude.{◌≡◌, ◌≢◌, ℕ, ◌+◌, ◌-◌, ◌^◌, ◌<◌, ◌≤◌, min, Option, None, Some, IsSome, IfOk, IfSome, IfNone, OnErr};
ghost use Rattle.task_board.specs.Helping.{IsObtained, raised};

use crate::work::Work;
use std::alloc::AllocError;
use std::sync::Arc;

/// What becomes of a ticket that its owner takes out.
#[derive(Drop)]
pub enum Obtained<W: Work> {
    /// Its outcome.
    Posted(W::Outcome),
    /// The task, which its owner performs.
    Yours(Arc<W::Task>),
}

/// Tasks are put under tickets, counted from 1, and their outcomes asked for.
pub trait Helpers<W: Work> {
    /// How often no outcome was there.
    ghost misses: { Self → ℕ };

    /// How often a task came back.
    ghost returns: { Self → ℕ };

    /// How many tickets were given.
    ghost given: { Self → ℕ };

    /// The task that is held under a ticket.
    ghost held: { Self → ℕ → Option W.Task };

    /// Holds the task under a new ticket.
    fn put(&mut self, task: W::Task) -> Result<u32, AllocError>
        requires { given self.old < 4294967295 }
        ensures ticket { IfOk result (λ n. (n ≡ given self.new) × (given self.new ≡ given self.old + 1)) }
        ensures fresh { IfOk result (λ n. held self.old n ≡ None) }
        ensures held { IfOk result (λ n. held self.new n ≡ Some task) }
        ensures others { IfOk result (λ n. (k : ℕ) → k ≢ n → held self.new k ≡ held self.old k) }
        ensures err { OnErr result ((given self.new ≡ given self.old)
            × ((k : ℕ) → held self.new k ≡ held self.old k)) }
        ensures counts { (misses self.new ≡ misses self.old) × (returns self.new ≡ returns self.old) };

    /// The outcome of a ticket, which is held no more then; or none yet, which is a miss.
    fn fetch(&mut self, ticket: u32) -> Result<Option<W::Outcome>, AllocError>
        requires { IsSome (held self.old ticket) }
        ensures right { IfOk result (λ o. IfSome o (λ outcome.
            IfSome (held self.old ticket) (λ task. ∥ W.right (W.stands task) outcome ∥₁))) }
        ensures gone { IfOk result (λ o. IfSome o (λ _. held self.new ticket ≡ None)) }
        ensures missed { IfOk result
            (λ o. IfNone o (raised (misses self.old) ≤ misses self.new)) }
        ensures stays { IfOk result (λ o. IfNone o (held self.new ticket ≡ held self.old ticket)) }
        ensures err { OnErr result (held self.new ticket ≡ held self.old ticket) }
        ensures others { (k : ℕ) → k ≢ ticket → held self.new k ≡ held self.old k }
        ensures given { given self.new ≡ given self.old }
        ensures counts { (misses self.old ≤ misses self.new) × (returns self.old ≤ returns self.new) };

    /// The outcome of a ticket, or the task itself, which is a return. The ticket is held no more.
    fn obtain(&mut self, ticket: u32) -> Obtained<W>
        requires { IsSome (held self.old ticket) }
        ensures right { IfSome (held self.old ticket)
            (λ task. IsObtained (W.right (W.stands task)) result task (returns self.old) (returns self.new)) }
        ensures gone { held self.new ticket ≡ None }
        ensures others { (k : ℕ) → k ≢ ticket → held self.new k ≡ held self.old k }
        ensures given { given self.new ≡ given self.old }
        ensures counts { (misses self.old ≤ misses self.new) × (returns self.old ≤ returns self.new) };
}
