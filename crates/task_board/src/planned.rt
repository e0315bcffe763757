//! Helpers that answer by a list, for tests.
ghost use Rattle.std.specs.Prelude.{◌≡◌, ℕ, None};

use crate::helpers::{Helpers, Obtained};
use crate::shelf::Shelf;
use crate::work::Work;
use std::alloc::{AllocError, Global};
use std::sync::Arc;

/// Misses at the listed calls of `fetch`, counted from 1, else performs the task itself. It gives back each task that is
/// taken out.
#[derive(Drop)]
pub struct Planned<W: Work + Drop> {
    alloc: Global,
    work: W,
    missing: Vec<u64>,
    calls: u64,
    kept: Shelf<Arc<W::Task>>,
    misses: u64,
    returns: u64,
}

impl<W: Work + Drop> Planned<W> {
    /// Holds no task.
    pub fn new(alloc: Global, work: W, missing: Vec<u64>) -> Planned<W>
        ensures misses { ⟦<Planned<W> as Helpers<W>>⟧.misses result ≡ 0 }
        ensures returns { ⟦<Planned<W> as Helpers<W>>⟧.returns result ≡ 0 }
        ensures given { ⟦<Planned<W> as Helpers<W>>⟧.given result ≡ 0 }
        ensures held { (n : ℕ) → ⟦<Planned<W> as Helpers<W>>⟧.held result n ≡ None }
    {
        Planned {
            alloc,
            work,
            missing,
            calls: 0,
            kept: Shelf::new(alloc),
            misses: 0,
            returns: 0,
        }
    }
}

impl<W: Work + Drop> Helpers<W> for Planned<W> {
    ghost use Rattle.std.specs.Prelude.{vec_len, option_map};
    ghost use Rattle.std.specs.Arc.{arc_value};
    ghost use Rattle.task_board.specs.Numbers.{kept_at};

    ghost misses = { λ s. s.misses };

    ghost returns = { λ s. s.returns };

    ghost given = { λ s. vec_len s.kept.places };

    ghost held = { λ s n. option_map (λ t. arc_value t) (kept_at s.kept.places.items n) };

    fn put(&mut self, task: W::Task) -> Result<u32, AllocError> {
        let task = Arc::new(self.alloc, task)?;
        self.kept.put(task)
    }

    fn fetch(&mut self, ticket: u32) -> Result<Option<W::Outcome>, AllocError> {
        self.calls = self.calls.saturating_add(1);
        if self.missing.contains(&self.calls) {
            self.misses = self.misses.saturating_add(1);
            return Ok(None);
        }
        let Some(task) = self.kept.get(ticket) else {
            unreachable!();
        };
        let outcome = self.work.perform(self.alloc, task)?;
        self.kept.remove(ticket);
        Ok(Some(outcome))
    }

    fn obtain(&mut self, ticket: u32) -> Obtained<W> {
        let Some(task) = self.kept.remove(ticket) else {
            unreachable!();
        };
        self.returns = self.returns.saturating_add(1);
        Obtained::Yours(task)
    }
}
