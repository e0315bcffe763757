//! Helpers that perform nothing.
ghost use Rattle.std.specs.Prelude.{◌≡◌, ℕ, None};

use crate::helpers::{Helpers, Obtained};
use crate::shelf::Shelf;
use crate::work::Work;
use std::alloc::{AllocError, Global};
use std::sync::Arc;

/// Keeps the tasks, misses at each fetch, and gives each task back.
#[derive(Drop)]
pub struct Alone<W: Work> {
    alloc: Global,
    kept: Shelf<Arc<W::Task>>,
    misses: u64,
    returns: u64,
}

impl<W: Work> Alone<W> {
    /// Holds no task.
    pub fn new(alloc: Global) -> Alone<W>
        ensures misses { ⟦<Alone<W> as Helpers<W>>⟧.misses result ≡ 0 }
        ensures returns { ⟦<Alone<W> as Helpers<W>>⟧.returns result ≡ 0 }
        ensures given { ⟦<Alone<W> as Helpers<W>>⟧.given result ≡ 0 }
        ensures held { (n : ℕ) → ⟦<Alone<W> as Helpers<W>>⟧.held result n ≡ None }
    {
        Alone {
            alloc,
            kept: Shelf::new(alloc),
            misses: 0,
            returns: 0,
        }
    }
}

impl<W: Work> Helpers<W> for Alone<W> {
    ghost use Rattle.std.specs.Prelude.{vec_len, option_map};
    ghost use Rattle.std.specs.Arc.{arc_value};
    ghost use Rattle.task_board.specs.Numbers.{kept_at};

    ghost misses = { λ s. s.misses };

    ghost returns = { λ s. s.returns };

    ghost given = { λ s. vec_len s.kept.places };

    ghost held = { λ s n. option_map (λ t. arc_value t) (kept_at s.kept.places.items n) };

    fn put(&mut self, task: W::Task) -> Result<u32, AllocError> {
        let task = Arc::new(self.alloc, task)?;
        self.kept.put(task)
    }

    fn fetch(&mut self, _ticket: u32) -> Result<Option<W::Outcome>, AllocError> {
        self.misses = self.misses.saturating_add(1);
        Ok(None)
    }

    fn obtain(&mut self, ticket: u32) -> Obtained<W> {
        let Some(task) = self.kept.remove(ticket) else {
            unreachable!();
        };
        self.returns = self.returns.saturating_add(1);
        Obtained::Yours(task)
    }
}
