//! Helpers over a board.
ghost use Rattle.std.specs.Prelude.{ℕ, ◌≡◌, ◌≢◌, ◌+◌, ◌<◌, ◌≤◌, ◌⊎◌, IfOk, IfNone, IfSome, IsSome, Some, None, OnErr};
ghost use Rattle.std.specs.Arc.{arc_value};
ghost use Rattle.std.specs.Option.{ForSome};
ghost use Rattle.task_board.specs.Helping.{raised};

use crate::board::Board;
use crate::fault::PutFault;
use crate::helpers::{Helpers, Obtained};
use crate::seat::Seat;
use crate::shelf::Shelf;
use crate::work::Work;
use std::alloc::{AllocError, Global};
use std::sync::ledger::Ledger;
use std::sync::{Arc, Wait};

/// A task that is held, and its ticket at the board, where the board gave one.
#[derive(Drop)]
pub struct Kept<W: Work> {
    task: Arc<W::Task>,
    ticket: Option<u32>,
}

/// Helpers that pass tasks on to a board. An outcome is handed on only where the task beside it says what the
/// kept one says.
#[derive(Drop)]
pub struct OverBoard<'a, W: Work, L: Ledger, R: Wait> {
    rt: &'a R,
    alloc: Global,
    board: &'a Board<W, L>,
    work: &'a W,
    seat: Seat<L>,
    kept: Shelf<Kept<W>>,
    misses: u64,
    returns: u64,
}

impl<'a, W: Work, L: Ledger, R: Wait> OverBoard<'a, W, L, R> {
    ghost use Rattle.task_board.specs.OverBoard.{given_of, held_of, misses_of, returns_of, seat_of};

    /// Helpers that hold no task.
    pub fn new(
        rt: &'a R,
        alloc: Global,
        board: &'a Board<W, L>,
        work: &'a W,
        seat: Seat<L>,
    ) -> OverBoard<'a, W, L, R>
        ensures misses { misses_of result ≡ 0 }
        ensures returns { returns_of result ≡ 0 }
        ensures given { given_of result ≡ 0 }
        ensures held { (n : ℕ) → held_of result n ≡ None }
        ensures seat { seat_of result ≡ seat }
    {
        OverBoard {
            rt,
            alloc,
            board,
            work,
            seat,
            kept: Shelf::new(alloc),
            misses: 0,
            returns: 0,
        }
    }

    /// The seat, as its calls left it.
    pub fn into_seat(self) -> Seat<L>
        ensures { result ≡ seat_of self.entry }
    {
        let OverBoard { seat, .. } = self;
        seat
    }

    /// How often no outcome was there.
    pub fn misses(&self) -> u64
        ensures { result ≡ misses_of self.now }
    {
        self.misses
    }

    /// How often a task came back.
    pub fn returns(&self) -> u64
        ensures { result ≡ returns_of self.now }
    {
        self.returns
    }
}

impl<'a, W: Work, L: Ledger, R: Wait> Helpers<W> for OverBoard<'a, W, L, R> {
    ghost use Rattle.task_board.specs.Helping.{IsObtained, returned};
    ghost use Rattle.task_board.specs.OverBoard.{IsOffBoard, given_of, held_of, misses_of, returns_of, seat_of};

    ghost misses = { misses_of };

    ghost returns = { returns_of };

    ghost given = { given_of };

    ghost held = { held_of };

    fn put(&mut self, task: W::Task) -> Result<u32, AllocError>
        requires { given_of self.old < 4294967295 }
        ensures ticket { IfOk result (λ n. (n ≡ given_of self.new) × (given_of self.new ≡ given_of self.old + 1)) }
        ensures fresh { IfOk result (λ n. held_of self.old n ≡ None) }
        ensures held { IfOk result (λ n. held_of self.new n ≡ Some task) }
        ensures others { IfOk result (λ n. (k : ℕ) → k ≢ n → held_of self.new k ≡ held_of self.old k) }
        ensures err { OnErr result ((given_of self.new ≡ given_of self.old)
            × ((k : ℕ) → held_of self.new k ≡ held_of self.old k)) }
        ensures counts { (misses_of self.new ≡ misses_of self.old) × (returns_of self.new ≡ returns_of self.old) }

        // Without memory the board was not asked.
        ensures unasked { OnErr result (seat_of self.new ≡ seat_of self.old) }
    {
        let task = Arc::new(self.alloc, task)?;
        let copy = Arc::try_clone(&task)?;
        self.kept.reserve()?;
        let ticket = match self.board.put(self.rt, &mut self.seat, copy) {
            Ok(ticket) => Some(ticket),
            Err(PutFault::Memory(_)) => return Err(AllocError),
            Err(_) => None,
        };
        Ok(self.kept.put_reserved(Kept { task, ticket }))
    }

    fn fetch(&mut self, ticket: u32) -> Result<Option<W::Outcome>, AllocError>
        requires { IsSome (held_of self.old ticket) }
        ensures right { IfOk result (λ o. IfSome o (λ outcome.
            IfSome (held_of self.old ticket) (λ task. ∥ W.right (W.stands task) outcome ∥₁))) }
        ensures gone { IfOk result (λ o. IfSome o (λ _. held_of self.new ticket ≡ None)) }
        ensures missed { IfOk result (λ o. IfNone o (raised (misses_of self.old) ≤ misses_of self.new)) }
        ensures stays { IfOk result (λ o. IfNone o (held_of self.new ticket ≡ held_of self.old ticket)) }
        ensures err { OnErr result (held_of self.new ticket ≡ held_of self.old ticket) }
        ensures others { (k : ℕ) → k ≢ ticket → held_of self.new k ≡ held_of self.old k }
        ensures given { given_of self.new ≡ given_of self.old }
        ensures counts { (misses_of self.old ≤ misses_of self.new) × (returns_of self.old ≤ returns_of self.new) }

        // A miss is counted for none alone, once, and only where the board was asked or has not the task.
        ensures once { IfOk result (λ o. IfNone o (misses_of self.new ≡ raised (misses_of self.old))) }
        ensures returns { returns_of self.new ≡ returns_of self.old }
        ensures found { IfOk result (λ o. IfSome o (λ _. misses_of self.new ≡ misses_of self.old)) }
        ensures asked { IfOk result (λ o. IfNone o
            (((seat_of self.old).made < (seat_of self.new).made) ⊎ IsOffBoard self.old ticket)) }
        ensures unasked { OnErr result
            ((misses_of self.new ≡ misses_of self.old) × (seat_of self.new ≡ seat_of self.old)) }
    {
        let Some(kept) = self.kept.get(ticket) else {
            unreachable!();
        };
        let found = match kept.ticket {
            Some(number) => self.board.fetch(self.rt, &mut self.seat, number)?,
            None => None,
        };
        let outcome = outcome_for(self.work, &kept.task, found);
        match outcome {
            Some(_) => {
                self.kept.remove(ticket);
            }
            None => self.misses = self.misses.saturating_add(1),
        }
        Ok(outcome)
    }

    fn obtain(&mut self, ticket: u32) -> Obtained<W>
        requires { IsSome (held_of self.old ticket) }
        ensures right { IfSome (held_of self.old ticket)
            (λ task. IsObtained (W.right (W.stands task)) result task (returns_of self.old)
            (returns_of self.new)) }
        ensures gone { held_of self.new ticket ≡ None }
        ensures others { (k : ℕ) → k ≢ ticket → held_of self.new k ≡ held_of self.old k }
        ensures given { given_of self.new ≡ given_of self.old }
        ensures counts { (misses_of self.old ≤ misses_of self.new) × (returns_of self.old ≤ returns_of self.new) }

        // A return is counted for a task alone, once.
        ensures misses { misses_of self.new ≡ misses_of self.old }
        ensures returned { returns_of self.new ≡ returned result (returns_of self.old) }
    {
        let Some(kept) = self.kept.remove(ticket) else {
            unreachable!();
        };
        let found = match kept.ticket {
            Some(number) => self.board.obtain(self.rt, &mut self.seat, number),
            None => None,
        };
        match outcome_for(self.work, &kept.task, found) {
            Some(outcome) => Obtained::Posted(outcome),
            None => {
                self.returns = self.returns.saturating_add(1);
                Obtained::Yours(kept.task)
            }
        }
    }
}

/// The outcome, where the task beside it says what the kept task says.
fn outcome_for<W: Work>(
    work: &W,
    kept: &Arc<W::Task>,
    found: Option<(Arc<W::Task>, W::Outcome)>,
) -> Option<W::Outcome>
    requires { ForSome found (λ p. ∥ W.right (W.stands (arc_value p.0)) p.1 ∥₁) }
    ensures { IfSome result (λ outcome. ∥ W.right (W.stands (arc_value kept.now)) outcome ∥₁) }
{
    let (task, outcome) = found?;
    if work.same(kept, &task) {
        Some(outcome)
    } else {
        None
    }
}
