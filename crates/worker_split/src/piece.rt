ghost use Rattle.std.specs.Prelude.{◌≡◌, ℕ, IfOk, IsTrue, ◌↔◌, if◌then◌else◌, Some, None};
ghost use Rattle.search_cursor.specs.Place.{search_place};

use crate::answers::JobAnswer;
use crate::outcome::{End, Outcome};
use search_cursor::Position;
use sign_rules::Order;
use std::alloc::AllocError;
use std::mem;

/// A piece of a job: the orders that begin with its prefix, from the kept position on.
#[derive(Drop)]
pub struct Piece {
    pub prefix: Order,
    pub kept: Position,
    pub end: PieceEnd,
    pub last: LastTask,
}

/// What a piece has come to.
#[derive(Drop)]
pub enum PieceEnd {
    /// There may be more orders from its kept position on.
    Open,
    /// Its next order, which was not shown yet.
    Ready { order: Order },
    /// No order is left.
    Done,
}

/// The last task of a piece. One that is not answered begins at the kept position.
#[derive(Clone, Copy, Debug, PartialEq, Eq)]
pub enum LastTask {
    Never,
    Asked { budget: u64 },
    Answered { budget: u64 },
}

impl Piece {
    ghost use Rattle.worker_split.specs.Job.{new_piece, answered_piece, asked_piece, end_answer, reopened_end, is_finished, waits_for};

    /// A piece of which nothing was asked yet.
    pub(crate) fn new(prefix: &Order) -> Result<Piece, AllocError>
        ensures { IfOk result (λ p. p ≡ new_piece prefix.now.list) }
    {
        Ok(Piece {
            prefix: prefix.copy()?,
            kept: Position {
                signs: prefix.copy()?,
                past: false,
            },
            end: PieceEnd::Open,
            last: LastTask::Never,
        })
    }

    /// Whether no order is left.
    pub(crate) fn is_done(&self) -> bool
        ensures { result ≡ is_finished self.now.end }
    {
        matches!(self.end, PieceEnd::Done)
    }

    /// A new task, where the piece is open.
    pub(crate) fn ask(&mut self, budget: u64)
        ensures { self.new ≡ asked_piece budget self.old }
    {
        if let PieceEnd::Open = self.end {
            self.last = LastTask::Asked { budget };
        }
    }

    /// Takes the answer of the last task.
    pub(crate) fn accept(&mut self, budget: u64, end: End)
        ensures { self.new ≡ answered_piece self.old budget end }
    {
        self.last = LastTask::Answered { budget };
        match end {
            End::Found { order, position } => {
                self.kept = position;
                self.end = PieceEnd::Ready { order };
            }
            End::Done => self.end = PieceEnd::Done,
            End::Paused { position } => self.kept = position,
        }
    }

    /// What the piece answers, and its order where it has one ready, which it then gives away.
    pub(crate) fn answer(&mut self, number: u32) -> JobAnswer
        ensures answer { result ≡ end_answer number self.old.end self.old.last }
        ensures state { self.new ≡ record self.old { end = reopened_end self.old.end } }
    {
        match mem::replace(&mut self.end, PieceEnd::Open) {
            PieceEnd::Ready { order } => JobAnswer::Shown(order),
            PieceEnd::Done => {
                self.end = PieceEnd::Done;
                JobAnswer::NoMore
            }
            PieceEnd::Open => match self.last {
                LastTask::Answered { .. } => JobAnswer::Paused,
                LastTask::Asked { .. } | LastTask::Never => JobAnswer::NotReady(number),
            },
        }
    }

    /// Whether the piece is open and its last task has no outcome yet.
    pub(crate) fn is_waiting(&self) -> bool
        ensures { (number : ℕ) → waits_for (end_answer number self.now.end self.now.last)
            ≡ (if result then Some number else None) }
    {
        match (&self.end, self.last) {
            (PieceEnd::Open, LastTask::Asked { .. }) | (PieceEnd::Open, LastTask::Never) => true,
            _ => false,
        }
    }

    /// Whether the last task, unanswered so far, has the budget and the position of the outcome.
    pub(crate) fn is_answered_by(&self, outcome: &Outcome) -> bool
        ensures { IsTrue result ↔ ((self.now.last ≡ LastTask.Asked outcome.now.budget)
            × (search_place outcome.now.from ≡ search_place self.now.kept)) }
    {
        match self.last {
            LastTask::Asked { budget } => budget == outcome.budget && outcome.from.same(&self.kept),
            LastTask::Never | LastTask::Answered { .. } => false,
        }
    }
}
