ghost use Rattle.std.specs.Prelude.{◌≡◌, ◌<◌, IsSome};
ghost use Rattle.fold_jobs.specs.Limits.{most_asks};
ghost use Rattle.fold_jobs.specs.Machine.{answer_told, answered};
ghost use Rattle.worker_split.specs.Job.{next_answer};

use sign_rules::Order;
use worker_split::{JobAnswer, JobState};

/// A job of a session.
#[derive(Drop)]
pub struct FoldingJob {
    pub state: JobState,
    /// How many orders were shown.
    pub shown: u32,
    pub cancelled: bool,
}

/// What an ask of a job came to, with the job's version.
#[derive(Drop)]
pub enum FoldAnswer {
    /// The next order. Numbers count from 1.
    Shown {
        version: u32,
        number: u32,
        order: Order,
    },
    NoMore {
        version: u32,
    },
    Paused {
        version: u32,
    },
    /// The ask waits for the outcome of this piece, counted from 1.
    NotReady {
        version: u32,
        piece: u32,
    },
}

impl FoldingJob {
    /// What the open ask came to. An order that is shown is counted.
    pub(crate) fn answer(&mut self) -> FoldAnswer
        requires asked { IsSome self.old.state.ask }
        requires few { self.old.shown < most_asks }
        ensures answer { result
            ≡ answer_told self.old.state.version self.old.shown (next_answer self.old.state) }
        ensures state { self.new ≡ answered result self.old }
    {
        let version = self.state.version();
        match self.state.answer() {
            JobAnswer::Shown(order) => {
                self.shown += 1;
                FoldAnswer::Shown {
                    version,
                    number: self.shown,
                    order,
                }
            }
            JobAnswer::NoMore => FoldAnswer::NoMore { version },
            JobAnswer::Paused => FoldAnswer::Paused { version },
            JobAnswer::NotReady(piece) => FoldAnswer::NotReady { version, piece },
        }
    }
}
