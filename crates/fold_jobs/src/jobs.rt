ghost use Rattle.std.specs.Prelude.{◌≡◌, ◌+◌, ◌≤◌, ◌↔◌, ℕ, length, IfOk, IfSome, IsSome, IsTrue, MatchOption, MatchResult, Ok, Err, None, Some, option_map};
ghost use Rattle.std.specs.Arc.{arc_value};
ghost use Rattle.fold_jobs.specs.Limits.{first_budget, greatest_budget};
ghost use Rattle.fold_jobs.specs.Machine.{no_jobs, is_full, job_at, live_job};

use crate::folding_job::{FoldAnswer, FoldingJob};
use crate::refusal::JobRefusal;
use sign_rules::Rules;
use std::alloc::{AllocError, Global};
use std::marker::Model;
use std::sync::Arc;
use thiserror::Error;
use worker_split::{JobState, Kept, Outcome, Taken, Task};

/// The most jobs of a session, the cancelled ones too.
pub const MOST_JOBS: usize = 64;

/// The most asks of a session.
pub const MOST_ASKS: u32 = 10_000;

/// The budget of an ask before another one is set.
pub const FIRST_BUDGET: u64 = 100_000;

/// Why a job was not opened.
#[derive(Clone, Copy, Debug, PartialEq, Eq, Error)]
pub enum OpenFault {
    #[error("there are 64 jobs")]
    TooManyJobs,
    #[error("out of memory")]
    Memory,
}

impl From<AllocError> for OpenFault {
    ghost use Rattle.std.specs.Prelude.{◌≡◌};
    ghost use Rattle.fold_jobs.specs.declared.jobs.OpenFault.TheVariants.{Memory};

    ghost from_gives = { λ _ e. e ≡ Memory };

    fn from(_fault: AllocError) -> OpenFault {
        OpenFault::Memory
    }
}

// What is known of a job that there is not.
const NO_JOB: Kept = Kept {
    job: 0,
    version: 0,
    piece: 0,
    pieces: 0,
    budget: 0,
    answered: false,
};

/// All jobs of a session, which count from 1.
#[derive(Drop)]
pub struct Jobs {
    jobs: Vec<FoldingJob>,
    budget: u64,
    asks: u32,
    most: u32,
}

impl Model for Jobs {
    ghost use Rattle.fold_jobs.specs.Machine.{JobsView};
    ghost use Rattle.fold_jobs.specs.Invariant.{AreJobs};

    ghost Value = { JobsView };

    ghost view = { λ s. record { jobs = s.jobs.items; budget = s.budget; asks = s.asks; most = s.most } };

    ghost invariant = { λ s.
        AreJobs (record { jobs = s.jobs.items; budget = s.budget; asks = s.asks; most = s.most }) };
}

impl Jobs {
    ghost use Rattle.fold_jobs.specs.Machine.{ask_answer, after_ask, answer_to, after_answer_to, cancel_answer, after_cancel, IsOpened, MatchesIn, IsPosted, IsRightWhereLive, IsRightIn, task_in, needed_in};
    ghost use Rattle.fold_jobs.specs.Waiting.{waiting_in};
    ghost use Rattle.worker_split.specs.Tasks.{task_of, IsRightOutcome};
    ghost use Rattle.worker_split.specs.declared.answers.Taken.TheVariants.{Accepted};
    ghost use Rattle.worker_split.specs.declared.outcome.Outcome.{Outcome};

    /// No jobs yet. Each is searched in at most `most` pieces.
    pub fn new(alloc: Global, most: u32) -> Jobs
        requires { most ≡ 1 }
        ensures { result ≡ no_jobs most }
    {
        Jobs {
            jobs: Vec::new(alloc),
            budget: FIRST_BUDGET,
            asks: 0,
            most,
        }
    }

    /// Whether no job can be opened any more.
    pub fn is_full(&self) -> bool
        ensures { result ≡ is_full self.now }
    {
        self.jobs.len() >= MOST_JOBS
    }

    /// Opens a job on these rules, and gives its number.
    pub fn open(&mut self, alloc: Global, version: u32, rules: Arc<Rules>) -> Result<u32, OpenFault>
        ensures { IsOpened self.old version (arc_value rules) result self.new }
    {
        if self.is_full() {
            return Err(OpenFault::TooManyJobs);
        }
        let number = self.jobs.len() as u32 + 1;
        self.jobs.reserve(1)?;
        let state = JobState::open(alloc, number, version, rules, self.most)?;
        self.jobs
            .push(FoldingJob {
                state,
                shown: 0,
                cancelled: false,
            })
            .unwrap();
        Ok(number)
    }

    /// Opens an ask of a job with the budget of this moment.
    pub fn ask(&mut self, job: u32) -> Result<(), JobRefusal>
        ensures answer { result ≡ ask_answer self.old job }
        ensures state { self.new ≡ after_ask self.old job result }
    {
        if self.live(job)?.state.asked() {
            return Err(JobRefusal::Busy);
        }
        if self.asks >= MOST_ASKS {
            return Err(JobRefusal::TooManyAsks);
        }
        let budget = self.budget;
        let _ = self.jobs[job as usize - 1].state.ask(budget);
        self.asks += 1;
        Ok(())
    }

    /// Sets the budget of the asks that are opened from now on.
    pub fn set_budget(&mut self, budget: u64)
        requires some { 1 ≤ budget }
        requires few { budget ≤ greatest_budget }
        ensures { self.new ≡ record self.old { budget = budget } }
    {
        self.budget = budget;
    }

    /// What the open ask of a job came to. Each answer but NotReady, which changes nothing, closes the ask.
    pub fn answer(&mut self, job: u32) -> Result<FoldAnswer, JobRefusal>
        ensures answer { result ≡ answer_to self.old job }
        ensures state { self.new ≡ after_answer_to self.old job result }
    {
        if !self.live(job)?.state.asked() {
            return Err(JobRefusal::NothingAsked);
        }
        Ok(self.jobs[job as usize - 1].answer())
    }

    /// Cancels a job. Its number is not given again.
    pub fn cancel(&mut self, job: u32) -> Result<(), JobRefusal>
        ensures answer { result ≡ cancel_answer self.old job }
        ensures state { self.new ≡ after_cancel self.old job result }
    {
        let _ = self.live(job)?;
        self.jobs[job as usize - 1].cancelled = true;
        Ok(())
    }

    /// Takes an outcome that answers the last task of a piece of a job that was not cancelled. Any other
    /// changes nothing, and comes back.
    pub fn post(&mut self, outcome: Outcome) -> Taken
        requires { IsRightWhereLive self.old outcome }
        ensures posted { IsPosted self.old outcome result self.new }
        ensures fewer { result ≡ Accepted
            → waiting_in self.old outcome.job ≡ waiting_in self.new outcome.job + 1 }
    {
        let Some(job) = self.job(outcome.job) else {
            return Taken::Stranger {
                kept: NO_JOB,
                came: outcome,
            };
        };
        if job.cancelled {
            return Taken::Stranger {
                kept: job.state.kept(outcome.piece),
                came: outcome,
            };
        }
        self.jobs[outcome.job as usize - 1].state.accept(outcome)
    }

    /// What a piece of a job has still to answer in the open ask, if the job is there and was not cancelled.
    pub fn task(&self, job: u32, piece: u32) -> Result<Option<Task>, AllocError>
        ensures task { IfOk result (λ task. option_map task_of task ≡ task_in self.now job piece) }
        ensures job { IfOk result (λ task. IfSome task (λ t. t.job ≡ job)) }
        ensures right { IfOk result (λ task. IfSome task (λ t. (x : Outcome) → IsRightOutcome (task_of t) x
            → IsRightIn self.now x)) }
        ensures answers { IfOk result (λ task. IfSome task (λ t. (x : Outcome) → IsRightOutcome (task_of t) x
            → MatchesIn self.now x)) }
    {
        let _ = &self.jobs;
        match self.live(job) {
            Ok(live) => live.state.task(piece),
            Err(_) => Ok(None),
        }
    }

    /// The piece whose outcome the open ask of a job waits for, if the job is there and was not cancelled. It has a
    /// task.
    pub fn needs(&self, job: u32) -> Option<u32>
        ensures needed { result ≡ needed_in self.now job }
        ensures task { IfSome result (λ piece. IsSome (task_in self.now job piece)) }
    {
        match self.live(job) {
            Ok(live) => live.state.needs(),
            Err(_) => None,
        }
    }

    /// Whether an outcome answers the last task of a piece of a job that was not cancelled.
    pub fn matches(&self, outcome: &Outcome) -> bool
        ensures { IsTrue result ↔ MatchesIn self.now outcome.now }
    {
        match self.job(outcome.job) {
            Some(job) => !job.cancelled && job.state.matches(outcome),
            None => false,
        }
    }

    fn job(&self, number: u32) -> Option<&FoldingJob>
        ensures { MatchOption result (job_at self.now number ≡ None)
            (λ job. job_at self.now number ≡ Some job.now) }
    {
        if number == 0 {
            return None;
        }
        self.jobs.get(number as usize - 1)
    }

    /// The job, if it is there and was not cancelled.
    fn live(&self, number: u32) -> Result<&FoldingJob, JobRefusal>
        ensures { MatchResult result (λ job. live_job self.now number ≡ Ok job.now)
            (λ refusal. live_job self.now number ≡ Err refusal) }
    {
        match self.job(number) {
            Some(job) if job.cancelled => Err(JobRefusal::Cancelled),
            Some(job) => Ok(job),
            None => Err(JobRefusal::NoSuchJob),
        }
    }
}
