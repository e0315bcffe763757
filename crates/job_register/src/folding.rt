//! The answers to commands about folding jobs.

ghost use Rattle.std.specs.Prelude.{◌≡◌, ◌≤◌, IfOk, OnErr, Ok, IsFalse};
ghost use Rattle.undo_journal.specs.Versions.{JournalView};
ghost use Rattle.fold_jobs.specs.Limits.{greatest_budget};
ghost use Rattle.fold_jobs.specs.Machine.{is_full};
ghost use Rattle.job_register.specs.Edits.{current_pattern_of};
ghost use Rattle.job_register.specs.Layers.{IsLayersOf};
ghost use Rattle.job_register.specs.Machine.{IsFoldReply, IsAsk, IsShow, IsCancel, IsBudget, refusal_of_layers, refusal_of_job, answer_reply};

use fold_jobs::{FoldAnswer, JobRefusal, Jobs, OpenFault};
use layer_rules::{InstanceFault, Layering, instance};
use script_lang::{Refusal, Reply};
use std::alloc::{AllocError, Global};
use std::thread::Threads;
use undo_journal::Journal;

/// The refusal of a pattern that has no layers; none for want of memory.
fn refusal_of_layers(fault: InstanceFault) -> Option<Refusal>
    ensures { result ≡ refusal_of_layers fault }
{
    match fault {
        InstanceFault::NotConvex { at, direction } => Some(Refusal::NotConvex { at, direction }),
        InstanceFault::TooManyFaces { faces } => Some(Refusal::TooManyFaces { faces }),
        InstanceFault::Unreached { face } => Some(Refusal::Unreached { face }),
        InstanceFault::DoesNotClose { piece } => Some(Refusal::DoesNotClose { piece }),
        InstanceFault::FoldRange { face } => Some(Refusal::FoldRange { face }),
        InstanceFault::TooManyLines { lines } => Some(Refusal::TooManyLines { lines }),
        InstanceFault::TooManyPairs { pairs } => Some(Refusal::TooManyPairs { pairs }),
        InstanceFault::Memory => None,
    }
}

fn refusal_of_job(job: u32, refusal: JobRefusal) -> Reply
    ensures { result ≡ Reply.Refused (refusal_of_job job refusal) }
{
    let refusal = match refusal {
        JobRefusal::NoSuchJob => Refusal::NoSuchJob { job },
        JobRefusal::Cancelled => Refusal::Cancelled { job },
        JobRefusal::Busy => Refusal::Busy { job },
        JobRefusal::NothingAsked => Refusal::NothingAsked { job },
        JobRefusal::TooManyAsks => Refusal::TooManyAsks,
    };
    Reply::Refused { refusal }
}

// Opens a job on the layers of the current version.
fn open_job(
    alloc: Global,
    journal: &Journal,
    jobs: &mut Jobs,
    layers: &Layering,
) -> Result<Reply, AllocError>
    requires layers { IsLayersOf (current_pattern_of journal.now) layers.now }
    requires room { IsFalse (is_full jobs.old) }
    ensures ok { IfOk result (λ reply. IsFoldReply (record { journal = journal.now; jobs = jobs.old }) reply
        (record { journal = journal.now; jobs = jobs.new })) }
    ensures err { OnErr result (jobs.new ≡ jobs.old) }
{
    let version = journal.current();
    let rules = layers.rules()?;
    match jobs.open(alloc, version, rules) {
        Ok(job) => Ok(Reply::Job {
            job,
            version,
            faces: layers.faces(),
            pairs: layers.pairs().len() as u32,
        }),
        Err(OpenFault::TooManyJobs) => Ok(Reply::Refused {
            refusal: Refusal::TooManyJobs,
        }),
        Err(OpenFault::Memory) => Err(AllocError),
    }
}

/// Folds the current version, and opens a job on its layers.
pub(crate) fn fold<R: Threads + Sync>(
    rt: &R,
    alloc: Global,
    journal: &mut Journal,
    jobs: &mut Jobs,
) -> Result<Reply, AllocError>
    ensures ok { IfOk result (λ reply. IsFoldReply (record { journal = journal.old; jobs = jobs.old }) reply
        (record { journal = journal.new; jobs = jobs.new })) }
    ensures same { journal.new ≡ journal.old }
    ensures err { OnErr result (jobs.new ≡ jobs.old) }
{
    if jobs.is_full() {
        return Ok(Reply::Refused {
            refusal: Refusal::TooManyJobs,
        });
    }
    let pattern = journal.current_pattern()?;
    match instance(rt, alloc, pattern.as_ref()) {
        Ok(layers) => open_job(alloc, journal, jobs, &layers),
        Err(fault) => match refusal_of_layers(fault) {
            Some(refusal) => Ok(Reply::Refused { refusal }),
            None => Err(AllocError),
        },
    }
}

/// Opens an ask of a job.
pub(crate) fn another(jobs: &mut Jobs, job: u32) -> Reply
    ensures { (journal : JournalView) → IsAsk (record { journal = journal; jobs = jobs.old }) job result
        (record { journal = journal; jobs = jobs.new }) }
{
    match jobs.ask(job) {
        Ok(()) => Reply::Asked { job },
        Err(refusal) => refusal_of_job(job, refusal),
    }
}

fn answer_reply(job: u32, answer: FoldAnswer) -> Reply
    ensures { result ≡ answer_reply job (Ok answer) }
{
    match answer {
        FoldAnswer::Shown {
            version,
            number,
            order,
        } => Reply::Shown {
            job,
            version,
            number,
            order,
        },
        FoldAnswer::NoMore { version } => Reply::NoMore { job, version },
        FoldAnswer::Paused { version } => Reply::Paused { job, version },
        FoldAnswer::NotReady { version, .. } => Reply::Running { job, version },
    }
}

/// What the open ask of a job came to.
pub(crate) fn show(jobs: &mut Jobs, job: u32) -> Reply
    ensures { (journal : JournalView) → IsShow (record { journal = journal; jobs = jobs.old }) job result
        (record { journal = journal; jobs = jobs.new }) }
{
    match jobs.answer(job) {
        Ok(answer) => answer_reply(job, answer),
        Err(refusal) => refusal_of_job(job, refusal),
    }
}

/// Cancels a job.
pub(crate) fn cancel(jobs: &mut Jobs, job: u32) -> Reply
    ensures { (journal : JournalView) → IsCancel (record { journal = journal; jobs = jobs.old }) job result
        (record { journal = journal; jobs = jobs.new }) }
{
    match jobs.cancel(job) {
        Ok(()) => Reply::Cancelled { job },
        Err(refusal) => refusal_of_job(job, refusal),
    }
}

/// Sets the budget of the asks to come.
pub(crate) fn set_budget(jobs: &mut Jobs, budget: u64) -> Reply
    requires some { 1 ≤ budget }
    requires few { budget ≤ greatest_budget }
    ensures { (journal : JournalView) → IsBudget (record { journal = journal; jobs = jobs.old }) budget result
        (record { journal = journal; jobs = jobs.new }) }
{
    jobs.set_budget(budget);
    Reply::Budget { budget }
}
