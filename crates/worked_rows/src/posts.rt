//! Outcomes that come late, twice or to another job, posted to a session.

ghost use Rattle.std.specs.Prelude.{IfOk, IfSome};
ghost use Rattle.std.specs.List.{All};
ghost use Rattle.worker_split.specs.declared.outcome.Outcome.{Outcome};
ghost use Rattle.fold_jobs.specs.Machine.{IsRightIn};

use fold_jobs::laws::right_outcomes_stay;
use job_register::{Event, Session};
use script_lang::Command;
use std::alloc::{AllocError, Global};
use std::process::Abort;
use std::test::*;
use std::thread::Threads;
use worker_split::{Outcome, Taken, perform};

#[derive(Clone, Copy)]
enum Act {
    Fold,
    Another(u32),
    Cancel(u32),
    Peek(u32),
    /// Searches what piece 1 of a job has still to answer, and keeps the outcome behind those that are kept.
    Search(u32),
    /// Posts the last outcome that is kept: whether it is accepted.
    Post(bool),
}

const POSTS: [&[Act]; 6] = [
    // An outcome that comes twice.
    &[
        Act::Fold,
        Act::Another(1),
        Act::Search(1),
        Act::Search(1),
        Act::Post(true),
        Act::Post(false),
    ],
    // It comes again after its answer was shown.
    &[
        Act::Fold,
        Act::Another(1),
        Act::Search(1),
        Act::Search(1),
        Act::Post(true),
        Act::Peek(1),
        Act::Post(false),
    ],
    // And after the next ask, which takes its own outcome.
    &[
        Act::Fold,
        Act::Another(1),
        Act::Search(1),
        Act::Search(1),
        Act::Post(true),
        Act::Peek(1),
        Act::Another(1),
        Act::Post(false),
        Act::Search(1),
        Act::Post(true),
    ],
    // It comes after its job was cancelled.
    &[
        Act::Fold,
        Act::Another(1),
        Act::Search(1),
        Act::Cancel(1),
        Act::Post(false),
    ],
    // Two jobs over one version: each outcome goes to its own job, once.
    &[
        Act::Fold,
        Act::Fold,
        Act::Another(2),
        Act::Another(1),
        Act::Search(2),
        Act::Search(1),
        Act::Search(1),
        Act::Search(2),
        Act::Post(true),
        Act::Post(true),
        Act::Post(false),
        Act::Post(false),
    ],
    // What is cancelled of one job takes nothing from the other.
    &[
        Act::Fold,
        Act::Fold,
        Act::Another(1),
        Act::Another(2),
        Act::Search(2),
        Act::Search(1),
        Act::Cancel(1),
        Act::Post(false),
        Act::Post(true),
    ],
];

// Keeps an outcome of what piece 1 of a job has still to answer.
fn search(
    alloc: Global,
    session: &Session,
    kept: &mut Vec<Outcome>,
    job: u32,
) -> Result<(), AllocError>
    requires { All (λ x. IsRightIn session.now.state.jobs x) kept.old.items }
    ensures { All (λ x. IsRightIn session.now.state.jobs x) kept.new.items }
{
    let Some(task) = session.task(job, 1)? else {
        return Ok(());
    };
    kept.push(perform(alloc, &task)?)?;
    Ok(())
}

// Posts the last outcome that is kept; whether it was accepted, if there is one.
fn post(session: &mut Session, kept: &mut Vec<Outcome>) -> Result<Option<bool>, AllocError>
    requires { All (λ x. IsRightIn session.old.state.jobs x) kept.old.items }
    ensures { All (λ x. IsRightIn session.new.state.jobs x) kept.new.items }
{
    right_outcomes_stay();
    let Some(outcome) = kept.pop() else {
        return Ok(None);
    };
    match session.post(outcome)? {
        Taken::Accepted => Ok(Some(true)),
        Taken::Stranger { .. } => Ok(Some(false)),
    }
}

// What the record says of the outcome that was posted last, if it was the last event.
fn recorded(session: &Session) -> Option<bool> {
    match session.events().events().last() {
        Some(Event::Posted { accepted, .. }) => Some(*accepted),
        _ => None,
    }
}

fn perform_act<R: Abort + Threads + Sync>(
    rt: &R,
    alloc: Global,
    session: &mut Session,
    kept: &mut Vec<Outcome>,
    act: Act,
) -> Result<(), AllocError>
    requires { All (λ x. IsRightIn session.old.state.jobs x) kept.old.items }
    ensures { All (λ x. IsRightIn session.new.state.jobs x) kept.new.items }
{
    match act {
        Act::Fold => session.step(rt, alloc, Command::Fold),
        Act::Another(job) => session.step(rt, alloc, Command::Another { job }),
        Act::Cancel(job) => session.step(rt, alloc, Command::Cancel { job }),
        Act::Peek(job) => session.step(rt, alloc, Command::Peek { job }),
        Act::Search(job) => search(alloc, session, kept, job),
        Act::Post(accepted) => {
            let taken = post(session, kept)?;
            assert_eq!(rt; taken, Some(accepted), "what the post is answered");
            assert_eq!(rt; recorded(session), Some(accepted), "what the record says");
            Ok(())
        }
    }
}

fn perform_acts<R: Abort + Threads + Sync>(
    rt: &R,
    alloc: Global,
    acts: &[Act],
) -> Result<(), AllocError> {
    let mut session = Session::open(alloc, 1)?;
    let mut kept = Vec::new(alloc);
    for act in acts {
        perform_act(rt, alloc, &mut session, &mut kept, *act)?;
    }
    Ok(())
}

#[test]
fn an_outcome_is_taken_once_and_by_its_own_ask(rt: HostRuntime) -> Result<(), Fail> {
    for acts in POSTS {
        perform_acts(&rt, rt.alloc(), acts)?;
    }
    Ok(())
}
