//! The outcomes of helpers: what is put, fetched and obtained for the asks of a session.

ghost use Rattle.std.specs.Prelude.{◌≡◌, ◌≤◌, ◌<◌, ◌+◌, ◌++◌, ◌∷◌, [], ℕ, length, IfOk, IfSome, IsSome, None, OnOk, Some, true, false};
ghost use Rattle.worker_split.specs.declared.task.Task.{Task};
ghost use Rattle.worker_split.specs.Tasks.{task_of, IsRightOutcome};
ghost use Rattle.task_board.specs.Helping.{IsObtained};
ghost use Rattle.fold_jobs.specs.Machine.{task_in, needed_in};
ghost use Rattle.fold_jobs.specs.Waiting.{waiting_in};
ghost use Rattle.job_register.specs.Machine.{IsReady};
ghost use Rattle.job_register.specs.Counts.{peeks_too_early};
ghost use Rattle.oriedita_io.specs.Faults.{Rose};
ghost use Rattle.oriedita_cli.specs.Serving.{OnlyPosts};
ghost use Rattle.oriedita_cli.specs.Tickets.{MayBePosted, IsHelped, IsTicketFor};

use crate::folding::Folding;
use crate::tickets::{HeldTicket, Tickets};
use fold_jobs::laws::right_outcomes_stay;
use job_register::Session;
use script_lang::Command;
use std::alloc::{AllocError, Global};
use task_board::{Helpers, Obtained};
use worker_split::laws::right_outcomes_are_one_fact;
use worker_split::{Outcome, Task, perform};

/// Puts a task of the session. A session that was given as many tickets as can be counted is refused memory.
fn put_task<H: Helpers<Folding>>(
    session: &Session,
    helpers: &mut H,
    tickets: &mut Tickets,
    task: Task,
) -> Result<u32, AllocError>
    requires helped { IsHelped (H.held helpers.old) (H.given helpers.old) session.now tickets.old }
    requires right { MayBePosted session.now.state.jobs task }
    ensures helped { IsHelped (H.held helpers.new) (H.given helpers.new) session.now tickets.new }
    ensures held { IfOk result (λ number. H.held helpers.new number ≡ Some task) }
    ensures listed { IfOk result (λ number. (ticket : HeldTicket)
        × (ticket.number ≡ number) × (ticket.job ≡ task.job)
        × (tickets.new.list.items ≡ tickets.old.list.items ++ ticket ∷ [])) }
    ensures misses { H.misses helpers.new ≡ H.misses helpers.old }
{
    if tickets.given == u32::MAX {
        return Err(AllocError);
    }
    tickets.list.reserve(1)?;
    let job = task.job;
    let piece = task.piece;
    let budget = task.budget;
    let number = helpers.put(task)?;
    tickets.given += 1;
    tickets
        .list
        .push(HeldTicket {
            number,
            job,
            piece,
            budget,
        })
        .unwrap();
    Ok(number)
}

/// The ticket for what a piece has still to answer. A task that was put already, and that was not given back, is not put
/// again.
fn ticket_for<H: Helpers<Folding>>(
    session: &Session,
    helpers: &mut H,
    tickets: &mut Tickets,
    job: u32,
    piece: u32,
) -> Result<Option<u32>, AllocError>
    requires { IsHelped (H.held helpers.old) (H.given helpers.old) session.now tickets.old }
    ensures helped { IsHelped (H.held helpers.new) (H.given helpers.new) session.now tickets.new }
    ensures there { IfOk result
        (λ ticket. IsSome (task_in session.now.state.jobs job piece) → IsSome ticket) }
    ensures ticket { IfOk result (λ ticket. IfSome ticket (λ number. IsTicketFor (H.held helpers.new)
        session.now.state.jobs job number tickets.old.list.items tickets.new.list.items)) }
    ensures misses { H.misses helpers.new ≡ H.misses helpers.old }
{
    let Some(task) = session.task(job, piece)? else {
        return Ok(None);
    };
    if let Some(number) = tickets.find(job, piece, task.budget) {
        return Ok(Some(number));
    }
    let number = put_task(session, helpers, tickets, task)?;
    Ok(Some(number))
}

/// Puts what the pieces of a job have still to answer.
pub fn put_tasks<H: Helpers<Folding>>(
    session: &Session,
    helpers: &mut H,
    tickets: &mut Tickets,
    job: u32,
    most: u32,
) -> Result<(), AllocError>
    requires { IsHelped (H.held helpers.old) (H.given helpers.old) session.now tickets.old }
    ensures helped { IsHelped (H.held helpers.new) (H.given helpers.new) session.now tickets.new }
    ensures misses { H.misses helpers.new ≡ H.misses helpers.old }
{
    for place in 0..most {
        ticket_for(session, helpers, tickets, job, place + 1)?;
    }
    Ok(())
}

/// The outcome of a task that was obtained, which is performed here where it came back.
fn outcome_of(alloc: Global, obtained: Obtained<Folding>) -> Result<Outcome, AllocError>
    ensures { (task : Task) (before now : ℕ)
        → IsObtained (λ x. IsRightOutcome (task_of task) x) obtained task before now
        → IfOk result (λ x. IsRightOutcome (task_of task) x) }
{
    right_outcomes_are_one_fact();
    match obtained {
        Obtained::Posted(outcome) => Ok(outcome),
        Obtained::Yours(task) => perform(alloc, &task),
    }
}

/// Fetches the outcome of a piece that the open ask of a job waits for, and posts it; false where it was not there.
fn fetch_piece<H: Helpers<Folding>>(
    session: &mut Session,
    helpers: &mut H,
    tickets: &mut Tickets,
    job: u32,
    piece: u32,
) -> Result<bool, AllocError>
    requires there { IsSome (task_in session.old.state.jobs job piece) }
    requires helped { IsHelped (H.held helpers.old) (H.given helpers.old) session.old tickets.old }
    ensures helped { IsHelped (H.held helpers.new) (H.given helpers.new) session.new tickets.new }
    ensures goes_on { OnlyPosts session.old session.new }
    ensures misses { H.misses helpers.old ≤ H.misses helpers.new }
    ensures missed { IfOk result
        (λ found. found ≡ false → Rose (H.misses helpers.old) (H.misses helpers.new)) }
    ensures fewer { IfOk result (λ found. found ≡ true
        → length tickets.new.list.items + waiting_in session.new.state.jobs job
        < length tickets.old.list.items + waiting_in session.old.state.jobs job) }
{
    right_outcomes_stay();
    right_outcomes_are_one_fact();
    let Some(number) = ticket_for(session, helpers, tickets, job, piece)? else {
        return Err(AllocError);
    };
    let Some(outcome) = helpers.fetch(number)? else {
        return Ok(false);
    };
    tickets.forget(number);
    let _ = session.post(outcome)?;
    Ok(true)
}

/// Obtains the outcome of a piece that the open ask of a job waits for, and posts it.
fn obtain_piece<H: Helpers<Folding>>(
    alloc: Global,
    session: &mut Session,
    helpers: &mut H,
    tickets: &mut Tickets,
    job: u32,
    piece: u32,
) -> Result<(), AllocError>
    requires there { IsSome (task_in session.old.state.jobs job piece) }
    requires helped { IsHelped (H.held helpers.old) (H.given helpers.old) session.old tickets.old }
    ensures helped { IsHelped (H.held helpers.new) (H.given helpers.new) session.new tickets.new }
    ensures goes_on { OnlyPosts session.old session.new }
    ensures misses { H.misses helpers.old ≤ H.misses helpers.new }
    ensures fewer { OnOk result (length tickets.new.list.items + waiting_in session.new.state.jobs job
        < length tickets.old.list.items + waiting_in session.old.state.jobs job) }
{
    right_outcomes_stay();
    let Some(number) = ticket_for(session, helpers, tickets, job, piece)? else {
        return Err(AllocError);
    };
    let obtained = helpers.obtain(number);
    tickets.forget(number);
    let outcome = outcome_of(alloc, obtained)?;
    let _ = session.post(outcome)?;
    Ok(())
}

/// Fetches what the open ask of a job waits for, until one outcome is not there.
fn fetch_job<H: Helpers<Folding>>(
    session: &mut Session,
    helpers: &mut H,
    tickets: &mut Tickets,
    job: u32,
) -> Result<(), AllocError>
    requires { IsHelped (H.held helpers.old) (H.given helpers.old) session.old tickets.old }
    ensures helped { IsHelped (H.held helpers.new) (H.given helpers.new) session.new tickets.new }
    ensures goes_on { OnlyPosts session.old session.new }
    ensures misses { H.misses helpers.old ≤ H.misses helpers.new }
    ensures missed { OnOk result (IsSome (needed_in session.new.state.jobs job)
        → Rose (H.misses helpers.old) (H.misses helpers.new)) }
{
    while let Some(piece) = session.needs(job) {
        if !fetch_piece(session, helpers, tickets, job, piece)? {
            return Ok(());
        }
    }
    Ok(())
}

/// Obtains all that the open ask of a job waits for.
fn obtain_job<H: Helpers<Folding>>(
    alloc: Global,
    session: &mut Session,
    helpers: &mut H,
    tickets: &mut Tickets,
    job: u32,
) -> Result<(), AllocError>
    requires { IsHelped (H.held helpers.old) (H.given helpers.old) session.old tickets.old }
    ensures helped { IsHelped (H.held helpers.new) (H.given helpers.new) session.new tickets.new }
    ensures goes_on { OnlyPosts session.old session.new }
    ensures misses { H.misses helpers.old ≤ H.misses helpers.new }
    ensures ready { OnOk result (needed_in session.new.state.jobs job ≡ None) }
{
    while let Some(piece) = session.needs(job) {
        obtain_piece(alloc, session, helpers, tickets, job, piece)?;
    }
    Ok(())
}

/// Makes the session ready for a command: fetches what a peek asks for, and obtains what a wait waits for.
pub fn prepare<H: Helpers<Folding>>(
    alloc: Global,
    session: &mut Session,
    helpers: &mut H,
    tickets: &mut Tickets,
    command: &Command,
) -> Result<(), AllocError>
    requires { IsHelped (H.held helpers.old) (H.given helpers.old) session.old tickets.old }
    ensures helped { IsHelped (H.held helpers.new) (H.given helpers.new) session.new tickets.new }
    ensures goes_on { OnlyPosts session.old session.new }
    ensures misses { H.misses helpers.old ≤ H.misses helpers.new }
    ensures missed { OnOk result (peeks_too_early session.new.state command.now ≡ true
        → Rose (H.misses helpers.old) (H.misses helpers.new)) }
    ensures ready { OnOk result (IsReady session.new.state command.now) }
{
    match command {
        Command::Peek { job } => fetch_job(session, helpers, tickets, *job),
        Command::Wait { job } => obtain_job(alloc, session, helpers, tickets, *job),
        _ => Ok(()),
    }
}
