//! A measure of the board among threads: an owner puts tasks and fetches their outcomes while eight workers serve. The
//! first word is the number of runs (one where there is none). A second word prints the history of each run on a line, else
//! the sum of all outcomes is printed.
#![tactic(auto)]

ghost use Rattle.std.specs.Prelude.{◌≡◌, ◌*◌};

use std::alloc::{AllocError, Global};
use std::env;
use std::marker::Brand;
use std::process::ExitCode;
use std::rt::Env;
use std::sync::ledger::{Blank, Ledger};
use std::sync::{Arc, Wait};
use std::thread::{Threads, join_mut, map_vec, yield_now};
use task_board::{Board, BoardEvent, BoardStep, NoGate, Seat, Work, serve};

/// The exit status where a line could not be written.
const NOT_WRITTEN: u8 = 4;

/// The exit status where memory was refused.
const NO_MEMORY: u8 = 6;

/// How many tasks are put in a run.
const TASKS: u32 = 12;

/// How often the owner asks for an outcome before it takes the ticket out.
const TURNS: u32 = 200;

/// Squares a number.
#[derive(Drop)]
struct Squares {}

impl Work for Squares {
    type Task = u32;

    type Outcome = u64;

    type Stands = u32;

    ghost stands = { λ task. task };

    ghost right = { λ task outcome. outcome ≡ task * task };

    fn perform(&self, _alloc: Global, task: &u32) -> Result<u64, AllocError> {
        Ok(square(*task))
    }

    fn same(&self, a: &u32, b: &u32) -> bool {
        a == b
    }
}

fn square(number: u32) -> u64
    ensures { result ≡ number * number }
{
    u64::from(number) * u64::from(number)
}

/// The outcome of a ticket as soon as it is there. After many turns the ticket is taken out, and where it has none the
/// owner performs its task, which is of the same number.
fn outcome_of<L: Ledger, R: Wait>(
    rt: &R,
    board: &Board<Squares, L>,
    seat: &mut Seat<L>,
    ticket: u32,
) -> u64 {
    for _ in 0..TURNS {
        if let Ok(Some((_task, outcome))) = board.fetch(rt, seat, ticket) {
            return outcome;
        }
        yield_now();
    }
    match board.obtain(rt, seat, ticket) {
        Some((_task, outcome)) => outcome,
        None => square(ticket),
    }
}

/// Puts the tasks, asks for their outcomes, and adds those that it gets.
fn sum_of<L: Ledger, R: Wait>(
    rt: &R,
    alloc: Global,
    board: &Board<Squares, L>,
    seat: &mut Seat<L>,
) -> u64 {
    for number in 1..=TASKS {
        if let Ok(task) = Arc::new(alloc, number) {
            let _ticket = board.put(rt, seat, task);
        }
    }
    let mut sum = 0u64;
    for ticket in 1..=TASKS {
        sum = sum.wrapping_add(outcome_of(rt, board, seat, ticket));
    }
    sum
}

/// What the owner does with its seat, which it hands back.
fn own<L: Ledger, R: Wait>(
    rt: &R,
    alloc: Global,
    board: &Board<Squares, L>,
    seat: Seat<L>,
) -> (u64, Seat<L>) {
    let mut seat = seat;
    let sum = sum_of(rt, alloc, board, &mut seat);
    board.close(rt, &mut seat);
    (sum, seat)
}

/// Writes a history on a line: of each event the seat, a letter and the ticket, and what it answered.
fn write_history(out: &mut String, events: &[BoardEvent]) -> Result<(), AllocError> {
    for event in events {
        write_event(out, event)?;
    }
    Ok(())
}

fn write_event(out: &mut String, event: &BoardEvent) -> Result<(), AllocError> {
    let (letter, ticket, answer) = match event.step {
        BoardStep::Put(Some(ticket)) => ('P', ticket, true),
        BoardStep::Put(None) => ('P', 0, false),
        BoardStep::Take(Some(ticket)) => ('T', ticket, true),
        BoardStep::Take(None) => ('T', 0, false),
        BoardStep::Post(ticket) => ('O', ticket, true),
        BoardStep::GiveBack(ticket) => ('G', ticket, true),
        BoardStep::Fetch(ticket, found) => ('F', ticket, found),
        BoardStep::Obtain(ticket, found) => ('B', ticket, found),
        BoardStep::Close => ('C', 0, true),
    };
    let seat = event.seat;
    let answer = if answer { '+' } else { '-' };
    write!(out, "{seat}{letter}{ticket}{answer} ")
}

/// What eight workers do with their seats, which they hand back.
fn work<L: Ledger + Send + Sync, R: Threads + Wait + Sync>(
    rt: &R,
    alloc: Global,
    board: &Board<Squares, L>,
    seats: Vec<Seat<L>>,
) -> Option<Vec<Seat<L>>> {
    let squares = Squares {};
    map_vec(
        rt,
        seats,
        &|seat| serve(rt, alloc, board, seat, &squares, &NoGate),
    )
    .ok()
}

/// One run of owner and workers side by side: the sum of the outcomes. Its history is put behind what is written already.
fn run<L: Ledger + Send + Sync, R: Threads + Wait + Sync>(
    rt: &R,
    alloc: Global,
    blank: Blank,
    out: &mut String,
) -> Result<u64, AllocError>
    requires name { blank.name ≡ L.name }
    requires parts { blank.parts ≡ L.parts }
    requires nine { blank.parts ≡ 9 }
{
    let (board, mut seats) = Board::<Squares, L>::open(alloc, blank, 9)?;
    let mut owner = seats.pop();
    let mut workers = Some(seats);
    let (owned, served) = join_mut(
        rt,
        &mut || match owner.take() {
            Some(seat) => Some(own(rt, alloc, &board, seat)),
            None => None,
        },
        &mut || match workers.take() {
            Some(seats) => work(rt, alloc, &board, seats),
            None => None,
        },
    );
    let (sum, seat) = owned.ok_or(AllocError)?;
    let mut seats = served.ok_or(AllocError)?;
    seats.push(seat)?;
    if seats.len() != 9 {
        return Err(AllocError);
    }
    let state = board.shut(seats);
    write_history(out, state.history().events())?;
    Ok(sum)
}

/// How many runs the first word asks for, and whether there is a second one.
fn wanted<R: Env + Alloc>(rt: &R) -> (u32, bool) {
    let Ok(mut arguments) = env::args(rt) else {
        return (1, false);
    };
    let _name = arguments.next();
    let Some(word) = arguments.next() else {
        return (1, false);
    };
    (
        word.as_str().parse::<u32>().unwrap_or(1),
        arguments.next().is_some(),
    )
}

fn main(rt: HostRuntime) -> ExitCode {
    let (runs, is_shown) = wanted(&rt);
    let mut sum = 0u64;
    for _ in 0..runs {
        let mut history = String::new(rt.alloc());
        let Ok(found) = run::<Brand, _>(&rt, rt.alloc(), Blank::new(9), &mut history) else {
            return ExitCode::from(NO_MEMORY);
        };
        sum = sum.wrapping_add(found);
        if is_shown && println!(rt; "{history}").is_err() {
            return ExitCode::from(NOT_WRITTEN);
        }
    }
    if is_shown {
        return ExitCode::SUCCESS;
    }
    match println!(rt; "{sum}") {
        Ok(()) => ExitCode::SUCCESS,
        Err(_) => ExitCode::from(NOT_WRITTEN),
    }
}
