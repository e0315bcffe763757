//! What a board answers its seats, alone and in two threads.

ghost use Rattle.std.specs.Prelude.{◌≡◌, ◌+◌, IsSome};
ghost use Rattle.std.specs.Arc.{arc_value};

use std::alloc::{AllocError, Global};
use std::marker::Brand;
use std::process::Abort;
use std::sync::atomic::{AtomicU64, Ordering};
use std::sync::ledger::{Blank, Ledger};
use std::sync::{Arc, Wait};
use std::test::*;
use std::thread::{Threads, join_mut, map_vec, yield_now};
use task_board::{
    Board, BoardEvent, BoardStep, Gate, Helpers, History, NoGate, Obtained, OverBoard, PutFault,
    Seat, Work, serve,
};

/// Doubles a number, and raises a flag first.
#[derive(Drop)]
struct Doubling {
    flag: AtomicU64,
}

impl Work for Doubling {
    type Task = u32;

    type Outcome = u64;

    type Stands = u32;

    ghost stands = { λ task. task };

    ghost right = { λ task outcome. outcome ≡ task + task };

    fn perform(&self, _alloc: Global, task: &u32) -> Result<u64, AllocError> {
        self.flag.store(1, Ordering::SeqCst);
        Ok(u64::from(*task) + u64::from(*task))
    }

    fn same(&self, a: &u32, b: &u32) -> bool {
        a == b
    }
}

fn make_doubling() -> Doubling {
    Doubling {
        flag: AtomicU64::new(0),
    }
}

#[test]
fn one_seat_makes_eight_events(rt: HostRuntime) -> Result<(), Fail> {
    one_seat::<Brand, _>(&rt, rt.alloc(), Blank::new(1))
}

fn one_seat<L: Ledger, R: Wait + Abort>(rt: &R, alloc: Global, blank: Blank) -> Result<(), Fail>
    requires name { blank.name ≡ L.name }
    requires parts { blank.parts ≡ L.parts }
    requires one { blank.parts ≡ 1 }
{
    let (board, mut seats) = Board::<Doubling, L>::open(alloc, blank, 1)?;
    let mut seat = seats.pop().ok_or("a seat")?;
    let task = Arc::new(alloc, 7)?;
    assert_eq!(rt; board.put(rt, &mut seat, task).ok(), Some(1));
    assert!(rt; board.fetch(rt, &mut seat, 1)?.is_none());
    let (ticket, task) = board.take(rt, &mut seat).ok_or("a task")?;
    assert_eq!(rt; ticket, 1);
    let outcome = make_doubling().perform(alloc, &task)?;
    assert!(rt; board.post(rt, &mut seat, ticket, task, outcome));
    let (task, outcome) = board.fetch(rt, &mut seat, 1)?.ok_or("an outcome")?;
    assert_eq!(rt; (*task, outcome), (7, 14));
    assert!(rt; board.close(rt, &mut seat));
    assert!(rt; board.take(rt, &mut seat).is_none());
    let task = Arc::new(alloc, 9)?;
    let refused = closed_with(board.put(rt, &mut seat, task));
    assert_eq!(rt; refused, Some(9));
    assert_eq!(rt; seat.made(), 8);
    assert!(rt; seat.ended());
    seats.push(seat)?;
    assert_eq!(rt; board.shut(seats).count(), 8);
    Ok(())
}

/// The task that a closed board handed back.
fn closed_with(put: Result<u32, PutFault<Arc<u32>>>) -> Option<u32> {
    match put {
        Err(PutFault::Closed(task)) => Some(*task),
        Err(_fault) => None,
        Ok(_ticket) => None,
    }
}

#[test]
fn a_task_is_given_back(rt: HostRuntime) -> Result<(), Fail> {
    given_back::<Brand, _>(&rt, rt.alloc(), Blank::new(1))
}

/// Only a ticket that is taken can be given back; its owner then finds no outcome, and it is handed out to nobody.
fn given_back<L: Ledger, R: Wait + Abort>(rt: &R, alloc: Global, blank: Blank) -> Result<(), Fail>
    requires name { blank.name ≡ L.name }
    requires parts { blank.parts ≡ L.parts }
    requires one { blank.parts ≡ 1 }
{
    let (board, mut seats) = Board::<Doubling, L>::open(alloc, blank, 1)?;
    let mut seat = seats.pop().ok_or("a seat")?;
    let task = Arc::new(alloc, 7)?;
    assert_eq!(rt; board.put(rt, &mut seat, task).ok(), Some(1));
    assert!(rt; !board.give_back(rt, &mut seat, 1));
    let (ticket, task) = board.take(rt, &mut seat).ok_or("a task")?;
    assert!(rt; board.give_back(rt, &mut seat, ticket));
    assert!(rt; !board.give_back(rt, &mut seat, ticket));
    let outcome = make_doubling().perform(alloc, &task)?;
    assert!(rt; !board.post(rt, &mut seat, ticket, task, outcome));
    assert!(rt; board.fetch(rt, &mut seat, ticket)?.is_none());
    assert!(rt; board.obtain(rt, &mut seat, ticket).is_none());
    assert!(rt; board.close(rt, &mut seat));
    assert!(rt; board.take(rt, &mut seat).is_none());
    assert_eq!(rt; seat.made(), 7);
    Ok(())
}

#[test]
fn helpers_over_a_board(rt: HostRuntime) -> Result<(), Fail> {
    two_seats::<Brand, _>(&rt, rt.alloc(), Blank::new(2))
}

fn two_seats<L: Ledger, R: Wait + Abort>(rt: &R, alloc: Global, blank: Blank) -> Result<(), Fail>
    requires name { blank.name ≡ L.name }
    requires parts { blank.parts ≡ L.parts }
    requires two { blank.parts ≡ 2 }
{
    let work = make_doubling();
    let (board, mut seats) = Board::<Doubling, L>::open(alloc, blank, 2)?;
    let mut worker = seats.pop().ok_or("a seat")?;
    let owner = seats.pop().ok_or("a seat")?;
    let mut helpers = OverBoard::new(rt, alloc, &board, &work, owner);
    let first = helpers.put(3)?;
    let second = helpers.put(4)?;
    for _ in 0..2u8 {
        let (ticket, task) = board.take(rt, &mut worker).ok_or("a task")?;
        let outcome = work.perform(alloc, &task)?;
        assert!(rt; board.post(rt, &mut worker, ticket, task, outcome));
    }
    assert_eq!(rt; helpers.fetch(first)?, Some(6));
    assert_eq!(rt; posted(helpers.obtain(second)), Ok(8));
    assert_eq!(rt; (helpers.misses(), helpers.returns()), (0, 0));
    let third = helpers.put(5)?;
    assert_eq!(rt; posted(helpers.obtain(third)), Err(5));
    assert_eq!(rt; helpers.returns(), 1);
    Ok(())
}

/// The outcome, or the task.
fn posted(obtained: Obtained<Doubling>) -> Result<u64, u32> {
    match obtained {
        Obtained::Posted(outcome) => Ok(outcome),
        Obtained::Yours(task) => Err(*task),
    }
}

#[test]
fn a_worker_in_a_thread(rt: HostRuntime) -> Result<(), Fail> {
    owner_and_worker::<Brand, _>(&rt, rt.alloc(), Blank::new(2))
}

fn owner_and_worker<L: Ledger + Send + Sync, R: Threads + Wait + Abort + Sync>(
    rt: &R,
    alloc: Global,
    blank: Blank,
) -> Result<(), Fail>
    requires name { blank.name ≡ L.name }
    requires parts { blank.parts ≡ L.parts }
    requires two { blank.parts ≡ 2 }
{
    let work = make_doubling();
    let (board, mut seats) = Board::<Doubling, L>::open(alloc, blank, 2)?;
    let mut server = seats.pop();
    let mut owner = seats.pop();
    let (outcome, _) = join_mut(
        rt,
        &mut || match owner.take() {
            Some(seat) => own(rt, alloc, &board, &work, seat),
            None => None,
        },
        &mut || match server.take() {
            Some(seat) => Some(serve(rt, alloc, &board, seat, &work, &NoGate)),
            None => None,
        },
    );
    assert_eq!(rt; outcome, Some(42));
    Ok(())
}

/// Puts a task, waits until it was begun, fetches its outcome and closes the board.
fn own<L: Ledger, R: Wait>(
    rt: &R,
    alloc: Global,
    board: &Board<Doubling, L>,
    work: &Doubling,
    seat: Seat<L>,
) -> Option<u64> {
    let mut helpers = OverBoard::new(rt, alloc, board, work, seat);
    let outcome = asked(&mut helpers, work);
    let mut seat = helpers.into_seat();
    board.close(rt, &mut seat);
    outcome
}

/// The outcome of a task that is put, where it comes in time.
fn asked<'a, L: Ledger, R: Wait>(
    helpers: &mut OverBoard<'a, Doubling, L, R>,
    work: &Doubling,
) -> Option<u64>
    requires { ⟦<OverBoard<'a, Doubling, L, R> as Helpers<Doubling>>⟧.given helpers.old ≡ 0 }
{
    let ticket = helpers.put(21).ok()?;
    for _ in 0..200_000_000u32 {
        if work.flag.load(Ordering::SeqCst) == 1 {
            break;
        }
        yield_now();
    }
    fetched(helpers, ticket)
}

/// The outcome of a ticket that is held, as soon as it is there.
fn fetched<'a, L: Ledger, R: Wait>(
    helpers: &mut OverBoard<'a, Doubling, L, R>,
    ticket: u32,
) -> Option<u64>
    requires { IsSome (⟦<OverBoard<'a, Doubling, L, R> as Helpers<Doubling>>⟧.held helpers.old ticket) }
{
    for _turn in 0..1_000_000u32 {
        let found = helpers.fetch(ticket).ok()?;
        if found.is_some() {
            return found;
        }
        yield_now();
    }
    None
}

/// Tells that a search is to begin, and holds it back until it may.
#[derive(Drop)]
struct Held {
    begun: AtomicU64,
    may_begin: AtomicU64,
}

impl Gate for Held {
    fn before(&self, _ticket: u32) {
        self.begun.store(1, Ordering::SeqCst);
        wait_for(&self.may_begin);
    }
}

/// Returns once the flag is raised, or after very many turns.
fn wait_for(flag: &AtomicU64) {
    for _ in 0..1_000_000u32 {
        if flag.load(Ordering::SeqCst) == 1 {
            break;
        }
        yield_now();
    }
}

/// Both workers wait before a task is put, and again before the board is closed: a put that woke none of them would
/// have its task come back, and a close that left one asleep would never end.
#[test]
fn workers_that_wait_are_woken(rt: HostRuntime) -> Result<(), Fail> {
    owner_and_two_workers::<Brand, _>(&rt, rt.alloc(), Blank::new(3))
}

fn owner_and_two_workers<L: Ledger + Send + Sync, R: Threads + Wait + Abort + Sync>(
    rt: &R,
    alloc: Global,
    blank: Blank,
) -> Result<(), Fail>
    requires name { blank.name ≡ L.name }
    requires parts { blank.parts ≡ L.parts }
    requires three { blank.parts ≡ 3 }
{
    let work = make_doubling();
    let gate = Held {
        begun: AtomicU64::new(0),
        may_begin: AtomicU64::new(0),
    };
    let (board, mut seats) = Board::<Doubling, L>::open(alloc, blank, 3)?;
    let mut owner = seats.pop();
    let mut workers = Some(seats);
    let (_, answers) = join_mut(
        rt,
        &mut || match workers.take() {
            Some(seats) => serve_on(rt, alloc, &board, seats, &work, &gate),
            None => {}
        },
        &mut || match owner.take() {
            Some(seat) => own_held(rt, alloc, &board, &work, &gate, seat),
            None => None,
        },
    );
    assert_eq!(rt; answers, Some((6, 8)));
    Ok(())
}

/// Serves on each seat in a thread of its own.
fn serve_on<L: Ledger + Send + Sync, R: Threads + Wait + Sync>(
    rt: &R,
    alloc: Global,
    board: &Board<Doubling, L>,
    seats: Vec<Seat<L>>,
    work: &Doubling,
    gate: &Held,
) {
    let _ = map_vec(rt, seats, &|seat| serve(rt, alloc, board, seat, work, gate));
}

/// Puts two tasks while the workers wait, has both outcomes, and closes the board while the workers wait again.
fn own_held<L: Ledger, R: Wait>(
    rt: &R,
    alloc: Global,
    board: &Board<Doubling, L>,
    work: &Doubling,
    gate: &Held,
    seat: Seat<L>,
) -> Option<(u64, u64)> {
    let mut helpers = OverBoard::new(rt, alloc, board, work, seat);
    pause();
    let answers = held_then_served(&mut helpers, gate);
    pause();
    let mut seat = helpers.into_seat();
    board.close(rt, &mut seat);
    answers
}

/// Lets the other threads run.
fn pause() {
    for _ in 0..20_000u32 {
        yield_now();
    }
}

/// The outcome of a task that is held back when it is fetched, which is then waited for, and that of a second one.
fn held_then_served<'a, L: Ledger, R: Wait>(
    helpers: &mut OverBoard<'a, Doubling, L, R>,
    gate: &Held,
) -> Option<(u64, u64)>
    requires { ⟦<OverBoard<'a, Doubling, L, R> as Helpers<Doubling>>⟧.given helpers.old ≡ 0 }
{
    let ticket = helpers.put(3).ok()?;
    wait_for(&gate.begun);
    if helpers.fetch(ticket).ok()?.is_some() {
        return None;
    }
    gate.may_begin.store(1, Ordering::SeqCst);
    let first = posted(helpers.obtain(ticket)).ok()?;
    let ticket = helpers.put(4).ok()?;
    let second = fetched(helpers, ticket)?;
    Some((first, second))
}

#[test]
fn a_take_or_obtain_may_have_to_wait(rt: HostRuntime) -> Result<(), Fail> {
    let mut history = History::open(rt.alloc())?;
    assert!(rt; history.take(1).is_err());
    assert_eq!(rt; history.put(0).ok(), Some(1));
    assert_eq!(rt; history.take(1).ok().flatten(), Some(1));
    assert!(rt; history.obtain(0, 1).is_err());
    assert_eq!(rt; history.count(), 2);
    Ok(())
}

#[test]
fn every_answer_of_the_board(rt: HostRuntime) -> Result<(), Fail> {
    answers::<Brand, _>(&rt, rt.alloc(), Blank::new(2))
}

fn answers<L: Ledger, R: Wait + Abort>(rt: &R, alloc: Global, blank: Blank) -> Result<(), Fail>
    requires name { blank.name ≡ L.name }
    requires parts { blank.parts ≡ L.parts }
    requires two { blank.parts ≡ 2 }
{
    let (board, mut seats) = Board::<Doubling, L>::open(alloc, blank, 2)?;
    let mut b = seats.pop().ok_or("a seat")?;
    let mut a = seats.pop().ok_or("a seat")?;
    first_answers(rt, alloc, &board, &mut a, &mut b)?;
    last_answers(rt, alloc, &board, &mut a, &mut b)?;
    assert_eq!(rt; (a.made(), b.made()), (11, 6));
    seats.push(a)?;
    seats.push(b)?;
    same_events(rt, board.shut(seats).history().events());
    Ok(())
}

/// Three tasks are put; the first is taken and posted, the second taken out.
fn first_answers<L: Ledger, R: Wait + Abort>(
    rt: &R,
    alloc: Global,
    board: &Board<Doubling, L>,
    a: &mut Seat<L>,
    b: &mut Seat<L>,
) -> Result<(), Fail> {
    let work = make_doubling();
    for number in 1..4u32 {
        let task = Arc::new(alloc, number)?;
        assert_eq!(rt; board.put(rt, a, task).ok(), Some(number));
    }
    let (ticket, task) = board.take(rt, b).ok_or("a task")?;
    assert_eq!(rt; (ticket, *task), (1, 1));
    let copy = Arc::try_clone(&task)?;
    let outcome = work.perform(alloc, &copy)?;
    assert!(rt; !board.post(rt, a, 1, copy, outcome));
    assert!(rt; !board.give_back(rt, b, 2));
    let outcome = work.perform(alloc, &task)?;
    assert!(rt; board.post(rt, b, 1, task, outcome));
    assert!(rt; board.fetch(rt, b, 1)?.is_none());
    let (task, outcome) = board.obtain(rt, a, 1).ok_or("an outcome")?;
    assert_eq!(rt; (*task, outcome), (1, 2));
    for ticket in [1, 2] {
        assert!(rt; board.obtain(rt, a, ticket).is_none());
    }
    Ok(())
}

/// The third is given back, and the board closed.
fn last_answers<L: Ledger, R: Wait + Abort>(
    rt: &R,
    alloc: Global,
    board: &Board<Doubling, L>,
    a: &mut Seat<L>,
    b: &mut Seat<L>,
) -> Result<(), Fail> {
    let (ticket, _task) = board.take(rt, b).ok_or("a task")?;
    assert_eq!(rt; ticket, 3);
    assert!(rt; board.give_back(rt, b, 3));
    assert!(rt; board.fetch(rt, a, 3)?.is_none());
    assert!(rt; board.obtain(rt, a, 3).is_none());
    assert!(rt; board.fetch(rt, a, 9)?.is_none());
    assert!(rt; board.close(rt, b) && !board.close(rt, b) && board.close(rt, a));
    for _ in 0..2u8 {
        assert!(rt; board.take(rt, a).is_none());
    }
    let task = Arc::new(alloc, 8)?;
    let put = board.put(rt, a, task);
    assert!(rt; matches!(put, Err(PutFault::Closed(_))));
    Ok(())
}

fn same_events(rt: &impl Abort, events: &[BoardEvent]) {
    let expected = [
        (0, BoardStep::Put(Some(1))),
        (0, BoardStep::Put(Some(2))),
        (0, BoardStep::Put(Some(3))),
        (1, BoardStep::Take(Some(1))),
        (1, BoardStep::Post(1)),
        (1, BoardStep::Fetch(1, false)),
        (0, BoardStep::Obtain(1, true)),
        (0, BoardStep::Obtain(2, false)),
        (1, BoardStep::Take(Some(3))),
        (1, BoardStep::GiveBack(3)),
        (0, BoardStep::Fetch(3, false)),
        (0, BoardStep::Obtain(3, false)),
        (0, BoardStep::Fetch(9, false)),
        (1, BoardStep::Close),
        (0, BoardStep::Close),
        (0, BoardStep::Take(None)),
        (0, BoardStep::Put(None)),
    ];
    assert_eq!(rt; events.len(), expected.len());
    for (event, (seat, step)) in events.iter().zip(expected) {
        assert_eq!(rt; (event.seat, event.step), (seat, step));
    }
}
