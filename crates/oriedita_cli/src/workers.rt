//! A session whose tasks worker threads search.

ghost use Rattle.std.specs.Prelude.{◌≡◌, ◌≢◌, ◌+◌, ◌<◌, ◌≤◌, ◌⊎◌, IfSome};
ghost use Rattle.oriedita_io.specs.Faults.{Rose};
ghost use Rattle.job_register.specs.View.{record_events};
ghost use Rattle.job_register.specs.Legal.{IsLegal};
ghost use Rattle.oriedita_cli.specs.Clauses.{IsOutput, ended_status, written_text};
ghost use Rattle.oriedita_cli.specs.Errands.{IsDone, IsErrand, sample_of};

use crate::errands::{Errand, do_errand};
use crate::folding::Folding;
use crate::running::{Ended, NO_MEMORY, WRITE_FAILED, ended_without};
use oriedita_io::Sink;
use std::alloc::Global;
use std::marker::Brand;
use std::sync::Wait;
use std::sync::ledger::{Blank, Ledger};
use std::thread::{Threads, join_mut, map_vec};
use task_board::{Board, Gate, OverBoard, Seat, serve};

// The session's seat at the board, and what it is to do.
#[derive(Drop)]
struct Owner<L: Ledger> {
    seat: Seat<L>,
    errand: Errand,
}

// Does the errand over the board, and closes it, so that the workers end. A second call would find nothing to do.
fn own<L: Ledger, R: Threads + Wait + Sync, K: Sink>(
    rt: &R,
    alloc: Global,
    board: &Board<Folding, L>,
    owner: &mut Option<Owner<L>>,
    out: &mut K,
) -> Ended
    requires errand { IfSome owner.old (λ o. IsErrand o.errand) }
    ensures legal { IsLegal 1 (record_events result.events) }
    ensures done { IfSome owner.old (λ o. IsDone o.errand result.status (record_events result.events)) }
    ensures output { IfSome owner.old (λ o. IsOutput result.status
        (written_text (sample_of o.errand) (record_events result.events)) (K.taken out.old) (K.taken out.new)
        (K.finished out.new)) }
    ensures status { (result.status ≡ ended_status (record_events result.events))
        ⊎ ((result.status ≡ WRITE_FAILED) ⊎ (result.status ≡ NO_MEMORY)) }
    ensures cause { result.status ≡ WRITE_FAILED → Rose (K.faults out.old) (K.faults out.new) }
    ensures faults_stay { result.status ≢ WRITE_FAILED → K.faults out.new ≡ K.faults out.old }
    ensures faults_rise { K.faults out.old ≤ K.faults out.new }
{
    let Some(Owner { seat, errand }) = owner.take() else {
        return ended_without(alloc, NO_MEMORY);
    };
    let mut helpers = OverBoard::new(rt, alloc, board, &Folding, seat);
    let ended = do_errand(rt, alloc, 1, errand, &mut helpers, out);
    let mut seat = helpers.into_seat();
    board.close(rt, &mut seat);
    ended
}

// Serves on each of the seats in a thread of its own, until the board is closed. Where there is no memory for the threads
// some seats stay unused.
fn work<L: Ledger + Send + Sync, R: Threads + Wait + Sync, G: Gate + Sync>(
    rt: &R,
    alloc: Global,
    board: &Board<Folding, L>,
    seats: Vec<Seat<L>>,
    gate: &G,
) {
    let _ = map_vec(
        rt,
        seats,
        &|seat| serve(rt, alloc, board, seat, &Folding, gate),
    );
}

// The session runs in the thread of the caller. Where no thread can be made, `join_mut` calls its second closure first:
// the session then searches all it waits for, and the workers find the board closed.
fn run_over_board<L: Ledger + Send + Sync, R: Threads + Wait + Sync, G: Gate + Sync, K: Sink>(
    rt: &R,
    alloc: Global,
    blank: Blank,
    seats: u32,
    errand: Errand,
    gate: &G,
    out: &mut K,
) -> Ended
    requires name { blank.name ≡ L.name }
    requires parts { blank.parts ≡ L.parts }
    requires seats { blank.parts ≡ seats }
    requires range { (0 < seats) × (seats ≤ 9) }
    requires errand { IsErrand errand }
    ensures legal { IsLegal 1 (record_events result.events) }
    ensures done { IsDone errand result.status (record_events result.events) }
    ensures output { IsOutput result.status (written_text (sample_of errand) (record_events result.events))
        (K.taken out.old) (K.taken out.new) (K.finished out.new) }
    ensures status { (result.status ≡ ended_status (record_events result.events))
        ⊎ ((result.status ≡ WRITE_FAILED) ⊎ (result.status ≡ NO_MEMORY)) }
    ensures cause { result.status ≡ WRITE_FAILED → Rose (K.faults out.old) (K.faults out.new) }
    ensures faults_stay { result.status ≢ WRITE_FAILED → K.faults out.new ≡ K.faults out.old }
    ensures faults_rise { K.faults out.old ≤ K.faults out.new }
{
    let Ok((board, mut seats)) = Board::<Folding, L>::open(alloc, blank, seats) else {
        return ended_without(alloc, NO_MEMORY);
    };
    let Some(seat) = seats.pop() else {
        return ended_without(alloc, NO_MEMORY);
    };
    let mut owner = Some(Owner { seat, errand });
    let mut workers = Some(seats);
    let (_, ended) = join_mut(
        rt,
        &mut || match workers.take() {
            Some(seats) => work(rt, alloc, &board, seats, gate),
            None => {}
        },
        &mut ||
            requires { IfSome owner (λ o. IsErrand o.errand) }
        { own(rt, alloc, &board, &mut owner, out) },
    );
    ended
}

/// Does the errand in a new session, beside worker threads, 1 to 8, which search the tasks of its folding jobs. Each passes
/// the gate before a search.
pub(crate) fn run_beside_workers<R: Threads + Wait + Sync, G: Gate + Sync, K: Sink>(
    rt: &R,
    alloc: Global,
    workers: u32,
    errand: Errand,
    gate: &G,
    out: &mut K,
) -> Ended
    requires workers { workers ≤ 8 }
    requires errand { IsErrand errand }
    ensures legal { IsLegal 1 (record_events result.events) }
    ensures done { IsDone errand result.status (record_events result.events) }
    ensures output { IsOutput result.status (written_text (sample_of errand) (record_events result.events))
        (K.taken out.old) (K.taken out.new) (K.finished out.new) }
    ensures status { (result.status ≡ ended_status (record_events result.events))
        ⊎ ((result.status ≡ WRITE_FAILED) ⊎ (result.status ≡ NO_MEMORY)) }
    ensures cause { result.status ≡ WRITE_FAILED → Rose (K.faults out.old) (K.faults out.new) }
    ensures faults_stay { result.status ≢ WRITE_FAILED → K.faults out.new ≡ K.faults out.old }
    ensures faults_rise { K.faults out.old ≤ K.faults out.new }
{
    let seats = workers + 1;
    let blank = Blank::new(u64::from(seats));
    run_over_board::<Brand, R, G, K>(rt, alloc, blank, seats, errand, gate, out)
}
