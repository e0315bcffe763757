//! A board that threads share: its state under one lock.
ghost use Rattle.std.specs.Prelude.{◌≡◌, ℕ, ◌+◌, ◌<◌, ◌≤◌, true, false, length, IfOk, IfSome, IfNone, OnErr, OnOk, MatchResult, MatchOption, vec_len, if◌then◌else◌};
ghost use Rattle.std.specs.Arc.{arc_value};
ghost use Rattle.std.specs.List.{sum_by};
ghost use Rattle.task_board.specs.Seats.{AreNewSeats, counted, MadeOneAtMost};

use crate::fault::{PutFault, Waits};
use crate::seat::{Seat, gathered};
use crate::state::BoardState;
use crate::work::Work;
use std::alloc::{AllocError, Global};
use std::sync::ledger::{Blank, Ledger, Share};
use std::sync::{Arc, Condvar, Mutex, Wait};

/// A state under one lock. Each call of a seat is one hold of it.
#[derive(Drop)]
pub struct Board<W: Work, L: Ledger> {
    state: Mutex<BoardState<W, L>>,
    // A task came, or the board was closed.
    came: Condvar,
    // A ticket that was taken was posted or given back.
    done: Condvar,
}

impl<W: Work, L: Ledger> Board<W, L> {
    ghost use Rattle.task_board.specs.Answers.{put_events};
    ghost use Rattle.task_board.specs.State.{events_of};

    /// A board with these seats, which are numbered from 0, and the room for the last events of each.
    pub fn open(
        alloc: Global,
        blank: Blank,
        seats: u32,
    ) -> Result<(Board<W, L>, Vec<Seat<L>>), AllocError>
        requires name { blank.name ≡ L.name }
        requires parts { blank.parts ≡ L.parts }
        requires seats { blank.parts ≡ seats }
        requires range { (0 < seats) × (seats ≤ 9) }
        ensures { IfOk result (λ r. AreNewSeats r.1.items seats) }
    {
        let (calls, share) = blank.open::<L>();
        let board = Board {
            state: Mutex::new(BoardState::open(alloc, calls)?),
            came: Condvar::new(),
            done: Condvar::new(),
        };
        Ok((board, seated(alloc, share, seats)?))
    }

    /// The state, once all seats are here.
    pub fn shut(self, seats: Vec<Seat<L>>) -> BoardState<W, L>
        requires some { 0 < vec_len seats }
        requires all { vec_len seats ≡ L.parts }
        ensures { length (events_of result) ≡ sum_by (λ s. s.made) seats.items }
    {
        let Board {
            state,
            came: _,
            done: _,
        } = self;
        let mut state = state.into_inner();
        let mut all = gathered(seats);
        state.audit(&mut all);
        state
    }

    /// Puts a task under a new ticket.
    pub fn put<R: Wait>(
        &self,
        rt: &R,
        seat: &mut Seat<L>,
        task: Arc<W::Task>,
    ) -> Result<u32, PutFault<Arc<W::Task>>>
        ensures made { seat.new ≡ counted seat.old (put_events result) }
    {
        let put = self.state.lock(rt).put(seat, task);
        self.came.notify_one();
        put
    }

    /// Waits for a task and takes it. `None` where the board is closed, and then the seat has ended.
    pub fn take<R: Wait>(&self, rt: &R, seat: &mut Seat<L>) -> Option<(u32, Arc<W::Task>)>
        ensures taken { IfSome result (λ _. seat.new ≡ counted seat.old 1) }
        ensures ended { IfNone result (seat.new.ended ≡ true) }
        ensures made { MadeOneAtMost seat.old seat.new }
    {
        let mut state = self.state.lock(rt);
        for _ in rt.forever() {
            match try_take(&mut state, seat) {
                Ok(taken) => return taken,
                Err(Waits) => state = self.came.wait(rt, state),
            }
        }
        unreachable!()
    }

    /// Posts the outcome of a ticket that the seat has taken, with its task. Else both are dropped.
    pub fn post<R: Wait>(
        &self,
        rt: &R,
        seat: &mut Seat<L>,
        ticket: u32,
        task: Arc<W::Task>,
        outcome: W::Outcome,
    ) -> bool
        requires { W.right (W.stands (arc_value task)) outcome }
        ensures { seat.new ≡ counted seat.old (if result then 1 else 0) }
    {
        let posted = self.state.lock(rt).post(seat, ticket, task, outcome);
        self.done.notify_all();
        posted
    }

    /// Leaves a ticket that the seat has taken for its owner.
    pub fn give_back<R: Wait>(&self, rt: &R, seat: &mut Seat<L>, ticket: u32) -> bool
        ensures { seat.new ≡ counted seat.old (if result then 1 else 0) }
    {
        let given = self.state.lock(rt).give_back(seat, ticket);
        self.done.notify_all();
        given
    }

    /// Asks for the outcome of a ticket that the seat put.
    pub fn fetch<R: Wait>(
        &self,
        rt: &R,
        seat: &mut Seat<L>,
        ticket: u32,
    ) -> Result<Option<(Arc<W::Task>, W::Outcome)>, AllocError>
        ensures right { IfOk result (λ o. IfSome o (λ p. ∥ W.right (W.stands (arc_value p.0)) p.1 ∥₁)) }
        ensures made { OnOk result (seat.new ≡ counted seat.old 1) }
        ensures err { OnErr result (seat.new ≡ seat.old) }
    {
        self.state.lock(rt).fetch(seat, ticket)
    }

    /// Takes a ticket out that the seat put, and waits for its outcome where another seat works on it.
    pub fn obtain<R: Wait>(
        &self,
        rt: &R,
        seat: &mut Seat<L>,
        ticket: u32,
    ) -> Option<(Arc<W::Task>, W::Outcome)>
        ensures right { IfSome result (λ p. ∥ W.right (W.stands (arc_value p.0)) p.1 ∥₁) }
        ensures found { IfSome result (λ _. seat.new ≡ counted seat.old 1) }
        ensures made { MadeOneAtMost seat.old seat.new }
        ensures ended { seat.new.ended ≡ seat.old.ended }
    {
        let mut state = self.state.lock(rt);
        for _ in rt.forever() {
            match try_obtain(&mut state, seat, ticket) {
                Ok(obtained) => return obtained,
                Err(Waits) => state = self.done.wait(rt, state),
            }
        }
        unreachable!()
    }

    /// Closes the board, so that each take answers `None`. False where the seat closed it before.
    pub fn close<R: Wait>(&self, rt: &R, seat: &mut Seat<L>) -> bool
        ensures { seat.new ≡ counted seat.old (if result then 1 else 0) }
    {
        let closes = self.state.lock(rt).close(seat);
        self.came.notify_all();
        closes
    }
}

/// Seats, each with a part of the book.
fn seated<L: Ledger>(
    alloc: Global,
    mut share: Share<L>,
    seats: u32,
) -> Result<Vec<Seat<L>>, AllocError>
    requires parts { share.parts ≡ seats }
    requires unused { share.amount ≡ 0 }
    requires range { seats ≤ 9 }
    ensures { IfOk result (λ all. AreNewSeats all.items seats) }
{
    let mut all = Vec::with_capacity(alloc, seats as usize)?;
    for number in 0..seats {
        all.push(Seat::open(number, share.split_off(1, 0)))?;
    }
    Ok(all)
}

/// Takes a task that is waiting, where that needs no other seat.
fn try_take<W: Work, L: Ledger>(
    state: &mut BoardState<W, L>,
    seat: &mut Seat<L>,
) -> Result<Option<(u32, Arc<W::Task>)>, Waits>
    ensures taken { IfOk result (λ o. IfSome o (λ _. seat.new ≡ counted seat.old 1)) }
    ensures ended { IfOk result (λ o. IfNone o (seat.new.ended ≡ true)) }
    ensures made { OnOk result (MadeOneAtMost seat.old seat.new) }
    ensures waits { OnErr result (seat.new ≡ seat.old) }
{
    state.take(seat)
}

/// Takes a ticket out that the seat put, where that needs no other seat.
fn try_obtain<W: Work, L: Ledger>(
    state: &mut BoardState<W, L>,
    seat: &mut Seat<L>,
    ticket: u32,
) -> Result<Option<(Arc<W::Task>, W::Outcome)>, Waits>
    ensures right { IfOk result (λ o. IfSome o (λ p. ∥ W.right (W.stands (arc_value p.0)) p.1 ∥₁)) }
    ensures found { IfOk result (λ o. IfSome o (λ _. seat.new ≡ counted seat.old 1)) }
    ensures made { OnOk result (MadeOneAtMost seat.old seat.new) }
    ensures ended { seat.new.ended ≡ seat.old.ended }
    ensures waits { OnErr result (seat.new ≡ seat.old) }
{
    state.obtain(seat, ticket)
}
