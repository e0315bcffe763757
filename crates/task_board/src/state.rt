//! What lies under the board's lock.
ghost use Rattle.std.specs.Prelude.{◌≡◌, ℕ, ◌+◌, ◌<◌, [], ◌∷◌, ◌++◌, length, map, is_some, IfOk, IfErr, IfSome, IsSome, MatchResult, OnErr, vec_len, vec_capacity, if◌then◌else◌};
ghost use Rattle.std.specs.Bool.{OnTrue, OnFalse};
ghost use Rattle.std.specs.Arc.{arc_value};
ghost use Rattle.task_board.specs.declared.event.BoardStep.TheVariants.{Post, GiveBack, Fetch, Close};
ghost use Rattle.task_board.specs.History.{with_event, Adds, is_next_step, replay_of};
ghost use Rattle.task_board.specs.Numbers.{at_number, put_at};
ghost use Rattle.task_board.specs.Contents.{things_in, things_at};

use crate::content::{Answer, Content};
use crate::fault::{PutFault, Waits};
use crate::history::History;
use crate::seat::Seat;
use crate::work::Work;
use std::alloc::{AllocError, Global};
use std::mem;
use std::sync::Arc;
use std::sync::ledger::{Book, Ledger, Share};

/// A legal history, what stands beside each ticket, each outcome right for its task, and the book of calls.
#[derive(Drop)]
pub struct BoardState<W: Work, L: Ledger> {
    history: History,
    contents: Vec<Content<W>>,
    calls: Book<L>,
    ghost counted: { length history ≡ calls.total },
    ghost fits: { map things_in contents.items ≡ map things_at (replay_of history).tickets },
}

impl<W: Work, L: Ledger> BoardState<W, L> {
    ghost use Rattle.task_board.specs.State.{events_of, contents_of, taken_out, seat_taken, without};
    ghost use Rattle.task_board.specs.Answers.{IsPut, IsTake, IsObtain, event, handed_back, is_free_at};
    ghost use Rattle.task_board.specs.Seats.{seat_after};

    /// A board with no event and no ticket.
    pub(crate) fn open(alloc: Global, calls: Book<L>) -> Result<BoardState<W, L>, AllocError>
        requires { calls.total ≡ 0 }
        ensures { IfOk result (λ state. events_of state ≡ []) }
    {
        Ok(BoardState {
            history: History::open(alloc)?,
            contents: Vec::new(alloc),
            calls,
        })
    }

    /// The number of events.
    pub fn count(&self) -> u64
        ensures { result ≡ length (events_of self.now) }
    {
        self.history.count()
    }

    /// The legal history.
    pub fn history(&self) -> &History
        ensures { result.now ≡ events_of self.now }
    {
        &self.history
    }

    /// Changes nothing, and tells that a whole share has counted each event.
    pub(crate) fn audit(&mut self, all: &mut Share<L>)
        requires { all.old.parts ≡ L.parts }
        ensures same { events_of self.new ≡ events_of self.old }
        ensures counted { length (events_of self.new) ≡ all.old.amount }
    {
        self.calls.audit(all);
    }

    /// Puts a task under a new ticket, and takes the room for the ticket's later events.
    pub fn put(
        &mut self,
        seat: &mut Seat<L>,
        task: Arc<W::Task>,
    ) -> Result<u32, PutFault<Arc<W::Task>>>
        ensures history { IsPut (events_of self.old) seat.old.number result (events_of self.new) }
        ensures contents { MatchResult result
            (λ _. contents_of self.new ≡ contents_of self.old ++ Content.Task task ∷ [])
            (λ _. contents_of self.new ≡ contents_of self.old) }
        ensures task { IfErr result (λ fault. handed_back fault ≡ task) }
        ensures seat { seat.new ≡ seat_after seat.old (events_of self.old) (events_of self.new) }
    {
        if self.contents.reserve(1).is_err() {
            return Err(PutFault::Memory(task));
        }
        let before = self.history.count();
        let put = self.history.put(seat.number());
        seat.count(&mut self.calls, self.history.count() - before);
        match put {
            Ok(ticket) => {
                append(&mut self.contents, Content::Task(task));
                Ok(ticket)
            }
            Err(fault) => Err(fault.with(task)),
        }
    }

    /// Takes a task that is waiting. `None` where the board is closed.
    pub fn take(&mut self, seat: &mut Seat<L>) -> Result<Option<(u32, Arc<W::Task>)>, Waits>
        ensures history { IsTake (λ p. p.0) (events_of self.old) seat.old.number result (events_of self.new) }
        ensures task { IfOk result (λ o. IfSome o (λ p.
            at_number (contents_of self.old) p.0 ≡ Some (Content.Task p.1))) }
        ensures contents { contents_of self.new ≡ taken_out (λ p. p.0) result (contents_of self.old) }
        ensures seat { seat.new
            ≡ seat_taken result (seat_after seat.old (events_of self.old) (events_of self.new)) }
    {
        let before = self.history.count();
        let taken = self.history.take(seat.number())?;
        seat.count(&mut self.calls, self.history.count() - before);
        match taken {
            Some(ticket) => {
                let content = replaced(&mut self.contents, ticket, Content::Nothing);
                Ok(Some((ticket, task_of(content))))
            }
            None => {
                seat.end();
                Ok(None)
            }
        }
    }

    /// Posts the outcome of a ticket that the seat has taken, with its task. Else both are dropped.
    pub fn post(
        &mut self,
        seat: &mut Seat<L>,
        ticket: u32,
        task: Arc<W::Task>,
        outcome: W::Outcome,
    ) -> bool
        requires { W.right (W.stands (arc_value task)) outcome }
        ensures value { result ≡ is_next_step (replay_of (events_of self.old)) seat.old.number (Post ticket) }
        ensures history { events_of self.new
            ≡ with_event (events_of self.old) (event seat.old.number (Post ticket)) }
        ensures posted { OnTrue result ((a : _)
            × (contents_of self.new ≡ put_at (contents_of self.old) ticket (Content.Answer a))
            × (a.task ≡ task) × (a.outcome ≡ outcome)) }
        ensures dropped { OnFalse result (contents_of self.new ≡ contents_of self.old) }
        ensures seat { seat.new ≡ seat_after seat.old (events_of self.old) (events_of self.new) }
    {
        let before = self.history.count();
        let posted = self.history.post(seat.number(), ticket);
        seat.count(&mut self.calls, self.history.count() - before);
        if posted {
            let answer = answer_with(task, outcome);
            let _taken = replaced(&mut self.contents, ticket, answer);
        }
        posted
    }

    /// Leaves a ticket that the seat has taken for its owner.
    pub fn give_back(&mut self, seat: &mut Seat<L>, ticket: u32) -> bool
        ensures value { result
            ≡ is_next_step (replay_of (events_of self.old)) seat.old.number (GiveBack ticket) }
        ensures history { events_of self.new
            ≡ with_event (events_of self.old) (event seat.old.number (GiveBack ticket)) }
        ensures contents { contents_of self.new ≡ contents_of self.old }
        ensures seat { seat.new ≡ seat_after seat.old (events_of self.old) (events_of self.new) }
    {
        let before = self.history.count();
        let given = self.history.give_back(seat.number(), ticket);
        seat.count(&mut self.calls, self.history.count() - before);
        given
    }

    /// Asks for the outcome of a ticket that the seat put. The task that was posted with it comes beside it.
    pub fn fetch(
        &mut self,
        seat: &mut Seat<L>,
        ticket: u32,
    ) -> Result<Option<(Arc<W::Task>, W::Outcome)>, AllocError>
        ensures history { IfOk result (λ o.
            Adds (events_of self.old) (event seat.old.number (Fetch ticket (is_some o)))
            (events_of self.new)) }
        ensures handed { IfOk result (λ o. IfSome o (λ p. (a : _)
            × (at_number (contents_of self.old) ticket ≡ Some (Content.Answer a))
            × (a.task ≡ p.0) × (a.outcome ≡ p.1))) }
        ensures right { IfOk result (λ o. IfSome o (λ p. ∥ W.right (W.stands (arc_value p.0)) p.1 ∥₁)) }
        ensures contents { IfOk result (λ o. contents_of self.new ≡ without o ticket (contents_of self.old)) }
        ensures seat { seat.new ≡ seat_after seat.old (events_of self.old) (events_of self.new) }
        ensures err { OnErr result ((events_of self.new ≡ events_of self.old)
            × (contents_of self.new ≡ contents_of self.old)) }
    {
        let before = self.history.count();
        let found = self.history.fetch(seat.number(), ticket)?;
        seat.count(&mut self.calls, self.history.count() - before);
        if !found {
            return Ok(None);
        }
        let content = replaced(&mut self.contents, ticket, Content::Nothing);
        Ok(Some(answer_of(content)))
    }

    /// Takes a ticket out that the seat put, so that no other takes it any more. Its outcome, where it came.
    pub fn obtain(
        &mut self,
        seat: &mut Seat<L>,
        ticket: u32,
    ) -> Result<Option<(Arc<W::Task>, W::Outcome)>, Waits>
        ensures history { IsObtain (events_of self.old) seat.old.number ticket result (events_of self.new) }
        ensures handed { IfOk result (λ o. IfSome o (λ p. (a : _)
            × (at_number (contents_of self.old) ticket ≡ Some (Content.Answer a))
            × (a.task ≡ p.0) × (a.outcome ≡ p.1))) }
        ensures right { IfOk result (λ o. IfSome o (λ p. ∥ W.right (W.stands (arc_value p.0)) p.1 ∥₁)) }
        ensures contents { IfOk result (λ _. contents_of self.new
            ≡ (if is_free_at (events_of self.old) seat.old.number ticket
            then put_at (contents_of self.old) ticket Content.Nothing else contents_of self.old)) }
        ensures waits { OnErr result (contents_of self.new ≡ contents_of self.old) }
        ensures seat { seat.new ≡ seat_after seat.old (events_of self.old) (events_of self.new) }
    {
        let before = self.history.count();
        let obtained = self.history.obtain(seat.number(), ticket)?;
        seat.count(&mut self.calls, self.history.count() - before);
        match obtained {
            Some(found) => {
                let content = replaced(&mut self.contents, ticket, Content::Nothing);
                if found {
                    Ok(Some(answer_of(content)))
                } else {
                    Ok(None)
                }
            }
            None => Ok(None),
        }
    }

    /// Closes the board. False where the seat closed it before.
    pub fn close(&mut self, seat: &mut Seat<L>) -> bool
        ensures value { result ≡ is_next_step (replay_of (events_of self.old)) seat.old.number Close }
        ensures history { events_of self.new ≡ with_event (events_of self.old) (event seat.old.number Close) }
        ensures contents { contents_of self.new ≡ contents_of self.old }
        ensures seat { seat.new ≡ seat_after seat.old (events_of self.old) (events_of self.new) }
    {
        let before = self.history.count();
        let closes = self.history.close(seat.number());
        seat.count(&mut self.calls, self.history.count() - before);
        closes
    }
}

/// Puts something beside the next ticket, where there is room.
fn append<W: Work>(contents: &mut Vec<Content<W>>, content: Content<W>)
    requires { vec_len contents.old < vec_capacity contents.old }
    ensures { contents.new.items ≡ contents.old.items ++ content ∷ [] }
{
    contents.push(content).unwrap();
}

/// Puts something else beside a ticket.
fn replaced<W: Work>(contents: &mut Vec<Content<W>>, ticket: u32, content: Content<W>) -> Content<W>
    requires { IsSome (at_number contents.old.items ticket) }
    ensures value { at_number contents.old.items ticket ≡ Some result }
    ensures after { contents.new.items ≡ put_at contents.old.items ticket content }
{
    let place = &mut contents[ticket as usize - 1];
    mem::replace(place, content)
}

/// The task, where one stands alone.
fn task_of<W: Work>(content: Content<W>) -> Arc<W::Task>
    requires { things_in content ≡ 1 }
    ensures { content ≡ Content.Task result }
{
    match content {
        Content::Task(task) => task,
        _ => unreachable!(),
    }
}

/// A task and its outcome.
fn answer_with<W: Work>(task: Arc<W::Task>, outcome: W::Outcome) -> Content<W>
    requires { W.right (W.stands (arc_value task)) outcome }
    ensures { (a : _) × (result ≡ Content.Answer a) × (a.task ≡ task) × (a.outcome ≡ outcome) }
{
    Content::Answer(Answer { task, outcome })
}

/// The task and its outcome, where they stand.
fn answer_of<W: Work>(content: Content<W>) -> (Arc<W::Task>, W::Outcome)
    requires { things_in content ≡ 2 }
    ensures handed { (a : _) × (content ≡ Content.Answer a) × (a.task ≡ result.0) × (a.outcome ≡ result.1) }
    ensures right { ∥ W.right (W.stands (arc_value result.0)) result.1 ∥₁ }
{
    match content {
        Content::Answer(Answer { task, outcome }) => (task, outcome),
        _ => unreachable!(),
    }
}
