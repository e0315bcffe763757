//! The history, and what it leaves.
ghost use Rattle.std.specs.Prelude.{◌≡◌, ◌≢◌, ℕ, ◌+◌, ◌-◌, ◌<◌, ◌≤◌, ◌^◌, ◌↔◌, Bool, true, false, not, ◌&&◌, [], ◌∷◌, ◌++◌, length, Some, None, Ok, Err, IfOk, IfErr, OnOk, OnErr, IsOk, IsErr, IsErrOf, IfSome, IfNone, MatchOption, MatchResult, IsTrue, slice_get, slice_set, vec_len, vec_capacity, if◌then◌else◌};
ghost use Rattle.task_board.specs.declared.event.BoardEvent.{BoardEvent};
ghost use Rattle.task_board.specs.declared.event.Ticket.{Ticket};
ghost use Rattle.task_board.specs.declared.event.Stand.{Stand};
ghost use Rattle.task_board.specs.declared.event.BoardStep.TheVariants.{Put, Take, Post, GiveBack, Fetch, Obtain, Close};
ghost use Rattle.task_board.specs.History.{Replay, with_event, Adds, after_step, is_answered_for, is_busy_for, is_idle_for, is_legal, is_next_step, is_taken_for, is_ticket, is_waiting, with_stand, replay_of, ticket_at};
ghost use Rattle.task_board.specs.Room.{owed_at};

use crate::event::{BoardEvent, BoardStep, Stand, Ticket};
use crate::fault::{PutFault, Waits};
use std::alloc::{AllocError, Global};
use std::marker::Model;

/// The greatest number of seats.
pub const MOST_SEATS: u32 = 9;

/// The greatest number of tickets.
pub const MOST_TICKETS: u32 = 4_294_967_295;

/// A legal history, beside what it leaves. Contracts see it as its events.
#[derive(Drop)]
pub struct History {
    events: Vec<BoardEvent>,
    tickets: Vec<Ticket>,
    is_closed: bool,
    has_closed: [bool; 9],
    was_told: [bool; 9],
    // No ticket before this one is waiting.
    first: usize,
    // How many later events have their room.
    owed: usize,
}

impl Model for History {
    ghost use Rattle.std.specs.Prelude.{List, vec_capacity, length, ◌≤◌};
    ghost use Rattle.task_board.specs.declared.event.BoardEvent.{BoardEvent};

    ghost Value = { List BoardEvent };

    ghost use Rattle.task_board.specs.Invariant.{IsHistory};

    ghost view = { λ h. h.events.items };

    ghost invariant = { λ h. IsHistory h };
}

impl History {
    ghost use Rattle.task_board.specs.Answers.{event, IsPut, IsTake, TakesOut};

    /// A history with no event, and the room for each seat's close and its last take.
    pub fn open(alloc: Global) -> Result<History, AllocError>
        ensures { IfOk result (λ history. history ≡ []) }
    {
        Ok(History {
            events: Vec::with_capacity(alloc, 18)?,
            tickets: Vec::new(alloc),
            is_closed: false,
            has_closed: [false; 9],
            was_told: [false; 9],
            first: 0,
            owed: 18,
        })
    }

    /// The events, the first one first.
    pub fn events(&self) -> &[BoardEvent]
        ensures value { result.now ≡ self.now }
        ensures legal { is_legal self.now ≡ true }
    {
        let _ = &self.first;
        self.events.as_slice()
    }

    /// The number of events.
    pub fn count(&self) -> u64
        ensures { result ≡ length self.now }
    {
        self.events.len() as u64
    }

    /// The ticket of this number.
    fn ticket(&self, number: u32) -> Option<Ticket>
        ensures { result ≡ ticket_at (replay_of self.now) number }
    {
        match number.checked_sub(1) {
            Some(place) => self.tickets.get(place as usize).copied(),
            None => None,
        }
    }

    /// Moves a ticket, for which there is room.
    fn advance(&mut self, seat: u32, number: u32, stand: Stand, step: BoardStep)
        requires next { is_next_step (replay_of self.old) seat step ≡ true }
        requires leaves { after_step (replay_of self.old) seat step
            ≡ with_stand (replay_of self.old) number stand }
        requires room { MatchOption (ticket_at (replay_of self.old) number) ⊥
            (λ t. owed_at stand < owed_at t.stand) }
        requires other { is_waiting (record { owner = 0; stand = stand }) ≡ false }
        ensures { self.new ≡ self.old ++ event seat step ∷ [] }
    {
        let place = number as usize - 1;
        let ticket = self.tickets[place];
        self.owed -= owed(ticket.stand) - owed(stand);
        self.tickets[place] = Ticket {
            owner: ticket.owner,
            stand,
        };
        self.events.push(BoardEvent { seat, step }).unwrap();
    }

    /// Adds an event that moves nothing, with room of its own.
    fn note(&mut self, seat: u32, step: BoardStep) -> Result<(), AllocError>
        requires next { is_next_step (replay_of self.old) seat step ≡ true }
        requires leaves { after_step (replay_of self.old) seat step ≡ replay_of self.old }
        ensures ok { OnOk result (self.new ≡ self.old ++ event seat step ∷ []) }
        ensures err { OnErr result (self.new ≡ self.old) }
    {
        self.events.reserve(self.owed + 1)?;
        self.events.push(BoardEvent { seat, step }).unwrap();
        Ok(())
    }

    /// Makes a new ticket, and takes the room for its later events.
    fn issue(&mut self, seat: u32) -> Result<u32, AllocError>
        requires opened { (replay_of self.old).is_closed ≡ false }
        requires left { length (replay_of self.old).tickets < 4294967295 }
        ensures ok { IfOk result (λ n. Adds self.old (event seat (Put (Some n))) self.new) }
        ensures err { OnErr result (self.new ≡ self.old) }
    {
        self.events.reserve(self.owed + 4)?;
        self.tickets.reserve(1)?;
        let number = self.tickets.len() as u32 + 1;
        self.tickets
            .push(Ticket {
                owner: seat,
                stand: Stand::Waiting,
            })
            .unwrap();
        self.owed += 3;
        self.events
            .push(BoardEvent {
                seat,
                step: BoardStep::Put(Some(number)),
            })
            .unwrap();
        Ok(number)
    }

    /// A seat puts a task.
    pub fn put(&mut self, seat: u32) -> Result<u32, PutFault<()>>
        ensures { IsPut self.old seat result self.new }
    {
        if self.is_closed {
            self.note(seat, BoardStep::Put(None))?;
            return Err(PutFault::Closed(()));
        }
        if self.tickets.len() >= MOST_TICKETS as usize {
            return Err(PutFault::Spent(()));
        }
        Ok(self.issue(seat)?)
    }

    /// A seat takes the first ticket that is waiting. Its second `None` is no event.
    pub fn take(&mut self, seat: u32) -> Result<Option<u32>, Waits>
        requires { seat < 9 }
        ensures { IsTake (λ n. n) self.old seat result self.new }
    {
        if self.is_closed {
            self.tell(seat);
            return Ok(None);
        }
        let place = first_waiting(&self.tickets, self.first);
        self.first = place;
        if place == self.tickets.len() {
            return Err(Waits);
        }
        let number = place as u32 + 1;
        self.advance(
            seat,
            number,
            Stand::Taken(seat),
            BoardStep::Take(Some(number)),
        );
        Ok(Some(number))
    }

    /// Tells a seat that the board is closed.
    fn tell(&mut self, seat: u32)
        requires seat { seat < 9 }
        requires closed { (replay_of self.old).is_closed ≡ true }
        ensures { self.new ≡ with_event self.old (event seat (Take None)) }
    {
        if !self.was_told[seat as usize] {
            self.was_told[seat as usize] = true;
            self.owed -= 1;
            self.events
                .push(BoardEvent {
                    seat,
                    step: BoardStep::Take(None),
                })
                .unwrap();
        }
    }

    /// A seat posts the outcome of a ticket that it has taken.
    pub fn post(&mut self, seat: u32, number: u32) -> bool
        ensures value { result ≡ is_next_step (replay_of self.old) seat (Post number) }
        ensures after { self.new ≡ with_event self.old (event seat (Post number)) }
    {
        let taken = is_taken(self.ticket(number), seat);
        if taken {
            self.advance(seat, number, Stand::Posted, BoardStep::Post(number));
        }
        taken
    }

    /// A seat leaves a ticket that it has taken for its owner.
    pub fn give_back(&mut self, seat: u32, number: u32) -> bool
        ensures value { result ≡ is_next_step (replay_of self.old) seat (GiveBack number) }
        ensures after { self.new ≡ with_event self.old (event seat (GiveBack number)) }
    {
        let taken = is_taken(self.ticket(number), seat);
        if taken {
            self.advance(seat, number, Stand::Left, BoardStep::GiveBack(number));
        }
        taken
    }

    /// A seat asks for the outcome of a ticket. Whether it has come.
    pub fn fetch(&mut self, seat: u32, number: u32) -> Result<bool, AllocError>
        ensures ok { IfOk result (λ found. Adds self.old (event seat (Fetch number found)) self.new) }
        ensures err { OnErr result (self.new ≡ self.old) }
    {
        let found = is_answered(self.ticket(number), seat);
        if found {
            self.advance(seat, number, Stand::Gone, BoardStep::Fetch(number, true));
        } else {
            self.note(seat, BoardStep::Fetch(number, false))?;
        }
        Ok(found)
    }

    /// A seat takes a ticket out that it put. Whether its outcome has come; `None` where there is none to take out.
    pub fn obtain(&mut self, seat: u32, number: u32) -> Result<Option<bool>, Waits>
        ensures { TakesOut self.old seat number result self.new }
    {
        let ticket = self.ticket(number);
        if is_answered(ticket, seat) {
            self.advance(seat, number, Stand::Gone, BoardStep::Obtain(number, true));
            Ok(Some(true))
        } else if is_idle(ticket, seat) {
            self.advance(seat, number, Stand::Gone, BoardStep::Obtain(number, false));
            Ok(Some(false))
        } else if is_busy(ticket, seat) {
            Err(Waits)
        } else {
            Ok(None)
        }
    }

    /// A seat closes the board. Whether it had not closed it before.
    pub fn close(&mut self, seat: u32) -> bool
        requires { seat < 9 }
        ensures value { result ≡ is_next_step (replay_of self.old) seat Close }
        ensures after { self.new ≡ with_event self.old (event seat Close) }
    {
        let closes = !self.has_closed[seat as usize];
        if closes {
            self.is_closed = true;
            self.has_closed[seat as usize] = true;
            self.owed -= 1;
            self.events
                .push(BoardEvent {
                    seat,
                    step: BoardStep::Close,
                })
                .unwrap();
        }
        closes
    }
}

/// How many events have their room at this stand.
fn owed(stand: Stand) -> usize
    ensures { result ≡ owed_at stand }
{
    match stand {
        Stand::Waiting => 3,
        Stand::Taken(_) => 2,
        Stand::Posted => 1,
        Stand::Left => 1,
        Stand::Gone => 0,
    }
}

/// The place of the first ticket that is waiting, or the number of tickets, where none before `from` is.
fn first_waiting(tickets: &[Ticket], from: usize) -> usize
    requires begun { from ≤ length tickets.now }
    requires passed { (k : ℕ) → k < from → is_ticket is_waiting (slice_get tickets.now k) ≡ false }
    ensures within { result ≤ length tickets.now }
    ensures passed { (k : ℕ) → k < result → is_ticket is_waiting (slice_get tickets.now k) ≡ false }
    ensures found { result < length tickets.now
        → is_ticket is_waiting (slice_get tickets.now result) ≡ true }
{
    for place in from..tickets.len() {
        if is_waiting_ticket(tickets[place]) {
            return place;
        }
    }
    tickets.len()
}

/// Whether the ticket is waiting.
fn is_waiting_ticket(ticket: Ticket) -> bool
    ensures { result ≡ is_waiting ticket }
{
    match ticket.stand {
        Stand::Waiting => true,
        _ => false,
    }
}

/// Whether the ticket is taken by the seat.
fn is_taken(ticket: Option<Ticket>, seat: u32) -> bool
    ensures value { result ≡ is_ticket (is_taken_for seat) ticket }
    ensures room { result ≡ true → MatchOption ticket ⊥ (λ t. 1 < owed_at t.stand) }
{
    match ticket {
        Some(
            Ticket {
                stand: Stand::Taken(by),
                ..
            },
        ) => by == seat,
        _ => false,
    }
}

/// Whether the seat put the ticket, and its outcome has come.
fn is_answered(ticket: Option<Ticket>, seat: u32) -> bool
    ensures value { result ≡ is_ticket (is_answered_for seat) ticket }
    ensures room { result ≡ true → MatchOption ticket ⊥ (λ t. 0 < owed_at t.stand) }
{
    match ticket {
        Some(
            Ticket {
                owner,
                stand: Stand::Posted,
            },
        ) => owner == seat,
        _ => false,
    }
}

/// Whether the seat put the ticket, and no one works on it.
fn is_idle(ticket: Option<Ticket>, seat: u32) -> bool
    ensures value { result ≡ is_ticket (is_idle_for seat) ticket }
    ensures room { result ≡ true → MatchOption ticket ⊥ (λ t. 0 < owed_at t.stand) }
{
    match ticket {
        Some(
            Ticket {
                owner,
                stand: Stand::Waiting,
            },
        ) => owner == seat,
        Some(
            Ticket {
                owner,
                stand: Stand::Left,
            },
        ) => owner == seat,
        _ => false,
    }
}

/// Whether the seat put the ticket, and another works on it.
fn is_busy(ticket: Option<Ticket>, seat: u32) -> bool
    ensures { result ≡ is_ticket (is_busy_for seat) ticket }
{
    match ticket {
        Some(
            Ticket {
                owner,
                stand: Stand::Taken(_),
            },
        ) => owner == seat,
        _ => false,
    }
}
