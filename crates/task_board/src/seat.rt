//! Who calls a board.
ghost use Rattle.std.specs.Prelude.{◌≡◌, ◌≤◌, ◌+◌, ◌-◌, ◌<◌, ◌^◌, true, length, vec_len};
ghost use Rattle.std.specs.List.{sum_by};
ghost use Rattle.task_board.specs.declared.event.BoardEvent.{BoardEvent};

use crate::history::History;
use std::marker::Model;
use std::sync::ledger::{Book, Ledger, Share};

/// One of a board's seats, with its part of the book of calls. Contracts see its number, count and end.
#[derive(Drop)]
pub struct Seat<L: Ledger> {
    number: u32,
    made: u64,
    ended: bool,
    share: Share<L>,
}

impl<L: Ledger> Model for Seat<L> {
    ghost use Rattle.std.specs.Prelude.{◌≡◌, ◌<◌};
    ghost use Rattle.task_board.specs.Seats.{SeatView};

    ghost Value = { SeatView };

    ghost view = { λ s. record { number = s.number; made = s.made; ended = s.ended } };

    ghost invariant = { λ s. (s.number < 9) × (s.share.parts ≡ 1) × (s.share.amount ≡ s.made) };
}

impl<L: Ledger> Seat<L> {
    ghost use Rattle.task_board.specs.Seats.{SeatView, new_seat, seat_after};

    /// A seat with this part of the book.
    pub(crate) fn open(number: u32, share: Share<L>) -> Seat<L>
        requires seated { number < 9 }
        requires part { share.parts ≡ 1 }
        requires unused { share.amount ≡ 0 }
        ensures { result ≡ new_seat number }
    {
        Seat {
            number,
            made: 0,
            ended: false,
            share,
        }
    }

    /// Its number, counted from 0.
    pub fn number(&self) -> u32
        ensures value { result ≡ self.now.number }
        ensures seated { self.now.number < 9 }
    {
        self.number
    }

    /// How many events it made.
    pub fn made(&self) -> u64
        ensures { result ≡ self.now.made }
    {
        self.made
    }

    /// Whether a take told it that the board is closed.
    pub fn ended(&self) -> bool
        ensures { result ≡ self.now.ended }
    {
        self.ended
    }

    /// Notes that a take told it that the board is closed.
    pub(crate) fn end(&mut self)
        ensures { self.new ≡ record self.old { ended = true } }
    {
        self.ended = true;
    }

    /// Counts the events that a call of this seat added to the history.
    pub(crate) fn count(&mut self, calls: &mut Book<L>, added: u64)
        requires { calls.old.total + added < 2 ^ 64 }
        ensures total { calls.new.total ≡ calls.old.total + added }
        ensures made { self.new ≡ record self.old { made = self.old.made + added } }
    {
        calls.audit(&mut self.share);
        calls.add(&mut self.share, added);
        self.made += added;
    }

    /// Its part of the book.
    fn into_share(self) -> Share<L>
        ensures parts { result.parts ≡ 1 }
        ensures amount { result.amount ≡ self.made }
    {
        let Seat { share, .. } = self;
        share
    }
}

/// The seats' parts of the book, put together.
pub(crate) fn gathered<L: Ledger>(mut seats: Vec<Seat<L>>) -> Share<L>
    requires { 0 < vec_len seats }
    ensures parts { result.parts ≡ vec_len seats }
    ensures amount { result.amount ≡ sum_by (λ s. s.made) seats.items }
{
    let Some(last) = seats.pop() else {
        unreachable!();
    };
    let mut all = last.into_share();
    while let Some(seat) = seats.pop() {
        all.merge(seat.into_share());
    }
    all
}
