//! What a history is made of.

/// Where a ticket is.
#[derive(Clone, Copy, Debug, PartialEq, Eq)]
pub enum Stand {
    Waiting,
    /// By the seat of this number.
    Taken(u32),
    Posted,
    Left,
    Gone,
}

/// The seat that put it, and where it is.
#[derive(Clone, Copy, Debug, PartialEq, Eq)]
pub struct Ticket {
    pub owner: u32,
    pub stand: Stand,
}

/// A call with its answer. Tickets are numbered from 1.
#[derive(Clone, Copy, Debug, PartialEq, Eq)]
pub enum BoardStep {
    /// The new ticket; `None` where the board is closed.
    Put(Option<u32>),
    /// The ticket that was handed out; `None` where the board is closed.
    Take(Option<u32>),
    Post(u32),
    GiveBack(u32),
    /// Whether the outcome was handed out.
    Fetch(u32, bool),
    /// Whether the outcome was handed out.
    Obtain(u32, bool),
    Close,
}

/// A step of a seat.
#[derive(Clone, Copy, Debug, PartialEq, Eq)]
pub struct BoardEvent {
    pub seat: u32,
    pub step: BoardStep,
}
