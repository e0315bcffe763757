//! The board: tasks that threads hand one another under tickets, in one legal history of calls.
#![tactic(auto)]

mod alone;
mod board;
mod content;
mod event;
mod fault;
mod gate;
mod helpers;
mod history;
mod over_board;
mod planned;
mod seat;
mod shelf;
mod state;
mod work;
mod worker;

pub use alone::Alone;
pub use board::Board;
pub use content::{Answer, Content};
pub use event::{BoardEvent, BoardStep, Stand, Ticket};
pub use fault::{PutFault, Waits};
pub use gate::{Gate, NoGate};
pub use helpers::{Helpers, Obtained};
pub use history::{History, MOST_SEATS, MOST_TICKETS};
pub use over_board::{Kept, OverBoard};
pub use planned::Planned;
pub use seat::Seat;
pub use state::BoardState;
pub use work::Work;
pub use worker::serve;
