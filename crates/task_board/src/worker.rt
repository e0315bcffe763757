//! A worker at a board.
ghost use Rattle.std.specs.Prelude.{◌≡◌, true};

use crate::board::Board;
use crate::gate::Gate;
use crate::seat::Seat;
use crate::work::Work;
use std::alloc::Global;
use std::sync::Wait;
use std::sync::ledger::Ledger;

/// Takes, performs and posts tasks until the board is closed. A task for which there is no memory is given back.
/// The gate is passed, and the task performed, while no lock is held.
pub fn serve<W: Work + Sync, L: Ledger, G: Gate + Sync, R: Wait>(
    rt: &R,
    alloc: Global,
    board: &Board<W, L>,
    seat: Seat<L>,
    work: &W,
    gate: &G,
) -> Seat<L>
    ensures { result.ended ≡ true }
{
    let mut seat = seat;
    for _ in rt.forever() {
        let Some((ticket, task)) = board.take(rt, &mut seat) else {
            return seat;
        };
        gate.before(ticket);
        match work.perform(alloc, &task) {
            Ok(outcome) => {
                board.post(rt, &mut seat, ticket, task, outcome);
            }
            Err(_) => {
                board.give_back(rt, &mut seat, ticket);
            }
        }
    }
    unreachable!()
}
