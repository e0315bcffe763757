use crate::outcome::Outcome;
use sign_rules::Order;

/// What a job knows of a piece and its last task. A piece that there is not is 0, and so is the budget of a piece that
/// never had a task.
#[derive(Clone, Copy, Debug, PartialEq, Eq)]
pub struct Kept {
    pub job: u32,
    pub version: u32,
    pub piece: u32,
    pub pieces: u32,
    pub budget: u64,
    pub answered: bool,
}

/// Whether an outcome was taken.
#[derive(Drop)]
pub enum Taken {
    Accepted,
    /// It is no answer of the last task of its piece. What the job knows of that piece, and what came.
    Stranger { kept: Kept, came: Outcome },
}

/// What an ask came to.
#[derive(Drop)]
pub enum JobAnswer {
    Shown(Order),
    NoMore,
    Paused,
    /// The task of this piece, counted from 1, has no outcome yet.
    NotReady(u32),
}
