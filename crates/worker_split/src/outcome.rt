ghost use Rattle.std.specs.Prelude.{◌≡◌, IfOk};
ghost use Rattle.worker_split.specs.Settled.{settled, settled_end, settled_position};

use search_cursor::Position;
use sign_rules::Order;
use std::alloc::AllocError;

/// What a task came to, and which task it was.
#[derive(Drop)]
pub struct Outcome {
    pub job: u32,
    pub version: u32,
    /// Pieces count from 1.
    pub piece: u32,
    pub from: Position,
    pub budget: u64,
    pub end: End,
}

/// How a task ended.
#[derive(Drop)]
pub enum End {
    /// The next order, and the position after it.
    Found { order: Order, position: Position },
    /// Nothing was left.
    Done,
    /// The budget was spent at this position.
    Paused { position: Position },
}

fn copy_position(position: &Position) -> Result<Position, AllocError>
    ensures { IfOk result (λ p. p ≡ settled_position position.now) }
{
    Ok(Position {
        signs: position.signs.copy()?,
        past: position.past,
    })
}

impl End {
    /// A copy whose lists have no room to grow.
    pub fn copy(&self) -> Result<End, AllocError>
        ensures { IfOk result (λ end. end ≡ settled_end self.now) }
    {
        match self {
            End::Found { order, position } => Ok(End::Found {
                order: order.copy()?,
                position: copy_position(position)?,
            }),
            End::Done => Ok(End::Done),
            End::Paused { position } => Ok(End::Paused {
                position: copy_position(position)?,
            }),
        }
    }
}

impl Outcome {
    /// A copy whose lists have no room to grow.
    pub fn copy(&self) -> Result<Outcome, AllocError>
        ensures { IfOk result (λ x. x ≡ settled self.now) }
    {
        Ok(Outcome {
            job: self.job,
            version: self.version,
            piece: self.piece,
            from: copy_position(&self.from)?,
            budget: self.budget,
            end: self.end.copy()?,
        })
    }
}
