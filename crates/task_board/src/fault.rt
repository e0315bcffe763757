//! Why a call has no answer.
use std::alloc::AllocError;

/// The call would wait for another seat. Nothing is changed.
#[derive(Clone, Copy, Debug, PartialEq, Eq)]
pub struct Waits;

/// Why there is no new ticket, with what was to be put.
#[derive(Debug, Drop)]
pub enum PutFault<T> {
    /// The board is closed.
    Closed(T),
    /// All tickets were given.
    Spent(T),
    Memory(T),
}

impl<T> PutFault<T> {
    ghost use Rattle.std.specs.Prelude.{◌≡◌};
    ghost use Rattle.task_board.specs.Answers.{fault_with};

    /// The same fault with something else that was to be put.
    pub fn with<U>(self, other: U) -> PutFault<U>
    where
        T: Drop,
        ensures { result ≡ fault_with self other }
    {
        match self {
            PutFault::Closed(_) => PutFault::Closed(other),
            PutFault::Spent(_) => PutFault::Spent(other),
            PutFault::Memory(_) => PutFault::Memory(other),
        }
    }
}

impl From<AllocError> for PutFault<()> {
    ghost use Rattle.std.specs.Prelude.{◌≡◌};
    ghost use Rattle.task_board.specs.declared.fault.PutFault.TheVariants.{Memory};

    ghost from_gives = { λ _ fault. fault ≡ Memory tt };

    fn from(_: AllocError) -> PutFault<()> {
        PutFault::Memory(())
    }
}
