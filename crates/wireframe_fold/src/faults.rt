//! Why faces have no flat folding.

use std::alloc::AllocError;
use thiserror::Error;

/// Why faces have no flat folding that can be kept.
#[derive(Clone, Copy, Debug, PartialEq, Eq, Error)]
pub enum WireFault {
    /// The least piece across which the isometries along the walk do not differ by the reflection in it.
    #[error("the faces at piece {piece} don't fold together")]
    DoesNotClose { piece: u32 },
    /// The least face with a folded corner that is not of two exact numbers within the limits.
    #[error("a corner of folded face {face} is out of range")]
    FoldRange { face: u32 },
    /// There are more than 200 different lines through folded sides.
    #[error("there are {lines} lines through folded sides")]
    TooManyLines { lines: u32 },
    /// Memory ran out.
    #[error("out of memory")]
    Memory,
}

impl From<AllocError> for WireFault {
    ghost use Rattle.std.specs.Prelude.{◌≡◌};
    ghost use Rattle.wireframe_fold.specs.declared.faults.WireFault.TheVariants.{Memory};

    ghost from_gives = { λ _ e. e ≡ Memory };

    fn from(_e: AllocError) -> WireFault {
        WireFault::Memory
    }
}
