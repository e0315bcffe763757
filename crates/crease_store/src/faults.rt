//! Why a pattern was not changed.

ghost use Rattle.std.specs.Prelude.{◌≡◌};
ghost use Rattle.crease_store.specs.Answer.{refusal_of};

use line_split::SplitFault;
use plane_geometry::SegmentFault;
use std::alloc::AllocError;
use thiserror::Error;

/// Why a pattern was not changed. Numbers of pieces count from 1.
#[derive(Clone, Copy, Debug, PartialEq, Eq, Error)]
pub enum StoreFault {
    #[error("both ends are equal")]
    ZeroLength,
    #[error("the ends have none of the 16 directions")]
    BadDirection,
    #[error("the edge is not within one side of the sheet")]
    EdgeOffBorder,
    #[error("an end is outside the sheet")]
    OutsideSheet,
    #[error("the crease is within one side of the sheet")]
    OnBorder,
    #[error("the common point with piece {piece} is not of two exact numbers within the limits")]
    Crossing { piece: u32 },
    #[error("the pattern would have {pieces} pieces and lines, more than 2000")]
    TooManyPieces { pieces: u32 },
    #[error("no piece has these ends")]
    NoSuchPiece,
    #[error("out of memory")]
    Memory,
}

/// Why a change is refused, however much memory there is. The variants are those of `StoreFault` but for want
/// of memory.
#[derive(Clone, Copy, Debug, PartialEq, Eq)]
pub enum StoreRefusal {
    ZeroLength,
    BadDirection,
    EdgeOffBorder,
    OutsideSheet,
    OnBorder,
    Crossing { piece: u32 },
    TooManyPieces { pieces: u32 },
    NoSuchPiece,
}

impl From<AllocError> for StoreFault {
    ghost use Rattle.crease_store.specs.declared.faults.StoreFault.TheVariants.{Memory};

    ghost from_gives = { λ _ e. e ≡ Memory };

    fn from(_e: AllocError) -> StoreFault {
        StoreFault::Memory
    }
}

impl From<SegmentFault> for StoreFault {
    ghost use Rattle.crease_store.specs.Faults.{segment_fault};

    ghost from_gives = { λ cause e. e ≡ segment_fault cause };

    fn from(cause: SegmentFault) -> StoreFault {
        match cause {
            SegmentFault::ZeroLength => StoreFault::ZeroLength,
            SegmentFault::BadDirection => StoreFault::BadDirection,
        }
    }
}

impl From<SplitFault> for StoreFault {
    ghost use Rattle.crease_store.specs.Faults.{split_fault};

    ghost from_gives = { λ cause e. e ≡ split_fault cause };

    fn from(cause: SplitFault) -> StoreFault {
        match cause {
            SplitFault::OutOfRange { piece } => StoreFault::Crossing { piece },
            SplitFault::Memory => StoreFault::Memory,
        }
    }
}

impl StoreFault {
    /// The refusal; None for want of memory, which is none.
    pub fn refusal(self) -> Option<StoreRefusal>
        ensures { result ≡ refusal_of self }
    {
        match self {
            StoreFault::ZeroLength => Some(StoreRefusal::ZeroLength),
            StoreFault::BadDirection => Some(StoreRefusal::BadDirection),
            StoreFault::EdgeOffBorder => Some(StoreRefusal::EdgeOffBorder),
            StoreFault::OutsideSheet => Some(StoreRefusal::OutsideSheet),
            StoreFault::OnBorder => Some(StoreRefusal::OnBorder),
            StoreFault::Crossing { piece } => Some(StoreRefusal::Crossing { piece }),
            StoreFault::TooManyPieces { pieces } => Some(StoreRefusal::TooManyPieces { pieces }),
            StoreFault::NoSuchPiece => Some(StoreRefusal::NoSuchPiece),
            StoreFault::Memory => None,
        }
    }
}
