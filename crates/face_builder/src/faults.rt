//! Why a pattern has no faces.

use plane_geometry::{Dir, Point};
use std::alloc::AllocError;
use thiserror::Error;

/// Why a pattern has no faces that are convex, few and connected.
#[derive(Clone, Copy, Debug, PartialEq, Eq, Error)]
pub enum FaceFault {
    /// The least half-edge, by its start, then its direction, after which a face turns by more than 7 steps
    /// of 22.5 degrees to the left; where there is none, the least one of a face whose turns don't add to
    /// 16 steps.
    #[error("a face is not convex: {direction:?} from {at:?}")]
    NotConvex { at: Point, direction: Dir },
    /// There are more than 256 faces.
    #[error("there are {faces} faces")]
    TooManyFaces { faces: u32 },
    /// The least face that no way across shared pieces leads to from face 1.
    #[error("face {face} is not reached from face 1")]
    Unreached { face: u32 },
    /// Memory ran out.
    #[error("out of memory")]
    Memory,
}

impl From<AllocError> for FaceFault {
    ghost use Rattle.std.specs.Prelude.{◌≡◌};
    ghost use Rattle.face_builder.specs.declared.faults.FaceFault.TheVariants.{Memory};

    ghost from_gives = { λ _ e. e ≡ Memory };

    fn from(_e: AllocError) -> FaceFault {
        FaceFault::Memory
    }
}
