//! What a source, a sink or an opener answers that could not do what it was asked.

use std::alloc::AllocError;
use std::io;
use thiserror::Error;

/// A source or a sink could not do what it was asked. Its count of faults rose for it, or stands at the last
/// value that it can have.
#[derive(Clone, Copy, Debug, PartialEq, Eq, Error)]
#[error("the object failed")]
pub struct Failed;

/// Why a file was not read.
#[derive(Clone, Copy, Debug, PartialEq, Eq, Error)]
pub enum OpenFault {
    /// It could not be opened, or a read of it failed. The opener's count of faults rose for it, or stands at
    /// the last value that it can have.
    #[error("the file could not be read")]
    Failed,
    #[error("out of memory")]
    Memory,
}

impl From<AllocError> for OpenFault {
    ghost use Rattle.std.specs.Prelude.{◌≡◌};
    ghost use Rattle.oriedita_io.specs.declared.faults.OpenFault.TheVariants.{Memory};

    ghost from_gives = { λ _ fault. fault ≡ Memory };

    fn from(_e: AllocError) -> OpenFault {
        OpenFault::Memory
    }
}

// A file that could not be opened: for want of memory only where the system says so.
impl From<io::Error> for OpenFault {
    ghost use Rattle.std.specs.Prelude.{◌≡◌, ◌↔◌};
    ghost use Rattle.std.specs.IoError.{error_kind};
    ghost use Rattle.std.specs.declared.io.ErrorKind.TheVariants.{OutOfMemory};
    ghost use Rattle.oriedita_io.specs.declared.faults.OpenFault.TheVariants.{Memory};

    ghost from_gives = { λ error fault. (fault ≡ Memory) ↔ (error_kind error ≡ OutOfMemory) };

    fn from(error: io::Error) -> OpenFault {
        if error.kind() == io::ErrorKind::OutOfMemory {
            OpenFault::Memory
        } else {
            OpenFault::Failed
        }
    }
}
