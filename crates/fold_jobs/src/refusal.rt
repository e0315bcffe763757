use thiserror::Error;

/// Why a job does not do what was asked of it.
#[derive(Clone, Copy, Debug, PartialEq, Eq, Error)]
pub enum JobRefusal {
    #[error("there is no job of this number")]
    NoSuchJob,
    #[error("the job was cancelled")]
    Cancelled,
    #[error("an ask of the job is open")]
    Busy,
    #[error("no ask of the job is open")]
    NothingAsked,
    #[error("10000 asks were opened")]
    TooManyAsks,
}
