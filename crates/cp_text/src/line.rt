//! Lines of a crease pattern, and why a line is none.

use crease_model::Kind;
use plane_geometry::Point;
use thiserror::Error;

/// The most bytes of a line without its end.
pub const LONGEST_LINE: usize = 1000;

/// A line of a crease pattern: its kind and its two ends, in the order in which they stand in the text.
#[derive(Clone, Copy, Debug, PartialEq, Eq)]
pub struct CpLine {
    pub kind: Kind,
    pub from: Point,
    pub to: Point,
}

/// The two ends of a line, in the order in which they stand in the text.
#[derive(Clone, Copy, Debug, PartialEq, Eq)]
pub struct Ends {
    pub from: Point,
    pub to: Point,
}

/// Why a line is no command. A place is that of a word after the first, counted from 1.
#[derive(Clone, Copy, Debug, PartialEq, Eq, Error)]
pub enum LineFault {
    #[error("more than 1,000 bytes")]
    LongLine,
    #[error("unknown word")]
    UnknownWord,
    #[error("no kind of line")]
    BadKind,
    #[error("wrong number of words")]
    WrongCount,
    #[error("word {place} is not a number")]
    BadNumber { place: u32 },
    #[error("number {place} is not exact")]
    NotExact { place: u32 },
    #[error("number {place} is out of range")]
    OutOfRange { place: u32 },
}
