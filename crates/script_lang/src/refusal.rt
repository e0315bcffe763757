//! Refusals and their texts.

ghost use Rattle.std.specs.Prelude.{◌≡◌, ◌++◌, codes, decimal, OnOk, OnErr};
ghost use Rattle.cp_text.specs.Growth.{KeepsFront};
ghost use Rattle.script_lang.specs.Refusals.{line_refusal, store_refusal, cause_refusal, refusal_word, refusal_point, refusal_number, refusal_cause, point_part, number_part, plain_text, cause_text, refusal_text};

use cp_text::{LineFault, append_number, write_point};
use crease_store::StoreRefusal;
use plane_geometry::{Dir, Point};
use std::alloc::AllocError;

/// Why a line of a block is refused.
#[derive(Clone, Copy, Debug, PartialEq, Eq)]
pub enum LoadCause {
    /// It is no crease line.
    Line { fault: LineFault },
    /// It is not added.
    Add { refusal: StoreRefusal },
}

/// Why a command changed nothing. Places count the words after the first, from 1.
#[derive(Clone, Copy, Debug, PartialEq, Eq)]
pub enum Refusal {
    /// The line has more than 1000 bytes.
    LongLine,
    /// The first word is no kind and no command.
    UnknownWord,
    /// The first word is digits, but no kind.
    BadKind,
    /// The line has too few or too many words.
    WrongCount,
    /// The word at this place is no number.
    BadNumber { place: u32 },
    /// The number at this place is no exact one.
    NotExact { place: u32 },
    /// The number at this place is beyond the limits.
    OutOfRange { place: u32 },
    /// Both ends are equal.
    ZeroLength,
    /// The ends have none of the 16 directions.
    BadDirection,
    /// The edge is not within one side of the sheet.
    EdgeOffBorder,
    /// An end is outside the sheet.
    OutsideSheet,
    /// The crease is within one side of the sheet.
    OnBorder,
    /// The common point with this piece, from 1, is not of two exact numbers.
    Crossing { piece: u32 },
    /// The pattern would have this many pieces and auxiliary lines, more than 2000.
    TooManyPieces { pieces: u32 },
    /// No piece has these ends.
    NoSuchPiece,
    /// The corners are no sheet: this one, from 1, is the first bad one, or 0 where only the sum of the turns is wrong.
    BadSheet { corner: u32 },
    /// Version 10000 is the last one.
    Full,
    /// Version 0 is current.
    NothingToUndo,
    /// No undo is left to take back.
    NothingToRedo,
    /// This line of a block, from 1, is refused.
    LoadLine { number: u32, cause: LoadCause },
    /// A block has no end.
    LoadUnended,
    /// There are 64 jobs.
    TooManyJobs,
    /// A face is not convex behind the half-edge from this point in this direction.
    NotConvex { at: Point, direction: Dir },
    /// There are this many faces, more than 256.
    TooManyFaces { faces: u32 },
    /// No way across pieces leads from face 1 to this face.
    Unreached { face: u32 },
    /// The faces at this piece, from 1, do not fold together.
    DoesNotClose { piece: u32 },
    /// A folded corner of this face is not of two exact numbers.
    FoldRange { face: u32 },
    /// There are this many lines through folded sides, more than 200.
    TooManyLines { lines: u32 },
    /// There are this many pairs of faces, more than 8192.
    TooManyPairs { pairs: u32 },
    /// There is no job of this number.
    NoSuchJob { job: u32 },
    /// The job was cancelled.
    Cancelled { job: u32 },
    /// An ask of the job is open.
    Busy { job: u32 },
    /// No ask of the job is open.
    NothingAsked { job: u32 },
    /// 10000 asks were opened.
    TooManyAsks,
}

/// The refusal of a line.
pub fn refusal_of_line(fault: LineFault) -> Refusal
    ensures { result ≡ line_refusal fault }
{
    match fault {
        LineFault::LongLine => Refusal::LongLine,
        LineFault::UnknownWord => Refusal::UnknownWord,
        LineFault::BadKind => Refusal::BadKind,
        LineFault::WrongCount => Refusal::WrongCount,
        LineFault::BadNumber { place } => Refusal::BadNumber { place },
        LineFault::NotExact { place } => Refusal::NotExact { place },
        LineFault::OutOfRange { place } => Refusal::OutOfRange { place },
    }
}

/// The refusal of a change.
pub fn refusal_of_store(refusal: StoreRefusal) -> Refusal
    ensures { result ≡ store_refusal refusal }
{
    match refusal {
        StoreRefusal::ZeroLength => Refusal::ZeroLength,
        StoreRefusal::BadDirection => Refusal::BadDirection,
        StoreRefusal::EdgeOffBorder => Refusal::EdgeOffBorder,
        StoreRefusal::OutsideSheet => Refusal::OutsideSheet,
        StoreRefusal::OnBorder => Refusal::OnBorder,
        StoreRefusal::Crossing { piece } => Refusal::Crossing { piece },
        StoreRefusal::TooManyPieces { pieces } => Refusal::TooManyPieces { pieces },
        StoreRefusal::NoSuchPiece => Refusal::NoSuchPiece,
    }
}

// The refusal that the line itself would have.
fn refusal_of_cause(cause: LoadCause) -> Refusal
    ensures { result ≡ cause_refusal cause }
{
    match cause {
        LoadCause::Line { fault } => refusal_of_line(fault),
        LoadCause::Add { refusal } => refusal_of_store(refusal),
    }
}

fn refusal_word_of(refusal: Refusal) -> &'static [u8]
    ensures { result.now ≡ refusal_word refusal }
{
    match refusal {
        Refusal::LongLine => b"longline",
        Refusal::UnknownWord => b"unknownword",
        Refusal::BadKind => b"badkind",
        Refusal::WrongCount => b"wrongcount",
        Refusal::BadNumber { .. } => b"badnumber",
        Refusal::NotExact { .. } => b"notexact",
        Refusal::OutOfRange { .. } => b"outofrange",
        Refusal::ZeroLength => b"zerolength",
        Refusal::BadDirection => b"baddirection",
        Refusal::EdgeOffBorder => b"edgeoffborder",
        Refusal::OutsideSheet => b"outsidesheet",
        Refusal::OnBorder => b"onborder",
        Refusal::Crossing { .. } => b"crossing",
        Refusal::TooManyPieces { .. } => b"toomanypieces",
        Refusal::NoSuchPiece => b"nosuchpiece",
        Refusal::BadSheet { .. } => b"badsheet",
        Refusal::Full => b"full",
        Refusal::NothingToUndo => b"nothingtoundo",
        Refusal::NothingToRedo => b"nothingtoredo",
        Refusal::LoadLine { .. } => b"load",
        Refusal::LoadUnended => b"load unended",
        Refusal::TooManyJobs => b"toomanyjobs",
        Refusal::NotConvex { .. } => b"notconvex",
        Refusal::TooManyFaces { .. } => b"toomanyfaces",
        Refusal::Unreached { .. } => b"unreached",
        Refusal::DoesNotClose { .. } => b"doesnotclose",
        Refusal::FoldRange { .. } => b"foldrange",
        Refusal::TooManyLines { .. } => b"toomanylines",
        Refusal::TooManyPairs { .. } => b"toomanypairs",
        Refusal::NoSuchJob { .. } => b"nosuchjob",
        Refusal::Cancelled { .. } => b"cancelled",
        Refusal::Busy { .. } => b"busy",
        Refusal::NothingAsked { .. } => b"nothingasked",
        Refusal::TooManyAsks => b"toomanyasks",
    }
}

fn refusal_number_of(refusal: Refusal) -> Option<u32>
    ensures { result ≡ refusal_number refusal }
{
    match refusal {
        Refusal::BadNumber { place } => Some(place),
        Refusal::NotExact { place } => Some(place),
        Refusal::OutOfRange { place } => Some(place),
        Refusal::Crossing { piece } => Some(piece),
        Refusal::TooManyPieces { pieces } => Some(pieces),
        Refusal::BadSheet { corner } => Some(corner),
        Refusal::LoadLine { number, .. } => Some(number),
        Refusal::NotConvex { direction, .. } => Some(u32::from(direction.number())),
        Refusal::TooManyFaces { faces } => Some(faces),
        Refusal::Unreached { face } => Some(face),
        Refusal::DoesNotClose { piece } => Some(piece),
        Refusal::FoldRange { face } => Some(face),
        Refusal::TooManyLines { lines } => Some(lines),
        Refusal::TooManyPairs { pairs } => Some(pairs),
        Refusal::NoSuchJob { job } => Some(job),
        Refusal::Cancelled { job } => Some(job),
        Refusal::Busy { job } => Some(job),
        Refusal::NothingAsked { job } => Some(job),
        _ => None,
    }
}

fn refusal_point_of(refusal: Refusal) -> Option<Point>
    ensures { result ≡ refusal_point refusal }
{
    match refusal {
        Refusal::NotConvex { at, .. } => Some(at),
        _ => None,
    }
}

fn refusal_cause_of(refusal: Refusal) -> Option<LoadCause>
    ensures { result ≡ refusal_cause refusal }
{
    match refusal {
        Refusal::LoadLine { cause, .. } => Some(cause),
        _ => None,
    }
}

// Here and below, on an error a part of the text may stand behind the old bytes.
fn append_point(out: &mut Vec<u8>, point: Option<Point>) -> Result<(), AllocError>
    ensures ok { OnOk result (out.new.items ≡ out.old.items ++ point_part point) }
    ensures err { OnErr result (KeepsFront out.old.items out.new.items) }
{
    match point {
        None => Ok(()),
        Some(point) => {
            out.extend_from_slice(b" ")?;
            write_point(out, &point)
        }
    }
}

fn append_place(out: &mut Vec<u8>, number: Option<u32>) -> Result<(), AllocError>
    ensures ok { OnOk result (out.new.items ≡ out.old.items ++ number_part number) }
    ensures err { OnErr result (KeepsFront out.old.items out.new.items) }
{
    match number {
        None => Ok(()),
        Some(n) => {
            out.extend_from_slice(b" ")?;
            append_number(out, u64::from(n))
        }
    }
}

fn append_words(
    out: &mut Vec<u8>,
    word: &[u8],
    point: Option<Point>,
    number: Option<u32>,
) -> Result<(), AllocError>
    ensures ok { OnOk result
        (out.new.items ≡ out.old.items ++ word.now ++ point_part point ++ number_part number) }
    ensures err { OnErr result (KeepsFront out.old.items out.new.items) }
{
    out.extend_from_slice(word)?;
    append_point(out, point)?;
    append_place(out, number)
}

// The word, the point and the number of a refusal.
fn append_plain(out: &mut Vec<u8>, refusal: Refusal) -> Result<(), AllocError>
    ensures ok { OnOk result (out.new.items ≡ out.old.items ++ plain_text refusal) }
    ensures err { OnErr result (KeepsFront out.old.items out.new.items) }
{
    let word = refusal_word_of(refusal);
    let point = refusal_point_of(refusal);
    append_words(out, word, point, refusal_number_of(refusal))
}

fn append_cause(out: &mut Vec<u8>, cause: Option<LoadCause>) -> Result<(), AllocError>
    ensures ok { OnOk result (out.new.items ≡ out.old.items ++ cause_text cause) }
    ensures err { OnErr result (KeepsFront out.old.items out.new.items) }
{
    match cause {
        None => Ok(()),
        Some(cause) => {
            out.extend_from_slice(b" ")?;
            append_plain(out, refusal_of_cause(cause))
        }
    }
}

/// A line with its line feed; on an error a part of it may stand behind the old bytes.
pub(crate) fn append_refusal(out: &mut Vec<u8>, refusal: Refusal) -> Result<(), AllocError>
    ensures ok { OnOk result
        (out.new.items ≡ out.old.items ++ codes "refused " ++ refusal_text refusal ++ codes "\n") }
    ensures err { OnErr result (KeepsFront out.old.items out.new.items) }
{
    out.extend_from_slice(b"refused ")?;
    append_plain(out, refusal)?;
    append_cause(out, refusal_cause_of(refusal))?;
    out.extend_from_slice(b"\n")
}
