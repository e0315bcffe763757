//! The points where a segment is cut.

ghost use Rattle.std.specs.Prelude.{◌≡◌, ◌≢◌, ◌↔◌, ◌<◌, ◌∷◌, ◌++◌, [], ℕ, Some, Ok, Err, length};
ghost use Rattle.std.specs.Prelude.{IfOk, OnOk, OnErr, IsErrOf, IsTrue, MatchResult};
ghost use Rattle.plane_geometry.specs.Position.{Position};
ghost use Rattle.plane_geometry.specs.SegmentView.{stretch_of};
ghost use Rattle.plane_geometry.specs.Stretch.{is_touching};
ghost use Rattle.line_split.specs.Points.{is_rising, with_point, in_order, HasPointAt};
ghost use Rattle.line_split.specs.Cuts.{is_cut, with_point_on, with_meeting, with_piece_cuts, cuts_of};
ghost use Rattle.line_split.specs.Cuts.{touched, untouched, IsFirstOutOfRange};
ghost use Rattle.line_split.specs.Answer.{IsCutFault, IsFaultAt, some_if};

use crease_model::Piece;
use plane_geometry::{Point, Segment, common_point, on_segment, parallel, share_point};
use std::alloc::{AllocError, Global};
use thiserror::Error;

/// Why a segment has no list of cut points. Pieces count from 1.
#[derive(Clone, Copy, Debug, PartialEq, Eq, Error)]
pub enum SplitFault {
    #[error("the common point with piece {piece} is not of two exact numbers within the limits")]
    OutOfRange { piece: u32 },
    #[error("out of memory")]
    Memory,
}

impl From<AllocError> for SplitFault {
    ghost use Rattle.line_split.specs.declared.cutting.SplitFault.TheVariants.{Memory};

    ghost from_gives = { λ _ e. e ≡ Memory };

    fn from(_e: AllocError) -> SplitFault {
        SplitFault::Memory
    }
}

/// What a segment does to pieces: the points where it is cut, the pieces that it touches, and the others, in
/// their order.
#[derive(Drop)]
pub struct Cutting {
    pub points: Vec<Point>,
    pub touched: Vec<Piece>,
    pub others: Vec<Piece>,
}

// Gathers a point.
fn gather(points: &mut Vec<Point>, v: &Point) -> Result<(), AllocError>
    ensures ok { OnOk result (in_order points.new.items ≡ with_point (in_order points.old.items) v.now) }
    ensures err { OnErr result (points.new.items ≡ points.old.items) }
{
    points.push(*v)?;
    Ok(())
}

// Gathers a point, if it is on the segment.
fn gather_on(points: &mut Vec<Point>, s: &Segment, v: &Point) -> Result<(), AllocError>
    ensures ok { OnOk result (in_order points.new.items
        ≡ with_point_on (stretch_of s.now) (in_order points.old.items) v.now) }
    ensures err { OnErr result (points.new.items ≡ points.old.items) }
{
    if on_segment(v, s) {
        gather(points, v)?;
    }
    Ok(())
}

// Gathers the common point of segments that have a point in common, unless they have one direction; false
// where it is not of two Surds.
fn gather_common(points: &mut Vec<Point>, s: &Segment, u: &Segment) -> Result<bool, AllocError>
    requires { IsTrue (is_touching (stretch_of s.now) (stretch_of u.now)) }
    ensures ok { IfOk result
        (λ found. with_meeting (stretch_of s.now) (in_order points.old.items) (stretch_of u.now)
        ≡ some_if found (in_order points.new.items)) }
    ensures err { OnErr result (points.new.items ≡ points.old.items) }
{
    if parallel(s, u) {
        return Ok(true);
    }
    match common_point(s, u) {
        Ok(v) => {
            gather(points, &v)?;
            Ok(true)
        }
        Err(_) => Ok(false),
    }
}

// Gathers the points where a segment is cut by another that it touches; false where their common point is not
// of two Surds.
fn gather_cuts(points: &mut Vec<Point>, s: &Segment, u: &Segment) -> Result<bool, AllocError>
    requires { IsTrue (is_touching (stretch_of s.now) (stretch_of u.now)) }
    ensures { IfOk result (λ found. with_piece_cuts (stretch_of s.now) (in_order points.old.items) u.now
        ≡ some_if found (in_order points.new.items)) }
{
    gather_on(points, s, u.from())?;
    gather_on(points, s, u.to())?;
    gather_common(points, s, u)
}

// Puts a piece to those that the segment touches, with the points there, or to the others; false where the
// common point is not of two Surds.
fn gather_piece(cutting: &mut Cutting, s: &Segment, piece: &Piece) -> Result<bool, AllocError>
    ensures points { IfOk result
        (λ found. with_piece_cuts (stretch_of s.now) (in_order cutting.old.points.items) piece.now.segment
        ≡ some_if found (in_order cutting.new.points.items)) }
    ensures touched { OnOk result (cutting.new.touched.items
        ≡ cutting.old.touched.items ++ touched (stretch_of s.now) (piece.now ∷ [])) }
    ensures others { OnOk result (cutting.new.others.items
        ≡ cutting.old.others.items ++ untouched (stretch_of s.now) (piece.now ∷ [])) }
{
    if !share_point(s, &piece.segment) {
        cutting.others.push(*piece)?;
        return Ok(true);
    }
    cutting.touched.push(*piece)?;
    gather_cuts(&mut cutting.points, s, &piece.segment)
}

fn gather_or_fault(
    cutting: &mut Cutting,
    s: &Segment,
    piece: &Piece,
    number: u32,
) -> Result<(), SplitFault>
    ensures points { MatchResult result
        (λ _. with_piece_cuts (stretch_of s.now) (in_order cutting.old.points.items) piece.now.segment
        ≡ Some (in_order cutting.new.points.items))
        (λ fault. IsFaultAt fault number
        (with_piece_cuts (stretch_of s.now) (in_order cutting.old.points.items) piece.now.segment)) }
    ensures touched { OnOk result (cutting.new.touched.items
        ≡ cutting.old.touched.items ++ touched (stretch_of s.now) (piece.now ∷ [])) }
    ensures others { OnOk result (cutting.new.others.items
        ≡ cutting.old.others.items ++ untouched (stretch_of s.now) (piece.now ∷ [])) }
{
    if gather_piece(cutting, s, piece)? {
        Ok(())
    } else {
        Err(SplitFault::OutOfRange { piece: number })
    }
}

// The ends and the points at each piece, as they come, and the pieces parted.
#[tactic(auto, unfolding(crate::specs::Cuts::cuts_of))]
fn gathered(alloc: Global, segment: &Segment, pieces: &[Piece]) -> Result<Cutting, SplitFault>
    requires { length pieces.now < 4294967295 }
    ensures points { MatchResult result
        (λ cutting. cuts_of segment.now pieces.now ≡ Ok (in_order cutting.points.items))
        (λ fault. IsCutFault fault (cuts_of segment.now pieces.now)) }
    ensures touched { IfOk result
        (λ cutting. cutting.touched.items ≡ touched (stretch_of segment.now) pieces.now) }
    ensures others { IfOk result
        (λ cutting. cutting.others.items ≡ untouched (stretch_of segment.now) pieces.now) }
{
    let mut cutting = Cutting {
        points: Vec::from_slice(alloc, &[*segment.from(), *segment.to()])?,
        touched: Vec::new(alloc),
        others: Vec::with_capacity(alloc, pieces.len())?,
    };
    for (i, piece) in pieces.iter().enumerate() {
        gather_or_fault(&mut cutting, segment, piece, i as u32 + 1)?;
    }
    Ok(cutting)
}

// Sorts points, each once.
fn sort_once(points: &mut Vec<Point>)
    ensures { points.new.items ≡ in_order points.old.items }
{
    points.sort_unstable();
    points.dedup();
}

/// The points of a segment that are its ends, ends of pieces, or common with a piece of another direction,
/// ascending; and the pieces parted into those that it touches and the others.
pub fn cut_points(alloc: Global, segment: &Segment, pieces: &[Piece]) -> Result<Cutting, SplitFault>
    requires { length pieces.now < 4294967295 }
    ensures found { IfOk result (λ cutting. (v : Position)
        → HasPointAt cutting.points.items v ↔ IsTrue (is_cut pieces.now (stretch_of segment.now) v)) }
    ensures ascending { IfOk result (λ cutting. IsTrue (is_rising cutting.points.items)) }
    ensures out_of_range { (number : ℕ) → IsErrOf result (SplitFault.OutOfRange number)
        ↔ ((result ≢ Err SplitFault.Memory) × IsFirstOutOfRange (stretch_of segment.now) pieces.now number) }
    ensures touched { IfOk result
        (λ cutting. cutting.touched.items ≡ touched (stretch_of segment.now) pieces.now) }
    ensures others { IfOk result
        (λ cutting. cutting.others.items ≡ untouched (stretch_of segment.now) pieces.now) }
    ensures exact { MatchResult result
        (λ cutting. cuts_of segment.now pieces.now ≡ Ok cutting.points.items)
        (λ fault. IsCutFault fault (cuts_of segment.now pieces.now)) }
{
    let mut cutting = gathered(alloc, segment, pieces)?;
    sort_once(&mut cutting.points);
    Ok(cutting)
}
