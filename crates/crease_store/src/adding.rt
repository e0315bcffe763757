//! Adding a line.

ghost use Rattle.std.specs.Prelude.{◌≡◌, ◌↔◌, ℕ, ◌≤◌, ◌++◌, length, take, drop, Ok};
ghost use Rattle.std.specs.Prelude.{IfOk, IsOk, IsErrOf, OnOk, MatchResult, IsTrue};
ghost use Rattle.crease_store.specs.declared.faults.StoreRefusal.{StoreRefusal};
ghost use Rattle.std.specs.Bool.{IsFalse};
ghost use Rattle.plane_geometry.specs.Ends.{HaveBadDirection};
ghost use Rattle.plane_geometry.specs.SegmentView.{stretch_of};
ghost use Rattle.crease_model.specs.Rules.{IsPattern, is_ascending, is_crease_kind, is_on_sheet};
ghost use Rattle.crease_model.specs.Rules.{most_pieces, segments_of};
ghost use Rattle.crease_model.specs.Sheet.{is_sheet, is_outside, is_within_side};
ghost use Rattle.line_split.specs.Answer.{IsCutFault};
ghost use Rattle.line_split.specs.Cuts.{cuts_of, touched, untouched};
ghost use Rattle.line_split.specs.Parts.{parts_of};
ghost use Rattle.line_split.specs.Points.{is_rising};
ghost use Rattle.crease_store.specs.Added.{covers, IsAddedBetween};
ghost use Rattle.crease_store.specs.Held.{is_along_in_kind, GoesOn, IsLedTo, IsHeld};
ghost use Rattle.crease_store.specs.InOrder.{line_at, with_in_order};
ghost use Rattle.crease_store.specs.Adding.{add_of, segment_added, edge_added, line_added, crease_added};
ghost use Rattle.crease_store.specs.Adding.{with_crease, new_parts, uncovered, rest_of, rests_of, if_it_fits};
ghost use Rattle.crease_store.specs.AddRefusals.{IsEdgeOffBorder, IsOutsideSheet};
ghost use Rattle.crease_store.specs.AddRefusals.{IsCreaseOnBorder, IsCreaseOutOfRange, GivesTooMany};
ghost use Rattle.crease_store.specs.AddRefusals.{IsRefusedFor};
ghost use Rattle.crease_store.specs.Answer.{IsAnswer, HasMemory};

use crate::faults::StoreFault;
use crate::placing::{place, place_pieces};
use crease_model::{Kind, MOST_PIECES, Pattern, Piece, Place, Sheet};
use line_split::{Cutting, SplitFault, cut_at, cut_points};
use plane_geometry::{Point, Segment, on_segment};
use std::alloc::{AllocError, Global};

fn outside(place: Place) -> bool
    ensures { result ≡ is_outside place }
{
    match place {
        Place::Outside => true,
        Place::Border | Place::Inside => false,
    }
}

// Whether no end is outside the sheet.
fn on_sheet(sheet: &Sheet, s: &Segment) -> bool
    ensures { result ≡ is_on_sheet sheet.now (stretch_of s.now) }
{
    !outside(sheet.place(s.from())) && !outside(sheet.place(s.to()))
}

// Whether both ends of `u` are on `s`.
fn covering(s: &Segment, u: &Segment) -> bool
    ensures { result ≡ covers (stretch_of s.now) (stretch_of u.now) }
{
    on_segment(u.from(), s) && on_segment(u.to(), s)
}

// How many of ascending pieces begin before the segment ends, or there. It touches none of the others.
fn reach_of(pieces: &[Piece], s: &Segment) -> usize
    requires { IsTrue (is_ascending (segments_of pieces.now)) }
    ensures bound { result ≤ length pieces.now }
    ensures cuts { cuts_of s.now (take result pieces.now) ≡ cuts_of s.now pieces.now }
    ensures touched { touched (stretch_of s.now) (take result pieces.now)
        ≡ touched (stretch_of s.now) pieces.now }
    ensures others { untouched (stretch_of s.now) (take result pieces.now) ++ drop result pieces.now
        ≡ untouched (stretch_of s.now) pieces.now }
{
    pieces.partition_point(|piece| !s.to().cmp(piece.segment.from()).is_lt())
}

// What the segment does to ascending pieces.
fn cutting_of(alloc: Global, s: &Segment, pieces: &[Piece]) -> Result<Cutting, SplitFault>
    requires up { IsTrue (is_ascending (segments_of pieces.now)) }
    requires few { length pieces.now ≤ most_pieces }
    ensures points { MatchResult result
        (λ cutting. cuts_of s.now pieces.now ≡ Ok cutting.points.items)
        (λ fault. IsCutFault fault (cuts_of s.now pieces.now)) }
    ensures touched { IfOk result (λ cutting. cutting.touched.items ≡ touched (stretch_of s.now) pieces.now) }
    ensures others { IfOk result (λ cutting. cutting.others.items ≡ untouched (stretch_of s.now) pieces.now) }
{
    let reach = reach_of(pieces, s);
    let mut cutting = cut_points(alloc, s, &pieces[..reach])?;
    cutting.others.extend_from_slice(&pieces[reach..])?;
    Ok(cutting)
}

// Those of ascending points that do not come before one end of a piece and come before the other: among them
// are those that cut it.
fn own_cuts<'a>(piece: &Piece, cuts: &'a [Point]) -> &'a [Point]
    requires { IsTrue (is_rising cuts.now) }
    ensures { parts_of piece.now result.now ≡ parts_of piece.now cuts.now }
{
    let start = cuts.partition_point(|v| v.cmp(piece.segment.from()).is_lt());
    let rest = &cuts[start..];
    let end = rest.partition_point(|v| v.cmp(piece.segment.to()).is_lt());
    &rest[..end]
}

// Appends the pieces that the segment does not cover.
fn push_uncovered(rests: &mut Vec<Piece>, s: &Segment, pieces: &[Piece]) -> Result<(), AllocError>
    ensures { OnOk result (rests.new.items ≡ rests.old.items ++ uncovered (stretch_of s.now) pieces.now) }
{
    for piece in pieces {
        if !covering(s, &piece.segment) {
            rests.push(*piece)?;
        }
    }
    Ok(())
}

// Appends the parts of a piece that the segment does not cover.
fn push_rest(
    rests: &mut Vec<Piece>,
    s: &Segment,
    cuts: &[Point],
    piece: &Piece,
) -> Result<(), AllocError>
    requires { IsTrue (is_rising cuts.now) }
    ensures { OnOk result (rests.new.items
        ≡ rests.old.items ++ rest_of (stretch_of s.now) cuts.now piece.now) }
{
    let parts = cut_at(*rests.allocator(), piece, own_cuts(piece, cuts))?;
    push_uncovered(rests, s, parts.as_slice())
}

// What is left of pieces that the segment touches.
fn cut_rests(
    alloc: Global,
    pieces: &[Piece],
    s: &Segment,
    cuts: &[Point],
) -> Result<Vec<Piece>, AllocError>
    requires { IsTrue (is_rising cuts.now) }
    ensures { IfOk result (λ rests. rests.items ≡ rests_of (stretch_of s.now) cuts.now pieces.now) }
{
    let mut rests = Vec::new(alloc);
    for piece in pieces {
        push_rest(&mut rests, s, cuts, piece)?;
    }
    Ok(rests)
}

// What is left of the touched pieces, and the segment, all cut.
fn cut_parts(
    alloc: Global,
    kind: Kind,
    s: &Segment,
    cutting: &Cutting,
) -> Result<Vec<Piece>, AllocError>
    requires { IsTrue (is_rising cutting.now.points.items) }
    ensures { IfOk result (λ parts. parts.items
        ≡ new_parts cutting.now.touched.items kind s.now cutting.now.points.items) }
{
    let cuts = cutting.points.as_slice();
    let mut all = cut_rests(alloc, cutting.touched.as_slice(), s, cuts)?;
    let parts = cut_at(alloc, &Piece { kind, segment: *s }, cuts)?;
    all.extend_from_slice(parts.as_slice())?;
    Ok(all)
}

// Whether a piece has this kind and the direction of the segment.
fn along(piece: &Piece, kind: Kind, s: &Segment) -> bool
    ensures { result ≡ is_along_in_kind kind s.now piece.now }
{
    piece.kind.same(kind) && piece.segment.dir().number() == s.dir().number()
}

// Whether it begins at a point, too.
fn goes_on(piece: &Piece, kind: Kind, s: &Segment, v: &Point) -> bool
    ensures { IsTrue result → GoesOn kind s.now v.now piece.now }
{
    along(piece, kind, s) && *piece.segment.from() == *v
}

// How far pieces of this kind lead along the segment from its lesser end.
fn led_to(pieces: &[Piece], kind: Kind, s: &Segment) -> Point
    ensures { IsLedTo pieces.now kind s.now result }
{
    let mut v = *s.from();
    for piece in pieces {
        if goes_on(piece, kind, s, &v) {
            v = *piece.segment.to();
        }
    }
    v
}

// Whether ascending pieces of this kind cover the segment, from one of its ends to the other. Those that begin
// at its greater end would lead on beyond it.
fn is_held(pieces: &[Piece], kind: Kind, s: &Segment) -> bool
    ensures { IsTrue result → IsHeld pieces.now kind s.now }
{
    let end = pieces.partition_point(|piece| piece.segment.from().cmp(s.to()).is_lt());
    let begun = &pieces[..end];
    let start = begun.partition_point(|piece| piece.segment.from().cmp(s.from()).is_lt());
    led_to(&begun[start..], kind, s) == *s.to()
}

fn add_cut(
    alloc: Global,
    pattern: Pattern,
    kind: Kind,
    s: &Segment,
    cutting: &Cutting,
) -> Result<Pattern, StoreFault>
    requires rules { IsPattern pattern }
    requires sheet { IsTrue (is_sheet pattern.corners) }
    requires kind { IsTrue (is_crease_kind kind) }
    requires on_sheet { IsTrue (is_on_sheet pattern.corners (stretch_of s.now)) }
    requires inside { IsFalse (is_within_side pattern.corners (stretch_of s.now)) }
    requires cuts { cuts_of s.now pattern.pieces ≡ Ok cutting.now.points.items }
    requires touched { cutting.now.touched.items ≡ touched (stretch_of s.now) pattern.pieces }
    requires others { cutting.now.others.items ≡ untouched (stretch_of s.now) pattern.pieces }
    ensures { IsAnswer result (if_it_fits (with_crease pattern kind s.now cutting.now.points.items)) }
{
    let parts = cut_parts(alloc, kind, s, cutting)?;
    let pieces = place_pieces(alloc, cutting.others.as_slice(), parts)?;
    let (sheet, _, aux) = pattern.into_parts();
    let size = pieces.len() + aux.len();
    if size > MOST_PIECES {
        return Err(StoreFault::TooManyPieces {
            pieces: size as u32,
        });
    }
    Ok(Pattern::of(sheet, pieces, aux))
}

// One that the pieces hold already takes no more than a look at each of them.
fn add_crease(
    alloc: Global,
    pattern: Pattern,
    kind: Kind,
    s: &Segment,
) -> Result<Pattern, StoreFault>
    requires { IsTrue (is_crease_kind kind) }
    ensures { IsAnswer result (crease_added pattern kind s.now) }
{
    if !on_sheet(pattern.sheet(), s) {
        return Err(StoreFault::OutsideSheet);
    }
    if pattern.sheet().on_border(s) {
        return Err(StoreFault::OnBorder);
    }
    if is_held(pattern.pieces(), kind, s) {
        return Ok(pattern);
    }
    let cutting = cutting_of(alloc, s, pattern.pieces())?;
    add_cut(alloc, pattern, kind, s, &cutting)
}

fn add_line(pattern: Pattern, s: &Segment) -> Result<Pattern, StoreFault>
    ensures { IsAnswer result (line_added pattern s.now) }
{
    if !on_sheet(pattern.sheet(), s) {
        return Err(StoreFault::OutsideSheet);
    }
    let (sheet, pieces, mut lines) = pattern.into_parts();
    place(&mut lines, s)?;
    let size = pieces.len() + lines.len();
    if size > MOST_PIECES {
        return Err(StoreFault::TooManyPieces {
            pieces: size as u32,
        });
    }
    Ok(Pattern::of(sheet, pieces, lines))
}

fn add_edge(pattern: Pattern, s: &Segment) -> Result<Pattern, StoreFault>
    ensures { IsAnswer result (edge_added pattern s.now) }
{
    if pattern.sheet().on_border(s) {
        Ok(pattern)
    } else {
        Err(StoreFault::EdgeOffBorder)
    }
}

fn add_segment(
    alloc: Global,
    pattern: Pattern,
    kind: Kind,
    s: &Segment,
) -> Result<Pattern, StoreFault>
    ensures { IsAnswer result (segment_added pattern kind s.now) }
{
    match kind {
        Kind::Edge => add_edge(pattern, s),
        Kind::Mountain | Kind::Valley | Kind::Unassigned => add_crease(alloc, pattern, kind, s),
        Kind::Aux => add_line(pattern, s),
    }
}

/// The pattern with the segment between two points, if there is one. What stays of it is moved, not copied.
#[tactic(auto, unfolding(crate::specs::Adding::add_of))]
pub fn add_between(
    alloc: Global,
    pattern: Pattern,
    kind: Kind,
    from: &Point,
    to: &Point,
) -> Result<Pattern, StoreFault>
    ensures { IsAnswer result (add_of pattern kind from.now to.now) }
{
    let s = Segment::new(from, to)?;
    add_segment(alloc, pattern, kind, &s)
}

// The same of a pattern that is lent.
fn add_to_copy(
    alloc: Global,
    pattern: &Pattern,
    kind: Kind,
    from: &Point,
    to: &Point,
) -> Result<Pattern, StoreFault>
    ensures { IsAnswer result (add_of pattern.now kind from.now to.now) }
{
    add_between(alloc, pattern.copy()?, kind, from, to)
}

/// The pattern with one more line: a crease, which cuts and is cut and takes the place of what it covers, or
/// an auxiliary line. An edge of the sheet changes nothing.
pub fn add(
    alloc: Global,
    pattern: &Pattern,
    kind: Kind,
    from: &Point,
    to: &Point,
) -> Result<Pattern, StoreFault>
    ensures added { IfOk result (λ new. IsAddedBetween pattern.now kind from.now to.now new) }
    ensures zero_length { IsErrOf result StoreFault.ZeroLength ↔ (HasMemory result × (from.now ≡ to.now)) }
    ensures bad_direction { IsErrOf result StoreFault.BadDirection
        ↔ (HasMemory result × HaveBadDirection from.now to.now) }
    ensures edge_off_border { IsErrOf result StoreFault.EdgeOffBorder
        ↔ (HasMemory result × IsEdgeOffBorder pattern.now kind from.now to.now) }
    ensures outside_sheet { IsErrOf result StoreFault.OutsideSheet
        ↔ (HasMemory result × IsOutsideSheet pattern.now kind from.now to.now) }
    ensures on_border { IsErrOf result StoreFault.OnBorder
        ↔ (HasMemory result × IsCreaseOnBorder pattern.now kind from.now to.now) }
    ensures crossing { (n : ℕ) → IsErrOf result (StoreFault.Crossing n)
        ↔ (HasMemory result × IsCreaseOutOfRange pattern.now kind from.now to.now n) }
    ensures too_many { (n : ℕ) → IsErrOf result (StoreFault.TooManyPieces n)
        ↔ (HasMemory result × GivesTooMany pattern.now kind from.now to.now n) }
    ensures accepted { ((refusal : StoreRefusal) → ¬ IsRefusedFor pattern.now kind from.now to.now refusal)
        → HasMemory result → IsOk result }
    ensures exact { IsAnswer result (add_of pattern.now kind from.now to.now) }
{
    // tells the rules that the pattern keeps
    let _ = pattern.pieces();
    add_to_copy(alloc, pattern, kind, from, to)
}
