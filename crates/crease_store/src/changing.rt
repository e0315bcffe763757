//! Taking a piece away, giving it another kind, and clearing.

ghost use Rattle.std.specs.Prelude.{◌≡◌, ◌↔◌, [], Ok, Err, IfOk, IsErrOf, IsTrue, map};
ghost use Rattle.plane_geometry.specs.Ends.{lesser_of, greater_of};
ghost use Rattle.crease_model.specs.Rules.{is_crease_kind};
ghost use Rattle.crease_store.specs.Changed.{joins_points, stands_between, without, without_piece};
ghost use Rattle.crease_store.specs.Changed.{without_line, delete_of, in_kind, with_kind, set_of, clear_of};
ghost use Rattle.crease_store.specs.Changed.{HasPiece, HasLine, IsDeleted, IsKindSet};
ghost use Rattle.crease_store.specs.Answer.{IsAnswer, HasMemory};

use crate::faults::StoreFault;
use crate::on_segment::OnSegment;
use crease_model::{Kind, Pattern, Piece};
use plane_geometry::{Point, Segment};
use std::alloc::{AllocError, Global};

fn lesser<'a>(p: &'a Point, q: &'a Point) -> &'a Point
    ensures { result.now ≡ lesser_of p.now q.now }
{
    if p.cmp(q).is_lt() { p } else { q }
}

fn greater<'a>(p: &'a Point, q: &'a Point) -> &'a Point
    ensures { result.now ≡ greater_of p.now q.now }
{
    if p.cmp(q).is_lt() { q } else { p }
}

// Whether two points are the ends of a segment, in either order.
fn joins_points(from: &Point, to: &Point, s: &Segment) -> bool
    ensures { result ≡ joins_points from.now to.now s.now }
{
    s.from().cmp(lesser(from, to)).is_eq() && s.to().cmp(greater(from, to)).is_eq()
}

// Whether one of these has the two points as its ends.
fn stands_between<T: OnSegment>(items: &[T], from: &Point, to: &Point) -> bool
    ensures { result ≡ stands_between T.segment_of items.now from.now to.now }
{
    for item in items {
        if joins_points(from, to, item.segment()) {
            return true;
        }
    }
    false
}

// Those that have other ends.
fn without<T: OnSegment>(
    alloc: Global,
    items: &[T],
    from: &Point,
    to: &Point,
) -> Result<Vec<T>, AllocError>
    ensures { IfOk result (λ rest. rest.items ≡ without T.segment_of items.now from.now to.now) }
{
    let mut rest = Vec::with_capacity(alloc, items.len())?;
    for item in items {
        if !joins_points(from, to, item.segment()) {
            rest.push(*item)?;
        }
    }
    Ok(rest)
}

// The piece in another kind where it is the one between two points.
fn in_kind(piece: &Piece, kind: Kind, from: &Point, to: &Point) -> Piece
    ensures { result ≡ in_kind kind from.now to.now piece.now }
{
    if joins_points(from, to, &piece.segment) {
        Piece {
            kind,
            segment: piece.segment,
        }
    } else {
        *piece
    }
}

fn pieces_in_kind(
    alloc: Global,
    pieces: &[Piece],
    kind: Kind,
    from: &Point,
    to: &Point,
) -> Result<Vec<Piece>, AllocError>
    ensures { IfOk result (λ all. all.items ≡ map (in_kind kind from.now to.now) pieces.now) }
{
    let mut all = Vec::with_capacity(alloc, pieces.len())?;
    for piece in pieces {
        all.push(in_kind(piece, kind, from, to))?;
    }
    Ok(all)
}

fn delete_piece(
    alloc: Global,
    pattern: &Pattern,
    from: &Point,
    to: &Point,
) -> Result<Pattern, AllocError>
    ensures { IfOk result (λ new. new ≡ without_piece pattern.now from.now to.now) }
{
    pattern.with_pieces(without(alloc, pattern.pieces(), from, to)?)
}

fn delete_line(
    alloc: Global,
    pattern: &Pattern,
    from: &Point,
    to: &Point,
) -> Result<Pattern, AllocError>
    ensures { IfOk result (λ new. new ≡ without_line pattern.now from.now to.now) }
{
    pattern.with_aux(without(alloc, pattern.aux(), from, to)?)
}

fn set_piece(
    alloc: Global,
    pattern: &Pattern,
    kind: Kind,
    from: &Point,
    to: &Point,
) -> Result<Pattern, AllocError>
    requires { IsTrue (is_crease_kind kind) }
    ensures { IfOk result (λ new. new ≡ with_kind pattern.now kind from.now to.now) }
{
    pattern.with_pieces(pieces_in_kind(alloc, pattern.pieces(), kind, from, to)?)
}

// Without the piece between two points, else without the auxiliary line between them.
#[tactic(auto, unfolding(crate::specs::Changed::delete_of))]
fn delete_between(
    alloc: Global,
    pattern: &Pattern,
    from: &Point,
    to: &Point,
) -> Result<Pattern, StoreFault>
    ensures { IsAnswer result (delete_of pattern.now from.now to.now) }
{
    if stands_between(pattern.pieces(), from, to) {
        Ok(delete_piece(alloc, pattern, from, to)?)
    } else if stands_between(pattern.aux(), from, to) {
        Ok(delete_line(alloc, pattern, from, to)?)
    } else {
        Err(StoreFault::NoSuchPiece)
    }
}

/// The pattern without the piece between two points, in either order, else without the auxiliary line between
/// them.
pub fn delete(
    alloc: Global,
    pattern: &Pattern,
    from: &Point,
    to: &Point,
) -> Result<Pattern, StoreFault>
    ensures deleted { IfOk result (λ new. IsDeleted pattern.now from.now to.now new) }
    ensures no_such_piece { IsErrOf result StoreFault.NoSuchPiece
        ↔ (HasMemory result
        × ((¬ HasPiece pattern.now from.now to.now) × (¬ HasLine pattern.now from.now to.now))) }
    ensures exact { IsAnswer result (delete_of pattern.now from.now to.now) }
{
    // tells the rules that the pattern keeps
    let _ = pattern.pieces();
    delete_between(alloc, pattern, from, to)
}

// With the piece between two points in this kind.
#[tactic(auto, unfolding(crate::specs::Changed::set_of))]
fn set_between(
    alloc: Global,
    pattern: &Pattern,
    kind: Kind,
    from: &Point,
    to: &Point,
) -> Result<Pattern, StoreFault>
    requires { IsTrue (is_crease_kind kind) }
    ensures { IsAnswer result (set_of pattern.now kind from.now to.now) }
{
    if stands_between(pattern.pieces(), from, to) {
        Ok(set_piece(alloc, pattern, kind, from, to)?)
    } else {
        Err(StoreFault::NoSuchPiece)
    }
}

/// The pattern with the piece between two points, in either order, turned into a crease of another kind.
pub fn set_kind(
    alloc: Global,
    pattern: &Pattern,
    kind: Kind,
    from: &Point,
    to: &Point,
) -> Result<Pattern, StoreFault>
    requires { IsTrue (is_crease_kind kind) }
    ensures set { IfOk result (λ new. IsKindSet pattern.now kind from.now to.now new) }
    ensures no_such_piece { IsErrOf result StoreFault.NoSuchPiece
        ↔ (HasMemory result × (¬ HasPiece pattern.now from.now to.now)) }
    ensures exact { IsAnswer result (set_of pattern.now kind from.now to.now) }
{
    set_between(alloc, pattern, kind, from, to)
}

/// The same sheet with nothing on it.
pub fn clear(pattern: &Pattern) -> Result<Pattern, StoreFault>
    ensures cleared { IfOk result
        (λ new. (new.corners ≡ pattern.now.corners) × (new.pieces ≡ []) × (new.aux ≡ [])) }
    ensures exact { IsAnswer result (Ok (clear_of pattern.now)) }
{
    Ok(Pattern::empty(pattern.sheet().copy()?))
}
