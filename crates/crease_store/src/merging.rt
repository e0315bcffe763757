//! Merging: chains of pieces become one piece each.

ghost use Rattle.std.specs.Prelude.{◌≡◌, ◌&&◌, Ok, Contains, IfOk, IsTrue, IsFalse, filter, nat_eq, length};
ghost use Rattle.plane_geometry.specs.declared.Point.{Point};
ghost use Rattle.plane_geometry.specs.SegmentView.{stretch_of};
ghost use Rattle.crease_model.specs.declared.Piece.{Piece};
ghost use Rattle.crease_store.specs.Merged.{ends_at, only_at, is_alike, are_alike};
ghost use Rattle.crease_store.specs.Merged.{is_loose, next_piece, last_piece, joined_to, merged_from};
ghost use Rattle.crease_store.specs.Merged.{merged_among, merge_of, IsMerged};
ghost use Rattle.crease_model.specs.Rules.{IsPattern, AllMeetAtEnds, is_ascending, segments_of};
ghost use Rattle.crease_store.specs.Rising.{end_of, is_sorted_by, first_passes};
ghost use Rattle.crease_store.specs.Rising.{first_alone, AreSorted};
ghost use Rattle.crease_store.specs.Added.{covers};
ghost use Rattle.crease_store.specs.Answer.{IsAnswer};

use crate::faults::StoreFault;
use crate::placing::place_pieces;
use crease_model::{Pattern, Piece};
use plane_geometry::{Point, Segment};
use std::alloc::{AllocError, Global};

// An end of a piece.
#[derive(Clone, Copy)]
enum End {
    Lesser,
    Greater,
}

fn end_of<'a>(piece: &'a Piece, end: End) -> &'a Point
    ensures { result.now ≡ end_of end piece.now }
{
    match end {
        End::Lesser => piece.segment.from(),
        End::Greater => piece.segment.to(),
    }
}

fn ends_at(piece: &Piece, end: End, v: &Point) -> bool
    ensures { result ≡ ends_at (end_of end) v.now piece.now }
{
    end_of(piece, end).cmp(v).is_eq()
}

fn first_ends_at(pieces: &[Piece], end: End, v: &Point) -> bool
    ensures { result ≡ first_passes (ends_at (end_of end) v.now) pieces.now }
{
    match pieces.first() {
        Some(piece) => ends_at(piece, end, v),
        None => false,
    }
}

// The first piece, if it ends at a point and the second doesn't.
fn alone_at(pieces: &[Piece], end: End, v: &Point) -> Option<Piece>
    ensures { result ≡ first_alone (ends_at (end_of end) v.now) pieces.now }
{
    match pieces.split_first() {
        Some((piece, rest)) => {
            if ends_at(piece, end, v) && !first_ends_at(rest, end, v) {
                Some(*piece)
            } else {
                None
            }
        }
        None => None,
    }
}

// The only piece with this end at a point, among pieces sorted by that end.
fn only_at(pieces: &[Piece], end: End, v: &Point) -> Option<Piece>
    requires { IsTrue (is_sorted_by (end_of end) pieces.now) }
    ensures { result ≡ only_at (end_of end) pieces.now v.now }
{
    let start = pieces.partition_point(|piece| end_of(piece, end).cmp(v).is_lt());
    alone_at(&pieces[start..], end, v)
}

// Whether two pieces have one direction and kind.
fn alike(one: &Piece, other: &Piece) -> bool
    ensures { result ≡ is_alike one.now other.now }
{
    one.kind.same(other.kind) && one.segment.dir().number() == other.segment.dir().number()
}

fn both_alike(one: Option<Piece>, other: Option<Piece>) -> bool
    ensures { result ≡ are_alike one other }
{
    match one {
        Some(p) => match other {
            Some(q) => alike(&p, &q),
            None => false,
        },
        None => false,
    }
}

// Whether exactly two pieces end at a point, in opposite directions and of one kind. The arrivals are the
// pieces by their greater ends.
#[tactic(auto, unfolding(crate::specs::Merged::is_loose))]
fn loose(pieces: &[Piece], arrivals: &[Piece], v: &Point) -> bool
    requires { AreSorted pieces.now arrivals.now }
    ensures { result ≡ is_loose pieces.now v.now }
{
    both_alike(
        only_at(arrivals, End::Greater, v),
        only_at(pieces, End::Lesser, v),
    )
}

// The piece that goes on from one that ends at a loose vertex.
#[tactic(auto, unfolding(crate::specs::Merged::next_piece))]
fn next_piece(pieces: &[Piece], arrivals: &[Piece], piece: &Piece) -> Option<Piece>
    requires { AreSorted pieces.now arrivals.now }
    ensures { result ≡ next_piece pieces.now piece.now }
{
    if loose(pieces, arrivals, piece.segment.to()) {
        only_at(pieces, End::Lesser, piece.segment.to())
    } else {
        None
    }
}

// The last piece of the chain from a piece on.
fn last_piece(pieces: &[Piece], arrivals: &[Piece], piece: &Piece) -> Piece
    requires { AreSorted pieces.now arrivals.now }
    ensures { result ≡ last_piece (length pieces.now) pieces.now piece.now }
{
    let mut last = *piece;
    for _ in 0..pieces.len() {
        match next_piece(pieces, arrivals, &last) {
            Some(next) => last = next,
            None => return last,
        }
    }
    last
}

// The piece from the beginning of one to the end of another.
fn joined_to(piece: &Piece, last: &Piece) -> Piece
    ensures { result ≡ joined_to piece.now last.now }
{
    match Segment::new(piece.segment.from(), last.segment.to()) {
        Ok(segment) => Piece {
            kind: piece.kind,
            segment,
        },
        Err(_) => *piece,
    }
}

// The chain that begins with a piece.
#[tactic(auto, unfolding(crate::specs::Merged::merged_from))]
fn merged_from(pieces: &[Piece], arrivals: &[Piece], piece: &Piece) -> Piece
    requires { AreSorted pieces.now arrivals.now }
    ensures { result ≡ merged_from pieces.now piece.now }
{
    joined_to(piece, &last_piece(pieces, arrivals, piece))
}

// The pieces by their greater ends.
fn arrivals_of(alloc: Global, pieces: &[Piece]) -> Result<Vec<Piece>, AllocError>
    requires { IsTrue (is_ascending (segments_of pieces.now)) }
    ensures { IfOk result (λ arrivals. AreSorted pieces.now arrivals.items) }
{
    let mut arrivals = Vec::from_slice(alloc, pieces)?;
    arrivals.sort_unstable_by_key(|piece| *piece.segment.to());
    Ok(arrivals)
}

// The chains in the order of their first pieces; they are sorted once.
fn merged_pieces(alloc: Global, pieces: &[Piece]) -> Result<Vec<Piece>, AllocError>
    requires up { IsTrue (is_ascending (segments_of pieces.now)) }
    requires meetings { AllMeetAtEnds pieces.now }
    ensures { IfOk result (λ merged. merged.items ≡ merged_among pieces.now pieces.now) }
{
    let arrivals = arrivals_of(alloc, pieces)?;
    let mut chains = Vec::with_capacity(alloc, pieces.len())?;
    for piece in pieces {
        if !loose(pieces, &arrivals, piece.segment.from()) {
            chains.push(merged_from(pieces, &arrivals, piece))?;
        }
    }
    place_pieces(alloc, &[], chains)
}

#[tactic(auto, unfolding(crate::specs::Merged::merge_of))]
fn merge_pattern(alloc: Global, pattern: &Pattern) -> Result<Pattern, AllocError>
    ensures value { IfOk result (λ new. new ≡ merge_of pattern.now) }
    ensures rules { IsPattern pattern.now }
{
    pattern.with_pieces(merged_pieces(alloc, pattern.pieces())?)
}

/// The pattern with all loose vertices taken away at once: where exactly two pieces end at a vertex, in
/// opposite directions and of one kind, they become one piece.
pub fn merge(alloc: Global, pattern: &Pattern) -> Result<Pattern, StoreFault>
    ensures merged { IfOk result (λ new. IsMerged pattern.now new) }
    ensures covering { IfOk result (λ new. (z : Piece) → Contains pattern.now.pieces z
        → (q : Piece)
        × Contains new.pieces q
        × IsTrue (covers (stretch_of q.segment) (stretch_of z.segment))
        × (q.kind ≡ z.kind)) }
    ensures none_loose { IfOk result (λ new. (v : Point) → IsFalse (is_loose new.pieces v)) }
    ensures exact { IsAnswer result (Ok (merge_of pattern.now)) }
{
    Ok(merge_pattern(alloc, pattern)?)
}
