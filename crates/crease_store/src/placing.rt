//! Lists in the order of segments.

ghost use Rattle.std.specs.Prelude.{◌≡◌, ◌++◌, ◌∷◌, ◌<◌, ◌≤◌, ◌+◌, take, drop, length, map, IfOk, IsTrue};
ghost use Rattle.std.specs.Prelude.{OnOk, OnErr, MatchResult};
ghost use Rattle.std.specs.List.Sorted.{IsPermutation};
ghost use Rattle.crease_model.specs.Rules.{is_ascending, segments_of};
ghost use Rattle.crease_store.specs.InOrder.{segment_at, with_in_order, with_all_in_order};
ghost use Rattle.crease_store.specs.InOrder.{begins_on, never_descends, HaveOneOnEach, IsPutBetween};

use crate::on_segment::OnSegment;
use crease_model::Piece;
use std::alloc::{AllocError, Global};

// Where something on this segment stands among what ascends, or where it goes.
fn place_for<T: OnSegment>(items: &[T], item: &T) -> Result<usize, usize>
    requires { IsTrue (is_ascending (map T.segment_of items.now)) }
    ensures bound { MatchResult result (λ i. i < length items.now) (λ i. i ≤ length items.now) }
    ensures value { MatchResult result
        (λ i. with_in_order T.segment_of items.now item.now
        ≡ take i items.now ++ item.now ∷ drop (i + 1) items.now)
        (λ i. with_in_order T.segment_of items.now item.now
        ≡ take i items.now ++ item.now ∷ drop i items.now) }
{
    let i = items.partition_point(|other| other.segment().cmp(item.segment()).is_lt());
    if i < items.len() && items[i].segment().cmp(item.segment()).is_eq() {
        Ok(i)
    } else {
        Err(i)
    }
}

/// Puts something into its place; what stands on the same segment gives way to it.
pub fn place<T: OnSegment>(items: &mut Vec<T>, item: &T) -> Result<(), AllocError>
    requires { IsTrue (is_ascending (map T.segment_of items.old.items)) }
    ensures ok { OnOk result (items.new.items ≡ with_in_order T.segment_of items.old.items item.now) }
    ensures order { OnOk result (IsTrue (is_ascending (map T.segment_of items.new.items))) }
    ensures err { OnErr result (items.new.items ≡ items.old.items) }
{
    match place_for(items.as_slice(), item) {
        Ok(i) => items[i] = *item,
        Err(i) => items.insert(i, *item)?,
    }
    Ok(())
}

// Appends the pieces that stand before a new one, and that one. What is left stands behind it.
fn push_new<'a>(
    all: &mut Vec<Piece>,
    pieces: &'a [Piece],
    new: &Piece,
) -> Result<&'a [Piece], AllocError>
    requires { IsTrue (is_ascending (segments_of pieces.now)) }
    ensures { IfOk result (λ left. IsPutBetween all.old.items pieces.now new.now all.new.items left.now) }
{
    let (end, start) = match place_for(pieces, new) {
        Ok(i) => (i, i + 1),
        Err(i) => (i, i),
    };
    all.extend_from_slice(&pieces[..end])?;
    all.push(*new)?;
    Ok(&pieces[start..])
}

// Whether the first of these is on the same segment.
fn begins_on(pieces: &[Piece], piece: &Piece) -> bool
    ensures { result ≡ begins_on pieces.now piece.now }
{
    match pieces.first() {
        Some(first) => first.segment.cmp(&piece.segment).is_eq(),
        None => false,
    }
}

// The same, unless the first of those that come later takes its place: then nothing is done.
fn put_in<'a>(
    all: &mut Vec<Piece>,
    pieces: &'a [Piece],
    new: &Piece,
    later: &[Piece],
) -> Result<&'a [Piece], AllocError>
    requires up { IsTrue (is_ascending (segments_of pieces.now)) }
    requires order { IsTrue (never_descends (new.now ∷ later.now)) }
    ensures value { IfOk result (λ left. all.new.items ++ with_all_in_order segment_at left.now later.now
        ≡ all.old.items ++ with_all_in_order segment_at pieces.now (new.now ∷ later.now)) }
    ensures up { IfOk result (λ left. IsTrue (is_ascending (segments_of left.now))) }
    ensures order { IfOk result (λ _. IsTrue (never_descends later.now)) }
{
    if begins_on(later, new) {
        return Ok(pieces);
    }
    push_new(all, pieces, new)
}

// Ascending pieces with others put into their places, in one walk. The others don't descend; of those on one
// segment the last one stays.
fn merged_in(alloc: Global, pieces: &[Piece], news: &[Piece]) -> Result<Vec<Piece>, AllocError>
    requires up { IsTrue (is_ascending (segments_of pieces.now)) }
    requires news { IsTrue (never_descends news.now) }
    ensures { IfOk result (λ all. all.items ≡ with_all_in_order segment_at pieces.now news.now) }
{
    let mut all = Vec::with_capacity(alloc, pieces.len() + news.len())?;
    let mut rest = pieces;
    for (i, new) in news.iter().enumerate() {
        rest = put_in(&mut all, rest, new, &news[i + 1..])?;
    }
    all.extend_from_slice(rest)?;
    Ok(all)
}

// Sorts pieces by their segments.
fn sort_pieces(pieces: &mut Vec<Piece>)
    ensures same { IsPermutation pieces.old.items pieces.new.items }
    ensures order { IsTrue (never_descends pieces.new.items) }
{
    pieces.sort_unstable_by_key(|piece| piece.segment);
}

/// Ascending pieces with others put into their places. There is one piece on a segment.
pub fn place_pieces(
    alloc: Global,
    pieces: &[Piece],
    mut news: Vec<Piece>,
) -> Result<Vec<Piece>, AllocError>
    requires up { IsTrue (is_ascending (segments_of pieces.now)) }
    requires one { HaveOneOnEach pieces.now news.items }
    ensures { IfOk result (λ all. all.items ≡ with_all_in_order segment_at pieces.now news.items) }
{
    sort_pieces(&mut news);
    merged_in(alloc, pieces, news.as_slice())
}
