//! Vertices: the corners of the sheet and the ends of the pieces.

ghost use Rattle.std.specs.Prelude.{◌≡◌, ◌∷◌, ◌++◌, [], Some, IfOk, OnOk};
ghost use Rattle.std.specs.List.{flat_map};
ghost use Rattle.plane_geometry.specs.Position.{position_of, compare_points, is_same_point};
ghost use Rattle.plane_geometry.specs.SegmentOf.{segment_of};
ghost use Rattle.crease_model.specs.Sheet.{is_on_segment};
ghost use Rattle.face_builder.specs.Sorted.{others_after, each_once, sorted_list};
ghost use Rattle.face_builder.specs.Vertices.{is_between_corners, point_between, ends_between, ascending_of, vertices_along};

use crease_model::Piece;
use plane_geometry::{Point, Segment, on_segment};
use std::alloc::{AllocError, Global};

fn is_same(p: &Point, q: &Point) -> bool
    ensures { result ≡ is_same_point p.now q.now }
{
    p.cmp(q).is_eq()
}

// Whether the point is on the side from one corner to another, and not at an end of it.
fn is_between_corners(side: &Segment, start: &Point, end: &Point, v: &Point) -> bool
    requires { segment_of start.now end.now ≡ Some side.now }
    ensures { result ≡ is_between_corners (record { start = start.now; end = end.now }) v.now }
{
    on_segment(v, side) && !is_same(v, start) && !is_same(v, end)
}

// Appends the point, if it is between the ends of the side.
fn push_between(
    points: &mut Vec<Point>,
    side: &Segment,
    start: &Point,
    end: &Point,
    v: &Point,
) -> Result<(), AllocError>
    requires { segment_of start.now end.now ≡ Some side.now }
    ensures { OnOk result (points.new.items ≡ points.old.items
        ++ point_between (record { start = start.now; end = end.now }) v.now) }
{
    if is_between_corners(side, start, end, v) {
        points.push(*v)?;
    }
    Ok(())
}

// Appends the ends of pieces that are between the ends of the side.
fn push_ends_on(
    points: &mut Vec<Point>,
    side: &Segment,
    start: &Point,
    end: &Point,
    pieces: &[Piece],
) -> Result<(), AllocError>
    requires { segment_of start.now end.now ≡ Some side.now }
    ensures { OnOk result (points.new.items ≡ points.old.items
        ++ flat_map (ends_between (record { start = start.now; end = end.now })) pieces.now) }
{
    for piece in pieces {
        push_between(points, side, start, end, piece.segment.from())?;
        push_between(points, side, start, end, piece.segment.to())?;
    }
    Ok(())
}

// The same, where the corners may be no ends of a segment, with nothing between them.
#[tactic(auto, using(crate::proofs::SideEnds::none_added))]
fn push_ends_between(
    points: &mut Vec<Point>,
    start: &Point,
    end: &Point,
    pieces: &[Piece],
) -> Result<(), AllocError>
    ensures { OnOk result (points.new.items ≡ points.old.items
        ++ flat_map (ends_between (record { start = start.now; end = end.now })) pieces.now) }
{
    match Segment::new(start, end) {
        Ok(side) => push_ends_on(points, &side, start, end, pieces),
        Err(_) => Ok(()),
    }
}

// Appends the points that are not the same as the one before.
fn push_others(kept: &mut Vec<Point>, first: Point, rest: &[Point]) -> Result<(), AllocError>
    ensures { OnOk result (kept.new.items ≡ kept.old.items ++ others_after is_same_point first rest.now) }
{
    let mut last = first;
    for point in rest {
        if !is_same(point, &last) {
            kept.push(*point)?;
            last = *point;
        }
    }
    Ok(())
}

// The points without those that are the same as the one before.
fn each_once(alloc: Global, points: &[Point]) -> Result<Vec<Point>, AllocError>
    ensures { IfOk result (λ kept. kept.items ≡ each_once is_same_point points.now) }
{
    let mut kept = Vec::with_capacity(alloc, points.len())?;
    if let [first, rest @ ..] = points {
        kept.push(*first)?;
        push_others(&mut kept, *first, rest)?;
    }
    Ok(kept)
}

fn sorted(mut points: Vec<Point>) -> Vec<Point>
    ensures { result.items ≡ sorted_list compare_points points.items }
{
    points.sort_unstable();
    points
}

// The points in ascending order, each once.
fn ascending(alloc: Global, points: Vec<Point>) -> Result<Vec<Point>, AllocError>
    ensures { IfOk result (λ kept. kept.items ≡ ascending_of points.items) }
{
    let points = sorted(points);
    each_once(alloc, points.as_slice())
}

/// The vertices between the ends of the side from one corner to another, in this order.
pub fn vertices_along(
    alloc: Global,
    start: &Point,
    end: &Point,
    pieces: &[Piece],
) -> Result<Vec<Point>, AllocError>
    ensures { IfOk result (λ along. along.items
        ≡ vertices_along (record { start = start.now; end = end.now }) pieces.now) }
{
    let mut points = Vec::new(alloc);
    push_ends_between(&mut points, start, end, pieces)?;
    let mut along = ascending(alloc, points)?;
    if end < start {
        along.as_mut_slice().reverse();
    }
    Ok(along)
}
