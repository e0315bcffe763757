//! Pieces cut at points.

ghost use Rattle.std.specs.Prelude.{◌≡◌, ◌++◌, ◌↔◌, drop, Contains, IfOk, OnOk, OnErr, IsTrue};
ghost use Rattle.crease_model.specs.declared.Piece.{Piece};
ghost use Rattle.plane_geometry.specs.Position.{position_of};
ghost use Rattle.plane_geometry.specs.SegmentOf.{segment_of};
ghost use Rattle.plane_geometry.specs.SegmentView.{stretch_of, lesser_end, greater_end};
ghost use Rattle.plane_geometry.specs.Stretch.{is_on};
ghost use Rattle.line_split.specs.Points.{is_rising};
ghost use Rattle.line_split.specs.Parts.{piece_on, parts_of, pieces_between, inner_points, IsPart};

use crease_model::Piece;
use plane_geometry::{Point, Segment, between_ends};
use std::alloc::{AllocError, Global};
use std::cmp::Ordering;

// The part of a segment between two of its points, none where they are one point.
fn part_between(segment: &Segment, p: &Point, q: &Point) -> Option<Segment>
    requires first { IsTrue (is_on (position_of p.now) (stretch_of segment.now)) }
    requires second { IsTrue (is_on (position_of q.now) (stretch_of segment.now)) }
    ensures { result ≡ segment_of p.now q.now }
{
    match p.cmp(q) {
        Ordering::Less => Some(segment.part(p, q)),
        Ordering::Equal => None,
        Ordering::Greater => Some(segment.part(q, p)),
    }
}

// The part of a piece between two of its points.
fn push_part(
    parts: &mut Vec<Piece>,
    piece: &Piece,
    start: &Point,
    end: &Point,
) -> Result<(), AllocError>
    requires start { IsTrue (is_on (position_of start.now) (stretch_of piece.now.segment)) }
    requires end { IsTrue (is_on (position_of end.now) (stretch_of piece.now.segment)) }
    ensures ok { OnOk result (parts.new.items
        ≡ parts.old.items ++ piece_on piece.now.kind (segment_of start.now end.now)) }
    ensures err { OnErr result (parts.new.items ≡ parts.old.items) }
{
    if let Some(segment) = part_between(&piece.segment, start, end) {
        parts.push(Piece {
            kind: piece.kind,
            segment,
        })?;
    }
    Ok(())
}

/// The piece cut at those of the points that are strictly between its ends. The points ascend.
#[tactic(auto, unfolding(crate::specs::Parts::parts_of))]
pub fn cut_at(alloc: Global, piece: &Piece, points: &[Point]) -> Result<Vec<Piece>, AllocError>
    ensures parts { IfOk result (λ parts. IsTrue (is_rising points.now)
        → (q : Piece) → Contains parts.items q ↔ IsPart piece.now points.now q) }
    ensures exact { IfOk result (λ parts. parts.items ≡ parts_of piece.now points.now) }
{
    let mut parts = Vec::new(alloc);
    let mut start = *piece.segment.from();
    for point in points {
        if between_ends(point, &piece.segment) {
            push_part(&mut parts, piece, &start, point)?;
            start = *point;
        }
    }
    push_part(&mut parts, piece, &start, piece.segment.to())?;
    Ok(parts)
}
