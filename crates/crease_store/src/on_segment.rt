//! What stands on a segment.

ghost use Rattle.std.specs.Prelude.{◌≡◌};
ghost use Rattle.plane_geometry.specs.declared.Segment.{Segment};
ghost use Rattle.crease_store.specs.InOrder.{segment_at, line_at};

use crease_model::Piece;
use plane_geometry::Segment;

/// What stands on one segment: a piece of a crease, or an auxiliary line.
pub trait OnSegment: Copy {
    /// The segment.
    ghost segment_of: { Self → Segment };

    /// The segment.
    fn segment(&self) -> &Segment
        ensures { result.now ≡ segment_of self.now };
}

impl OnSegment for Piece {
    ghost segment_of = { segment_at };

    fn segment(&self) -> &Segment {
        &self.segment
    }
}

impl OnSegment for Segment {
    ghost segment_of = { line_at };

    fn segment(&self) -> &Segment {
        self
    }
}
