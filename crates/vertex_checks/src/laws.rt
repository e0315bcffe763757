//! Laws of the vertices and fans of a pattern. These functions do nothing: each contract is a law of the definitions.

ghost use Rattle.vertex_checks.specs.Laws.{VerticesAreInnerEnds, DirectionsDiffer, FanIsOne, FanIsSmall};

/// Just the ends of pieces strictly inside the sheet are checked, each once and in order.
pub fn vertices_are_inner_ends()
    ensures { VerticesAreInnerEnds }
{}

/// Two pieces of a pattern that leave a point in one direction are one piece.
pub fn directions_differ()
    ensures { DirectionsDiffer }
{}

/// Each point of a pattern has one fan.
pub fn fan_is_one()
    ensures { FanIsOne }
{}

/// No more creases leave a point than there are directions.
pub fn fan_is_small()
    ensures { FanIsSmall }
{}
