//! What unassigned creases mean for layer orders. This function does nothing: its contract is a law of the definitions.

ghost use Rattle.layer_rules.specs.Laws.{OrdersAreOfAssignments};

/// The layer orders of a pattern are those of its assignments, in which each unassigned crease is a mountain or a valley.
/// Faces and the folded shape don't depend on the kinds of creases.
pub fn orders_are_of_assignments()
    ensures { OrdersAreOfAssignments }
{}
