//! Laws of the orders of rules.

ghost use Rattle.order_search.specs.OrderedLists.{OrdersAreInOrder};

/// The orders of rules are all lists with a sign for each pair that break none of them, each once, in lexicographic
/// order.
pub fn orders_are_in_order()
    ensures { OrdersAreInOrder }
{}
