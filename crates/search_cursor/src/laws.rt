ghost use Rattle.search_cursor.specs.Laws.{IsStrictTotalOrder, AgreesWithLists, IsByCases};

/// Of two places exactly one stands before the other, or they are the same.
pub fn strict_total_order()
    ensures { IsStrictTotalOrder }
{}

/// Before a place stand the lists that come before its signs, and those that begin with them where the place is past.
pub fn agrees_with_lists()
    ensures { AgreesWithLists }
{}

/// A place stands before another in four cases.
pub fn four_cases()
    ensures { IsByCases }
{}
