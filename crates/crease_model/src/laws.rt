//! What new sheets are. These functions do nothing: each contract is a law of `sheet_of`.

ghost use Rattle.crease_model.specs.Laws.{NewIsSheet, SheetIsNew, SheetIsTaken, BendsAreNeighbours};

/// What is made of 3 to 16 corners meets the rules of sheets.
#[tactic(auto, using(crate::proofs::NewSheets::new_is_sheet))]
pub fn new_is_sheet()
    ensures { NewIsSheet }
{}

/// The corners of a sheet make that sheet.
#[tactic(auto, using(crate::proofs::NewSheets::sheet_is_new))]
pub fn sheet_is_new()
    ensures { SheetIsNew }
{}

/// There is no fault in the corners of a sheet, from whichever corner they are given.
#[tactic(auto, using(crate::proofs::NewSheets::taken))]
pub fn sheet_is_taken()
    ensures { SheetIsTaken }
{}

/// There is a bend at each corner, of the side that ends there and of the side that begins there.
pub fn bends_are_neighbours()
    ensures { BendsAreNeighbours }
{}
