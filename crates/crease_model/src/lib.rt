//! Sheets and crease patterns: crease pieces and auxiliary lines on a convex sheet.
#![tactic(auto)]

ghost use Rattle.std.specs.Prelude.{◌≡◌, ◌≤◌, length, IfOk, IsTrue};
ghost use Rattle.plane_geometry.specs.Position.{position_of};
ghost use Rattle.plane_geometry.specs.SegmentView.{stretch_of};
ghost use Rattle.crease_model.specs.Sheet.{square_corners, place_of, is_within_side, is_sheet};
ghost use Rattle.crease_model.specs.NewSheet.{sheet_of, IsSheetAnswer};
ghost use Rattle.crease_model.specs.View.{empty_on};
ghost use Rattle.crease_model.specs.Rules.{IsPattern, size_of};

mod corners;
pub mod laws;
mod sides;

use corners::{fault_of, rotated};
use plane_geometry::{Point, Segment};
use sides::{KnownSide, known_sides, place_among, within_side};
use std::alloc::{AllocError, Global};
use std::marker::Model;
use surd_number::Surd;
use thiserror::Error;

/// The kind of a line: an edge of the sheet, a mountain, a valley or an unassigned crease, or an auxiliary line. An
/// unassigned crease folds, as a mountain or as a valley.
#[derive(Clone, Copy, Debug, PartialEq, Eq)]
pub enum Kind {
    Edge,
    Mountain,
    Valley,
    Aux,
    Unassigned,
}

impl Kind {
    ghost use Rattle.crease_model.specs.Kind.{is_same_kind};

    /// Whether both are the same kind.
    pub fn same(self, other: Kind) -> bool
        ensures { result ≡ is_same_kind self other }
    {
        match (self, other) {
            (Kind::Edge, Kind::Edge)
            | (Kind::Mountain, Kind::Mountain)
            | (Kind::Valley, Kind::Valley)
            | (Kind::Aux, Kind::Aux)
            | (Kind::Unassigned, Kind::Unassigned) => true,
            _ => false,
        }
    }
}

/// A straight piece of a crease.
#[derive(Clone, Copy, Debug, PartialEq, Eq)]
pub struct Piece {
    pub kind: Kind,
    pub segment: Segment,
}

/// Where a point lies: outside the sheet, on its border, or strictly inside.
#[derive(Clone, Copy, Debug, PartialEq, Eq)]
pub enum Place {
    Outside,
    Border,
    Inside,
}

/// Why there is no sheet with these corners.
#[derive(Clone, Copy, Debug, PartialEq, Eq, Error)]
pub enum SheetFault {
    /// The number of the first bad corner, counted from 1: the side from it has none of the 16 directions, or both its
    /// sides have one and the turn there is not 1 to 7 steps of 22.5 degrees. It is 0 where no corner is bad and the
    /// turns don't add to 16 steps.
    #[error("the corners make no sheet: corner {corner}")]
    BadSheet { corner: u32 },
    /// Memory ran out.
    #[error("out of memory")]
    Memory,
}

impl From<AllocError> for SheetFault {
    ghost use Rattle.crease_model.specs.declared.SheetFault.TheVariants.{Memory};

    ghost from_gives = { λ _ e. e ≡ Memory };

    fn from(_e: AllocError) -> SheetFault {
        SheetFault::Memory
    }
}

/// A convex sheet, seen as its corners counterclockwise from the least one. What is known of its sides is kept
/// beside them.
#[derive(Drop)]
pub struct Sheet {
    corners: Vec<Point>,
    sides: Vec<KnownSide>,
}

impl Model for Sheet {
    ghost use Rattle.std.specs.Prelude.{List};
    ghost use Rattle.plane_geometry.specs.declared.Point.{Point};
    ghost use Rattle.crease_model.specs.KnownSide.{IsKnownSheet};

    ghost Value = { List Point };

    ghost view = { λ s. s.corners.items };

    ghost invariant = { λ s. IsKnownSheet s.corners.items s.sides.items };
}

impl Sheet {
    /// The square with corners (-200, -200), (200, -200), (200, 200) and (-200, 200).
    pub fn square(alloc: Global) -> Result<Sheet, AllocError>
        ensures { IfOk result (λ sheet. sheet ≡ square_corners) }
    {
        let low = Surd::whole(-200);
        let high = Surd::whole(200);
        let corners = [
            Point { x: low, y: low },
            Point { x: high, y: low },
            Point { x: high, y: high },
            Point { x: low, y: high },
        ];
        Sheet::with_sides(Vec::from_slice(alloc, &corners)?)
    }

    // The sheet with these corners: what its sides are is found here, once.
    fn with_sides(corners: Vec<Point>) -> Result<Sheet, AllocError>
        requires { IsTrue (is_sheet corners.items) }
        ensures { IfOk result (λ sheet. sheet ≡ corners.items) }
    {
        let sides = known_sides(*corners.allocator(), corners.as_slice())?;
        Ok(Sheet { corners, sides })
    }

    /// The sheet with these corners, given counterclockwise. It keeps them from the first least one on.
    #[tactic(auto, unfolding(crate::specs::NewSheet::sheet_of))]
    pub fn new(alloc: Global, corners: &[Point]) -> Result<Sheet, SheetFault>
        requires least { 3 ≤ length corners.now }
        requires most { length corners.now ≤ 16 }
        ensures { IsSheetAnswer result (sheet_of corners.now) }
    {
        match fault_of(corners) {
            Some(corner) => Err(SheetFault::BadSheet { corner }),
            None => Ok(Sheet::with_sides(rotated(alloc, corners)?)?),
        }
    }

    /// The corners, counterclockwise from the least one.
    pub fn corners(&self) -> &[Point]
        ensures value { result.now ≡ self.now }
        ensures rules { IsTrue (is_sheet self.now) }
    {
        self.corners.as_slice()
    }

    /// Where a point lies.
    pub fn place(&self, p: &Point) -> Place
        ensures { result ≡ place_of self.now (position_of p.now) }
    {
        place_among(self.sides.as_slice(), p)
    }

    /// Whether a segment is within one side.
    pub fn on_border(&self, s: &Segment) -> bool
        ensures { result ≡ is_within_side self.now (stretch_of s.now) }
    {
        within_side(self.sides.as_slice(), s)
    }

    fn allocator(&self) -> Global {
        *self.corners.allocator()
    }

    /// An equal sheet.
    pub fn copy(&self) -> Result<Sheet, AllocError>
        ensures { IfOk result (λ sheet. sheet ≡ self.now) }
    {
        Ok(Sheet {
            corners: Vec::from_slice(self.allocator(), self.corners.as_slice())?,
            sides: Vec::from_slice(self.allocator(), self.sides.as_slice())?,
        })
    }
}

/// The most pieces and auxiliary lines of a pattern.
pub const MOST_PIECES: usize = 2000;

/// A crease pattern: a sheet, crease pieces in order, and auxiliary lines in order.
#[derive(Drop)]
pub struct Pattern {
    sheet: Sheet,
    pieces: Vec<Piece>,
    aux: Vec<Segment>,
}

impl Model for Pattern {
    ghost use Rattle.crease_model.specs.View.{PatternView};
    ghost use Rattle.crease_model.specs.Rules.{IsPattern};

    ghost Value = { PatternView };

    ghost view = { λ p. record { corners = p.sheet; pieces = p.pieces.items; aux = p.aux.items } };

    ghost invariant = { λ p. IsPattern
        (record { corners = p.sheet; pieces = p.pieces.items; aux = p.aux.items }) };
}

impl Pattern {
    /// The sheet with nothing on it.
    pub fn empty(sheet: Sheet) -> Pattern
        ensures { result ≡ empty_on sheet }
    {
        let alloc = sheet.allocator();
        Pattern {
            sheet,
            pieces: Vec::new(alloc),
            aux: Vec::new(alloc),
        }
    }

    /// The sheet.
    pub fn sheet(&self) -> &Sheet
        ensures value { result.now ≡ self.now.corners }
        ensures rules { IsTrue (is_sheet self.now.corners) }
    {
        let sheet = &self.sheet;
        // opens the sheet, so that its rules are known
        let _ = &sheet.corners;
        sheet
    }

    /// The crease pieces, by their lesser end, then by their greater.
    pub fn pieces(&self) -> &[Piece]
        ensures value { result.now ≡ self.now.pieces }
        ensures rules { IsPattern self.now }
    {
        self.pieces.as_slice()
    }

    /// The auxiliary lines, in the same order.
    pub fn aux(&self) -> &[Segment]
        ensures value { result.now ≡ self.now.aux }
        ensures rules { IsPattern self.now }
    {
        self.aux.as_slice()
    }

    /// How many pieces and auxiliary lines there are.
    pub fn size(&self) -> u32
        ensures value { result ≡ size_of self.now }
    {
        (self.pieces.len() + self.aux.len()) as u32
    }

    /// An equal pattern.
    pub fn copy(&self) -> Result<Pattern, AllocError>
        ensures { IfOk result (λ pattern. pattern ≡ self.now) }
    {
        let alloc = self.sheet.allocator();
        Ok(Pattern {
            sheet: self.sheet.copy()?,
            pieces: Vec::from_slice(alloc, self.pieces.as_slice())?,
            aux: Vec::from_slice(alloc, self.aux.as_slice())?,
        })
    }

    /// The pattern of these pieces, on an equal sheet and with equal auxiliary lines.
    pub fn with_pieces(&self, pieces: Vec<Piece>) -> Result<Pattern, AllocError>
        requires { IsPattern
            (record { corners = self.now.corners; pieces = pieces.items; aux = self.now.aux }) }
        ensures { IfOk result
            (λ pattern. pattern ≡ record {
              corners = self.now.corners;
              pieces = pieces.items;
              aux = self.now.aux;
            }) }
    {
        Ok(Pattern {
            sheet: self.sheet.copy()?,
            pieces,
            aux: Vec::from_slice(self.sheet.allocator(), self.aux.as_slice())?,
        })
    }

    /// The pattern of these auxiliary lines, on an equal sheet and with equal pieces.
    pub fn with_aux(&self, aux: Vec<Segment>) -> Result<Pattern, AllocError>
        requires { IsPattern
            (record { corners = self.now.corners; pieces = self.now.pieces; aux = aux.items }) }
        ensures { IfOk result
            (λ pattern. pattern ≡ record {
              corners = self.now.corners;
              pieces = self.now.pieces;
              aux = aux.items;
            }) }
    {
        Ok(Pattern {
            sheet: self.sheet.copy()?,
            pieces: Vec::from_slice(self.sheet.allocator(), self.pieces.as_slice())?,
            aux,
        })
    }

    /// The sheet, the pieces and the auxiliary lines, which the pattern gives up.
    pub fn into_parts(self) -> (Sheet, Vec<Piece>, Vec<Segment>)
        ensures value { self ≡ record { corners = result.0; pieces = result.1.items; aux = result.2.items } }
        ensures sheet { IsTrue (is_sheet self.corners) }
        ensures rules { IsPattern self }
    {
        let Pattern { sheet, pieces, aux } = self;
        (sheet, pieces, aux)
    }

    /// The pattern of these parts.
    pub fn of(sheet: Sheet, pieces: Vec<Piece>, aux: Vec<Segment>) -> Pattern
        requires { IsPattern (record { corners = sheet; pieces = pieces.items; aux = aux.items }) }
        ensures { result ≡ record { corners = sheet; pieces = pieces.items; aux = aux.items } }
    {
        Pattern { sheet, pieces, aux }
    }
}
