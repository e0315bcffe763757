//! Points and vectors of Wides.

ghost use Rattle.std.specs.Prelude.{◌≡◌, ◌^◌};
ghost use Rattle.surd_number.specs.Number.{negative_of, product_of, FitsOver};
ghost use Rattle.surd_number.specs.Value.{wide_number_of};
ghost use Rattle.surd_number.specs.Exact.{IsWideOf};
ghost use Rattle.plane_geometry.specs.Direction.{nought};
ghost use Rattle.isometry_map.specs.Matrix.{cosine};
ghost use Rattle.isometry_map.specs.Entry.{entry_number};

use surd_number::Wide;

/// A point of the plane with room for sums, before its coordinates are narrowed.
#[derive(Clone, Copy, Debug, PartialEq, Eq)]
pub struct WidePoint {
    pub x: Wide,
    pub y: Wide,
}

impl WidePoint {
    ghost use Rattle.plane_geometry.specs.Position.{vector_of};
    ghost use Rattle.plane_geometry.specs.Multiple.{IsSameVector};
    ghost use Rattle.isometry_map.specs.Motion.{shifted};
    ghost use Rattle.isometry_map.specs.WidePointView.{wide_position, IsPointWithin};

    /// Both coordinates of `v` added.
    pub(crate) fn plus(&self, v: &WidePoint) -> WidePoint
        requires few { IsPointWithin (2 ^ 72) 18 self.now }
        requires few_other { IsPointWithin (2 ^ 72) 18 v.now }
        ensures { IsSameVector (wide_position result) (shifted (wide_position self.now) (wide_position v.now)) }
    {
        WidePoint {
            x: self.x.plus(&v.x),
            y: self.y.plus(&v.y),
        }
    }

    /// The vector from `p` to this point.
    pub(crate) fn minus(&self, p: &WidePoint) -> WidePoint
        requires few { IsPointWithin (2 ^ 72) 18 self.now }
        requires few_other { IsPointWithin (2 ^ 72) 18 p.now }
        ensures { IsSameVector (wide_position result) (vector_of (wide_position p.now) (wide_position self.now)) }
    {
        WidePoint {
            x: self.x.minus(&p.x),
            y: self.y.minus(&p.y),
        }
    }
}

/// A cosine of a multiple of 45 degrees.
#[derive(Clone, Copy)]
pub(crate) enum Entry {
    Nought,
    One,
    HalfRoot,
    MinusOne,
    MinusHalfRoot,
}

/// The cosine of so many steps of 45 degrees.
pub(crate) fn cosine(steps: u8) -> Entry
    ensures { entry_number result ≡ cosine steps }
{
    match steps % 8 {
        0 => Entry::One,
        1 => Entry::HalfRoot,
        2 => Entry::Nought,
        3 => Entry::MinusHalfRoot,
        4 => Entry::MinusOne,
        5 => Entry::MinusHalfRoot,
        6 => Entry::Nought,
        _ => Entry::HalfRoot,
    }
}

/// Zero, as `w - w`.
pub(crate) fn nothing(w: &Wide) -> Wide
    requires { FitsOver (2 ^ 72) 18 (wide_number_of w.now) }
    ensures { IsWideOf result nought }
{
    w.minus(w)
}

/// `-w`.
pub(crate) fn negative(w: &Wide) -> Wide
    requires { FitsOver (2 ^ 72) 18 (wide_number_of w.now) }
    ensures { IsWideOf result (negative_of (wide_number_of w.now)) }
{
    nothing(w).minus(w)
}

/// The product with a cosine.
#[inline(always)]
pub(crate) fn scaled(entry: Entry, w: &Wide) -> Wide
    requires { FitsOver (2 ^ 70) 17 (wide_number_of w.now) }
    ensures { IsWideOf result (product_of (entry_number entry) (wide_number_of w.now)) }
{
    match entry {
        Entry::Nought => nothing(w),
        Entry::One => *w,
        Entry::HalfRoot => w.half_root(),
        Entry::MinusOne => negative(w),
        Entry::MinusHalfRoot => negative(&w.half_root()),
    }
}
