//! Linear parts of isometries.

ghost use Rattle.std.specs.Prelude.{◌≡◌, ◌≤◌};
ghost use Rattle.isometry_map.specs.Linear.{is_reflection, composed};
ghost use Rattle.isometry_map.specs.Matrix.{matrix_of, matrix_product, IsSameMatrix};

use crate::wide_points::{WidePoint, cosine, scaled};
use plane_geometry::Dir;

/// The linear part of an isometry: a rotation by a multiple of 45 degrees, or the reflection in a line of one of the
/// directions. It is kept as a number: n below 8 is the rotation by `45 * n` degrees, `8 + m` the reflection in a line of
/// direction m.
#[derive(Clone, Copy, Debug, PartialEq, Eq)]
pub struct Linear {
    number: u8,
    pub ghost in_range: { number ≤ 15 },
}

impl Linear {
    ghost use Rattle.std.specs.Prelude.{pos, negsuc, if◌then◌else◌};
    ghost use Rattle.surd_number.specs.Number.{IsSame, whole};
    ghost use Rattle.plane_geometry.specs.DirView.{dir_number};
    ghost use Rattle.isometry_map.specs.Linear.{rotation, reflection};
    ghost use Rattle.isometry_map.specs.LinearView.{linear_number, matrix_in};
    ghost use Rattle.isometry_map.specs.Matrix.{determinant, image_of, IsMirrorOf};
    ghost use Rattle.isometry_map.specs.WidePointView.{wide_position, IsPointWithin};
    ghost use Rattle.plane_geometry.specs.Multiple.{IsSameVector};
    ghost use Rattle.std.specs.Prelude.{◌^◌};

    /// The identity.
    pub fn identity() -> Linear
        ensures { linear_number result ≡ rotation 0 }
    {
        Linear { number: 0 }
    }

    /// The reflection in a line of this direction. Opposite directions give the same one.
    pub fn reflection(d: Dir) -> Linear
        ensures value { linear_number result ≡ reflection (dir_number d) }
        ensures mirror { IsMirrorOf (dir_number d) (matrix_in result) }
    {
        Linear {
            number: 8 + d.number() % 8,
        }
    }

    /// The reflection in a line of direction 0 to 7.
    pub(crate) fn across(number: u8) -> Linear
        requires { number ≤ 7 }
        ensures { linear_number result ≡ reflection number }
    {
        Linear { number: 8 + number }
    }

    /// The linear part of `first`, then `self`.
    pub fn after(self, first: Linear) -> Linear
        ensures value { linear_number result ≡ composed (linear_number self) (linear_number first) }
        ensures product { IsSameMatrix (matrix_in result) (matrix_product (matrix_in self) (matrix_in first)) }
    {
        Linear {
            number: compose_linear(self.number, first.number),
        }
    }

    /// Whether orientation is reversed.
    pub fn turned(self) -> bool
        ensures value { result ≡ is_reflection (linear_number self) }
        ensures reverses { IsSame (determinant (matrix_in self)) (if result then whole (negsuc 0) else whole (pos 1)) }
    {
        is_turned(self.number)
    }

    /// The vector that `v` becomes.
    pub(crate) fn image(self, v: &WidePoint) -> WidePoint
        requires { IsPointWithin (2 ^ 70) 17 v.now }
        ensures { IsSameVector (wide_position result) (image_of (matrix_in self) (wide_position v.now)) }
    {
        let cos = cosine(self.number);
        let sin = cosine(self.number + 6);
        let along = WidePoint {
            x: scaled(cos, &v.x),
            y: scaled(sin, &v.x),
        };
        if is_turned(self.number) {
            WidePoint {
                x: along.x.plus(&scaled(sin, &v.y)),
                y: along.y.minus(&scaled(cos, &v.y)),
            }
        } else {
            WidePoint {
                x: along.x.minus(&scaled(sin, &v.y)),
                y: along.y.plus(&scaled(cos, &v.y)),
            }
        }
    }

    /// The number, 0 to 15.
    pub fn number(self) -> u8
        ensures { result ≡ linear_number self }
    {
        self.number
    }
}

// Whether the linear part of this number is a reflection.
fn is_turned(linear: u8) -> bool
    ensures { result ≡ is_reflection linear }
{
    8 <= linear
}

// The number of the linear part of j, then i.
fn compose_linear(i: u8, j: u8) -> u8
    requires later { i ≤ 15 }
    requires earlier { j ≤ 15 }
    ensures value { result ≡ composed i j }
    ensures product { IsSameMatrix (matrix_of result) (matrix_product (matrix_of i) (matrix_of j)) }
    ensures most { result ≤ 15 }
{
    composed_number(i, j)
}

fn composed_number(i: u8, j: u8) -> u8
    requires later { i ≤ 15 }
    requires earlier { j ≤ 15 }
    ensures value { result ≡ composed i j }
    ensures most { result ≤ 15 }
{
    let turn = if is_turned(i) {
        (i + 8 - j) % 8
    } else {
        (i + j) % 8
    };
    if is_turned(i) == is_turned(j) {
        turn
    } else {
        8 + turn
    }
}
