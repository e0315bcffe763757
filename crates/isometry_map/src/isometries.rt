//! Isometries of the plane.

ghost use Rattle.std.specs.Prelude.{◌≡◌, ◌^◌, ◌*◌, ◌≤◌};
ghost use Rattle.surd_number.specs.Number.{IsSame};
ghost use Rattle.surd_number.specs.Value.{wide_number_of};
ghost use Rattle.plane_geometry.specs.Position.{cross_of};
ghost use Rattle.plane_geometry.specs.Direction.{direction_vector};
ghost use Rattle.plane_geometry.specs.LineView.{line_number, line_offset};
ghost use Rattle.isometry_map.specs.WidePointView.{wide_position, IsPointWithin};

use crate::linear_parts::Linear;
use crate::wide_points::{WidePoint, negative, nothing};
use plane_geometry::{Line, Point};
use surd_number::{Surd, Wide};

/// An isometry of the plane that keeps the 16 directions: a linear part about the origin, then a shift.
#[derive(Clone, Copy, Debug, PartialEq, Eq)]
pub struct Isometry {
    linear: Linear,
    shift: WidePoint,
}

impl Isometry {
    ghost use Rattle.std.specs.Prelude.{ℕ, ◌+◌, ◌<◌, if◌then◌else◌};
    ghost use Rattle.surd_number.specs.Number.{opposite_sign};
    ghost use Rattle.plane_geometry.specs.Direction.{side_of};
    ghost use Rattle.plane_geometry.specs.Position.{Position, position_of};
    ghost use Rattle.plane_geometry.specs.Multiple.{IsSameVector};
    ghost use Rattle.plane_geometry.specs.LineView.{IsOnLine};
    ghost use Rattle.isometry_map.specs.Linear.{rotation, reflection, is_reflection, composed};
    ghost use Rattle.isometry_map.specs.LinearView.{linear_number};
    ghost use Rattle.isometry_map.specs.Motion.{IsSameMap, IsIdentity, IsComposition, IsReflectionIn, IsReflection, image_by, identity_motion, reflection_at, side_of_images, IsShiftWithin};
    ghost use Rattle.isometry_map.specs.IsometryView.{linear_part, motion_of};

    /// Each point stays.
    pub fn identity() -> Isometry
        ensures stays { IsIdentity (motion_of result) }
        ensures value { motion_of result ≡ identity_motion }
        ensures fits { IsShiftWithin 0 (motion_of result) }
    {
        let nought = Wide::of(&Surd::whole(0));
        Isometry {
            linear: Linear::identity(),
            shift: WidePoint {
                x: nought,
                y: nought,
            },
        }
    }

    /// The reflection in the line.
    pub fn reflection(line: &Line) -> Isometry
        ensures mirror { IsReflectionIn line.now (motion_of result) }
        ensures linear { linear_number (linear_part result) ≡ reflection (line_number line.now) }
        ensures at { (q : Position) → IsOnLine q line.now →
            IsSameMap (motion_of result) (reflection_at (line_number line.now) q) }
        ensures fits { IsShiftWithin (2 ^ 57) (motion_of result) }
    {
        let linear = Linear::across(line.number());
        let foot = axis_point(line);
        Isometry {
            linear,
            shift: foot.minus(&linear.image(&foot)),
        }
    }

    /// The linear part.
    pub fn linear(&self) -> Linear
        ensures { result ≡ linear_part self.now }
    {
        self.linear
    }

    /// Whether orientation is reversed.
    pub fn turned(&self) -> bool
        ensures value { result ≡ is_reflection (linear_number (linear_part self.now)) }
        ensures sides { (n : ℕ) (q p : Position) → n < 16 →
            side_of_images (motion_of self.now) n q p ≡
            (if result then opposite_sign (side_of q n p) else side_of q n p) }
    {
        self.linear.turned()
    }

    /// `first`, which is the reflection in some line, then `self`. The numerators of the shift over 2^18 grow by 2^57 at most, so
    /// a chain of 32,768 reflections may be composed.
    pub fn after(&self, first: &Isometry) -> Isometry
        requires few { IsShiftWithin (2 ^ 72) (motion_of self.now) }
        requires mirror { IsReflection (motion_of first.now) }
        ensures composition { IsComposition (motion_of result) (motion_of self.now) (motion_of first.now) }
        ensures linear { linear_number (linear_part result) ≡
            composed (linear_number (linear_part self.now)) (linear_number (linear_part first.now)) }
        ensures fits { (most : ℕ) →
            IsShiftWithin most (motion_of self.now) → IsShiftWithin (most + 2 ^ 57) (motion_of result) }
    {
        Isometry {
            linear: self.linear.after(first.linear),
            shift: self.linear.image(&first.shift).plus(&self.shift),
        }
    }

    /// The point that `p` becomes.
    pub fn apply(&self, p: &Point) -> WidePoint
        requires { IsShiftWithin (2 ^ 72) (motion_of self.now) }
        ensures { IsSameVector (wide_position result) (image_by (motion_of self.now) (position_of p.now)) }
    {
        let point = WidePoint {
            x: Wide::of(&p.x),
            y: Wide::of(&p.y),
        };
        self.linear.image(&point).plus(&self.shift)
    }
}

/// The point of the line on an axis.
fn axis_point(line: &Line) -> WidePoint
    ensures on { IsSame (cross_of (direction_vector (line_number line.now)) (wide_position result))
        (wide_number_of (line_offset line.now)) }
    ensures fits { IsPointWithin (6 * 2 ^ 52) 16 result }
{
    let offset = line.offset();
    let nought = nothing(&offset);
    match line.number() {
        0..=2 => WidePoint {
            x: nought,
            y: offset,
        },
        3..=5 => WidePoint {
            x: negative(&offset),
            y: nought,
        },
        _ => WidePoint {
            x: nought,
            y: negative(&offset),
        },
    }
}
