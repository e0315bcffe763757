//! Folded shapes.

ghost use Rattle.std.specs.Prelude.{◌≡◌};

use plane_geometry::{Point, Segment};
use std::marker::Model;

/// A list of points.
#[derive(Debug, Drop)]
pub struct PointList {
    points: Vec<Point>,
}

impl Model for PointList {
    ghost use Rattle.std.specs.Prelude.{List};
    ghost use Rattle.plane_geometry.specs.declared.Point.{Point};

    ghost Value = { List Point };

    ghost view = { λ l. l.points.items };
}

impl PointList {
    /// These points.
    pub fn of(points: Vec<Point>) -> PointList
        ensures { result ≡ points.items }
    {
        PointList { points }
    }

    /// The points, in order.
    pub fn as_slice(&self) -> &[Point]
        ensures { result.now ≡ self.now }
    {
        self.points.as_slice()
    }
}

/// A face laid into the plane: the images of its corners in the face's own order, which is clockwise where it is turned.
#[derive(Debug, Drop)]
pub struct FoldedFace {
    pub corners: PointList,
    pub turned: bool,
}

/// Where a crease piece comes to lie, and the faces on its sides, `a` before `b`. Faces and pieces count from 1.
#[derive(Clone, Copy, Debug, PartialEq, Eq)]
pub struct CreaseImage {
    pub piece: u32,
    pub a: u32,
    pub b: u32,
    pub image: Segment,
}

/// The folded faces, by their numbers, and the images of the creases between them. Each folded face is a convex polygon.
#[derive(Debug, Drop)]
pub struct Folded {
    faces: Vec<FoldedFace>,
    creases: Vec<CreaseImage>,
}

impl Model for Folded {
    ghost use Rattle.std.specs.Prelude.{IsTrue};
    ghost use Rattle.isometry_map.specs.Folded.{FoldedView, are_convex_faces};

    ghost Value = { FoldedView };

    ghost view = { λ f. record { faces = f.faces.items; creases = f.creases.items } };

    ghost invariant = { λ f. IsTrue (are_convex_faces f.faces.items) };
}

impl Folded {
    ghost use Rattle.std.specs.Prelude.{IsTrue};
    ghost use Rattle.isometry_map.specs.Folded.{are_convex_faces};

    /// These faces and creases. The corners of each face, taken backwards where it is turned, are a convex polygon.
    pub fn new(faces: Vec<FoldedFace>, creases: Vec<CreaseImage>) -> Folded
        requires { IsTrue (are_convex_faces faces.items) }
        ensures { result ≡ record { faces = faces.items; creases = creases.items } }
    {
        Folded { faces, creases }
    }

    /// The folded faces, from face 1 on.
    pub fn faces(&self) -> &[FoldedFace]
        ensures value { result.now ≡ self.now.faces }
        ensures convex { IsTrue (are_convex_faces result.now) }
    {
        self.faces.as_slice()
    }

    /// The images of the shared pieces, by piece.
    pub fn creases(&self) -> &[CreaseImage]
        ensures { result.now ≡ self.now.creases }
    {
        self.creases.as_slice()
    }
}
