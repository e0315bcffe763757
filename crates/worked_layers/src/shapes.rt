//! Folded shapes for tests, made of tables.

ghost use Rattle.std.specs.Prelude.{◌≡◌, ◌∷◌, ◌<◌, ◌≤◌, length, map, nat_eq, IfOk, IfSome, IsTrue};
ghost use Rattle.std.specs.List.{list_all, sum};
ghost use Rattle.plane_geometry.specs.DirView.{dir_number};
ghost use Rattle.plane_geometry.specs.Polygon.{turn_of, turns_of, is_convex_turn, directions_of, have_directions, is_convex};
ghost use Rattle.isometry_map.specs.Folded.{is_convex_face};

use crease_model::Kind;
use isometry_map::{CreaseImage, Folded, FoldedFace, PointList};
use layer_rules::Insides;
use plane_geometry::{Dir, Point, Segment, direction, next_corner};
use sign_rules::Sign;
use std::alloc::{AllocError, Global};
use std::test::Fail;
use surd_number::{OutOfRange, Surd};

pub(crate) type Parts = (i64, i64, u8);

/// A point by the triples of its coordinates.
pub(crate) type Place = (Parts, Parts);

/// A crease piece: its number, its faces and the ends of its image.
pub(crate) type Crease = (u32, u32, u32, Place, Place);

/// A folded shape, the kinds of its pieces, its pairs, the signs that its creases give these, and, for each three faces
/// with a point in common, the places of their pairs ij, jk and ik.
#[derive(Clone, Copy)]
pub(crate) struct Row {
    pub faces: &'static [(bool, &'static [Place])],
    pub creases: &'static [Crease],
    pub kinds: &'static [Kind],
    pub pairs: &'static [(u32, u32)],
    pub fixed: &'static [(u32, Sign)],
    pub circles: &'static [(u32, u32, u32)],
}

fn point(place: Place) -> Result<Point, OutOfRange> {
    let (x, y) = place;
    Ok(Point {
        x: Surd::new(x.0, x.1, x.2)?,
        y: Surd::new(y.0, y.1, y.2)?,
    })
}

/// The directions of the sides, if each has one.
fn directions(alloc: Global, corners: &[Point]) -> Result<Option<Vec<Dir>>, AllocError>
    ensures { IfOk result (λ found. IfSome found (λ v. (map dir_number v.items ≡ directions_of corners.now)
        × IsTrue (have_directions corners.now))) }
{
    let mut directions = Vec::new(alloc);
    for (i, start) in corners.iter().enumerate() {
        match direction(start, next_corner(corners, i)) {
            Some(d) => directions.push(d)?,
            None => return Ok(None),
        }
    }
    Ok(Some(directions))
}

/// Whether no side turns right or back from the one before it.
fn turns_left(first: Dir, rest: &[Dir]) -> bool
    ensures { result ≡ list_all is_convex_turn (turns_of (map dir_number (first ∷ rest.now))) }
{
    let mut before = first;
    for d in rest {
        if before.turn_to(*d) > 7 {
            return false;
        }
        before = *d;
    }
    before.turn_to(first) <= 7
}

/// Whether the sides turn round once.
fn turns_round(first: Dir, rest: &[Dir]) -> bool
    ensures { result ≡ nat_eq (sum (turns_of (map dir_number (first ∷ rest.now)))) 16 }
{
    let mut before = first;
    let mut turns = 0;
    for d in rest {
        turns += before.turn_to(*d);
        if turns > 16 {
            return false;
        }
        before = *d;
    }
    turns + before.turn_to(first) == 16
}

fn is_round(directions: &[Dir]) -> bool
    ensures { IsTrue result → IsTrue (list_all is_convex_turn (turns_of (map dir_number directions.now)))
        × IsTrue (nat_eq (sum (turns_of (map dir_number directions.now))) 16) }
{
    match directions {
        [first, rest @ ..] => turns_left(*first, rest) && turns_round(*first, rest),
        [] => false,
    }
}

/// Whether the corners are those of a convex polygon, counterclockwise.
fn is_convex(alloc: Global, corners: &[Point]) -> Result<bool, AllocError>
    ensures { IfOk result (λ b. IsTrue b → IsTrue (is_convex corners.now)) }
{
    match directions(alloc, corners)? {
        Some(directions) => Ok(is_round(directions.as_slice())),
        None => Ok(false),
    }
}

/// A face with these corners, in its own order.
fn face(alloc: Global, turned: bool, places: &[Place]) -> Result<FoldedFace, Fail>
    ensures { IfOk result (λ f. IsTrue (is_convex_face f)) }
{
    let mut corners = Vec::new(alloc);
    for place in places {
        corners.push(point(*place)?)?;
    }
    if turned {
        corners.reverse();
    }
    if !is_convex(alloc, corners.as_slice())? {
        return Err(OutOfRange.into());
    }
    Ok(laid(corners, turned))
}

/// A face by its corners, counterclockwise.
fn laid(corners: Vec<Point>, turned: bool) -> FoldedFace
    requires { IsTrue (is_convex corners.items) }
    ensures { IsTrue (is_convex_face result) }
{
    if !turned {
        return FoldedFace {
            corners: PointList::of(corners),
            turned: false,
        };
    }
    let mut corners = corners;
    corners.reverse();
    FoldedFace {
        corners: PointList::of(corners),
        turned: true,
    }
}

fn crease(row: Crease) -> Result<CreaseImage, Fail> {
    let (piece, a, b, from, to) = row;
    let image = Segment::new(&point(from)?, &point(to)?)?;
    Ok(CreaseImage { piece, a, b, image })
}

/// The shape of a row.
pub(crate) fn shape(alloc: Global, row: &Row) -> Result<Insides, Fail> {
    let mut faces = Vec::new(alloc);
    for (turned, corners) in row.faces {
        faces.push(face(alloc, *turned, corners)?)?;
    }
    let mut creases = Vec::new(alloc);
    for c in row.creases {
        creases.push(crease(*c)?)?;
    }
    Ok(Insides::of(alloc, Folded::new(faces, creases))?)
}

/// So many squares, one on the other, without creases.
pub(crate) fn stack(alloc: Global, squares: u32) -> Result<Insides, Fail>
    ensures { IfOk result (λ f. length f.faces ≡ squares) }
{
    let mut faces = Vec::new(alloc);
    for i in 0..squares {
        let turned = i % 2 == 1;
        let (right, left) = if turned { (0, 1) } else { (1, 0) };
        let places = [
            ((left, 0, 0), (0, 0, 0)),
            ((right, 0, 0), (0, 0, 0)),
            ((right, 0, 0), (1, 0, 0)),
            ((left, 0, 0), (1, 0, 0)),
        ];
        faces.push(face(alloc, turned, &places)?)?;
    }
    Ok(Insides::of(alloc, Folded::new(faces, Vec::new(alloc)))?)
}
