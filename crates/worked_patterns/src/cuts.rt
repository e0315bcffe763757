//! Cut points and parts, worked by hand.

use crease_model::{Kind, Piece};
use line_split::{SplitFault, cut_at, cut_points};
use plane_geometry::{Point, Segment};
use std::test::Fail;
use surd_number::{OutOfRange, Surd};

type Parts = (i64, i64, u8);

/// A point by the triples of its coordinates.
fn point(x: Parts, y: Parts) -> Result<Point, OutOfRange> {
    let x = Surd::new(x.0, x.1, x.2)?;
    let y = Surd::new(y.0, y.1, y.2)?;
    Ok(Point { x, y })
}

/// A point of whole numbers.
fn whole(x: i64, y: i64) -> Result<Point, OutOfRange> {
    point((x, 0, 0), (y, 0, 0))
}

fn valley(from: &Point, to: &Point) -> Result<Piece, Fail> {
    let segment = Segment::new(from, to)?;
    Ok(Piece {
        kind: Kind::Valley,
        segment,
    })
}

/// A valley between points of whole numbers.
fn valley_between(a: i64, b: i64, c: i64, d: i64) -> Result<Piece, Fail> {
    valley(&whole(a, b)?, &whole(c, d)?)
}

#[test]
fn cuts_a_segment(rt: HostRuntime) -> Result<(), Fail> {
    let flat = valley_between(0, 0, 4, 0)?;
    let pieces = [
        valley_between(2, -2, 2, 2)?,
        valley_between(1, 0, 1, 5)?,
        valley_between(-2, 0, 3, 0)?,
        valley_between(5, -1, 5, 1)?,
    ];
    let cutting = cut_points(rt.alloc(), &flat.segment, &pieces)?;
    let wanted = [
        whole(0, 0)?,
        whole(1, 0)?,
        whole(2, 0)?,
        whole(3, 0)?,
        whole(4, 0)?,
    ];
    assert_eq!(rt; cutting.points.as_slice(), wanted.as_slice());
    assert_eq!(rt; cutting.touched.as_slice(), &pieces[..3]);
    assert_eq!(rt; cutting.others.as_slice(), &pieces[3..]);
    Ok(())
}

#[test]
fn cuts_at_a_point_of_roots(rt: HostRuntime) -> Result<(), Fail> {
    let end = point((1, 0, 0), (-1, 1, 0))?;
    let slight = valley(&whole(0, 0)?, &end)?;
    let steep = valley(&whole(1, 0)?, &point((2, -1, 0), (1, 0, 0))?)?;
    let cutting = cut_points(rt.alloc(), &slight.segment, &[steep])?;
    let wanted = [whole(0, 0)?, point((2, 1, 2), (0, 1, 2))?, end];
    assert_eq!(rt; cutting.points.as_slice(), wanted.as_slice());
    Ok(())
}

#[test]
fn refuses_a_common_point_out_of_range(rt: HostRuntime) -> Result<(), Fail> {
    let from = point((-100, 0, 0), (6553601, 0, 16))?;
    let to = point((100, 0, 0), (-6553599, 0, 16))?;
    let falling = valley(&from, &to)?;
    let pieces = [
        valley_between(0, 0, 4, 0)?,
        valley_between(-100, -100, 100, 100)?,
    ];
    match cut_points(rt.alloc(), &falling.segment, &pieces) {
        Ok(_) => assert!(rt; false),
        Err(fault) => assert_eq!(rt; fault, SplitFault::OutOfRange { piece: 2 }),
    }
    Ok(())
}

#[test]
fn cuts_a_piece(rt: HostRuntime) -> Result<(), Fail> {
    let piece = valley_between(0, 0, 4, 0)?;
    let points = [
        whole(-1, 0)?,
        whole(1, 0)?,
        whole(2, 1)?,
        whole(3, 0)?,
        whole(4, 0)?,
    ];
    let parts = cut_at(rt.alloc(), &piece, &points)?;
    let wanted = [
        valley_between(0, 0, 1, 0)?,
        valley_between(1, 0, 3, 0)?,
        valley_between(3, 0, 4, 0)?,
    ];
    assert_eq!(rt; parts.as_slice(), wanted.as_slice());
    Ok(())
}

#[test]
fn shows_faults(rt: HostRuntime) -> Result<(), Fail> {
    let out_of_range = SplitFault::OutOfRange { piece: 2 };
    let memory = SplitFault::Memory;
    assert_eq!(rt;
        format!(in rt.alloc(); "{out_of_range}")?.as_str(),
        "the common point with piece 2 is not of two exact numbers within the limits"
    );
    assert_eq!(rt;
        format!(in rt.alloc(); "{memory}")?.as_str(),
        "out of memory"
    );
    Ok(())
}
