//! The faults of vertices, worked by hand.

use crate::patterns::{Crease, on_square, round_the_middle};
use crease_model::Kind::{Mountain, Unassigned, Valley};
use crease_model::{Pattern, Sheet};
use crease_store::add;
use plane_geometry::Point;
use std::test::Fail;
use surd_number::Surd;
use vertex_checks::{check, write_faults};

const ROWS: [(&[Crease], &str); 10] = [
    // A cross with one valley folds flat.
    (
        &[
            (Mountain, (0, -200), (0, 0)),
            (Mountain, (0, 0), (0, 200)),
            (Mountain, (-200, 0), (0, 0)),
            (Valley, (0, 0), (200, 0)),
        ],
        "",
    ),
    // A cross of mountains breaks Maekawa's theorem.
    (
        &[
            (Mountain, (0, -200), (0, 0)),
            (Mountain, (0, 0), (0, 200)),
            (Mountain, (-200, 0), (0, 0)),
            (Mountain, (0, 0), (200, 0)),
        ],
        "0 0 maekawa 4 0\n",
    ),
    // A crease that ends breaks both theorems.
    (
        &[(Mountain, (0, -200), (0, 0))],
        "0 0 kawasaki\n0 0 maekawa 1 0\n",
    ),
    // A small sector of one kind is named by its first crease.
    (
        &[
            (Mountain, (0, 0), (200, 0)),
            (Mountain, (0, 0), (200, 200)),
            (Mountain, (0, 0), (-200, 200)),
            (Valley, (0, -200), (0, 0)),
        ],
        "0 0 biglittlebig 0\n",
    ),
    // The last sector goes back to the first crease.
    (
        &[
            (Mountain, (0, 0), (200, 0)),
            (Valley, (0, 0), (0, 200)),
            (Mountain, (-200, -200), (0, 0)),
            (Mountain, (0, 0), (200, -200)),
        ],
        "0 0 biglittlebig 14\n",
    ),
    // Three creases have no small sector.
    (
        &[
            (Mountain, (0, 0), (200, 0)),
            (Mountain, (0, 0), (200, 200)),
            (Valley, (-200, 0), (0, 0)),
        ],
        "0 0 kawasaki\n0 0 maekawa 2 1\n",
    ),
    // A mountain that goes on as a valley breaks Maekawa's theorem.
    (
        &[
            (Mountain, (0, -200), (0, -100)),
            (Valley, (0, -100), (0, 100)),
            (Mountain, (0, 100), (0, 200)),
        ],
        "0 -100 maekawa 1 1\n0 100 maekawa 1 1\n",
    ),
    // A crease that is unassigned may be what Maekawa's theorem wants, and what big-little-big wants.
    (
        &[
            (Unassigned, (0, 0), (200, 0)),
            (Unassigned, (0, 0), (200, 200)),
            (Mountain, (0, 0), (-200, 200)),
            (Valley, (0, -200), (0, 0)),
        ],
        "",
    ),
    // One unassigned crease beside two mountains and two valleys can't make them differ by two.
    (
        &[
            (Mountain, (0, 0), (200, 0)),
            (Mountain, (0, 0), (200, 200)),
            (Valley, (0, 0), (-200, 200)),
            (Unassigned, (0, 0), (-200, 0)),
            (Valley, (0, -200), (0, 0)),
        ],
        "0 0 kawasaki\n0 0 maekawa 2 2 1\n0 0 biglittlebig 0\n",
    ),
    // Of an odd number of creases mountains and valleys never differ by two.
    (
        &[
            (Unassigned, (0, 0), (200, 0)),
            (Unassigned, (0, -200), (0, 0)),
            (Unassigned, (0, 0), (0, 200)),
        ],
        "0 0 kawasaki\n0 0 maekawa 0 0 3\n",
    ),
];

#[test]
fn vertices_have_these_faults(rt: HostRuntime) -> Result<(), Fail> {
    for (creases, wanted) in ROWS {
        let pattern = on_square(rt.alloc(), creases)?;
        let faults = check(rt.alloc(), &pattern)?;
        let mut out = Vec::new(rt.alloc());
        write_faults(&mut out, faults.as_slice())?;
        assert_eq!(rt; out.as_slice(), wanted.as_bytes());
    }
    Ok(())
}

#[test]
fn a_vertex_has_room_for_sixteen_creases(rt: HostRuntime) -> Result<(), Fail> {
    let alloc = rt.alloc();
    let middle = Point {
        x: Surd::whole(0),
        y: Surd::whole(0),
    };
    let mut pattern = Pattern::empty(Sheet::square(alloc)?);
    for end in round_the_middle()? {
        pattern = add(alloc, &pattern, Mountain, &middle, &end)?;
    }
    let faults = check(alloc, &pattern)?;
    let mut out = Vec::new(alloc);
    write_faults(&mut out, faults.as_slice())?;
    assert_eq!(rt; out.as_slice(), "0 0 maekawa 16 0\n".as_bytes());
    Ok(())
}
