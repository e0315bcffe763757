//! Crease patterns and their layers.

use crate::layers::text_of;
use crate::patterns::{Crease, close_strips, equal_strips, on_square, wider_strips};
use crease_model::Kind::{Mountain, Valley};
use layer_rules::{InstanceFault, instance};
use std::test::Fail;

const ROWS: [(&[Crease], &str); 10] = [
    // Nothing on the square.
    (&[], "faces 1 pairs 0: |"),
    // A mountain, then a valley.
    (
        &[(Mountain, (0, -200), (0, 200))],
        "faces 2 pairs 1: 1-2 |+",
    ),
    (&[(Valley, (0, -200), (0, 200))], "faces 2 pairs 1: 1-2 |-"),
    // The outer strips only touch.
    (
        &[
            (Valley, (-100, -200), (-100, 200)),
            (Valley, (100, -200), (100, 200)),
        ],
        "faces 3 pairs 2: 1-2 2-3 |-+",
    ),
    // Two valleys close together: neither outer strip can lie between the other and the middle one.
    (
        &[
            (Valley, (-50, -200), (-50, 200)),
            (Valley, (50, -200), (50, 200)),
        ],
        "faces 3 pairs 3: 1-2 1-3 2-3",
    ),
    (
        &[
            (Mountain, (-50, -200), (-50, 200)),
            (Valley, (50, -200), (50, 200)),
        ],
        "faces 3 pairs 3: 1-2 1-3 2-3 |+++",
    ),
    // Four strips of one width: three of the 64 lists are orders.
    (
        &[
            (Mountain, (-100, -200), (-100, 200)),
            (Mountain, (0, -200), (0, 200)),
            (Mountain, (100, -200), (100, 200)),
        ],
        "faces 4 pairs 6: 1-2 1-3 1-4 2-3 2-4 3-4 |+++--+ |+-+-++ |+----+",
    ),
    // A cross, and one whose middle does not fold flat.
    (
        &[
            (Mountain, (0, -200), (0, 200)),
            (Mountain, (-200, 0), (0, 0)),
            (Valley, (0, 0), (200, 0)),
        ],
        "faces 4 pairs 6: 1-2 1-3 1-4 2-3 2-4 3-4 |+++--+",
    ),
    (
        &[
            (Mountain, (0, -200), (0, 200)),
            (Mountain, (-200, 0), (0, 0)),
            (Mountain, (0, 0), (200, 0)),
        ],
        "faces 4 pairs 6: 1-2 1-3 1-4 2-3 2-4 3-4",
    ),
    // The waterbomb base.
    (
        &[
            (Valley, (-200, -200), (200, 200)),
            (Valley, (-200, 200), (200, -200)),
            (Mountain, (-200, 0), (200, 0)),
        ],
        "faces 6 pairs 11: 1-2 1-3 1-4 1-5 1-6 2-3 2-4 3-4 4-5 4-6 5-6 |--------+++",
    ),
];

#[test]
fn patterns_have_these_layers(rt: HostRuntime) -> Result<(), Fail> {
    for (creases, wanted) in ROWS {
        let pattern = on_square(rt.alloc(), creases)?;
        assert_eq!(rt; text_of(&rt, rt.alloc(), &pattern)?.as_str(), wanted);
    }
    Ok(())
}

/// Why a pattern has no layers, and the text of it.
const FAULTS: [(InstanceFault, &str); 7] = [
    (
        InstanceFault::TooManyFaces { faces: 257 },
        "there are 257 faces",
    ),
    (
        InstanceFault::Unreached { face: 2 },
        "face 2 is not reached from face 1",
    ),
    (
        InstanceFault::DoesNotClose { piece: 3 },
        "the faces at piece 3 don't fold together",
    ),
    (
        InstanceFault::FoldRange { face: 4 },
        "a corner of folded face 4 is out of range",
    ),
    (
        InstanceFault::TooManyLines { lines: 259 },
        "there are 259 lines through folded sides",
    ),
    (
        InstanceFault::TooManyPairs { pairs: 8256 },
        "8256 pairs of faces lie on one another",
    ),
    (InstanceFault::Memory, "out of memory"),
];

#[test]
fn faults_have_these_texts(rt: HostRuntime) -> Result<(), Fail> {
    for (fault, wanted) in FAULTS {
        assert_eq!(rt; format!(in rt.alloc(); "{fault}")?.as_str(), wanted);
    }
    Ok(())
}

#[test]
fn there_are_200_lines_at_most(rt: HostRuntime) -> Result<(), Fail> {
    let refused = text_of(&rt, rt.alloc(), &wider_strips(rt.alloc(), 255)?)?;
    assert_eq!(rt; refused.as_str(), "refused TooManyLines { lines: 259 }");
    Ok(())
}

#[test]
fn forty_strips_have_all_their_rules(rt: HostRuntime) -> Result<(), Fail> {
    let layers = instance(&rt, rt.alloc(), &equal_strips(rt.alloc(), 40)?)?;
    assert_eq!(rt; layers.pairs().len(), 780);
    // one for each three strips, and those of creases and tacos
    assert!(rt; layers.rules()?.count() > 9880);
    Ok(())
}

#[test]
fn there_are_8192_pairs_at_most(rt: HostRuntime) -> Result<(), Fail> {
    let refused = text_of(&rt, rt.alloc(), &close_strips(rt.alloc(), 128)?)?;
    assert_eq!(rt; refused.as_str(), "refused TooManyPairs { pairs: 8256 }");
    Ok(())
}
