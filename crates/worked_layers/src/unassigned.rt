//! Unassigned creases: the layer orders of a pattern are those of its assignments, each order of just one of them.

use crate::layers::orders_of;
use crate::patterns::{Crease, on_square};
use crease_model::Kind::{Mountain, Unassigned, Valley};
use layer_rules::instance;
use sign_rules::Sign;
use std::alloc::{AllocError, Global};
use std::test::Fail;
use std::thread::Threads;

/// The creases, and how many orders they have: for the map of two by two as known (sequence A001415 of the encyclopedia
/// of integer sequences), for the others by a model that shares nothing with the editor.
const PATTERNS: [(&[Crease], usize); 5] = [
    // A map of two by two.
    (
        &[
            (Unassigned, (0, -200), (0, 0)),
            (Unassigned, (-200, 0), (0, 0)),
            (Unassigned, (0, 0), (0, 200)),
            (Unassigned, (0, 0), (200, 0)),
        ],
        8,
    ),
    // The same with one mountain.
    (
        &[
            (Unassigned, (0, -200), (0, 0)),
            (Mountain, (-200, 0), (0, 0)),
            (Unassigned, (0, 0), (0, 200)),
            (Unassigned, (0, 0), (200, 0)),
        ],
        4,
    ),
    // A waterbomb base.
    (
        &[
            (Unassigned, (-200, -200), (0, 0)),
            (Unassigned, (-200, 0), (0, 0)),
            (Unassigned, (-200, 200), (0, 0)),
            (Unassigned, (0, 0), (200, -200)),
            (Unassigned, (0, 0), (200, 0)),
            (Unassigned, (0, 0), (200, 200)),
        ],
        18,
    ),
    // A strip of four stamps with a valley in the middle.
    (
        &[
            (Unassigned, (-100, -200), (-100, 200)),
            (Valley, (0, -200), (0, 200)),
            (Unassigned, (100, -200), (100, 200)),
        ],
        8,
    ),
    // Wings that are too wide for one side.
    (
        &[
            (Unassigned, (-50, -200), (-50, 200)),
            (Unassigned, (50, -200), (50, 200)),
        ],
        2,
    ),
];

/// The creases with the unassigned ones by the digits of a number, mountains and valleys.
fn assigned(alloc: Global, creases: &[Crease], number: u32) -> Result<Vec<Crease>, AllocError> {
    let mut chosen = Vec::new(alloc);
    let mut left = number;
    for (kind, from, to) in creases {
        let mut kind = *kind;
        if kind == Unassigned {
            kind = if left % 2 == 0 { Mountain } else { Valley };
            left /= 2;
        }
        chosen.push((kind, *from, *to))?;
    }
    Ok(chosen)
}

/// How many choices there are.
fn choices(creases: &[Crease]) -> u32 {
    let mut choices = 1u32;
    for (kind, _, _) in creases {
        if *kind == Unassigned {
            choices = choices.saturating_mul(2);
        }
    }
    choices
}

/// The orders of creases on the square, in lexicographic order.
fn orders_on_square<R: Threads + Sync>(
    rt: &R,
    alloc: Global,
    creases: &[Crease],
) -> Result<Vec<Vec<Sign>>, Fail> {
    let layering = instance(rt, alloc, &on_square(alloc, creases)?)?;
    Ok(orders_of(alloc, &layering)?)
}

/// The orders of all assignments, in lexicographic order.
fn orders_of_all<R: Threads + Sync>(
    rt: &R,
    alloc: Global,
    creases: &[Crease],
) -> Result<Vec<Vec<Sign>>, Fail> {
    let mut all = Vec::new(alloc);
    for number in 0..choices(creases) {
        let chosen = assigned(alloc, creases, number)?;
        for order in orders_on_square(rt, alloc, chosen.as_slice())? {
            all.push(order)?;
        }
    }
    all.sort_unstable();
    Ok(all)
}

#[test]
fn orders_are_those_of_the_assignments(rt: HostRuntime) -> Result<(), Fail> {
    for (creases, count) in PATTERNS {
        let orders = orders_on_square(&rt, rt.alloc(), creases)?;
        let all = orders_of_all(&rt, rt.alloc(), creases)?;
        assert_eq!(rt; orders.len(), count);
        assert!(rt; orders == all, "the orders of the assignments");
    }
    Ok(())
}
