//! Strips of stamps: over all choices of mountain and valley they fold in as many ways as are known.

use crate::layers::count_orders;
use crate::patterns::strip;
use crease_model::Kind::{self, Mountain, Valley};
use layer_rules::instance;
use std::alloc::{AllocError, Global};
use std::test::Fail;
use std::thread::Threads;

/// The kinds of creases by the digits of a number.
fn kinds_at(alloc: Global, creases: u32, number: u32) -> Result<Vec<Kind>, AllocError> {
    let mut kinds = Vec::new(alloc);
    let mut left = number;
    for _ in 0..creases {
        kinds.push(if left % 2 == 0 { Mountain } else { Valley })?;
        left /= 2;
    }
    Ok(kinds)
}

/// The orders of a strip with so many creases, added up over so many choices of their kinds.
fn orders<R: Threads + Sync>(
    rt: &R,
    alloc: Global,
    creases: u32,
    choices: u32,
) -> Result<usize, Fail> {
    let mut total = 0usize;
    for number in 0..choices {
        let kinds = kinds_at(alloc, creases, number)?;
        let layering = instance(rt, alloc, &strip(alloc, kinds.as_slice())?)?;
        total = total.saturating_add(count_orders(alloc, &layering)?);
    }
    Ok(total)
}

// The creases, the choices, and the ways to fold strips of two to six stamps (sequence A000136 of the encyclopedia of
// integer sequences).
const WAYS: [(u32, u32, usize); 5] = [(1, 2, 2), (2, 4, 6), (3, 8, 16), (4, 16, 50), (5, 32, 144)];

#[test]
fn strips_fold_in_as_many_ways_as_known(rt: HostRuntime) -> Result<(), Fail> {
    for (creases, choices, ways) in WAYS {
        assert_eq!(rt; orders(&rt, rt.alloc(), creases, choices)?, ways);
    }
    Ok(())
}
