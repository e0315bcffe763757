//! Rules of taco-tortilla and taco-taco, and how many lists break none, worked with exact fractions in another language.

use crate::pairs::{CROSS, FAN_1, FAN_2, FAN_3, FAN_4, STRIPS, TOUCHING, WATERBOMB};
use crate::shapes::{Row, shape};
use layer_rules::{order_rules, pairs, taco_rules, tortilla_rules};
use sign_rules::{Rule, Sign};
use std::alloc::{AllocError, Global};
use std::test::Fail;

/// The rules of a row: two pairs, and whether they have one sign.
type Tortillas = &'static [(u32, u32, bool)];

fn are_equal(rules: &[Rule], wanted: Tortillas) -> bool {
    rules.len() == wanted.len()
        && rules.iter().zip(wanted).all(|(rule, row)| *rule
            == Rule::Equal {
                p: row.0,
                q: row.1,
                same: row.2,
            })
}

// Creases that lie on the sides of other faces, as in the strips, run into none.
const TORTILLAS: &[(Row, Tortillas)] = &[
    (TOUCHING, &[]),
    (STRIPS, &[]),
    (CROSS, &[]),
    (
        WATERBOMB,
        &[(0, 1, true), (6, 7, true), (3, 4, true), (8, 9, true)],
    ),
    (
        FAN_1,
        &[(0, 3, false), (2, 5, true), (1, 2, true), (3, 4, true)],
    ),
    (
        FAN_2,
        &[(1, 3, true), (2, 4, true), (0, 1, true), (4, 5, true)],
    ),
    (
        FAN_4,
        &[
            (0, 6, false),
            (1, 9, false),
            (2, 3, true),
            (6, 7, true),
            (9, 10, true),
            (13, 14, true),
            (7, 8, true),
            (10, 11, true),
            (1, 4, true),
            (5, 8, true),
        ],
    ),
];

#[test]
fn finds_tortilla_rules(rt: HostRuntime) -> Result<(), Fail> {
    for (row, wanted) in TORTILLAS {
        let shape = shape(rt.alloc(), row)?;
        if shape.folded().faces().len() <= 65536 {
            let found = pairs(&rt, rt.alloc(), &shape)?;
            let rules = tortilla_rules(rt.alloc(), &shape, found.as_slice())?;
            assert!(rt; are_equal(rules.as_slice(), *wanted));
        }
    }
    Ok(())
}

/// The rules of a row: four pairs, and whether an odd number of them has the sign Over.
type Tacos = &'static [(u32, u32, u32, u32, bool)];

fn are_even(rules: &[Rule], wanted: Tacos) -> bool {
    rules.len() == wanted.len()
        && rules.iter().zip(wanted).all(|(rule, row)| *rule
            == Rule::Even {
                p: row.0,
                q: row.1,
                r: row.2,
                s: row.3,
                odd: row.4,
            })
}

const TACOS: &[(Row, Tacos)] = &[
    (TOUCHING, &[]),
    (STRIPS, &[(1, 3, 2, 4, false)]),
    (CROSS, &[(1, 3, 2, 4, false), (0, 3, 2, 5, true)]),
    (WATERBOMB, &[(1, 5, 2, 6, false), (2, 9, 3, 10, false)]),
    (FAN_1, &[]),
    (FAN_3, &[(2, 12, 4, 17, false), (15, 17, 16, 18, false)]),
    (FAN_4, &[(3, 12, 4, 13, false)]),
];

#[test]
fn finds_taco_rules(rt: HostRuntime) -> Result<(), Fail> {
    for (row, wanted) in TACOS {
        let shape = shape(rt.alloc(), row)?;
        if shape.folded().faces().len() <= 65536 {
            let found = pairs(&rt, rt.alloc(), &shape)?;
            let rules = taco_rules(rt.alloc(), &shape, found.as_slice())?;
            assert!(rt; are_even(rules.as_slice(), *wanted));
        }
    }
    Ok(())
}

/// The list of this number, with a sign for each of so many pairs.
fn signs(alloc: Global, pairs: usize, number: u32) -> Result<Vec<Sign>, AllocError> {
    let mut signs = Vec::new(alloc);
    let mut left = number;
    for _ in 0..pairs {
        signs.push(if left % 2 == 1 {
            Sign::Over
        } else {
            Sign::Under
        })?;
        left /= 2;
    }
    Ok(signs)
}

/// How many of the first lists break no rule.
fn unbroken(alloc: Global, rules: &[Rule], pairs: usize, lists: u32) -> Result<u32, AllocError> {
    let mut count = 0u32;
    for number in 0..lists {
        let signs = signs(alloc, pairs, number)?;
        if !rules.iter().any(|rule| rule.is_broken(signs.as_slice())) {
            count = count.saturating_add(1);
        }
    }
    Ok(count)
}

// How many lists of signs there are, and how many of them are layer orders.
const ORDERS: &[(Row, u32, u32)] = &[
    (TOUCHING, 4, 1),
    (STRIPS, 64, 3),
    (CROSS, 64, 1),
    (WATERBOMB, 2048, 1),
    (FAN_1, 64, 0),
];

#[test]
fn counts_layer_orders(rt: HostRuntime) -> Result<(), Fail> {
    for (row, lists, wanted) in ORDERS {
        let shape = shape(rt.alloc(), row)?;
        if shape.folded().faces().len() <= 65536 {
            let found = pairs(&rt, rt.alloc(), &shape)?;
            if shape.folded().creases().len() <= 2000 {
                let rules = order_rules(rt.alloc(), &shape, row.kinds, found.as_slice())?;
                let count = unbroken(rt.alloc(), rules.as_slice(), found.len(), *lists)?;
                assert!(rt; count == *wanted);
            }
        }
    }
    Ok(())
}
