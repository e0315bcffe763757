//! The layers of a pattern as text, and its orders found by trying each list of signs.

use crease_model::Pattern;
use layer_rules::{Layering, instance};
use sign_rules::{Rules, Sign};
use std::alloc::{AllocError, Global};
use std::string::String;
use std::test::Fail;
use std::thread::Threads;

/// The most pairs for which all lists are tried.
const MOST_PAIRS: usize = 14;

/// How many lists of so many signs there are, if all are to be tried.
fn lists_of(pairs: usize) -> u32 {
    let mut lists = 1u32;
    for _ in 0..pairs {
        lists = lists.saturating_mul(2);
    }
    if pairs <= MOST_PAIRS { lists } else { 0 }
}

/// The list of this number among the lists of so many signs in lexicographic order, Over before Under.
fn list_at(alloc: Global, pairs: usize, number: u32) -> Result<Vec<Sign>, AllocError> {
    let mut signs = Vec::with_capacity(alloc, pairs)?;
    let mut left = number;
    for _ in 0..pairs {
        signs.push(if left % 2 == 0 {
            Sign::Over
        } else {
            Sign::Under
        })?;
        left /= 2;
    }
    signs.reverse();
    Ok(signs)
}

/// Whether the list breaks no rule.
fn meets(rules: &Rules, signs: &[Sign]) -> bool {
    signs.len() <= rules.pairs() as usize && rules.breaks(signs).is_none()
}

/// Those lists with one sign more that break no rule.
fn longer(alloc: Global, rules: &Rules, lists: &[Vec<Sign>]) -> Result<Vec<Vec<Sign>>, AllocError> {
    let mut grown = Vec::new(alloc);
    for list in lists {
        for sign in [Sign::Over, Sign::Under] {
            let mut longer = list.clone()?;
            longer.push(sign)?;
            if meets(rules, longer.as_slice()) {
                grown.push(longer)?;
            }
        }
    }
    Ok(grown)
}

/// The lists of signs for all pairs that break no rule, found by giving one pair after another its sign.
pub(crate) fn orders_of(alloc: Global, layering: &Layering) -> Result<Vec<Vec<Sign>>, AllocError> {
    let rules = layering.rules()?;
    let mut lists = Vec::new(alloc);
    lists.push(Vec::new(alloc))?;
    for _ in 0..layering.pairs().len() {
        lists = longer(alloc, &rules, lists.as_slice())?;
    }
    Ok(lists)
}

/// How many there are.
pub(crate) fn count_orders(alloc: Global, layering: &Layering) -> Result<usize, AllocError> {
    Ok(orders_of(alloc, layering)?.len())
}

/// A list of signs as text.
fn put_signs(text: &mut String, signs: &[Sign]) -> Result<(), AllocError> {
    text.push_str(" |")?;
    for sign in signs {
        text.push_str(match sign {
            Sign::Over => "+",
            Sign::Under => "-",
        })?;
    }
    Ok(())
}

/// The orders as text, each found by trying all lists.
fn put_orders(alloc: Global, text: &mut String, layering: &Layering) -> Result<(), AllocError> {
    let pairs = layering.pairs().len();
    let rules = layering.rules()?;
    for number in 0..lists_of(pairs) {
        let signs = list_at(alloc, pairs, number)?;
        if meets(&rules, signs.as_slice()) {
            put_signs(text, signs.as_slice())?;
        }
    }
    Ok(())
}

/// The number of faces, the pairs, and the orders.
fn layers_text(alloc: Global, layering: &Layering) -> Result<String, Fail> {
    let mut text = format!(in alloc;
        "faces {} pairs {}:",
        layering.faces(),
        layering.pairs().len()
    )?;
    for pair in layering.pairs() {
        text.push_str(format!(in alloc; " {}-{}", pair.i, pair.j)?.as_str())?;
    }
    put_orders(alloc, &mut text, layering)?;
    Ok(text)
}

/// The layers of a pattern, or why it has none.
pub(crate) fn text_of<R: Threads + Sync>(
    rt: &R,
    alloc: Global,
    pattern: &Pattern,
) -> Result<String, Fail> {
    match instance(rt, alloc, pattern) {
        Ok(layering) => layers_text(alloc, &layering),
        Err(fault) => Ok(format!(in alloc; "refused {fault:?}")?),
    }
}
