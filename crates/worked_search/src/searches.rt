ghost use Rattle.std.specs.Prelude.{◌≡◌, IfOk};
ghost use Rattle.std.specs.Arc.{arc_value};

use Sign::{Over, Under};
use order_search::{Search, Step};
use search_cursor::Position;
use sign_rules::{Order, Rule, Rules, Sign};
use std::alloc::{AllocError, Global};
use std::process::Abort;
use std::sync::Arc;
use std::test::Fail;

// The rules of three parallel mountains, which part a square into four strips of one width, and their three orders.
const STRIPS: [Rule; 8] = [
    Rule::Fixed { p: 0, sign: Over },
    Rule::Fixed { p: 3, sign: Under },
    Rule::Fixed { p: 5, sign: Over },
    Rule::Even {
        p: 1,
        q: 3,
        r: 2,
        s: 4,
        odd: false,
    },
    Rule::NotCyclic {
        ij: 0,
        jk: 3,
        ik: 1,
    },
    Rule::NotCyclic {
        ij: 0,
        jk: 4,
        ik: 2,
    },
    Rule::NotCyclic {
        ij: 1,
        jk: 5,
        ik: 2,
    },
    Rule::NotCyclic {
        ij: 3,
        jk: 5,
        ik: 4,
    },
];

const ORDERS: [&str; 3] = ["+++--+", "+-+-++", "+----+"];

fn four_strips(alloc: Global) -> Result<Arc<Rules>, AllocError>
    ensures { IfOk result (λ rules. (arc_value rules).pairs ≡ 6) }
{
    Ok(Arc::new(alloc, Rules::new(alloc, 6, STRIPS.to_vec(alloc)?)?)?)
}

/// The signs of a text of `+` and `-`.
fn signs_of(alloc: Global, text: &str) -> Result<Vec<Sign>, AllocError> {
    let mut signs = Vec::new(alloc);
    for byte in text.as_bytes() {
        signs.push(if *byte == b'+' { Over } else { Under })?;
    }
    Ok(signs)
}

/// Counts the pauses of a search from where it stands to its end, which finds the orders from this number on.
fn pauses(
    rt: &impl Abort,
    alloc: Global,
    search: &mut Search,
    budget: u64,
    first: usize,
) -> Result<usize, Fail> {
    assert!(rt; 1 <= budget);
    let mut found = first;
    let mut pauses = 0;
    for _ in 0..18 {
        match search.advance(budget) {
            Step::Found => {
                assert!(rt; found < 3);
                let expected = signs_of(alloc, ORDERS[found])?;
                assert_eq!(rt; search.order().ok_or("no order")?, expected.as_slice());
                assert!(rt; search.position().past);
                found += 1;
            }
            Step::Paused => {
                assert!(rt; search.order().is_none());
                assert!(rt; pauses < 18);
                pauses += 1;
            }
            Step::Done => {
                assert_eq!(rt; found, 3);
                return Ok(pauses);
            }
        }
    }
    Err(Fail::from("not done after 18 steps"))
}

#[test]
fn every_budget(rt: HostRuntime) -> Result<(), Fail> {
    let rules = four_strips(rt.alloc())?;
    let start = Position::start(rt.alloc(), &[])?;
    assert!(rt; start.signs.as_slice().len() <= 6);
    assert!(rt; rules.breaks(start.signs.as_slice()).is_none());
    let expected = [12, 5, 2, 2, 2, 0, 0, 0, 0, 0, 0, 0, 0, 0, 0, 0, 0, 0, 0, 0];
    for (place, count) in expected.iter().enumerate() {
        let mut search = Search::resume(rt.alloc(), Arc::try_clone(&rules)?, &[], &start)?;
        assert_eq!(rt;
            pauses(&rt, rt.alloc(), &mut search, place as u64 + 1, 0)?,
            *count,
            "{place}"
        );
    }
    Ok(())
}

#[test]
fn behind_a_prefix(rt: HostRuntime) -> Result<(), Fail> {
    let rules = four_strips(rt.alloc())?;
    let start = Position::start(rt.alloc(), &[Over])?;
    assert!(rt; start.signs.as_slice().len() <= 6);
    assert!(rt; rules.breaks(start.signs.as_slice()).is_none());
    let mut search = Search::resume(rt.alloc(), rules, &[Over], &start)?;
    assert_eq!(rt; pauses(&rt, rt.alloc(), &mut search, 1, 0)?, 11);
    assert_eq!(rt; search.position().signs.as_slice(), [Over].as_slice());
    Ok(())
}

#[test]
fn from_any_position(rt: HostRuntime) -> Result<(), Fail> {
    let rules = four_strips(rt.alloc())?;
    for (text, past, first) in [
        ("", true, 3),
        ("+", false, 0),
        ("++", true, 1),
        ("+++--", false, 0),
        ("+++--+", false, 0),
        ("+++--+", true, 1),
        ("++-", false, 1),
        ("++--", true, 1),
        ("+-+", true, 2),
        ("+-+-+", false, 1),
        ("+--", true, 3),
        ("+----+", false, 2),
        ("+----+", true, 3),
    ] {
        let position = Position {
            signs: Order::of(signs_of(rt.alloc(), text)?),
            past,
        };
        assert!(rt; position.signs.as_slice().len() <= 6);
        assert!(rt; rules.breaks(position.signs.as_slice()).is_none());
        let mut search = Search::resume(rt.alloc(), Arc::try_clone(&rules)?, &[], &position)?;
        pauses(&rt, rt.alloc(), &mut search, 2, first)?;
    }
    Ok(())
}
