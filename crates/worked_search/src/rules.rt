use Sign::{Over, Under};
use sign_rules::{Order, Rule, Rules, Sign};
use std::alloc::{AllocError, Global};
use std::test::Fail;

// The rules of three parallel mountains, which part a square into four strips of one width. The pairs are (1,2), (1,3),
// (1,4), (2,3), (2,4) and (3,4).
const STRIPS: [Rule; 8] = [
    Rule::Fixed { p: 0, sign: Over },
    Rule::Fixed { p: 3, sign: Under },
    Rule::Fixed { p: 5, sign: Over },
    Rule::Even {
        p: 1,
        q: 3,
        r: 2,
        s: 4,
        odd: false,
    },
    Rule::NotCyclic {
        ij: 0,
        jk: 3,
        ik: 1,
    },
    Rule::NotCyclic {
        ij: 0,
        jk: 4,
        ik: 2,
    },
    Rule::NotCyclic {
        ij: 1,
        jk: 5,
        ik: 2,
    },
    Rule::NotCyclic {
        ij: 3,
        jk: 5,
        ik: 4,
    },
];

/// The signs of a text of `+` and `-`.
fn signs_of(alloc: Global, text: &str) -> Result<Vec<Sign>, AllocError> {
    let mut signs = Vec::new(alloc);
    for byte in text.as_bytes() {
        signs.push(if *byte == b'+' { Over } else { Under })?;
    }
    Ok(signs)
}

#[test]
fn four_strips(rt: HostRuntime) -> Result<(), Fail> {
    let rules = Rules::new(rt.alloc(), 6, STRIPS.to_vec(rt.alloc())?)?;
    assert_eq!(rt; (rules.pairs(), rules.count()), (6, 8));
    for (text, broken) in [
        ("", None),
        ("-", Some(0)),
        ("+++-", None),
        ("++++", Some(1)),
        ("+-+-+", None),
        ("+-+--", Some(3)),
        ("+++--+", None),
        ("+++---", Some(2)),
        ("++--++", Some(5)),
        ("+---+", Some(3)),
        ("-+++++", Some(0)),
    ] {
        let signs = signs_of(rt.alloc(), text)?;
        assert!(rt; signs.len() <= 6);
        assert_eq!(rt; rules.breaks(signs.as_slice()), broken, "{text}");
    }
    Ok(())
}

#[test]
fn three_of_sixty_four(rt: HostRuntime) -> Result<(), Fail> {
    let rules = Rules::new(rt.alloc(), 6, STRIPS.to_vec(rt.alloc())?)?;
    let mut found = 0;
    for number in 0..64u8 {
        let mut signs = Vec::new(rt.alloc());
        for bit in [32u8, 16, 8, 4, 2, 1] {
            signs.push(if number & bit == 0 { Over } else { Under })?;
        }
        assert!(rt; signs.len() <= 6);
        if rules.breaks(signs.as_slice()).is_none() {
            let expected = ["+++--+", "+-+-++", "+----+"];
            assert!(rt; found < expected.len());
            assert_eq!(rt;
                signs.as_slice(),
                signs_of(rt.alloc(), expected[found])?.as_slice()
            );
            found += 1;
        }
    }
    assert_eq!(rt; found, 3);
    Ok(())
}

#[test]
fn orders_grow_in_their_room(rt: HostRuntime) -> Result<(), Fail> {
    let mut order = Order::with_room(rt.alloc(), &[Over], 2)?;
    order.push(Under);
    assert_eq!(rt; order.copy()?.as_slice(), [Over, Under].as_slice());
    assert_eq!(rt; order.pop(), Some(Under));
    assert_eq!(rt; order.as_slice(), [Over].as_slice());
    assert!(rt; order.same(&order.copy()?));
    assert_eq!(rt;
        Order::of(signs_of(rt.alloc(), "-+")?).as_slice(),
        [Under, Over].as_slice()
    );
    Ok(())
}
