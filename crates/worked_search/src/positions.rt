use search_cursor::Position;
use sign_rules::{Order, Sign};
use std::alloc::{AllocError, Global};
use std::test::Fail;

/// The position of a text of `+` and `-`, which stands past its signs where it ends in `!`.
fn position(alloc: Global, text: &str) -> Result<Position, AllocError> {
    let mut signs = Vec::new(alloc);
    let mut past = false;
    for byte in text.as_bytes() {
        match *byte {
            b'+' => signs.push(Sign::Over)?,
            b'-' => signs.push(Sign::Under)?,
            _ => past = true,
        }
    }
    Ok(Position {
        signs: Order::of(signs),
        past,
    })
}

#[test]
fn ascending(rt: HostRuntime) -> Result<(), Fail> {
    let texts = [
        "", "+", "++", "++!", "+-", "+-!", "+!", "-", "-+", "-+!", "--!", "-!", "!",
    ];
    for (first_place, first) in texts.iter().enumerate() {
        for (second_place, second) in texts.iter().enumerate() {
            let first = position(rt.alloc(), first)?;
            let second = position(rt.alloc(), second)?.copy()?;
            assert_eq!(rt; first.before(&second), first_place < second_place);
            assert_eq!(rt; first.same(&second), first_place == second_place);
        }
    }
    let start = Position::start(rt.alloc(), &[Sign::Over])?;
    assert!(rt; position(rt.alloc(), "")?.before(&start));
    assert!(rt; start.before(&position(rt.alloc(), "++")?));
    Ok(())
}
